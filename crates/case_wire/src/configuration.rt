// Configurations, or the first fault of a text that is none.

use agent_conf::{AppConf, Conf, ConfFault, read_conf};
use case_text::Answer;
use std::alloc::Global;
use waf_plain::Bytes;

/// `TEXT`: all that is read, or the kind of the fault and its word.
pub fn answer(alloc: Global, given: &[Bytes], out: &mut Answer) {
    let [text] = given else {
        return out.malformed();
    };
    match read_conf(alloc, text.as_slice()) {
        Ok(conf) => put_conf(&conf, out),
        Err(fault) => put_fault(&fault, out),
    }
}

fn put_fault(fault: &ConfFault, out: &mut Answer) {
    match fault {
        ConfFault::NoMemory => out.no_memory(),
        fault => out.named(fault.kind(), fault.word()),
    }
}

fn put_conf(conf: &Conf, out: &mut Answer) {
    out.number(u64::from(conf.size));
    out.number(u64::from(conf.capacity));
    out.number(u64::from(conf.shards));
    out.number(u64::from(conf.workers));
    out.quoted(conf.listen.as_slice());
    match &conf.fallback {
        Some(name) => out.quoted(name.as_slice()),
        None => out.plain(b"none"),
    }
    for app in conf.apps.as_slice() {
        put_app(app, out);
    }
}

fn put_app(app: &AppConf, out: &mut Answer) {
    out.named(b"app", app.name.as_slice());
    for rule in app.rules.as_slice() {
        out.quoted(rule.as_slice());
    }
    out.choice(app.responses, b"responses", b"requests");
    out.number(app.life)
}
