// What a list of actions says, as words.

use crate::parts::{put_macro, put_sign};
use case_text::Answer;
use sec_ast::{Change, Ctl, Disrupt, Macro, SetVar};
use sec_parts::Acts;

/// Each field that is not as where nothing is said, by its name and its value.
pub fn put_acts(acts: &Acts, out: &mut Answer) {
    put_number(b"id", acts.id, out);
    put_number(b"phase", acts.phase.map(u32::from), out);
    put_disrupt(&acts.disrupt, out);
    put_number(b"status", acts.status, out);
    put_log(acts.log, out);
    put_text(b"msg", &acts.msg, out);
    put_text(b"logdata", &acts.logdata, out);
    for tag in acts.tags.as_slice() {
        out.named(b"tag", tag.as_slice());
    }
    put_rest(acts, out)
}

fn put_rest(acts: &Acts, out: &mut Answer) {
    if acts.skip != 0 {
        put_number(b"skip", Some(acts.skip), out);
    }
    if let Some(label) = &acts.skip_after {
        out.named(b"skipAfter", label.as_slice());
    }
    for transform in acts.transforms.as_slice() {
        put_setting(b"t", transform.name(), out);
    }
    put_sign(acts.capture, b"capture", out);
    put_sign(acts.multi, b"multiMatch", out);
    for setvar in acts.setvars.as_slice() {
        put_setvar(setvar, out);
    }
    for ctl in acts.ctls.as_slice() {
        put_ctl(ctl, out);
    }
    put_sign(acts.chain, b"chain", out)
}

fn put_number(name: &[u8], number: Option<u32>, out: &mut Answer) {
    match number {
        Some(number) => out.named_number(name, u64::from(number)),
        None => {}
    }
}

fn put_text(name: &[u8], text: &Macro, out: &mut Answer) {
    if !text.is_empty() {
        out.plain(name);
        put_macro(text, out)
    }
}

fn put_log(log: Option<bool>, out: &mut Answer) {
    match log {
        Some(is_on) => out.choice(is_on, b"log", b"nolog"),
        None => {}
    }
}

fn put_disrupt(disrupt: &Option<Disrupt>, out: &mut Answer) {
    match disrupt {
        None => {}
        Some(Disrupt::Pass) => out.plain(b"pass"),
        Some(Disrupt::Deny) => out.plain(b"deny"),
        Some(Disrupt::Drop) => out.plain(b"drop"),
        Some(Disrupt::Redirect(location)) => put_text(b"redirect", location, out),
        Some(Disrupt::Allow) => out.plain(b"allow"),
        Some(Disrupt::AllowPhase) => out.plain(b"allow:phase"),
        Some(Disrupt::AllowRequest) => out.plain(b"allow:request"),
    }
}

fn put_setvar(setvar: &SetVar, out: &mut Answer) {
    put_text(b"setvar", &setvar.name, out);
    match &setvar.change {
        Change::Put(value) => put_change(b"=", value, out),
        Change::Add(value) => put_change(b"=+", value, out),
        Change::Sub(value) => put_change(b"=-", value, out),
        Change::Delete => out.plain(b"delete"),
    }
}

fn put_change(sign: &[u8], value: &Macro, out: &mut Answer) {
    out.plain(sign);
    put_macro(value, out)
}

fn put_ctl(ctl: &Ctl, out: &mut Answer) {
    out.plain(b"ctl");
    match ctl {
        Ctl::Engine(engine) => put_setting(b"ruleEngine", engine.name(), out),
        Ctl::RequestBody(is_read) => put_switch(b"requestBodyAccess", *is_read, out),
        Ctl::ResponseBody(is_read) => put_switch(b"responseBodyAccess", *is_read, out),
        Ctl::Body(processor) => put_setting(b"requestBodyProcessor", processor.name(), out),
        Ctl::RemoveById(first, last) => {
            out.named_number(b"ruleRemoveById", u64::from(*first));
            out.number(u64::from(*last))
        }
        Ctl::RemoveByTag(tag) => out.named(b"ruleRemoveByTag", tag.as_slice()),
    }
}

fn put_setting(name: &[u8], value: &[u8], out: &mut Answer) {
    out.plain(name);
    out.plain(value)
}

fn put_switch(name: &[u8], is_on: bool, out: &mut Answer) {
    out.plain(name);
    out.choice(is_on, b"On", b"Off")
}
