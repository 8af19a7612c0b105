use case_text::Answer;
use spop_talk::{Message, read_messages};
use spop_web::{ArgFault, request_of, response_of};
use std::alloc::Global;
use waf_plain::{Bytes, Seq};
use web_parts::{Address, Request, Response};

/// `MESSAGE`, then what its arguments tell: `request` and the application, the identifier, the addresses
/// and ports, method, path, query, version, headers and body; `response` and the application, the
/// identifier, the status, version, headers and body; or `bad`, the first argument that is bad, and the
/// identifier. `-` stands for what is absent.
pub fn answer(alloc: Global, given: &[Bytes], out: &mut Answer) {
    let [message] = given else {
        return out.malformed();
    };
    match read_messages(alloc, message.as_slice()) {
        Ok(messages) => put_only(alloc, messages, out),
        Err(_) => out.malformed(),
    }
}

fn put_only(alloc: Global, messages: Seq<Message>, out: &mut Answer) {
    let mut messages = messages.into_vec();
    let (Some(message), None) = (messages.pop(), messages.pop()) else {
        return out.malformed();
    };
    match message.name.as_slice() {
        b"coraza-req" => put_request(alloc, message, out),
        b"coraza-res" => put_response(alloc, message, out),
        _ => out.malformed(),
    }
}

fn put_request(alloc: Global, message: Message, out: &mut Answer) {
    match request_of(alloc, message.args) {
        Ok(asked) => {
            out.named(b"request", asked.app.as_slice());
            put_parts(&asked.request, out)
        }
        Err(fault) => put_fault(&fault, out),
    }
}

fn put_parts(request: &Request, out: &mut Answer) {
    out.quoted(request.id.as_slice());
    put_address(&request.src, out);
    put_port(request.src_port, out);
    put_address(&request.dst, out);
    put_port(request.dst_port, out);
    out.quoted(request.method.as_slice());
    out.quoted(request.path.as_slice());
    out.quoted(request.query.as_slice());
    out.quoted(request.version.as_slice());
    out.quoted(request.headers.as_slice());
    out.quoted(request.body.as_slice())
}

fn put_response(alloc: Global, message: Message, out: &mut Answer) {
    match response_of(alloc, message.args) {
        Ok(told) => {
            out.named(b"response", told.app.as_slice());
            out.quoted(told.id.as_slice());
            put_answer(&told.response, out)
        }
        Err(fault) => put_fault(&fault, out),
    }
}

fn put_answer(response: &Response, out: &mut Answer) {
    out.number(u64::from(response.status));
    out.quoted(response.version.as_slice());
    out.quoted(response.headers.as_slice());
    out.quoted(response.body.as_slice())
}

fn put_fault(fault: &ArgFault, out: &mut Answer) {
    match fault {
        ArgFault::NoMemory => out.no_memory(),
        ArgFault::Bad { arg, id } => {
            out.plain(b"bad");
            out.plain(arg.name());
            out.quoted_or_dash(id)
        }
    }
}

fn put_address(address: &Address, out: &mut Answer) {
    match address {
        Address::None => out.plain(b"-"),
        Address::V4(octets) => out.quoted(octets),
        Address::V6(octets) => out.quoted(octets),
    }
}

fn put_port(port: Option<u16>, out: &mut Answer) {
    match port {
        None => out.plain(b"-"),
        Some(port) => out.number(u64::from(port)),
    }
}
