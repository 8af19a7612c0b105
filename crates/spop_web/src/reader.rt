ghost use Rattle.std.specs.Prelude.{◌≡◌, [], is_some, unwrap_or};
ghost use Rattle.spop_web.specs.Reading.{noted};
ghost use Rattle.spop_web.specs.Taking.{without};
ghost use Rattle.spop_web.specs.Values.{address_in, application_in, given, identifier_in, method_in, port_in, status_in, text_in};

use crate::{Arg, value};
use spop_data::{Data, Pair};
use std::alloc::Global;
use waf_plain::{Bytes, Seq};
use web_parts::Address;

// The arguments of a message, and the first of those asked for that is bad. The value of one that was
// asked for is taken out of them.
#[derive(Drop)]
pub(crate) struct Reader {
    alloc: Global,
    args: Seq<Pair>,
    pub(crate) bad: Option<Arg>,
}

impl Reader {
    // Nothing is asked for yet.
    pub(crate) fn new(alloc: Global, args: Seq<Pair>) -> Reader
        ensures args { result.args ≡ args }
        ensures bad { result.bad ≡ None }
    {
        Reader {
            alloc,
            args,
            bad: None,
        }
    }

    // The value of the last argument of that name. NULL counts as absent.
    fn take(&mut self, arg: Arg) -> Option<Data>
        ensures args { self.new.args ≡ without arg self.old.args }
        ensures bad { self.new.bad ≡ self.old.bad }
        ensures value { result ≡ given arg self.old.args }
    {
        match value::take(self.args.as_mut_slice(), arg) {
            Data::Null => None,
            value => Some(value),
        }
    }

    fn note(&mut self, arg: Arg, good: bool)
        ensures args { self.new.args ≡ self.old.args }
        ensures bad { self.new.bad ≡ noted self.old.bad arg good }
    {
        if self.bad.is_none() && !good {
            self.bad = Some(arg);
        }
    }

    pub(crate) fn identifier(&mut self) -> Option<Bytes>
        ensures args { self.new.args ≡ without Arg.Id self.old.args }
        ensures bad { self.new.bad
            ≡ noted self.old.bad Arg.Id (is_some (identifier_in (given Arg.Id self.old.args))) }
        ensures value { result ≡ identifier_in (given Arg.Id self.old.args) }
    {
        let text = value::identifier_in(self.alloc, self.take(Arg::Id));
        self.note(Arg::Id, text.is_some());
        text
    }

    pub(crate) fn application(&mut self) -> Bytes
        ensures args { self.new.args ≡ without Arg.App self.old.args }
        ensures bad { self.new.bad
            ≡ noted self.old.bad Arg.App (is_some (application_in (given Arg.App self.old.args))) }
        ensures value { result ≡ unwrap_or (application_in (given Arg.App self.old.args)) [] }
    {
        let text = value::application_in(self.alloc, self.take(Arg::App));
        self.note(Arg::App, text.is_some());
        value::or_empty(self.alloc, text)
    }

    pub(crate) fn method(&mut self) -> Bytes
        ensures args { self.new.args ≡ without Arg.Method self.old.args }
        ensures bad { self.new.bad
            ≡ noted self.old.bad Arg.Method (is_some (method_in (given Arg.Method self.old.args))) }
        ensures value { result ≡ unwrap_or (method_in (given Arg.Method self.old.args)) [] }
    {
        let text = value::method_in(self.alloc, self.take(Arg::Method));
        self.note(Arg::Method, text.is_some());
        value::or_empty(self.alloc, text)
    }

    pub(crate) fn text(&mut self, arg: Arg) -> Bytes
        ensures args { self.new.args ≡ without arg self.old.args }
        ensures bad { self.new.bad ≡ noted self.old.bad arg (is_some (text_in (given arg self.old.args))) }
        ensures value { result ≡ unwrap_or (text_in (given arg self.old.args)) [] }
    {
        let text = value::text_in(self.alloc, self.take(arg));
        self.note(arg, text.is_some());
        value::or_empty(self.alloc, text)
    }

    pub(crate) fn address(&mut self, arg: Arg) -> Address
        ensures args { self.new.args ≡ without arg self.old.args }
        ensures bad { self.new.bad ≡ noted self.old.bad arg (is_some (address_in (given arg self.old.args))) }
        ensures value { result ≡ unwrap_or (address_in (given arg self.old.args)) Address.None }
    {
        let address = value::address_in(self.take(arg));
        self.note(arg, address.is_some());
        address.unwrap_or(Address::None)
    }

    pub(crate) fn port(&mut self, arg: Arg) -> Option<u16>
        ensures args { self.new.args ≡ without arg self.old.args }
        ensures bad { self.new.bad ≡ noted self.old.bad arg (is_some (port_in (given arg self.old.args))) }
        ensures value { result ≡ unwrap_or (port_in (given arg self.old.args)) None }
    {
        let port = value::port_in(self.take(arg));
        self.note(arg, port.is_some());
        port.unwrap_or(None)
    }

    pub(crate) fn status(&mut self) -> u32
        ensures args { self.new.args ≡ without Arg.Status self.old.args }
        ensures bad { self.new.bad
            ≡ noted self.old.bad Arg.Status (is_some (status_in (given Arg.Status self.old.args))) }
        ensures value { result ≡ unwrap_or (status_in (given Arg.Status self.old.args)) 0 }
    {
        let status = value::status_in(self.take(Arg::Status));
        self.note(Arg::Status, status.is_some());
        u32::from(status.unwrap_or(0))
    }
}
