ghost use Rattle.std.specs.Prelude.{◌≡◌, false, None, Some, true};
ghost use Rattle.conn_core.specs.Between.{IsBlank};
ghost use Rattle.conn_core.specs.Stands.{is_held};

use crate::Closing;
use hall_core::Key;
use sec_ast::Verdict;
use std::mem;
use waf_plain::Bytes;
use web_parts::{Request, Response};

/// A ticket, and how long what is parked under it stays.
#[derive(Drop)]
pub struct Hold<T> {
    pub ticket: T,
    pub life: u64,
}

// Where a connection stands. A name that ends in `-ing` or `-un` says that the values of the need were
// taken. `id` is what the ACK answers with.
#[derive(Drop)]
pub enum Stage<R, P> {
    Bytes,
    // The next message is to be taken.
    Ready,
    Look {
        id: Bytes,
        key: Key,
        request: Request,
    },
    Enter {
        id: Bytes,
        key: Key,
        request: Request,
        rules: R,
        life: u64,
    },
    Entering {
        id: Bytes,
        request: Request,
        rules: R,
        life: u64,
    },
    Begin {
        id: Bytes,
        request: Request,
        rules: R,
    },
    Begun {
        id: Bytes,
    },
    Park {
        id: Bytes,
        half: P,
    },
    Leave {
        id: Bytes,
        verdict: Verdict,
    },
    Retire {
        id: Bytes,
        half: P,
    },
    Retiring(Bytes),
    Resume {
        id: Bytes,
        key: Key,
        response: Response,
    },
    Resuming {
        id: Bytes,
        response: Response,
    },
    Finish {
        id: Bytes,
        half: P,
        response: Response,
    },
    Finishing(Bytes),
    Write {
        bytes: Bytes,
        then: Option<Closing>,
    },
    // Out of memory: the ticket is to be left, and then the last DISCONNECT written.
    LastLeave,
    LastWrite,
    Close(Closing),
}

impl<R, P> Stage<R, P> {
    // Goes to a stage from one that holds nothing.
    pub(crate) fn set(&mut self, stage: Stage<R, P>)
        requires { IsBlank self.old }
        ensures { self.new ≡ stage }
    {
        match mem::replace(self, stage) {
            Stage::Bytes | Stage::Ready => {}
            _ => unreachable!(),
        }
    }
}

pub(crate) fn is_held<T>(hold: &Option<Hold<T>>) -> bool
    ensures { result ≡ is_held hold.now }
{
    match hold {
        Some(_) => true,
        None => false,
    }
}

// Holds it, where nothing was held.
pub(crate) fn put<T>(hold: &mut Option<Hold<T>>, given: Hold<T>)
    requires { is_held hold.old ≡ false }
    ensures { hold.new ≡ Some given }
{
    match mem::replace(hold, Some(given)) {
        None => {}
        _ => unreachable!(),
    }
}

// Hands out what is held.
pub(crate) fn let_out<T>(hold: &mut Option<Hold<T>>) -> Hold<T>
    requires { is_held hold.old ≡ true }
    ensures was { hold.old ≡ Some result }
    ensures none { hold.new ≡ None }
{
    match mem::replace(hold, None) {
        Some(hold) => hold,
        None => unreachable!(),
    }
}
