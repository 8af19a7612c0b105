ghost use Rattle.std.specs.Prelude.{◌≡◌, ◌≤◌, ◌==◌, ◌++◌, ◌∷◌, [], IfOk, List, ℕ};
ghost use Rattle.std.specs.List.{list_any};
ghost use Rattle.replay_text.specs.declared.command.TheConstants.{LAST_CONNECTION};
ghost use Rattle.replay_text.specs.Opened.{Flags};

use crate::command::LAST_CONNECTION;
use std::alloc::Global;
use waf_plain::NoMemory;

// How many connections a script may have.
const CONNECTIONS: usize = LAST_CONNECTION as usize + 1;

// The connections that were opened so far.
#[derive(Drop)]
pub(crate) struct Opened {
    flags: Vec<bool>,
}

impl Opened {
    pub(crate) fn new(alloc: Global) -> Result<Opened, NoMemory>
        ensures { IfOk result (λ opened. Flags opened []) }
    {
        Ok(Opened {
            flags: Vec::from_elem(alloc, false, CONNECTIONS)?,
        })
    }

    pub(crate) fn has(&self, conn: u32) -> bool
        ensures { (numbers : List ℕ) → Flags self.now numbers → result ≡ list_any (λ c. c == conn) numbers }
    {
        self.flags.get(conn as usize).copied().unwrap_or(false)
    }

    pub(crate) fn note(&mut self, conn: u32)
        requires { conn ≤ LAST_CONNECTION }
        ensures { (numbers : List ℕ) → Flags self.old numbers → Flags self.new (numbers ++ conn ∷ []) }
    {
        if let Some(flag) = self.flags.get_mut(conn as usize) {
            *flag = true;
        }
    }
}
