ghost use Rattle.std.specs.Prelude.{◌≡◌, ◌∷◌, [], false, List, true};
ghost use Rattle.conn_core.specs.Calls.{claim_of, entry_of};
ghost use Rattle.conn_core.specs.Trace.{Begin, Enter, Finish, Leave, Look, Need, Park, Reply, Resume, Retire};
ghost use Rattle.conn_loop.specs.Answered.{begun_replies, ended_replies, look_replies};

use conn_core::{BegunAnswer, EndedAnswer, EntryAnswer, LookAnswer};
use hall_core::Key;
use web_parts::{Request, Response};

/// What a connection asks for besides bytes and writes: the rules of an application, the table of transactions and
/// the judge. `R` is what stands for a set of rules, `P` a request that was judged, `T` a ticket.
pub trait Host<R, P, T> {
    /// What it stands on: tables, the rules in force, or what was done with them.
    ghost Desk: { Type 0 };

    ghost desk: { Self → Desk };

    /// What no call changes, as what it borrows.
    ghost Fixed: { Type 0 };

    ghost fixed: { Self → Fixed };

    /// It may be asked.
    ghost ready: { Self → Type 0 };

    /// On this desk a need may get these replies, and leave that desk. There is no reply where none is due, or no
    /// memory was found.
    ghost serves: { Desk → Need R P T → List (Reply R P T) → Desk → Type 0 };

    /// On this desk the ticket may be parked, or given back.
    ghost holds: { Desk → T → Type 0 };

    /// The rules of an application, and what it wants.
    fn look(&mut self, app: &[u8]) -> LookAnswer<R>
        requires ready { ready self.old }
        ensures serves { serves (desk self.old) (Look app.now) (look_replies result) (desk self.new) }
        ensures fixed { fixed self.new ≡ fixed self.old }
        ensures ready { ready self.new };

    /// A row in the table of transactions.
    fn enter(&mut self, key: Key) -> EntryAnswer<T>
        requires ready { ready self.old }
        ensures serves { serves (desk self.old) (Enter key) (entry_of result ∷ []) (desk self.new) }
        ensures holds { (ticket : T) → result ≡ EntryAnswer.Entered ticket → holds (desk self.new) ticket }
        ensures fixed { fixed self.new ≡ fixed self.old }
        ensures ready { ready self.new };

    /// Judges a request. It is what comes between a row and its parking, and takes no ticket away.
    fn begin(&mut self, rules: R, request: Request) -> BegunAnswer<P>
        requires ready { ready self.old }
        ensures serves { serves (desk self.old) (Begin rules request) (begun_replies result) (desk self.new) }
        ensures keeps { (ticket : T) → holds (desk self.old) ticket → holds (desk self.new) ticket }
        ensures fixed { fixed self.new ≡ fixed self.old }
        ensures ready { ready self.new };

    /// Parks a request that passed, for so many milliseconds.
    fn park(&mut self, ticket: T, life: u64, half: P)
        requires ready { ready self.old }
        requires holds { holds (desk self.old) ticket }
        ensures serves { serves (desk self.old) (Park ticket life half) [] (desk self.new) }
        ensures fixed { fixed self.new ≡ fixed self.old }
        ensures ready { ready self.new };

    /// Takes a ticket back.
    fn leave(&mut self, ticket: T)
        requires ready { ready self.old }
        requires holds { holds (desk self.old) ticket }
        ensures serves { serves (desk self.old) (Leave ticket) [] (desk self.new) }
        ensures fixed { fixed self.new ≡ fixed self.old }
        ensures ready { ready self.new };

    /// The request that a response belongs to.
    fn resume(&mut self, key: Key) -> Option<P>
        requires ready { ready self.old }
        ensures serves { serves (desk self.old) (Resume key) (claim_of result ∷ []) (desk self.new) }
        ensures fixed { fixed self.new ≡ fixed self.old }
        ensures ready { ready self.new };

    /// Judges a response.
    fn finish(&mut self, half: P, response: Response) -> EndedAnswer
        requires ready { ready self.old }
        ensures serves { serves (desk self.old) (Finish half response) (ended_replies result) (desk self.new) }
        ensures fixed { fixed self.new ≡ fixed self.old }
        ensures ready { ready self.new };

    /// Ends a request whose response is not judged; whether there was memory. Where there was none, nothing is done.
    fn retire(&mut self, half: P) -> bool
        requires ready { ready self.old }
        ensures retired { result ≡ true → serves (desk self.old) (Retire half) [] (desk self.new) }
        ensures kept { result ≡ false → desk self.new ≡ desk self.old }
        ensures fixed { fixed self.new ≡ fixed self.old }
        ensures ready { ready self.new };

    /// Bytes were to be written, and the sink has taken all of them.
    fn written(&mut self)
        requires ready { ready self.old }
        ensures kept { desk self.new ≡ desk self.old }
        ensures fixed { fixed self.new ≡ fixed self.old }
        ensures ready { ready self.new };
}
