//! The replies, each by the kind of its call.
ghost use Rattle.std.specs.Prelude.{◌≡◌, ℕ, List};
ghost use Rattle.shelf.specs.declared.apps.Apps.{Apps};
ghost use Rattle.shelf.specs.declared.calls.Call.{Call};
ghost use Rattle.shelf.specs.declared.calls.Reply.{Reply};
ghost use Rattle.shelf_lock.specs.Passes.{Answered};

use shelf::{Look, Published, Reply};

pub(crate) fn look_of<R: Clone>(reply: Reply<R>) -> Look<R>
    requires { (name : List ℕ) × Answered R.is_clone (Call.Look name) reply }
    ensures { reply ≡ Reply.OfLook result }
{
    match reply {
        Reply::OfLook(look) => look,
        _ => unreachable!(),
    }
}

pub(crate) fn published_of<R: Clone>(reply: Reply<R>) -> Published
    requires { (apps : Apps R) × Answered R.is_clone (Call.Publish apps) reply }
    ensures { reply ≡ Reply.OfPublish result }
{
    match reply {
        Reply::OfPublish(published) => published,
        _ => unreachable!(),
    }
}
