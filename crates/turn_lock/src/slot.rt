//! What the slot of the lock holds.
ghost use Rattle.std.specs.Prelude.{◌≡◌};

use std::snapshot::Snapshot;

/// The call that was made last and its reply, for contracts alone: it has no bytes.
pub struct Note<C, R> {
    pub call: Snapshot<C>,
    pub reply: Snapshot<R>,
}

/// The object, with a note of the last call on it; none in a new lock.
pub struct Held<O, C, R> {
    pub object: O,
    pub last: Option<Note<C, R>>,
}

impl<O, C, R> Held<O, C, R> {
    // The object, without the note.
    pub(crate) fn into_object(self) -> O
        ensures { result ≡ self.object }
    {
        let Self { object, last: _ } = self;
        object
    }
}

impl<C, R> Drop for Note<C, R> {
    fn drop(self) {
        let Self { call: _, reply: _ } = self;
    }
}

impl<O: Drop, C, R> Drop for Held<O, C, R> {
    fn drop(self) {
        let Self { object: _, last: _ } = self;
    }
}
