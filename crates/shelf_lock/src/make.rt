//! A call in a turn of its own.
ghost use Rattle.shelf_lock.specs.Passes.{Answered, IsPassOfShelf, Turned};

use crate::shared::{SharedShelf, ShelfPass};
use shelf::{Call, Reply};
use std::sync::Wait;

impl<R: Clone> SharedShelf<R> {
    // Makes a call.
    pub(crate) fn make<W: Wait>(&self, rt: &W, pass: &mut ShelfPass<R>, call: Call<R>) -> Reply<R>
        requires shelf { IsPassOfShelf R.is_clone self.now pass.old }
        ensures shelf { IsPassOfShelf R.is_clone self.now pass.new }
        ensures call { Turned R.is_clone self.now pass.old call result pass.new }
        ensures reply { Answered R.is_clone call result }
    {
        self.lock.act(rt, pass, call)
    }
}
