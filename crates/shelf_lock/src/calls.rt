//! The calls, each in one turn.
ghost use Rattle.shelf.specs.declared.calls.Call.{Call};
ghost use Rattle.shelf.specs.declared.calls.Reply.{Reply};
ghost use Rattle.shelf_lock.specs.Passes.{IsPassOfShelf, LooksAt, PublishesAs, Turned};

use crate::replies::{look_of, published_of};
use crate::shared::{SharedShelf, ShelfPass};
use shelf::{Apps, Call, Look, Published};
use std::sync::Wait;
use waf_plain::Bytes;

impl<R: Clone> SharedShelf<R> {
    /// The application that a name means. It is never of an older list than the pass has seen.
    pub fn look<W: Wait>(&self, rt: &W, pass: &mut ShelfPass<R>, name: Bytes) -> Look<R>
        requires shelf { IsPassOfShelf R.is_clone self.now pass.old }
        ensures shelf { IsPassOfShelf R.is_clone self.now pass.new }
        ensures call { Turned R.is_clone self.now pass.old (Call.Look name) (Reply.OfLook result) pass.new }
        ensures looks { LooksAt R.is_clone self.now pass.old name result pass.new }
    {
        look_of(self.make(rt, pass, Call::Look(name)))
    }

    /// Puts these applications in the place of those in force. Where it answers `Worn` they are
    /// dropped.
    pub fn publish<W: Wait>(&self, rt: &W, pass: &mut ShelfPass<R>, apps: Apps<R>) -> Published
        requires shelf { IsPassOfShelf R.is_clone self.now pass.old }
        ensures shelf { IsPassOfShelf R.is_clone self.now pass.new }
        ensures call { Turned R.is_clone self.now pass.old (Call.Publish apps) (Reply.OfPublish result) pass.new }
        ensures publishes { PublishesAs self.now pass.old apps result pass.new }
    {
        published_of(self.make(rt, pass, Call::Publish(apps)))
    }
}
