ghost use Rattle.std.specs.Prelude.{ℕ};

use std::sync::Wait;

/// What each member of a crew does at its door.
pub trait Shift<D, M> {
    /// The door may be served.
    ghost is_open: { Self → D → Type 0 };

    /// The member may serve.
    ghost is_ready: { Self → M → Type 0 };

    /// What the member of that number did: the door before and after, and the member before and after.
    ghost did: { Self → ℕ → D → D → M → M → Type 0 };

    /// Serves a door until it has closed or failed.
    fn serve<W: Wait>(&self, rt: &W, number: u32, door: &mut D, member: &mut M)
        requires open { is_open self.now door.old }
        requires ready { is_ready self.now member.old }
        ensures { did self.now number door.old door.new member.old member.new };
}
