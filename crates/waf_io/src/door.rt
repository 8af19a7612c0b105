ghost use Rattle.std.specs.Prelude.{◌≡◌, ◌≤◌, Bool, false, List, Option, true, ℕ};
ghost use Rattle.waf_io.specs.Counts.{Rose};
ghost use Rattle.waf_io.specs.Door.{Comes, CountsClosed, gave_peer, Keeps};

use crate::{Sink, Source};
use std::sync::Wait;

/// What a door gave.
#[derive(Debug, Drop)]
pub enum Came<I, O> {
    /// A peer: what it sends, and what it is sent.
    Peer(I, O),
    /// No peer comes any more.
    Closed,
    /// The door failed, and gave nothing.
    Failed,
}

/// What gives one peer after the other. A peer is out from `next` until it comes `back`.
pub trait Door {
    type In: Source;

    type Out: Sink;

    /// The peers that are left, where they are told.
    ghost left: { Self → Option (List (Self.In × Self.Out)) };

    /// The peers that came back, as they came back and in that order, where they are told.
    ghost served: { Self → Option (List (Self.In × Self.Out)) };

    /// Whether a peer is out.
    ghost is_out: { Self → Bool };

    /// How often the door failed. The count stands still at the end of u64.
    ghost faults: { Self → ℕ };

    /// How often the door said that no peer comes any more. The count stands still at the end of u64.
    ghost closings: { Self → ℕ };

    /// The next peer. It may wait for one.
    fn next<W: Wait>(&mut self, rt: &W) -> Came<Self::In, Self::Out>
        requires home { is_out self.old ≡ false }
        ensures peer { Comes result (left self.old) (left self.new) }
        ensures served { served self.new ≡ served self.old }
        ensures out { is_out self.new ≡ gave_peer result }
        ensures later { faults self.old ≤ faults self.new }
        ensures cause { result ≡ Came.Failed → Rose (faults self.old) (faults self.new) }
        ensures closed { CountsClosed result (closings self.old) (closings self.new) };

    /// Takes back the peer that is out.
    fn back(&mut self, source: Self::In, sink: Self::Out)
        requires out { is_out self.old ≡ true }
        ensures home { is_out self.new ≡ false }
        ensures left { left self.new ≡ left self.old }
        ensures served { Keeps (served self.old) (source, sink) (served self.new) }
        ensures faults { faults self.new ≡ faults self.old }
        ensures closed { closings self.new ≡ closings self.old };
}
