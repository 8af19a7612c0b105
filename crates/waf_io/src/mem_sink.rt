ghost use Rattle.std.specs.Prelude.{◌≡◌, ◌↔◌, ◌≢◌, ◌≤◌, [], cond, IfOk, IfSome, length, Some, true};
ghost use Rattle.waf_io.specs.Counts.{Rose};
ghost use Rattle.waf_io.specs.Schedule.{after_call, fails_at, fails_next};
ghost use Rattle.waf_io.specs.Sink.{kept_after, Writes};

use crate::schedule::Schedule;
use crate::{Sink, Took};
use std::alloc::Global;
use std::marker::Model;
use waf_plain::{NoMemory, Seq};

/// Bytes that are kept in memory, in room that was made before. No write fails, and each takes its piece
/// whole; from the first piece on that does not fit, the sink tells nothing any more.
#[derive(Drop)]
pub struct InfallibleSink {
    bytes: Vec<u8>,
    room: usize,
    is_spilled: bool,
}

impl Model for InfallibleSink {
    ghost use Rattle.std.specs.Prelude.{◌≤◌, cond, None, Some, vec_capacity, vec_len};
    ghost use Rattle.waf_io.specs.Sink.{Kept};

    ghost Value = { Kept };

    ghost view = { λ s. record { held = cond s.is_spilled None (Some s.bytes.items); room = s.room } };

    ghost invariant = { λ s. (vec_len s.bytes ≤ s.room) × (s.room ≤ vec_capacity s.bytes) };
}

impl InfallibleSink {
    /// A sink that holds nothing, with room for so many bytes.
    pub fn new(alloc: Global, room: usize) -> Result<InfallibleSink, NoMemory>
        ensures { IfOk result (λ sink. sink ≡ record { held = Some []; room = room }) }
    {
        let bytes = Vec::with_capacity(alloc, room)?;
        Ok(InfallibleSink {
            bytes,
            room,
            is_spilled: false,
        })
    }

    /// What is held, while it is told.
    pub fn bytes(&self) -> &[u8]
        ensures { IfSome self.now.held (λ held. result.now ≡ held) }
    {
        self.bytes.as_slice()
    }

    // Keeps a piece, where it fits.
    fn keep(&mut self, piece: &[u8])
        ensures { self.new ≡ kept_after piece.now self.old }
    {
        if self.is_spilled || piece.len() > self.room - self.bytes.len() {
            self.is_spilled = true;
            return;
        }
        self.is_spilled = self.bytes.extend_from_slice(piece).is_err();
    }
}

impl Sink for InfallibleSink {
    ghost held = { λ s. s.held };

    ghost faults = { λ s. 0 };

    fn write(&mut self, piece: &[u8]) -> Took
        ensures bytes { Writes result piece.now self.old.held self.new.held }
        ensures whole { result ≡ Took.Bytes (length piece.now) }
        ensures kept { self.new ≡ kept_after piece.now self.old }
    {
        self.keep(piece);
        Took::Bytes(piece.len() as u64)
    }
}

/// An `InfallibleSink` but that the writes that a list names fail, counted from 0.
#[derive(Drop)]
pub struct MemSink {
    sink: InfallibleSink,
    schedule: Schedule,
}

impl Model for MemSink {
    ghost use Rattle.waf_io.specs.Sink.{FaultyKept};

    ghost Value = { FaultyKept };

    ghost view = { λ s. record { kept = s.sink; schedule = s.schedule } };
}

impl MemSink {
    /// A sink that holds nothing, with room for so many bytes, that fails at the calls that the list
    /// names.
    pub fn new(alloc: Global, room: usize, failing: Seq<u64>) -> Result<MemSink, NoMemory>
        ensures { IfOk result
            (λ sink. sink ≡ record { kept = record { held = Some []; room = room }; schedule = fails_at failing }) }
    {
        let sink = InfallibleSink::new(alloc, room)?;
        Ok(MemSink {
            sink,
            schedule: Schedule::new(failing),
        })
    }

    /// What is held, while it is told.
    pub fn bytes(&self) -> &[u8]
        ensures { IfSome self.now.kept.held (λ held. result.now ≡ held) }
    {
        self.sink.bytes()
    }
}

impl Sink for MemSink {
    ghost held = { λ s. s.kept.held };

    ghost faults = { λ s. s.schedule.faults };

    fn write(&mut self, piece: &[u8]) -> Took
        ensures bytes { Writes result piece.now self.old.kept.held self.new.kept.held }
        ensures later { self.old.schedule.faults ≤ self.new.schedule.faults }
        ensures cause { result ≡ Took.Failed → Rose self.old.schedule.faults self.new.schedule.faults }
        ensures fails { (result ≡ Took.Failed) ↔ (fails_next self.old.schedule ≡ true) }
        ensures counted { self.new.schedule ≡ after_call self.old.schedule }
        ensures whole { result ≢ Took.Failed → result ≡ Took.Bytes (length piece.now) }
        ensures kept { self.new.kept
            ≡ cond (fails_next self.old.schedule) self.old.kept (kept_after piece.now self.old.kept) }
    {
        if self.schedule.fails_next() {
            return Took::Failed;
        }
        self.sink.write(piece)
    }
}
