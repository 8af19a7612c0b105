ghost use Rattle.std.specs.Prelude.{◌≡◌, ◌↔◌, ◌≤◌, [], length, min, Some, take, true};
ghost use Rattle.waf_io.specs.Counts.{Rose};
ghost use Rattle.waf_io.specs.Schedule.{after_call, fails_at, fails_next};
ghost use Rattle.waf_io.specs.Source.{CountsEnd, Reads};

use crate::schedule::Schedule;
use crate::{Got, Source};
use std::marker::Model;
use waf_plain::{Bytes, Seq};

/// Bytes in memory. No read of them fails.
#[derive(Drop)]
pub struct InfallibleSource {
    bytes: Bytes,
    at: usize,
    ends: u64,
}

impl Model for InfallibleSource {
    ghost use Rattle.std.specs.Prelude.{drop, ◌≤◌, length};
    ghost use Rattle.waf_io.specs.Source.{Left};

    ghost Value = { Left };

    ghost view = { λ s. record { bytes = drop s.at s.bytes; ends = s.ends } };

    ghost invariant = { λ s. s.at ≤ length s.bytes };
}

impl InfallibleSource {
    /// A source that gives these bytes.
    pub fn new(bytes: Bytes) -> InfallibleSource
        ensures { result ≡ record { bytes = bytes; ends = 0 } }
    {
        InfallibleSource {
            bytes,
            at: 0,
            ends: 0,
        }
    }
}

impl Source for InfallibleSource {
    ghost left = { λ s. Some s.bytes };

    ghost faults = { λ s. 0 };

    ghost ends = { λ s. s.ends };

    fn read(&mut self, into: &mut [u8]) -> Got {
        let rest = self.bytes.as_slice().split_at(self.at).1;
        if rest.is_empty() {
            self.ends = self.ends.saturating_add(1);
            return Got::End;
        }
        let count = copy_front(rest, into);
        self.at += count;
        Got::Bytes(count as u64)
    }
}

// Copies as many bytes as both have.
fn copy_front(from: &[u8], into: &mut [u8]) -> usize
    ensures count { result ≡ min (length from.now) (length into.old) }
    ensures copied { take result into.new ≡ take result from.now }
{
    let count = from.len().min(into.len());
    into[..count].copy_from_slice(&from[..count]);
    count
}

/// Bytes in memory, where the reads that a list names fail, counted from 0.
#[derive(Drop)]
pub struct MemSource {
    source: InfallibleSource,
    schedule: Schedule,
}

impl Model for MemSource {
    ghost use Rattle.waf_io.specs.Source.{FaultyLeft};

    ghost Value = { FaultyLeft };

    ghost view = { λ s. record { left = s.source; schedule = s.schedule } };
}

impl MemSource {
    /// A source that gives these bytes, and fails at the calls that the list names.
    pub fn new(bytes: Bytes, failing: Seq<u64>) -> MemSource
        ensures { result ≡ record { left = record { bytes = bytes; ends = 0 }; schedule = fails_at failing } }
    {
        MemSource {
            source: InfallibleSource::new(bytes),
            schedule: Schedule::new(failing),
        }
    }
}

impl Source for MemSource {
    ghost left = { λ s. Some s.left.bytes };

    ghost faults = { λ s. s.schedule.faults };

    ghost ends = { λ s. s.left.ends };

    fn read(&mut self, into: &mut [u8]) -> Got
        ensures bytes { Reads result into.new (Some self.old.left.bytes) (Some self.new.left.bytes) }
        ensures later { self.old.schedule.faults ≤ self.new.schedule.faults }
        ensures cause { result ≡ Got.Failed → Rose self.old.schedule.faults self.new.schedule.faults }
        ensures end { CountsEnd result self.old.left.ends self.new.left.ends }
        ensures fails { (result ≡ Got.Failed) ↔ (fails_next self.old.schedule ≡ true) }
        ensures counted { self.new.schedule ≡ after_call self.old.schedule }
    {
        if self.schedule.fails_next() {
            return Got::Failed;
        }
        self.source.read(into)
    }
}
