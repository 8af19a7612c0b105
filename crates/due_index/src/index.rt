//! The index.
ghost use Rattle.std.specs.Prelude.{◌≡◌, ◌<◌, IfOk, None, Some, count_by, is_some, length, replicate, slice_set};
ghost use Rattle.due_index.specs.Due.{IsLeast, held_at};

use crate::Due;
use crate::tree::{held_at, node, put};
use std::alloc::Global;
use std::marker::Model;
use waf_plain::NoMemory;

/// The deadlines of a table's rows, by place. Its value is what each place holds.
#[derive(Debug, Drop)]
pub struct DueIndex {
    held: Vec<Option<(u64, u64)>>,
    firsts: Vec<Option<Due>>,
    len: u32,
}

impl Model for DueIndex {
    ghost use Rattle.due_index.specs.Due.{Held};
    ghost use Rattle.due_index.specs.Tree.{IsIndex};

    ghost Value = { Held };

    ghost view = { λ d. d.held.items };

    ghost invariant = { λ d. IsIndex d.held.items d.firsts.items d.len };
}

impl DueIndex {
    /// An index of so many places, all of which are free.
    pub fn new(alloc: Global, capacity: u32) -> Result<DueIndex, NoMemory>
        ensures { IfOk result (λ index. index ≡ replicate capacity None) }
    {
        let held = vec![in alloc; None; capacity as usize]?;
        let firsts = vec![in alloc; None; capacity as usize]?;
        Ok(DueIndex {
            held,
            firsts,
            len: 0,
        })
    }

    /// What is due first.
    pub fn least(&self) -> Option<Due>
        ensures { IsLeast self.now result }
    {
        node(&self.held, &self.firsts, 1)
    }

    /// How many places hold a deadline.
    pub fn len(&self) -> u32
        ensures { result ≡ count_by is_some self.now }
    {
        self.len
    }

    /// Puts a deadline and its ticket at a place that is free.
    pub fn add(&mut self, deadline: u64, ticket: u64, place: u32)
        requires within { place < length self.old }
        requires free { held_at self.old place ≡ None }
        ensures { self.new ≡ slice_set self.old place (Some (deadline, ticket)) }
    {
        let due = Some((deadline, ticket));
        put(&mut self.held, &mut self.firsts, place as usize, due);
        self.len += 1;
    }

    /// Frees a place, and gives what it held: `None` where it was free, or is none of the index.
    pub fn remove(&mut self, place: u32) -> Option<(u64, u64)>
        ensures held { result ≡ held_at self.old place }
        ensures rest { self.new ≡ slice_set self.old place None }
    {
        let place = place as usize;
        let held = held_at(&self.held, place)?;
        put(&mut self.held, &mut self.firsts, place, None);
        self.len -= 1;
        Some(held)
    }
}
