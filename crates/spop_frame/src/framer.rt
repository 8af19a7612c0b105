ghost use Rattle.std.specs.Prelude.{◌≡◌, ◌++◌, ◌≤◌, [], drop, length, List, OnErr, OnOk, Some, ℕ};

use crate::head::{frame_size, read_head};
use crate::{Frame, Head};
use std::alloc::Global;
use std::marker::Model;
use waf_plain::{Bytes, NoMemory};

/// What the bytes that are held begin with.
#[derive(Debug, Drop)]
pub enum Next {
    /// A whole frame, which was taken off.
    Frame(Frame),
    /// No whole frame is there, and nothing is wrong with what is.
    NotYet,
    /// No frame that is taken can come of it; the status of the DISCONNECT that says so: `TOO_BIG`, a
    /// length above the limit; `INVALID`, no frame's spelling; `FRAGMENT`.
    Bad(u32),
    /// A whole frame is there, and stays.
    NoMemory,
}

/// The bytes of a stream that came in pieces and were not taken as frames yet.
#[derive(Drop)]
pub struct Framer {
    limit: u32,
    bytes: Bytes,
    // how many of the bytes were taken: they go when more come and at least as many were taken as are left
    taken: usize,
}

impl Model for Framer {
    ghost use Rattle.std.specs.Prelude.{drop, ◌≤◌, length};
    ghost use Rattle.spop_frame.specs.Held.{Held};

    ghost Value = { Held };

    ghost view = { λ f. record { limit = f.limit; bytes = drop f.taken f.bytes } };

    ghost invariant = { λ f. f.taken ≤ length f.bytes };
}

ghost use Rattle.spop_frame.specs.Head.{head_of, IsHead, IsWhole, Whole};
ghost use Rattle.spop_frame.specs.Lent.{IsLent};
ghost use Rattle.spop_frame.specs.declared.frame.Frame.{Frame};

impl Framer {
    /// No bytes yet. The limit is on the length that a frame's first four bytes give. It takes no
    /// memory.
    pub fn new(alloc: Global, limit: u32) -> Framer
        ensures { result ≡ record { limit = limit; bytes = [] } }
    {
        Framer {
            limit,
            bytes: Bytes::new(alloc),
            taken: 0,
        }
    }

    /// Adds a piece of the stream. After an `Err` nothing has changed.
    pub fn feed(&mut self, piece: &[u8]) -> Result<(), NoMemory>
        ensures ok { OnOk result (self.new ≡ record self.old { bytes = self.old.bytes ++ piece.now }) }
        ensures err { OnErr result (self.new ≡ self.old) }
    {
        if self.taken >= self.bytes.len() - self.taken {
            self.bytes.drop_front(self.taken);
            self.taken = 0;
        }
        self.bytes.append(piece)
    }

    /// The number of bytes that were fed and not taken. It takes no memory.
    pub fn held(&self) -> u64
        ensures { result ≡ length self.now.bytes }
    {
        (self.bytes.len() - self.taken) as u64
    }

    /// Puts another limit in place. It takes no memory.
    pub fn set_limit(&mut self, limit: u32)
        ensures { self.new ≡ record self.old { limit = limit } }
    {
        self.limit = limit;
    }

    /// What they begin with. It takes no memory.
    pub fn head(&self) -> Head<'_>
        ensures { IsLent result (head_of self.now.limit self.now.bytes) }
    {
        read_head(self.limit, self.bytes.as_slice().split_at(self.taken).1)
    }

    /// Takes the first frame off, which `head` lends. It takes no memory.
    #[tactic(auto, using(crate::proofs::Heads::whole_is))]
    pub fn skip(&mut self)
        requires { IsWhole (head_of self.old.limit self.old.bytes) }
        ensures off { (f : Frame) (rest : List ℕ) → head_of self.old.limit self.old.bytes ≡ Whole f rest
            → self.new ≡ record self.old { bytes = rest } }
    {
        self.taken += frame_size(self.bytes.as_slice().split_at(self.taken).1);
    }

    /// Takes the first frame off, where it is held whole. After any other answer nothing has changed.
    pub fn next(&mut self, alloc: Global) -> Next
        ensures head { IsHead result (head_of self.old.limit self.old.bytes) self.old.bytes self.new.bytes }
        ensures limit { self.new.limit ≡ self.old.limit }
    {
        let frame = match self.head() {
            Head::NotYet => return Next::NotYet,
            Head::Bad(status) => return Next::Bad(status),
            Head::Whole(header) => match Bytes::copy(alloc, header.payload) {
                Err(NoMemory) => return Next::NoMemory,
                Ok(payload) => header.frame(payload),
            },
        };
        self.skip();
        Next::Frame(frame)
    }
}
