//! The next line of an input.
ghost use Rattle.std.specs.Prelude.{◌≡◌, ◌≤◌, ◌++◌, ◌∷◌, [], ◌≢◌, false, length, take, true};
ghost use Rattle.waf_io.specs.Counts.{Rose};
ghost use Rattle.console.specs.Orders.{Asks, IsLine, Takes, around, order_of};
ghost use Rattle.console.specs.Bytes.{TakesByte};

use crate::order::{Order, order_of};
use arrayvec::ArrayVec;
use std::sync::Wait;
use waf_io::{Got, Source};

pub const LINE_FEED: u8 = 10;

// So many bytes of a line are looked at: every order is shorter, also with a CR.
pub const LINE_LIMIT: usize = 8;

/// What comes next of an input.
#[derive(Clone, Copy, Debug, PartialEq, Eq)]
pub enum Asked {
    /// A line asks for this.
    Order(Order),
    /// The input has ended.
    End,
    /// Reading it failed.
    ReadFault,
}

// The next byte of an input.
#[derive(Clone, Copy, Debug, PartialEq, Eq)]
pub enum Next {
    Byte(u8),
    End,
    Failed,
}

/// Takes one line of the input, with its end, and says what it asks for. A last line without an end counts. It takes no
/// more than the line: orders are few and short, so they are read a byte at a time, and nothing is kept between them.
pub fn next_order<W: Wait, S: Source>(rt: &W, input: &mut S) -> Asked
    ensures asks { Asks result (around (S.left input.old) (S.ends input.old))
        (around (S.left input.new) (S.ends input.new)) }
    ensures later { S.faults input.old ≤ S.faults input.new }
    ensures cause { result ≡ Asked.ReadFault → Rose (S.faults input.old) (S.faults input.new) }
{
    let mut line = ArrayVec::<u8, LINE_LIMIT>::new();
    for _ in rt.forever() {
        match next_byte(input) {
            Next::Byte(LINE_FEED) => return Asked::Order(order_of(&line)),
            Next::Byte(byte) => add(&mut line, byte),
            Next::End => return at_end(&line),
            Next::Failed => return Asked::ReadFault,
        }
    }
    unreachable!()
}

fn next_byte<S: Source>(input: &mut S) -> Next
    ensures takes { TakesByte result (around (S.left input.old) (S.ends input.old))
        (around (S.left input.new) (S.ends input.new)) }
    ensures later { S.faults input.old ≤ S.faults input.new }
    ensures cause { result ≡ Next.Failed → Rose (S.faults input.old) (S.faults input.new) }
{
    let mut byte = [0u8; 1];
    match input.read(&mut byte) {
        Got::Bytes(_) => Next::Byte(byte[0]),
        Got::End => Next::End,
        Got::Failed => Next::Failed,
    }
}

// Keeps the byte, where it is one of the first.
fn add(line: &mut ArrayVec<u8, LINE_LIMIT>, byte: u8)
    ensures { line.new.items ≡ take LINE_LIMIT (line.old.items ++ byte ∷ []) }
{
    if line.len() < LINE_LIMIT {
        line.push(byte);
    }
}

// The input has ended after these bytes of a line.
fn at_end(line: &[u8]) -> Asked
    ensures none { line.now ≡ [] → result ≡ Asked.End }
    ensures last { line.now ≢ [] → result ≡ Asked.Order (order_of line.now) }
{
    if line.is_empty() {
        return Asked::End;
    }
    Asked::Order(order_of(line))
}
