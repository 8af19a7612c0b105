ghost use Rattle.std.specs.Int.{to_be_bytes, w32};
ghost use Rattle.std.specs.Prelude.{◌≡◌, ◌+◌, ◌++◌, ◌∷◌, ◌<◌, ◌≤◌, IsErrOf, OnErr, OnOk, drop, ℕ, length, take};

use spop_data::{Data, write_data, write_text};
use spop_frame::{flag, kind};
use spop_varint::write_varint;
use std::alloc::Global;
use std::mem;
use waf_plain::{Bytes, NoMemory, Seq};

// How many bytes the length of a frame has (SPOE.txt, 3.2).
const LENGTH_BYTES: usize = 4;

// The action SET-VAR, its number of arguments, and the scope of a transaction (SPOE.txt, 3.4).
const SET_VAR: u8 = 1;

const ARGUMENTS: u8 = 3;

const TRANSACTION: u8 = 2;

/// Sets a variable of the transaction (SPOE.txt, 3.4).
#[derive(Clone, Debug, PartialEq, Drop)]
pub struct Action {
    pub name: Bytes,
    pub value: Data,
}

/// Why an ACK was not written.
#[derive(Clone, Copy, Debug, PartialEq, Eq)]
pub enum AckFault {
    /// Its length, the number in its first four bytes, is above the size that was agreed on.
    TooBig { length: u64 },
    NoMemory,
}

ghost use Rattle.std.specs.List.{flat_map};
ghost use Rattle.spop_data.specs.Writing.{Grows};
ghost use Rattle.spop_frame.specs.Frame.{SpellsFrame};
ghost use Rattle.spop_talk.specs.Ack.{ack, ack_body, ack_frame, action_bytes};

/// Appends the ACK of a frame: type ACK, FIN alone, and the actions in their order. After an `Err`
/// the bytes are as before (SPOE.txt, 3.2.7).
pub fn write_ack(
    alloc: Global,
    stream: u64,
    frame: u64,
    actions: &Seq<Action>,
    size: u32,
    out: &mut Bytes,
) -> Result<(), AckFault>
    ensures ok { OnOk result (out.new ≡ out.old ++ ack stream frame actions.now) }
    ensures spelled { OnOk result
        (SpellsFrame (ack stream frame actions.now) (ack_frame stream frame actions.now)) }
    ensures too_big { (n : ℕ) → IsErrOf result (AckFault.TooBig n)
        → (size < n) × (n ≡ length (ack_body stream frame actions.now)) }
    ensures never { size < length (ack_body stream frame actions.now) → OnOk result ⊥ }
    ensures err { OnErr result (out.new ≡ out.old) }
{
    let before = out.len();
    let Ok(()) = put_ack(stream, frame, actions.as_slice(), out) else {
        out.truncate(before);
        return Err(AckFault::NoMemory);
    };
    let length = (out.len() - before - LENGTH_BYTES) as u64;
    if length > u64::from(size) {
        out.truncate(before);
        return Err(AckFault::TooBig { length });
    }
    set_word(alloc, out, before, length as u32);
    Ok(())
}

// Appends four bytes of 0 and the body; after an `Err` maybe a prefix of them.
#[tactic(auto, unfolding(crate::specs::Ack::ack_body))]
fn put_ack(stream: u64, frame: u64, actions: &[Action], out: &mut Bytes) -> Result<(), NoMemory>
    ensures ok { OnOk result (out.new ≡ out.old ++ (0 ∷ 0 ∷ 0 ∷ 0 ∷ ack_body stream frame actions.now)) }
    ensures grows { Grows out.old out.new }
{
    out.append(&[0; LENGTH_BYTES])?;
    out.push(kind::ACK)?;
    out.append(&flag::FIN.to_be_bytes())?;
    write_varint(stream, out)?;
    write_varint(frame, out)?;
    put_actions(actions, out)
}

fn put_actions(actions: &[Action], out: &mut Bytes) -> Result<(), NoMemory>
    ensures ok { OnOk result (out.new ≡ out.old ++ flat_map action_bytes actions.now) }
    ensures grows { Grows out.old out.new }
{
    for action in actions {
        put_action(action, out)?;
    }
    Ok(())
}

// The type of the action, how many arguments it has, and these: a scope, the name and the value.
fn put_action(action: &Action, out: &mut Bytes) -> Result<(), NoMemory>
    ensures ok { OnOk result (out.new ≡ out.old ++ action_bytes action.now) }
    ensures grows { Grows out.old out.new }
{
    out.append(&[SET_VAR, ARGUMENTS, TRANSACTION])?;
    write_text(action.name.as_slice(), out)?;
    write_data(&action.value, out)
}

// Puts a number in network order over the bytes at a place.
fn set_word(alloc: Global, bytes: &mut Bytes, at: usize, word: u32)
    requires { at + 4 ≤ length bytes.old }
    ensures { bytes.new ≡ take at bytes.old ++ (to_be_bytes w32 word ++ drop (at + 4) bytes.old) }
{
    let mut held = mem::replace(bytes, Bytes::new(alloc)).into_vec();
    held.as_mut_slice()[at..at + LENGTH_BYTES].copy_from_slice(&word.to_be_bytes());
    *bytes = Bytes::from_vec(held);
}
