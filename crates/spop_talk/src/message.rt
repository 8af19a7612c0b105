ghost use Rattle.std.specs.Prelude.{◌≡◌, ◌<◌, List, IfOk, IsErrOf, OnOk, length};

use spop_data::{DataFault, Pair, read_pairs, read_text};
use std::alloc::Global;
use waf_plain::{Bytes, Seq};

/// A message of a NOTIFY: its name and its arguments in the order in which they came.
#[derive(Clone, Debug, PartialEq, Drop)]
pub struct Message {
    pub name: Bytes,
    pub args: Seq<Pair>,
}

ghost use Rattle.spop_data.specs.Answer.{Gives};
ghost use Rattle.spop_data.specs.Lists.{SpellsEach};
ghost use Rattle.spop_data.specs.Reading.{pairs_at};
ghost use Rattle.spop_talk.specs.Message.{IsNoList, SpellsMessage};
ghost use Rattle.spop_talk.specs.Reading.{args_at, message_at, messages_of};

/// Reads the messages that a payload is, one after the other up to its end. `Invalid` comes where it
/// is not that, or where anything follows the last (SPOE.txt, 3.2.6).
pub fn read_messages(alloc: Global, payload: &[u8]) -> Result<Seq<Message>, DataFault>
    ensures read { IfOk result (SpellsEach SpellsMessage payload.now) }
    ensures invalid { IsErrOf result DataFault.Invalid → IsNoList payload.now }
    ensures never { IsNoList payload.now → OnOk result ⊥ }
    ensures exact { Gives (λ messages. messages) result (messages_of payload.now) }
{
    messages_in(alloc, payload)
}

#[tactic(auto, unfolding(crate::specs::Reading::messages_of))]
fn messages_in(alloc: Global, payload: &[u8]) -> Result<Seq<Message>, DataFault>
    ensures { Gives (λ messages. messages) result (messages_of payload.now) }
{
    let mut messages = Seq::new(alloc);
    let mut rest = payload;
    while !rest.is_empty() {
        let (message, more) = message_of(alloc, rest)?;
        messages.push(message)?;
        rest = more;
    }
    Ok(messages)
}

// The message that the bytes begin with, and the rest.
#[tactic(auto, unfolding(crate::specs::Reading::message_at))]
fn message_of(alloc: Global, bytes: &[u8]) -> Result<(Message, &[u8]), DataFault>
    ensures { Gives (λ x. (x.0, x.1.now)) result (message_at bytes.now) }
{
    let Some((name, rest)) = read_text(bytes) else {
        return Err(DataFault::Invalid);
    };
    let (args, rest) = args_of(alloc, rest)?;
    let name = Bytes::copy(alloc, name)?;
    Ok((Message { name, args }, rest))
}

// A byte with their number, the arguments, and the rest.
fn args_of(alloc: Global, bytes: &[u8]) -> Result<(Seq<Pair>, &[u8]), DataFault>
    ensures { Gives (λ x. (x.0, x.1.now)) result (args_at bytes.now) }
{
    match bytes.split_first() {
        None => Err(DataFault::Invalid),
        Some((count, rest)) => pairs_of(alloc, rest, u32::from(*count)),
    }
}

fn pairs_of(alloc: Global, bytes: &[u8], count: u32) -> Result<(Seq<Pair>, &[u8]), DataFault>
    ensures { Gives (λ x. (x.0, x.1.now)) result (pairs_at count bytes.now) }
{
    let (pairs, used) = read_pairs(alloc, bytes, count)?;
    Ok((pairs, bytes.split_at(used as usize).1))
}
