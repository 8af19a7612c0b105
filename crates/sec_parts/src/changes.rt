ghost use Rattle.std.specs.Prelude.{◌≡◌, ◌≤◌, ◌∷◌, [], length, codes, IfOk, IsTrue};
ghost use Rattle.sec_ast.specs.declared.Part.TheVariants as parts;
ghost use Rattle.sec_parts.specs.Results.{Gives};
ghost use Rattle.sec_parts.specs.Changes.{assignment, change_of, change_to, delete_of, deletion, is_of_tx, is_refused_collection, put_of, setvar_of, tx_prefix};

use crate::actions::Action;
use crate::faults::{Refusal, bad_word, refused_name};
use crate::macros::read_macro;
use crate::texts::{begins_with_name, count_to};
use sec_ast::{Change, Macro, Part, SetVar};
use sec_text::characters::{EQUALS, EXCLAMATION_MARK, MINUS, PLUS};
use std::alloc::Global;
use waf_plain::{Bytes, NoMemory, Seq};

// Before the name of a variable of the collection TX.
const TX_PREFIX: &[u8] = b"tx.";

fn read_change_to(alloc: Global, value: &[u8]) -> Result<Change, Refusal>
    ensures { Gives (λ c. c) result (change_to value.now) }
{
    match value {
        [PLUS, number @ ..] => {
            let number = read_macro(alloc, number)?;
            Ok(Change::Add(number))
        }
        [MINUS, number @ ..] => {
            let number = read_macro(alloc, number)?;
            Ok(Change::Sub(number))
        }
        _ => {
            let value = read_macro(alloc, value)?;
            Ok(Change::Put(value))
        }
    }
}

fn one(alloc: Global) -> Result<Macro, NoMemory>
    ensures { IfOk result (λ text. text ≡ parts.Text (codes "1") ∷ []) }
{
    let mut text = Seq::new(alloc);
    text.push(Part::Text(Bytes::copy(alloc, b"1")?))?;
    Ok(text)
}

// What stands from `=` on; without it, `1` is put.
fn read_change(alloc: Global, rest: &[u8]) -> Result<Change, Refusal>
    ensures { Gives (λ c. c) result (change_of rest.now) }
{
    match rest {
        [] => Ok(Change::Put(one(alloc)?)),
        [_, value @ ..] => read_change_to(alloc, value),
    }
}

fn read_assignment(alloc: Global, piece: &[u8], text: &[u8]) -> Result<Action, Refusal>
    ensures { Gives (λ a. a) result (assignment piece.now text.now) }
{
    let (name, rest) = text.split_at(count_to(text, EQUALS));
    if name.is_empty() {
        return Err(bad_word(alloc, piece));
    }
    let name = read_macro(alloc, name)?;
    let change = read_change(alloc, rest)?;
    Ok(Action::SetVar(SetVar { name, change }))
}

fn read_deletion(alloc: Global, piece: &[u8], name: &[u8]) -> Result<Action, Refusal>
    ensures { Gives (λ a. a) result (deletion piece.now name.now) }
{
    if name.is_empty() {
        return Err(bad_word(alloc, piece));
    }
    let name = read_macro(alloc, name)?;
    Ok(Action::SetVar(SetVar {
        name,
        change: Change::Delete,
    }))
}

// Collections that last longer than a transaction are left out.
#[tactic(auto, unfolding(crate::specs::Changes::is_refused_collection))]
fn is_refused(text: &[u8]) -> bool
    ensures { result ≡ is_refused_collection text.now }
{
    begins_with_name(text, b"ip.")
        || begins_with_name(text, b"session.")
        || begins_with_name(text, b"user.")
        || begins_with_name(text, b"global.")
        || begins_with_name(text, b"resource.")
}

#[tactic(auto, unfolding(crate::specs::Changes::is_of_tx))]
fn names_tx(text: &[u8]) -> bool
    ensures named { result ≡ is_of_tx text.now }
    ensures long { IsTrue result → length tx_prefix ≤ length text.now }
{
    begins_with_name(text, TX_PREFIX)
}

fn read_put(alloc: Global, piece: &[u8], text: &[u8]) -> Result<Action, Refusal>
    ensures { Gives (λ a. a) result (put_of piece.now text.now) }
{
    if is_refused(text) {
        return Err(refused_name(alloc, text));
    }
    if !names_tx(text) {
        return Err(bad_word(alloc, piece));
    }
    read_assignment(alloc, piece, text.split_at(TX_PREFIX.len()).1)
}

fn read_delete(alloc: Global, piece: &[u8], value: &[u8], text: &[u8]) -> Result<Action, Refusal>
    ensures { Gives (λ a. a) result (delete_of piece.now value.now text.now) }
{
    if is_refused(text) {
        return Err(refused_name(alloc, value));
    }
    if !names_tx(text) {
        return Err(bad_word(alloc, piece));
    }
    read_deletion(alloc, piece, text.split_at(TX_PREFIX.len()).1)
}

// What `setvar` says; `piece` is the whole piece, and `text` the value.
#[tactic(auto, unfolding(crate::specs::Changes::setvar_of))]
pub fn read_setvar(alloc: Global, piece: &[u8], text: &[u8]) -> Result<Action, Refusal>
    ensures { Gives (λ a. a) result (setvar_of piece.now text.now) }
{
    match text {
        [EXCLAMATION_MARK, rest @ ..] => read_delete(alloc, piece, text, rest),
        _ => read_put(alloc, piece, text),
    }
}
