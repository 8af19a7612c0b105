ghost use Rattle.std.specs.Prelude.{◌≡◌, List, ℕ, OnOk, IsTrue, ◌↔◌, IfOk, Err};
ghost use Rattle.std.specs.List.{AllZip};
ghost use Rattle.ip_set.specs.Blocks.{IsWord, IsMember, IsIn, IsFirstBad};
ghost use Rattle.ip_set.specs.Membership.{is_in, is_member};

use crate::Block;
use std::alloc::Global;
use std::marker::Model;
use std::net::IpAddr;
use waf_plain::{Bytes, NoMemory, Seq};

/// Addresses and blocks of addresses (CIDR, RFC 4632, section 3.1; RFC 4291, section 2.3).
/// Contracts see it as the list of its blocks.
#[derive(Drop)]
pub struct IpSet {
    blocks: Seq<Block>,
}

impl Model for IpSet {
    ghost use Rattle.std.specs.Prelude.{List};
    ghost use Rattle.ip_set.specs.declared.block.Block.{Block};

    ghost Value = { List Block };

    ghost view = { λ s. s.blocks };
}

/// Why a set is not read.
#[derive(Clone, Copy, Debug, PartialEq, Eq)]
pub enum IpFault {
    /// The first word that is no address and no block, counted from 0.
    Bad { at: u64 },
    NoMemory,
}

impl IpSet {
    /// The set that words name: addresses, and blocks as `192.0.2.0/24`.
    pub fn read(alloc: Global, words: &Seq<Bytes>) -> Result<IpSet, IpFault>
        ensures ok { IfOk result (λ set. AllZip IsWord words.now set) }
        ensures members { IfOk result (λ set. (text : List ℕ) → IsMember set text ↔ IsIn words.now text) }
        ensures test { IfOk result (λ set. (text : List ℕ) → is_member set text ≡ is_in words.now text) }
        ensures bad { (at : ℕ) → result ≡ Err (IpFault.Bad at) → IsFirstBad words.now at }

        // A word that names nothing never gives a set.
        ensures refused { (at : ℕ) → IsFirstBad words.now at → OnOk result ⊥ }
    {
        let mut blocks = Vec::new(alloc);
        for (at, word) in words.as_slice().iter().enumerate() {
            let Some(block) = Block::read(word.as_slice()) else {
                return Err(IpFault::Bad { at: at as u64 });
            };
            let Ok(()) = blocks.push(block) else {
                return Err(IpFault::NoMemory);
            };
        }
        Ok(IpSet {
            blocks: Seq::from_vec(blocks),
        })
    }

    /// Whether a text is an address, as std reads one, that the set covers. It takes no memory.
    pub fn contains(&self, text: &[u8]) -> bool
        ensures member { IsTrue result ↔ IsMember self.now text.now }

        // The same as a test that computes, for definitions that ask it.
        ensures test { result ≡ is_member self.now text.now }
    {
        is_covered(self.blocks.as_slice(), text)
    }
}

fn is_covered(blocks: &[Block], text: &[u8]) -> bool
    ensures { IsTrue result ↔ IsMember blocks.now text.now }
{
    let Ok(ip) = IpAddr::parse_ascii(text) else {
        return false;
    };
    for block in blocks {
        if block.covers(ip) {
            return true;
        }
    }
    false
}
