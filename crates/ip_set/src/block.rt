ghost use Rattle.std.specs.Prelude.{◌≡◌, ◌≢◌, ◌≤◌, ◌<◌, ◌++◌, ◌∷◌, List, ℕ, MatchOption, IfSome, IsTrue, ◌↔◌, decimal, Some};
ghost use Rattle.ip_set.specs.Membership.{block_of};
ghost use Rattle.ip_set.specs.declared.block.TheConstants.{IPV4_BITS, IPV6_BITS};
ghost use Rattle.ip_set.specs.declared.characters.TheConstants.{SLASH};
ghost use Rattle.ip_set.specs.Blocks.{width, IsWord, Covers, AgreesIn, HasNoSlash, HasPlainFront};

use crate::characters::{PLUS, SLASH, ZERO};
use memchr::memrchr;
use std::net::IpAddr;

/// How many bits an address of version 4 has.
pub const IPV4_BITS: u8 = 32;
/// How many bits an address of version 6 has.
pub const IPV6_BITS: u8 = 128;

/// The addresses of one version that begin with the first bits of one, as many as `bits`.
#[derive(Clone, Copy)]
pub struct Block {
    pub address: IpAddr,
    pub bits: u8,
}

impl Block {
    /// The block that a word names: an address, which is a block of one, or an address, `/` and a
    /// number of at most 32, or 128 for version 6, in decimal digits without a sign or a leading zero.
    pub fn read(word: &[u8]) -> Option<Block>
        ensures word { MatchOption result ((b : Block) → ¬ IsWord word.now b) (λ b. IsWord word.now b) }
        ensures block { result ≡ block_of word.now }
    {
        Block::read_word(word)
    }

    fn read_word(word: &[u8]) -> Option<Block>
        ensures { MatchOption result ((b : Block) → ¬ IsWord word.now b) (λ b. IsWord word.now b) }
    {
        if let Ok(address) = IpAddr::parse_ascii(word) {
            return Some(Block {
                address,
                bits: width(address),
            });
        }
        let Some((text, number)) = cut(word) else {
            return None;
        };
        let Ok(address) = IpAddr::parse_ascii(text) else {
            return None;
        };
        let Some(bits) = plain_number(number) else {
            return None;
        };
        if bits > width(address) {
            return None;
        }
        Some(Block { address, bits })
    }

    /// Whether an address is in the block.
    pub fn covers(&self, ip: IpAddr) -> bool
        ensures { IsTrue result ↔ Covers self.now ip }
    {
        match (self.address, ip) {
            (IpAddr::V4(a), IpAddr::V4(b)) => agree_short(self.bits, a.to_bits(), b.to_bits()),
            (IpAddr::V6(a), IpAddr::V6(b)) => agree_long(self.bits, a.to_bits(), b.to_bits()),
            _ => false,
        }
    }
}

fn width(address: IpAddr) -> u8
    ensures { result ≡ width address }
{
    match address {
        IpAddr::V4(_) => IPV4_BITS,
        IpAddr::V6(_) => IPV6_BITS,
    }
}

fn agree_short(bits: u8, a: u32, b: u32) -> bool
    ensures { IsTrue result ↔ AgreesIn IPV4_BITS bits a b }
{
    let shift = IPV4_BITS.saturating_sub(bits);
    u64::from(a) >> shift == u64::from(b) >> shift
}

fn agree_long(bits: u8, a: u128, b: u128) -> bool
    ensures { IsTrue result ↔ AgreesIn IPV6_BITS bits a b }
{
    let shift = IPV6_BITS.saturating_sub(bits);
    shift == IPV6_BITS || a >> shift == b >> shift
}

/// The text before the last slash, and that after it.
fn cut(word: &[u8]) -> Option<(&[u8], &[u8])>
    ensures only { MatchOption result ((a b : List ℕ) → HasNoSlash b → word.now ≢ a ++ SLASH ∷ b) (λ p.
        (a b : List ℕ) → HasNoSlash b → word.now ≡ a ++ SLASH ∷ b → (p.0.now ≡ a) × (p.1.now ≡ b)) }
    ensures whole { IfSome result (λ p. word.now ≡ p.0.now ++ SLASH ∷ p.1.now) }
{
    let Some(at) = memrchr(SLASH, word) else {
        return None;
    };
    Some((word.split_at(at).0, word.split_at(at + 1).1))
}

/// The number that decimal digits write, without a sign or a leading zero.
fn plain_number(text: &[u8]) -> Option<u8>
    ensures { MatchOption result ((n : ℕ) → n < 256 → text.now ≢ decimal n) (λ n. text.now ≡ decimal n) }
{
    if !has_plain_front(text) {
        return None;
    }
    let Ok(digits) = std::str::from_utf8(text) else {
        return None;
    };
    let Ok(n) = digits.parse::<u8>() else {
        return None;
    };
    Some(n)
}

/// No sign, and no zero before another digit.
fn has_plain_front(text: &[u8]) -> bool
    ensures { IsTrue result ↔ HasPlainFront text.now }
{
    match text {
        [PLUS, ..] => false,
        [ZERO, _, ..] => false,
        _ => true,
    }
}

/// The block of a word is the one that it names: an address, or an address, `/` and a number.
pub fn block_of_a_word()
    ensures { (word : List ℕ) (b : Block) → (block_of word ≡ Some b) ↔ IsWord word b }
{}
