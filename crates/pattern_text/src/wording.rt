ghost use Rattle.std.specs.Prelude.{◌≡◌, ◌<◌, IfOk, IfErr, Some, None, length};
ghost use Rattle.pattern_text.specs.Wording.{token, worded};
ghost use Rattle.pattern_text.specs.Written.{Fits, IsToken};

use crate::classes::in_class;
use crate::outside::outside;
use crate::place::Place;
use crate::token::Token;
use std::alloc::Global;
use waf_plain::{Bytes, NoMemory};

/// Why a pattern is not worded.
#[derive(Clone, Copy, Debug, PartialEq, Eq)]
pub enum WordFault {
    /// It has something that the crate `regex` has no words for, or no end: look-around, a
    /// backreference, a possessive or atomic group, an escape of another kind, an open class.
    Unsupported,
    NoMemory,
}

impl From<NoMemory> for WordFault {
    ghost use Rattle.pattern_text.specs.declared.wording.WordFault.{WordFault};

    ghost from_gives = { λ e f. f ≡ WordFault.NoMemory };

    fn from(_: NoMemory) -> Self {
        WordFault::NoMemory
    }
}

/// The text for `regex::bytes` of a pattern as PCRE reads it with `PCRE2_DOTALL` and
/// `PCRE2_MULTILINE`. It begins with the flags that turn Unicode off, let `.` match line ends, and
/// `^` and `$` before and after a line feed. It takes one pass.
pub fn word_pattern(alloc: Global, pattern: &[u8]) -> Result<Bytes, WordFault>
    ensures worded { IfOk result (λ text. worded pattern.now ≡ Some text) }
    ensures unsupported { IfErr result (λ fault. fault ≡ WordFault.Unsupported → worded pattern.now ≡ None) }
{
    let mut out = Bytes::copy(alloc, b"(?sm-u)")?;
    let mut place = Place::Outside;
    let mut rest = pattern;
    while !rest.is_empty() {
        let Some(token) = token_at(place, rest) else {
            return Err(WordFault::Unsupported);
        };
        let (taken, more) = rest.split_at(token.takes);
        token.write(taken, &mut out)?;
        place = token.next;
        rest = more;
    }
    match place {
        Place::Outside => Ok(out),
        _ => Err(WordFault::Unsupported),
    }
}

fn token_at(place: Place, text: &[u8]) -> Option<Token>
    ensures token { IsToken text.now result (token place text.now) }
    ensures fits { Fits text.now result }
{
    match place {
        Place::Outside => outside(text),
        Place::Opened => in_class(text),
        Place::Inside => inside(text),
    }
}

fn inside(text: &[u8]) -> Option<Token>
    ensures token { IsToken text.now result (token Place.Inside text.now) }
    ensures fits { Fits text.now result }
{
    if text.starts_with(b"]") {
        return Some(Token::kept(1, Place::Outside));
    }
    in_class(text)
}
