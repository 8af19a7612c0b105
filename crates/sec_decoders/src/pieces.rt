ghost use Rattle.std.specs.Prelude.{◌≡◌, ◌<◌, ◌≤◌, ◌++◌, [], ◌∷◌, List, ℕ, length, take, IfOk};
ghost use Rattle.sec_decoders.specs.Pieces.{KeepsFront, pieces};
ghost use Rattle.sec_decoders.specs.declared.pieces.TheConstants.{LIMIT};

use arrayvec::ArrayVec;
use std::alloc::Global;
use waf_plain::{Bytes, NoMemory};

/// How many bytes the result of a transformation has at most: 1 MiB.
pub const LIMIT: usize = 1048576;

/// What stands at the front of a text: the bytes that it gives, and how many bytes of the text it
/// takes.
#[derive(Drop)]
pub struct Piece {
    pub gives: ArrayVec<u8, 8>,
    pub takes: usize,
}

impl Piece {
    /// A piece that gives one byte.
    pub fn byte(byte: u8, takes: usize) -> Piece
        ensures gives { result.gives.items ≡ byte ∷ [] }
        ensures takes { result.takes ≡ takes }
    {
        let mut gives = ArrayVec::new();
        gives.push(byte);
        Piece { gives, takes }
    }

    /// A piece that gives nothing.
    pub fn nothing(takes: usize) -> Piece
        ensures gives { result.gives.items ≡ [] }
        ensures takes { result.takes ≡ takes }
    {
        Piece {
            gives: ArrayVec::new(),
            takes,
        }
    }
}

/// A way to read a text piece by piece.
pub trait Decoder {
    ghost piece: { List ℕ → List ℕ × ℕ };

    /// How many bytes at the front stand for themselves. It may be fewer than there are, which costs
    /// time and changes nothing.
    fn plain_len(&self, text: &[u8]) -> usize
        ensures within { result ≤ length text.now }
        ensures kept { KeepsFront piece result text.now };

    /// The piece at the front of a text that is not empty.
    fn piece(&self, front: &[u8]) -> Piece
        requires { 0 < length front.now }
        ensures gives { result.gives.items ≡ (piece front.now).0 }
        ensures takes { result.takes ≡ (piece front.now).1 }
        ensures moves { 0 < result.takes }
        ensures within { result.takes ≤ length front.now };
}

/// The first `LIMIT` bytes of what the pieces of a value give, in one pass: what stands for itself
/// is copied in runs. What is written is not read again.
pub fn decode<D: Decoder>(alloc: Global, decoder: &D, value: &[u8]) -> Result<Bytes, NoMemory>
    ensures { IfOk result (λ bytes. bytes ≡ take LIMIT (pieces D.piece 0 value.now)) }
{
    let mut out = Bytes::new(alloc);
    let mut rest = value;
    while !rest.is_empty() {
        if out.len() >= LIMIT {
            out.truncate(LIMIT);
            return Ok(out);
        }
        let (plain, other) = rest.split_at(decoder.plain_len(rest));
        let room = LIMIT - out.len();
        if plain.len() >= room {
            out.append(plain.split_at(room).0)?;
            return Ok(out);
        }
        out.append(plain)?;
        rest = take_piece(decoder, other, &mut out)?;
    }
    out.truncate(LIMIT);
    Ok(out)
}

/// Writes what the piece at the front gives, where there is one, and answers what follows it.
fn take_piece<'a, D: Decoder>(
    decoder: &D,
    text: &'a [u8],
    out: &mut Bytes,
) -> Result<&'a [u8], NoMemory>
    ensures left { IfOk result (λ rest. out.new ++ pieces D.piece 0 rest.now ≡ out.old ++ pieces D.piece 0 text.now) }
    ensures within { IfOk result (λ rest. length rest.now ≤ length text.now) }
    ensures moves { IfOk result (λ rest. 0 < length text.now → length rest.now < length text.now) }
{
    if text.is_empty() {
        return Ok(text);
    }
    let piece = decoder.piece(text);
    out.append(piece.gives.as_slice())?;
    Ok(text.split_at(piece.takes).1)
}
