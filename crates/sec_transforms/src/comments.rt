ghost use Rattle.std.specs.Prelude.{◌≡◌, ◌≤◌, [], ◌∷◌, length, take, cond, Some, None, IfOk, IsTrue};
ghost use Rattle.std.specs.List.{take_while};
ghost use Rattle.memchr.specs.Find.{Nowhere, OccursAt};
ghost use Rattle.sec_decoders.specs.Pieces.{pieces};
ghost use Rattle.sec_decoders.specs.declared.pieces.TheConstants.{LIMIT};
ghost use Rattle.sec_transforms.specs.Comments.{begins_no_mark, to_close, comments, comment_marks, html_open, html_close, two_marks, is_pair};
ghost use Rattle.sec_transforms.specs.declared.characters.TheConstants.{ASTERISK, SLASH};
ghost use Rattle.sec_transforms.specs.declared.comments.TheConstants.{HTML_CLOSE_LENGTH, HTML_OPEN_LENGTH, PAIR_LENGTH};

use crate::characters::{ASTERISK, EXCLAMATION_MARK, MINUS, SLASH};
use memchr::memmem;
use sec_decoders::characters::{GREATER_THAN, HASH, LESS_THAN, SPACE};
use sec_decoders::{Decoder, Piece, decode};
use std::alloc::Global;
use waf_plain::{Bytes, NoMemory};

/// How many bytes `<!--` takes.
pub const HTML_OPEN_LENGTH: usize = 4;
/// How many bytes `-->` takes.
pub const HTML_CLOSE_LENGTH: usize = 3;
/// How many bytes `/*`, `*/` and `--` take.
pub const PAIR_LENGTH: usize = 2;

/// `replaceComments`: each comment of C gives a space, also one that does not close.
pub(crate) fn replace_comments(alloc: Global, value: &[u8]) -> Result<Bytes, NoMemory>
    ensures { IfOk result (λ bytes. bytes ≡ take LIMIT (pieces comments 0 value.now)) }
{
    decode(alloc, &Comments, value)
}

/// Comments between `/*` and `*/`.
struct Comments;

impl Decoder for Comments {
    ghost piece = { comments };

    #[tactic(auto, using(crate::proofs::Fronts::comments_kept))]
    fn plain_len(&self, text: &[u8]) -> usize {
        before_comment(text)
    }

    fn piece(&self, front: &[u8]) -> Piece {
        match front {
            [SLASH, ASTERISK, ..] => {
                Piece::byte(SPACE, PAIR_LENGTH + close(front.split_at(PAIR_LENGTH).1))
            },
            _ => Piece::byte(front[0], 1),
        }
    }
}

/// How many bytes there are before the first `/*`, and all of them where there is none.
fn before_comment(text: &[u8]) -> usize
    ensures within { result ≤ length text.now }
    ensures none { Nowhere (OccursAt text.now (SLASH ∷ ASTERISK ∷ [])) 0 result }
{
    match memmem::find(text, b"/*") {
        Some(at) => at,
        None => text.len(),
    }
}

/// How many bytes there are up to and with the first `*/`, and all of them where there is none.
fn close(text: &[u8]) -> usize
    ensures count { result ≡ to_close text.now }
    ensures within { result ≤ length text.now }
{
    match memmem::find(text, b"*/") {
        Some(at) => at + PAIR_LENGTH,
        None => text.len(),
    }
}

/// `removeCommentsChar`: the marks of comments are dropped, and what they enclose stays.
pub(crate) fn remove_comment_marks(alloc: Global, value: &[u8]) -> Result<Bytes, NoMemory>
    ensures { IfOk result (λ bytes. bytes ≡ take LIMIT (pieces comment_marks 0 value.now)) }
{
    decode(alloc, &Marks, value)
}

/// The marks of the comments of HTML, C, SQL and shells.
struct Marks;

impl Decoder for Marks {
    ghost piece = { comment_marks };

    #[tactic(auto, using(crate::proofs::Fronts::marks_kept))]
    fn plain_len(&self, text: &[u8]) -> usize {
        before_mark(text)
    }

    fn piece(&self, front: &[u8]) -> Piece {
        if is_html_open(front) {
            return Piece::nothing(HTML_OPEN_LENGTH);
        }
        if is_html_close(front) {
            return Piece::nothing(HTML_CLOSE_LENGTH);
        }
        if is_two_marks(front) {
            return Piece::nothing(PAIR_LENGTH);
        }
        if front[0] == HASH {
            return Piece::nothing(1);
        }
        Piece::byte(front[0], 1)
    }
}

/// How many bytes there are before the first that a mark may begin with.
fn before_mark(text: &[u8]) -> usize
    ensures count { result ≡ length (take_while begins_no_mark text.now) }
    ensures within { result ≤ length text.now }
{
    text.iter().take_while(|c| begins_no_mark(**c)).count()
}

fn begins_no_mark(byte: u8) -> bool
    ensures { result ≡ begins_no_mark byte }
{
    !matches!(byte, LESS_THAN | MINUS | SLASH | ASTERISK | HASH)
}

fn is_html_open(front: &[u8]) -> bool
    ensures row { html_open front.now ≡ cond result (Some ([], HTML_OPEN_LENGTH)) None }
    ensures there { IsTrue result → HTML_OPEN_LENGTH ≤ length front.now }
{
    matches!(front, [LESS_THAN, EXCLAMATION_MARK, MINUS, MINUS, ..])
}

fn is_html_close(front: &[u8]) -> bool
    ensures row { html_close front.now ≡ cond result (Some ([], HTML_CLOSE_LENGTH)) None }
    ensures there { IsTrue result → HTML_CLOSE_LENGTH ≤ length front.now }
{
    matches!(front, [MINUS, MINUS, GREATER_THAN, ..])
}

fn is_two_marks(front: &[u8]) -> bool
    ensures row { two_marks front.now ≡ cond result (Some ([], PAIR_LENGTH)) None }
    ensures there { IsTrue result → PAIR_LENGTH ≤ length front.now }
{
    match front {
        [a, b, ..] => is_pair(*a, *b),
        _ => false,
    }
}

fn is_pair(a: u8, b: u8) -> bool
    ensures { result ≡ is_pair a b }
{
    matches!(
        (a, b),
        (SLASH, ASTERISK) | (ASTERISK, SLASH) | (MINUS, MINUS)
    )
}
