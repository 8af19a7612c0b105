//! The decoders of the rule language: texts with escapes, read from the left, piece by piece, and cut
//! at 1 MiB. What is written is not read again.
//!
//! `url_decode_uni(alloc, b"a%20b")` answers the bytes of `a b`. The definition is `pieces` in
//! `specs/Pieces.antt`, over the row of each decoder, as `url_uni` in `specs/UrlUni.antt`.
#![tactic(auto)]

pub mod characters;
mod css;
mod digits;
mod entity;
mod escape;
mod javascript;
mod laws;
mod lengths;
mod pieces;
mod plain;
mod unicode;
mod url;

pub use css::css_decode;
pub use entity::html_entity_decode;
pub use escape::escape_seq_decode;
pub use javascript::js_decode;
pub use laws::escapes_are_read;
pub use pieces::{Decoder, LIMIT, Piece, decode};
pub use unicode::utf8_to_unicode;
pub use url::url_decode_uni;
