ghost use Rattle.std.specs.Prelude.{◌≡◌, IfOk};
ghost use Rattle.sec_transforms.specs.Apply.{transformed, chained, whole};

use crate::alphabets::{lowercase, remove_nulls, replace_nulls, uppercase};
use crate::command::cmd_line;
use crate::comments::{remove_comment_marks, replace_comments};
use crate::encodings::{
    base64_encode, hex_decode, hex_encode, length_text, md5_digest, sha1_digest, url_decode,
};
use crate::letters::base64_decode;
use crate::paths::{normalize_path, normalize_path_win};
use crate::whitespace::{compress_whitespace, remove_whitespace, trim, trim_left, trim_right};
use sec_ast::Transform;
use sec_decoders::{
    css_decode, escape_seq_decode, html_entity_decode, js_decode, url_decode_uni, utf8_to_unicode,
};
use std::alloc::Global;
use waf_plain::{Bytes, NoMemory, Seq};

/// What a transformation gives of a value: the first 1 MiB of it (ModSecurity reference manual,
/// "Transformation functions").
#[tactic(auto, unfolding(crate::specs::Apply::whole))]
pub fn apply(alloc: Global, name: Transform, value: &[u8]) -> Result<Bytes, NoMemory>
    ensures { IfOk result (λ bytes. bytes ≡ transformed name value.now) }
{
    match name {
        Transform::Base64Decode => base64_decode(alloc, value),
        Transform::Base64Encode => base64_encode(alloc, value),
        Transform::CmdLine => cmd_line(alloc, value),
        Transform::CompressWhitespace => compress_whitespace(alloc, value),
        Transform::CssDecode => css_decode(alloc, value),
        Transform::EscapeSeqDecode => escape_seq_decode(alloc, value),
        Transform::HexDecode => hex_decode(alloc, value),
        Transform::HexEncode => hex_encode(alloc, value),
        Transform::HtmlEntityDecode => html_entity_decode(alloc, value),
        Transform::JsDecode => js_decode(alloc, value),
        Transform::Length => length_text(alloc, value),
        Transform::Lowercase => lowercase(alloc, value),
        Transform::Uppercase => uppercase(alloc, value),
        Transform::Md5 => md5_digest(alloc, value),
        Transform::Sha1 => sha1_digest(alloc, value),
        Transform::NormalizePath => normalize_path(alloc, value),
        Transform::NormalizePathWin => normalize_path_win(alloc, value),
        Transform::RemoveCommentsChar => remove_comment_marks(alloc, value),
        Transform::RemoveNulls => remove_nulls(alloc, value),
        Transform::RemoveWhitespace => remove_whitespace(alloc, value),
        Transform::ReplaceComments => replace_comments(alloc, value),
        Transform::ReplaceNulls => replace_nulls(alloc, value),
        Transform::Trim => trim(alloc, value),
        Transform::TrimLeft => trim_left(alloc, value),
        Transform::TrimRight => trim_right(alloc, value),
        Transform::UrlDecode => url_decode(alloc, value),
        Transform::UrlDecodeUni => url_decode_uni(alloc, value),
        Transform::Utf8ToUnicode => utf8_to_unicode(alloc, value),
    }
}

/// One transformation after the other, from left to right. The empty chain gives the whole value.
#[tactic(auto, unfolding(crate::specs::Apply::chained))]
pub fn apply_chain(alloc: Global, names: &Seq<Transform>, value: &[u8]) -> Result<Bytes, NoMemory>
    ensures { IfOk result (λ bytes. bytes ≡ chained names.now value.now) }
{
    let Some((first, others)) = names.as_slice().split_first() else {
        return Ok(Bytes::copy(alloc, value)?);
    };
    let held = apply(alloc, *first, value)?;
    Ok(apply_others(alloc, others, held)?)
}

/// The rest of a chain on what its first transformation gave.
fn apply_others(alloc: Global, names: &[Transform], value: Bytes) -> Result<Bytes, NoMemory>
    ensures { IfOk result (λ bytes. bytes ≡ chained names.now value) }
{
    let mut held = value;
    for name in names {
        held = apply(alloc, *name, held.as_slice())?;
    }
    Ok(held)
}
