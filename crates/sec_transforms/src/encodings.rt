ghost use Rattle.std.specs.Prelude.{◌≡◌, length, take, map, decimal, IfOk};
ghost use Rattle.base64.specs.Engines.{standard};
ghost use Rattle.base64.specs.GeneralPurpose.{encode_of};
ghost use Rattle.hex.specs.Hex.{encode_lower};
ghost use Rattle.md5.specs.Md5.{md5};
ghost use Rattle.sha1.specs.Sha1.{sha1};
ghost use Rattle.percent_encoding.specs.Percent.{percent_decode};
ghost use Rattle.sec_decoders.specs.declared.pieces.TheConstants.{LIMIT};
ghost use Rattle.sec_transforms.specs.Encodings.{bytes_of_hex};
ghost use Rattle.sec_transforms.specs.Alphabets.{plus_as_space};

use crate::alphabets::{PlusAsSpace, mapped};
use crate::limit::cut;
use base64::engine::general_purpose::STANDARD;
use hex::FromHexError;
use md5::{Digest, Md5};
use percent_encoding::percent_decode;
use sha1::Sha1;
use std::alloc::Global;
use waf_plain::{Bytes, NoMemory};

/// `base64Encode`: RFC 4648, section 4.
pub(crate) fn base64_encode(alloc: Global, value: &[u8]) -> Result<Bytes, NoMemory>
    ensures { IfOk result (λ bytes. bytes ≡ take LIMIT (encode_of standard value.now)) }
{
    let text = STANDARD.encode(alloc, value)?;
    Ok(cut(Bytes::from_vec(text.into_bytes())))
}

/// `hexEncode`.
pub(crate) fn hex_encode(alloc: Global, value: &[u8]) -> Result<Bytes, NoMemory>
    ensures { IfOk result (λ bytes. bytes ≡ take LIMIT (encode_lower value.now)) }
{
    let text = hex::encode(alloc, value)?;
    Ok(cut(Bytes::from_vec(text.into_bytes())))
}

/// `hexDecode`: a value that is not all pairs of digits stays.
pub(crate) fn hex_decode(alloc: Global, value: &[u8]) -> Result<Bytes, NoMemory>
    ensures { IfOk result (λ bytes. bytes ≡ take LIMIT (bytes_of_hex value.now)) }
{
    match hex::decode(alloc, value) {
        Ok(bytes) => Ok(cut(Bytes::from_vec(bytes))),
        Err(FromHexError::OutOfMemory) => Err(NoMemory),
        Err(_) => Ok(cut(Bytes::copy(alloc, value)?)),
    }
}

/// `md5`: the digest's bytes (RFC 1321).
pub(crate) fn md5_digest(alloc: Global, value: &[u8]) -> Result<Bytes, NoMemory>
    ensures { IfOk result (λ bytes. bytes ≡ take LIMIT (md5 value.now)) }
{
    Ok(cut(Bytes::copy(alloc, &Md5::digest(value))?))
}

/// `sha1`: the digest's bytes (RFC 3174).
pub(crate) fn sha1_digest(alloc: Global, value: &[u8]) -> Result<Bytes, NoMemory>
    ensures { IfOk result (λ bytes. bytes ≡ take LIMIT (sha1 value.now)) }
{
    Ok(cut(Bytes::copy(alloc, &Sha1::digest(value))?))
}

/// `length`: the number of bytes in decimal digits.
pub(crate) fn length_text(alloc: Global, value: &[u8]) -> Result<Bytes, NoMemory>
    ensures { IfOk result (λ bytes. bytes ≡ take LIMIT (decimal (length value.now))) }
{
    let mut buffer = itoa::Buffer::new();
    let digits = Bytes::copy(alloc, buffer.format(value.len()).as_bytes())?;
    Ok(cut(digits))
}

/// `urlDecode`: percent-encoding, and `+` for a space.
pub(crate) fn url_decode(alloc: Global, value: &[u8]) -> Result<Bytes, NoMemory>
    ensures { IfOk result (λ bytes. bytes ≡ take LIMIT (percent_decode (map plus_as_space value.now))) }
{
    let spaced = mapped(alloc, &PlusAsSpace, value)?;
    let mut out = Vec::new(alloc);
    percent_decode(spaced.as_slice()).append_to(&mut out)?;
    Ok(cut(Bytes::from_vec(out)))
}
