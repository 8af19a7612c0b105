ghost use Rattle.std.specs.Prelude.{◌≡◌, take};
ghost use Rattle.sec_decoders.specs.declared.pieces.TheConstants.{LIMIT};

use sec_decoders::LIMIT;
use waf_plain::Bytes;

/// The first `LIMIT` bytes.
pub(crate) fn cut(bytes: Bytes) -> Bytes
    ensures { result ≡ take LIMIT bytes }
{
    let mut out = bytes;
    out.truncate(LIMIT);
    out
}
