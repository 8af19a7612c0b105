//! Which shard of a table a key belongs to.
ghost use Rattle.std.specs.Prelude.{◌≡◌, ◌+◌, ◌%◌, ◌<◌, sum};
ghost use Rattle.hall_core.specs.Shard.{shard_of};

use crate::Key;

/// The shard of a key, counted from 0.
pub fn shard_of(key: &Key, shards: u32) -> u32
    requires { 0 < shards }
    ensures { result ≡ shard_of shards key.now }
{
    let after_app = added(0, key.app.as_slice(), shards);
    added(after_app, key.id.as_slice(), shards)
}

// A remainder, and what is left when these bytes are added to it.
fn added(before: u32, bytes: &[u8], shards: u32) -> u32
    requires { before < shards }
    ensures less { result < shards }
    ensures rest { result ≡ (before + sum bytes.now) % shards }
{
    let mut remainder = before;
    for byte in bytes {
        remainder = ((u64::from(remainder) + u64::from(*byte)) % u64::from(shards)) as u32;
    }
    remainder
}
