ghost use Rattle.std.specs.Prelude.{◌≡◌, ℕ, IsErrOf};

use crate::client::{is_true_in, pairs_in, size_in, text_in};
use crate::items::{has_pipelining, has_version};
use spop_data::{DataFault, Pair};
use spop_frame::status;
use std::alloc::Global;

/// The least size that a client's HELLO may give.
pub const MIN_SIZE: u64 = 256;

/// The greatest size that a client's HELLO may give.
pub const MAX_SIZE: u64 = 4294967295;

/// What both sides agreed on.
#[derive(Clone, Copy, Debug, PartialEq, Eq)]
pub struct Terms {
    /// The greatest length of a frame, in bytes.
    pub size: u32,
    /// HAProxy sends requests without waiting for answers.
    pub pipelining: bool,
    /// The connection is a health check, which ends with the agent's HELLO.
    pub check: bool,
}

/// Why there are no terms.
#[derive(Clone, Copy, Debug, PartialEq, Eq)]
pub enum Refuse {
    /// The status of the DISCONNECT, `INVALID` to `BAD_SIZE`.
    Status(u32),
    NoMemory,
}

ghost use Rattle.std.specs.Option.{option_copied};
ghost use Rattle.spop_hello.specs.Terms.{IsRefusal, Settles, agreed, decided, sized, terms_of};

/// Reads the payload of a HAPROXY-HELLO. The first of these that holds is refused: it is no list of
/// pairs up to its end (4); `supported-versions` is absent (5), or `max-frame-size` (6), or
/// `capabilities` (7); no version item is supported (8); the size is below 256 or above 4294967295
/// (9). A value of another type than is wanted is absent, and a negative size is below 256.
#[tactic(auto, unfolding(crate::specs::Terms::terms_of))]
pub fn negotiate(alloc: Global, payload: &[u8], own_size: u32) -> Result<Terms, Refuse>
    ensures exact { Settles result (terms_of own_size payload.now) }
    ensures refused { (status : ℕ) → IsErrOf result (Refuse.Status status) → IsRefusal status }
{
    match pairs_in(alloc, payload) {
        Err(DataFault::Invalid) => Err(Refuse::Status(status::INVALID)),
        Err(DataFault::NoMemory) => Err(Refuse::NoMemory),
        Ok(pairs) => agree(pairs.as_slice(), own_size),
    }
}

fn agree(pairs: &[Pair], own_size: u32) -> Result<Terms, Refuse>
    ensures { Settles result (agreed own_size pairs.now) }
{
    let versions = text_in(pairs, b"supported-versions");
    let size = size_in(pairs, b"max-frame-size");
    let capabilities = text_in(pairs, b"capabilities");
    let check = is_true_in(pairs, b"healthcheck");
    match settle(own_size, versions, size, capabilities, check) {
        Ok(terms) => Ok(terms),
        Err(status) => Err(Refuse::Status(status)),
    }
}

// The terms for what the client says, or the status of its first fault.
fn settle(
    own_size: u32,
    versions: Option<&[u8]>,
    size: Option<u64>,
    capabilities: Option<&[u8]>,
    check: bool,
) -> Result<Terms, u32>
    ensures { result
        ≡ decided own_size (option_copied versions.entry) size (option_copied capabilities.entry) check }
{
    let Some(versions) = versions else {
        return Err(status::NO_VERSIONS);
    };
    let Some(size) = size else {
        return Err(status::NO_SIZE);
    };
    let Some(capabilities) = capabilities else {
        return Err(status::NO_CAPABILITIES);
    };
    if !has_version(versions) {
        return Err(status::BAD_VERSION);
    }
    sized(own_size, size, has_pipelining(capabilities), check)
}

fn sized(own_size: u32, size: u64, pipelining: bool, check: bool) -> Result<Terms, u32>
    ensures { result ≡ sized own_size size pipelining check }
{
    if size < MIN_SIZE || size > MAX_SIZE {
        return Err(status::BAD_SIZE);
    }
    Ok(Terms {
        size: own_size.min(size as u32),
        pipelining,
        check,
    })
}
