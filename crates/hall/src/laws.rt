//! What holds of every history of a shard.
ghost use Rattle.hall.specs.Claims.{ClaimedOnce};

/// In every legal history of a shard each number is parked at most once, and claimed at most as often
/// as it was parked. What a pass has seen is such a history.
pub fn claimed_at_most_once<P>()
    ensures { ClaimedOnce P }
{}
