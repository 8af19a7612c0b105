//! What holds of every history of the table.
ghost use Rattle.hall_core.specs.Promised.{ClaimedAsParked, ClaimedBy, ClaimedOnce, FreshOpen, KeptCall, KeptFirst, KeptJoin, KeptNew, MayFitting, StaysOpen};

/// In every legal history each number is parked at most once and claimed at most as often as it was
/// parked. A number that was parked and not claimed is still parked. Where an expiry at a moment
/// answers that nothing is due, each number that was parked until then or before was claimed once. What
/// a claim hands out is what was parked under that number.
pub fn parked_is_claimed_at_most_once<P>()
    ensures once { ClaimedOnce P }
    ensures expired { ClaimedBy P }
    ensures value { ClaimedAsParked P }
{}

/// What is kept of the lists of all callers: it holds at the start; a call that fits its caller's
/// list, a new caller, and a caller that takes over what another made keep it; and where it holds, a
/// call that fits its caller's list may be made.
pub fn lists_of_callers_are_kept<P>()
    ensures first { KeptFirst P }
    ensures call { KeptCall P }
    ensures new { KeptNew P }
    ensures join { KeptJoin P }
    ensures fits { MayFitting P }
{}

/// Who enters holds a ticket that it may park or leave, and does so until it makes such a call with it.
pub fn tickets_are_open_until_spent<P>()
    ensures fresh { FreshOpen P }
    ensures stays { StaysOpen P }
{}
