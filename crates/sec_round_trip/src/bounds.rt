ghost use Rattle.std.specs.Prelude.{◌≡◌, ◌+◌, length, suc, List, ℕ, Some};
ghost use Rattle.sec_text.specs.Readers.{repeat};
ghost use Rattle.sec_parts.specs.Acts.{actions_in, no_acts, pieces_in};
ghost use Rattle.sec_parts.specs.Targets.{next_target, targets_of};

use sec_parts::Stand;

/// The bounds on how many pieces are read, which the definitions of target lists and action lists
/// name, are never met: with greater ones they are the same.
pub fn bounds_are_never_met()
    ensures targets { (text : List ℕ) (more : ℕ)
        → repeat next_target (suc (suc (length text)) + more) (Some text) ≡ targets_of text }
    ensures actions { (stand : Stand) (text : List ℕ) (more : ℕ)
        → pieces_in stand (suc (length text) + more) (Some text) no_acts ≡ actions_in stand text }
{}
