ghost use Rattle.std.specs.Prelude.{◌≡◌, List, ℕ};
ghost use Rattle.sec_ast.specs.declared.listing.Item.{Item};
ghost use Rattle.sec_eval.specs.Jumps.{after_marker, after_rules};
ghost use Rattle.sec_meaning.specs.declared.state.Passing.TheVariants.{Looking, Skipping, Until};
ghost use Rattle.sec_meaning.specs.declared.state.PlainState.{PlainState};
ghost use Rattle.sec_meaning.specs.Phase.{walk};

/// A phase that passes items over up to a marker looks at those after it; where no such marker
/// follows, it looks at none. It does nothing.
pub fn markers_lead_behind_them()
    ensures { (p : ℕ) (label : List ℕ) (left : List Item) (s : PlainState)
        → walk p left (Until label) s ≡ walk p (after_marker label left) Looking s }
{}

/// A phase that skips rules looks at those after that many of its own. It does nothing.
pub fn skips_count_rules_of_the_phase()
    ensures { (p n : ℕ) (left : List Item) (s : PlainState)
        → walk p left (Skipping n) s ≡ walk p (after_rules p n left) Looking s }
{}
