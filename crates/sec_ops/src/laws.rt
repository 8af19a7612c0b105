ghost use Rattle.std.specs.Prelude.{◌≡◌, List, ℕ, length};
ghost use Rattle.phrase_set.specs.Phrases.{IsFirstEnd, first_end};

/// What the definition of the phrase found says of every text: it is an occurrence of a phrase that
/// ends first, the longest among those, and none where no phrase occurs. It does nothing.
pub fn phrases_end_first()
    ensures { (phrases : List (List ℕ)) (text : List ℕ)
        → IsFirstEnd (length phrases) phrases text (first_end phrases text) }
{}
