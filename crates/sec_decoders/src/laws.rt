ghost use Rattle.std.specs.Prelude.{◌≡◌, ◌<◌, List, ℕ, All};
ghost use Rattle.std.specs.List.{flat_map};
ghost use Rattle.sec_decoders.specs.Pieces.{pieces};
ghost use Rattle.sec_decoders.specs.UrlUni.{url_uni};
ghost use Rattle.sec_decoders.specs.Entities.{entities};
ghost use Rattle.sec_decoders.specs.JavaScript.{js};
ghost use Rattle.sec_decoders.specs.Css.{css};
ghost use Rattle.sec_decoders.specs.EscapeSequences.{escape_sequences};
ghost use Rattle.sec_decoders.specs.Unicode.{unicode};
ghost use Rattle.sec_decoders.specs.Escaped.{percent_escape, entity_escape, x_escape, css_escape};
ghost use Rattle.sec_decoders.specs.declared.unicode.TheConstants.{MIN_LEAD_OF_TWO};

/// What holds of every value: bytes that are all escaped are read back, and what has no byte that
/// leads a sequence of UTF-8 is shown as it is. It does nothing.
pub fn escapes_are_read()
    ensures url { (value : List ℕ) → All (λ c. c < 256) value
        → pieces url_uni 0 (flat_map percent_escape value) ≡ value }
    ensures entity { (value : List ℕ) → All (λ c. c < 256) value
        → pieces entities 0 (flat_map entity_escape value) ≡ value }
    ensures javascript { (value : List ℕ) → All (λ c. c < 256) value
        → pieces js 0 (flat_map x_escape value) ≡ value }
    ensures style { (value : List ℕ) → All (λ c. c < 256) value
        → pieces css 0 (flat_map css_escape value) ≡ value }
    ensures escape { (value : List ℕ) → All (λ c. c < 256) value
        → pieces escape_sequences 0 (flat_map x_escape value) ≡ value }
    ensures plain { (value : List ℕ) → All (λ c. c < MIN_LEAD_OF_TWO) value → pieces unicode 0 value ≡ value }
{}
