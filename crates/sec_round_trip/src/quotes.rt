ghost use Rattle.std.specs.Prelude.{◌≡◌, ◌==◌, ◌++◌, ◌∷◌, false, List, ℕ, Some};
ghost use Rattle.sec_ast.specs.PrintTexts.{escaped};
ghost use Rattle.sec_text.specs.Quotes.{quoted};
ghost use Rattle.sec_text.specs.declared.characters.TheConstants.{BACKSLASH};
ghost use Rattle.sec_text.specs.Written.{ends_with_backslash};

/// The round trip of a text in quotes that does not end with a backslash, whatever byte but the
/// backslash is the quote, and whatever follows.
pub fn quoted_texts_are_read()
    ensures { (quote : ℕ) (text rest : List ℕ) → (BACKSLASH == quote) ≡ false → ends_with_backslash text ≡ false
        → quoted quote (escaped quote text ++ quote ∷ rest) ≡ Some (text, rest) }
{}

/// A text that was read from behind its opening quote can be written: it does not end with a
/// backslash.
pub fn quoted_texts_can_be_printed()
    ensures { (quote : ℕ) (bytes text rest : List ℕ) → (BACKSLASH == quote) ≡ false
        → quoted quote bytes ≡ Some (text, rest) → ends_with_backslash text ≡ false }
{}
