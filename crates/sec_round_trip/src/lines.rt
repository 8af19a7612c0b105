ghost use Rattle.std.specs.Prelude.{◌≡◌, ◌++◌, ◌∷◌, [], true, false, List, ℕ, Ok};
ghost use Rattle.std.specs.List.{AllByRecursion};
ghost use Rattle.sec_ast.specs.PrintTexts.{line_of};
ghost use Rattle.sec_text.specs.Words.{words};
ghost use Rattle.sec_text.specs.declared.characters.TheConstants.{LINE_FEED};
ghost use Rattle.sec_text.specs.Written.{ends_with_backslash};
ghost use Rattle.sec_round_trip.specs.Lines.{is_name, written};

/// A printed line is its name and its words, and a line feed.
pub fn printed_lines_end()
    ensures { (name : List ℕ) (given : List (List ℕ)) → line_of name given ≡ written name given ++ LINE_FEED ∷ [] }
{}

/// The words of a printed line are the directive's name and the words that were printed, where none
/// of these ends with a backslash.
pub fn words_of_a_printed_line()
    ensures { (name : List ℕ) (given : List (List ℕ)) → is_name name ≡ true
        → AllByRecursion (λ word. ends_with_backslash word ≡ false) given
        → words (written name given) ≡ Ok (name ∷ given) }
{}

/// The words that were read from a line can be printed: none ends with a backslash.
pub fn words_of_a_line_can_be_printed()
    ensures { (line : List ℕ) (given : List (List ℕ)) → words line ≡ Ok given
        → AllByRecursion (λ word. ends_with_backslash word ≡ false) given }
{}
