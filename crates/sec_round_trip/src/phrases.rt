ghost use Rattle.std.specs.Prelude.{◌≡◌, List, ℕ, Ok, map};
ghost use Rattle.std.specs.List.{AllByRecursion, join_with_byte};
ghost use Rattle.sec_ast.specs.PrintOperators.{phrase_text};
ghost use Rattle.sec_parts.specs.Phrases.{addresses_of, phrases_of, ranges_of};
ghost use Rattle.sec_text.specs.declared.characters.TheConstants.{COMMA, SPACE};
ghost use Rattle.sec_round_trip.specs.Operators.{IsAddress, IsPhrase, IsRange};

/// The round trip of an operator's words: phrases with their bytes between bars, addresses and
/// ranges of bytes.
pub fn printed_words_are_read()
    ensures phrases { (words : List (List ℕ)) → AllByRecursion IsPhrase words
        → phrases_of (join_with_byte SPACE (map phrase_text words)) ≡ Ok words }
    ensures addresses { (words : List (List ℕ)) → AllByRecursion IsAddress words
        → addresses_of (join_with_byte COMMA words) ≡ Ok words }
    ensures ranges { (words : List (List ℕ)) → AllByRecursion IsRange words
        → ranges_of (join_with_byte COMMA words) ≡ Ok words }
{}
