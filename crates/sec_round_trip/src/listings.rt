ghost use Rattle.std.specs.Prelude.{◌≡◌, ◌∷◌, Ok, map};
ghost use Rattle.sec_ast.specs.Print.{listing_text};
ghost use Rattle.sec_text.specs.Lines.{logical};
ghost use Rattle.sec_text.specs.Words.{words};
ghost use Rattle.sec_text.specs.WrittenLines.{numbered, written_lines};
ghost use Rattle.sec_round_trip.specs.Directives.{HasSafeWords, directive_line, directives_of};

use crate::lines::words_of_a_printed_line;
use sec_ast::Listing;
use sec_text::written_lines_are_read;

/// The text of a listing is that of its directives, a line each.
pub fn printed_directives()
    ensures { (listing : Listing) → listing_text listing ≡ written_lines (map directive_line (directives_of listing)) }
{}

/// The logical lines of a printed listing are its directives' lines, numbered from 1, and the words of
/// each are the directive's name and words.
pub fn lines_of_a_printed_listing()
    ensures lines { (listing : Listing) → HasSafeWords listing
        → logical (listing_text listing) ≡ numbered 1 (map directive_line (directives_of listing)) }
    ensures words { (listing : Listing) → HasSafeWords listing
        → map (λ line. words line.text) (logical (listing_text listing)) ≡ map (λ d.
        Ok (d.0 ∷ d.1)) (directives_of listing) }
{
    printed_directives();
    written_lines_are_read();
    words_of_a_printed_line();
}
