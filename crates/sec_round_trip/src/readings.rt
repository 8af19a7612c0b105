ghost use Rattle.std.specs.Prelude.{◌≡◌, ◌∷◌, [], List, ℕ, Ok, Some};
ghost use Rattle.sec_ast.specs.Print.{listing_text};
ghost use Rattle.sec_read.specs.FileWords.{Named};
ghost use Rattle.sec_read.specs.Listing.{listing};
ghost use Rattle.sec_round_trip.specs.Printable.{HoldBytes, IsPrintable, KeepsLimits, in_place};

use crate::actions::{
    names_of_transforms, printed_link_actions_are_read, printed_rule_actions_are_read,
    printed_want_of_actions_is_read,
};
use crate::lines::words_of_a_printed_line;
use crate::listings::lines_of_a_printed_listing;
use crate::macros::macros_that_were_read_can_be_printed;
use crate::operators::{names_of_operators, printed_operators_are_read};
use crate::targets::printed_targets_are_read;
use crate::variables::names_of_variables;
use sec_ast::{Listing, engine_of_its_name};
use sec_parts::one_reading_of_a_macro;

/// Parsing a printed listing gives the same listing, with new file and line numbers, whatever the
/// name of the file.
pub fn printed_listings_are_read()
    ensures { (files : Named) (name : List ℕ) (printed : Listing) → IsPrintable printed
        → files name ≡ Some (listing_text printed) → listing files (name ∷ []) ≡ Ok (in_place name printed) }
{
    lines_of_a_printed_listing();
    words_of_a_printed_line();
    engine_of_its_name();
    printed_targets_are_read();
    printed_operators_are_read();
    printed_rule_actions_are_read();
    printed_link_actions_are_read();
    printed_want_of_actions_is_read();
}

/// Places are not printed, so the listing that is parsed again has the same text.
pub fn places_are_not_printed()
    ensures { (file : List ℕ) (printed : Listing) → listing_text (in_place file printed) ≡ listing_text printed }
{}

/// A listing that was read from some files makes the round trip, where its own text keeps to the
/// limits of a file and of a line.
pub fn listings_that_were_read_can_be_printed()
    ensures { (files : Named) (names : List (List ℕ)) (found : Listing) → HoldBytes files
        → listing files names ≡ Ok found → KeepsLimits found → IsPrintable found }
{
    one_reading_of_a_macro();
    macros_that_were_read_can_be_printed();
    names_of_variables();
    names_of_operators();
    names_of_transforms();
}

/// A listing that was read from some files, printed into a file of any name and read from that, is
/// the same listing but for places, and its text is the same again.
pub fn listings_are_read_back()
    ensures found { (files others : Named) (names : List (List ℕ)) (name : List ℕ) (found : Listing)
        → HoldBytes files → listing files names ≡ Ok found → KeepsLimits found
        → others name ≡ Some (listing_text found) → listing others (name ∷ []) ≡ Ok (in_place name found) }
    ensures text { (files others : Named) (names : List (List ℕ)) (name : List ℕ) (found again : Listing)
        → HoldBytes files → listing files names ≡ Ok found → KeepsLimits found
        → others name ≡ Some (listing_text found) → listing others (name ∷ []) ≡ Ok again
        → listing_text again ≡ listing_text found }
{
    listings_that_were_read_can_be_printed();
    printed_listings_are_read();
    places_are_not_printed();
}
