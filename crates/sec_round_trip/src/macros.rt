ghost use Rattle.std.specs.Prelude.{◌≡◌, ℕ, List, Ok};
ghost use Rattle.sec_ast.specs.PrintMacros.{macro_text};
ghost use Rattle.sec_ast.specs.declared.macros.Part.{Part};
ghost use Rattle.sec_parts.specs.Macros.{macro_of};
ghost use Rattle.sec_round_trip.specs.Macros.{IsMacro};

use crate::variables::names_of_variables;
use sec_ast::variable_of_its_name;
use sec_parts::one_reading_of_a_macro;

/// The round trip of a macro: its text is read as that macro.
pub fn printed_macros_are_read()
    ensures { (macro : List Part) → IsMacro macro → macro_of (macro_text macro) ≡ Ok macro }
{
    names_of_variables();
    variable_of_its_name();
}

/// A macro that was read from some text makes the round trip.
pub fn macros_that_were_read_can_be_printed()
    ensures { (text : List ℕ) (macro : List Part) → macro_of text ≡ Ok macro → IsMacro macro }
{
    one_reading_of_a_macro();
}
