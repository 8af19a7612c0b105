ghost use Rattle.std.specs.Prelude.{◌≡◌, ℕ, List, Ok};
ghost use Rattle.sec_ast.specs.PrintTargets.{targets_text};
ghost use Rattle.sec_ast.specs.declared.target.Target.{Target};
ghost use Rattle.sec_parts.specs.Targets.{targets_of};
ghost use Rattle.sec_round_trip.specs.Targets.{AreTargets};

use crate::quotes::quoted_texts_are_read;
use crate::variables::names_of_variables;
use sec_ast::variable_of_its_name;

/// The text of some targets is read as these targets.
pub fn printed_targets_are_read()
    ensures { (targets : List Target) → AreTargets targets → targets_of (targets_text targets) ≡ Ok targets }
{
    names_of_variables();
    variable_of_its_name();
    quoted_texts_are_read();
}

/// Targets that were read from some text are ones whose own text is read back.
pub fn targets_that_were_read_can_be_printed()
    ensures { (text : List ℕ) (targets : List Target) → targets_of text ≡ Ok targets → AreTargets targets }
{}
