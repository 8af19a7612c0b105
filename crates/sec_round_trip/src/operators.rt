ghost use Rattle.std.specs.Prelude.{◌≡◌, Bool, true, false, None, Ok};
ghost use Rattle.std.specs.List.{list_all, list_any};
ghost use Rattle.sec_ast.specs.Operator.{operator_name};
ghost use Rattle.sec_ast.specs.PrintOperators.{operator_text};
ghost use Rattle.sec_ast.specs.declared.operator.Op.{Op};
ghost use Rattle.sec_ast.specs.declared.operator.OpKind.{OpKind};
ghost use Rattle.sec_parts.specs.Operators.{is_refused_operator, operator_of, reads_address_file, reads_phrase_file};
ghost use Rattle.sec_text.specs.Quotes.{is_blank};
ghost use Rattle.sec_text.specs.Written.{ends_with_backslash};
ghost use Rattle.sec_round_trip.specs.Lines.{is_printed};
ghost use Rattle.sec_round_trip.specs.Operators.{IsOperator};

use crate::macros::printed_macros_are_read;
use crate::phrases::printed_words_are_read;
use sec_ast::operator_of_its_name;

/// The names of operators are none of those that are refused, none of those that read a file, and
/// hold no blank; they are ASCII.
#[tactic(auto, unfolding(sec_parts::specs::Operators::is_refused_operator, sec_parts::specs::Operators::reads_phrase_file, sec_parts::specs::Operators::reads_address_file))]
pub fn names_of_operators()
    ensures allowed { (kind : OpKind) → is_refused_operator (operator_name kind) ≡ false }
    ensures phrases { (kind : OpKind) → reads_phrase_file (operator_name kind) ≡ false }
    ensures addresses { (kind : OpKind) → reads_address_file (operator_name kind) ≡ false }
    ensures blanks { (kind : OpKind) → list_any is_blank (operator_name kind) ≡ false }
    ensures printed { (kind : OpKind) → list_all is_printed (operator_name kind) ≡ true }
    ensures backslash { (kind : OpKind) → ends_with_backslash (operator_name kind) ≡ false }
{}

/// The text of an operator is read as that operator, without a file.
pub fn printed_operators_are_read()
    ensures { (negated : Bool) (op : Op) → IsOperator op
        → operator_of (operator_text negated op) ≡ Ok (record { negated = negated; op = op; file = None }) }
{
    names_of_operators();
    operator_of_its_name();
    printed_macros_are_read();
    printed_words_are_read();
}
