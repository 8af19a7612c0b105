ghost use Rattle.std.specs.Prelude.{◌≡◌, ◌==◌, ◌||◌, false, true};
ghost use Rattle.std.specs.List.{list_all, list_any};
ghost use Rattle.sec_ast.specs.Variable.{variable_name};
ghost use Rattle.sec_ast.specs.declared.variable.Var.{Var};
ghost use Rattle.sec_parts.specs.Macros.{is_close};
ghost use Rattle.sec_parts.specs.Texts.{trim, trim_end};
ghost use Rattle.sec_parts.specs.Variables.{is_refused_variable};
ghost use Rattle.sec_text.specs.Written.{ends_with_backslash};
ghost use Rattle.sec_text.specs.declared.characters.TheConstants.{BAR, COLON, DOT};
ghost use Rattle.sec_round_trip.specs.Actions.{has_equals};
ghost use Rattle.sec_round_trip.specs.Lines.{is_printed};
ghost use Rattle.sec_round_trip.specs.Variables.{begins_name};

/// The names of variables are none of those that are refused, and hold no byte that ends a name; they
/// are ASCII.
#[tactic(auto, unfolding(sec_parts::specs::Variables::is_refused_variable))]
pub fn names_of_variables()
    ensures allowed { (var : Var) → is_refused_variable (variable_name var) ≡ false }
    ensures dots { (var : Var) → list_any (λ b. b == DOT) (variable_name var) ≡ false }
    ensures closes { (var : Var) → list_any is_close (variable_name var) ≡ false }
    ensures bars { (var : Var) → list_any (λ b. (b == BAR) || (b == COLON)) (variable_name var) ≡ false }
    ensures begins { (var : Var) → begins_name (variable_name var) ≡ true }
    ensures trimmed { (var : Var) → trim (variable_name var) ≡ variable_name var }
    ensures ends { (var : Var) → trim_end (variable_name var) ≡ variable_name var }
    ensures equals { (var : Var) → has_equals (variable_name var) ≡ false }
    ensures printed { (var : Var) → list_all is_printed (variable_name var) ≡ true }
    ensures backslash { (var : Var) → ends_with_backslash (variable_name var) ≡ false }
{}
