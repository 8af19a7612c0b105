ghost use Rattle.std.specs.Prelude.{◌≡◌, ◌++◌, [], Bool, Ok, codes, false, true};
ghost use Rattle.std.specs.List.{join_with_byte, list_all};
ghost use Rattle.sec_ast.specs.PrintActions.{link_pieces, rule_pieces};
ghost use Rattle.sec_ast.specs.PrintRules.{action_word};
ghost use Rattle.sec_ast.specs.Transform.{transform_name};
ghost use Rattle.sec_ast.specs.declared.link.Link.{Link};
ghost use Rattle.sec_ast.specs.declared.rule.Rule.{Rule};
ghost use Rattle.sec_ast.specs.declared.transform.Transform.{Transform};
ghost use Rattle.sec_text.specs.declared.characters.TheConstants.{COMMA};
ghost use Rattle.sec_parts.specs.Actions.{is_word};
ghost use Rattle.sec_parts.specs.Acts.{actions_in, no_acts};
ghost use Rattle.sec_parts.specs.Kinds.{is_refused_transform};
ghost use Rattle.sec_parts.specs.declared.kinds.Stand.TheVariants as stands;
ghost use Rattle.sec_round_trip.specs.Lines.{is_printed};
ghost use Rattle.sec_round_trip.specs.Actions.{IsHead, IsPlainValue, IsTail, has_pieces, of_rule, with_link};

use crate::macros::printed_macros_are_read;
use sec_ast::{engine_of_its_name, transform_of_its_name};

/// The names of transformations are none of those that are refused, are not `none`, and stand for
/// themselves without quotes; they are ASCII.
#[tactic(auto, unfolding(sec_parts::specs::Kinds::is_refused_transform, sec_parts::specs::Actions::is_word))]
pub fn names_of_transforms()
    ensures allowed { (transform : Transform) → is_refused_transform (transform_name transform) ≡ false }
    ensures others { (transform : Transform) → is_word (codes "none") (transform_name transform) ≡ false }
    ensures plain { (transform : Transform) → IsPlainValue (transform_name transform) }
    ensures printed { (transform : Transform) → list_all is_printed (transform_name transform) ≡ true }
{}

/// The round trip of the actions of a later link, where there are any.
pub fn printed_link_actions_are_read()
    ensures { (link : Link) (follows : Bool) → IsTail link → has_pieces (link_pieces link follows) ≡ true
        → actions_in stands.Later (join_with_byte COMMA (link_pieces link follows))
        ≡ Ok (with_link link follows no_acts) }
{
    names_of_transforms();
    transform_of_its_name();
    engine_of_its_name();
    printed_macros_are_read();
}

/// The round trip of the actions of a rule and its first link.
pub fn printed_rule_actions_are_read()
    ensures { (rule : Rule) (link : Link) (follows : Bool) → IsHead rule → IsTail link
        → actions_in stands.First (join_with_byte COMMA (rule_pieces rule ++ link_pieces link follows))
        ≡ Ok (with_link link follows (of_rule rule)) }
{
    names_of_transforms();
    transform_of_its_name();
    engine_of_its_name();
    printed_macros_are_read();
}

/// The action that stands for none in a `SecAction` of a later link says nothing.
#[tactic(auto, unfolding(sec_parts::specs::Acts::actions_in, sec_parts::specs::Acts::with_piece, sec_parts::specs::Pieces::piece_at, sec_parts::specs::Actions::action_of, sec_parts::specs::Kinds::is_refused_action, sec_parts::specs::Kinds::kind_named))]
pub fn printed_want_of_actions_is_read()
    ensures { actions_in stands.Later (action_word []) ≡ Ok no_acts }
{}
