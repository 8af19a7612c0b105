//! What each kind of step tells the pass that takes it. What takes and gives the object itself is
//! an exchange with the slot, and changes no view.
use crate::object::Object;
use crate::slot::Held;
use crate::view::View;
use atomic_table::{Join, Play, Split};
use std::marker::PhantomData;

/// Draws a turn.
pub struct Draw;

impl<O, C, R> Play<Option<Held<O, C, R>>, View<O, C, R>> for Draw {
    ghost use Rattle.turn_lock.specs.Plays.{Drawn};

    ghost then = { Drawn };
}

/// Looks whether the turn has come, and takes the slot then.
pub struct Look<O> {
    object: PhantomData<O>,
}

impl<O: Object> Play<Option<Held<O, O::Call, O::Reply>>, View<O, O::Call, O::Reply>> for Look<O> {
    ghost use Rattle.turn_lock.specs.Plays.{Looked};

    ghost then = { Looked O.may O.allows O.after O.fits };
}

/// Ends the turn: the call that the slot notes is one more of the history.
pub struct End;

impl<O, C, R> Play<Option<Held<O, C, R>>, View<O, C, R>> for End {
    ghost use Rattle.turn_lock.specs.Plays.{Ended};

    ghost then = { Ended };
}

/// Changes nothing of what is known.
pub struct Still;

impl<O, C, R> Play<Option<Held<O, C, R>>, View<O, C, R>> for Still {
    ghost use Rattle.turn_lock.specs.Plays.{Stayed};

    ghost then = { Stayed };
}

/// Gives a new pass one share.
pub struct SplitShare;

impl<O, C, R> Split<View<O, C, R>> for SplitShare {
    ghost use Rattle.turn_lock.specs.View.{split_new, split_old};

    ghost left = { split_old };

    ghost right = { split_new };
}

/// Takes over what another pass saw, made and had as its share.
pub struct JoinViews;

impl<O, C, R> Join<View<O, C, R>> for JoinViews {
    ghost use Rattle.turn_lock.specs.View.{joined, spent_view};

    ghost both = { joined };

    ghost spent = { spent_view };
}

/// Changes nothing. A join tells only the new view, so this load tells afterwards that what was
/// joined was of one history.
pub struct Confirm<O> {
    object: PhantomData<O>,
}

impl<O: Object> Play<Option<Held<O, O::Call, O::Reply>>, View<O, O::Call, O::Reply>>
    for Confirm<O> {
    ghost use Rattle.turn_lock.specs.Plays.{Confirmed};

    ghost then = { Confirmed O.may O.allows O.after };
}
