ghost use Rattle.std.specs.Prelude.{◌≡◌};

use crate::macros::Macro;
use crate::settings::{Engine, Processor};
use std::alloc::AllocError;
use waf_plain::Bytes;

/// What `setvar` does to a variable of the collection TX.
#[derive(Debug, PartialEq, Drop)]
pub enum Change {
    /// `tx.NAME=VALUE`: the variable has this value then.
    Put(Macro),
    /// `tx.NAME=+VALUE`: this number is added.
    Add(Macro),
    /// `tx.NAME=-VALUE`: this number is subtracted.
    Sub(Macro),
    /// `!tx.NAME`: the variable is taken away.
    Delete,
}

impl Clone for Change {
    ghost is_clone = { λ a b. b ≡ a };

    fn clone(&self) -> Result<Change, AllocError> {
        match self {
            Change::Put(value) => Ok(Change::Put(value.clone()?)),
            Change::Add(value) => Ok(Change::Add(value.clone()?)),
            Change::Sub(value) => Ok(Change::Sub(value.clone()?)),
            Change::Delete => Ok(Change::Delete),
        }
    }
}

/// The action `setvar`: the name behind `tx.`, and what happens to the variable of that name.
#[derive(Debug, PartialEq, Drop)]
pub struct SetVar {
    pub name: Macro,
    pub change: Change,
}

impl Clone for SetVar {
    ghost is_clone = { λ a b. b ≡ a };

    fn clone(&self) -> Result<SetVar, AllocError> {
        let name = self.name.clone()?;
        let change = self.change.clone()?;
        Ok(SetVar { name, change })
    }
}

/// The action `ctl`: a setting that changes for the rest of one transaction.
#[derive(Debug, PartialEq, Drop)]
pub enum Ctl {
    /// `ruleEngine`
    Engine(Engine),
    /// `requestBodyAccess`
    RequestBody(bool),
    /// `responseBodyAccess`
    ResponseBody(bool),
    /// `requestBodyProcessor`
    Body(Processor),
    /// `ruleRemoveById`: the rules with these identifiers, the first and the last among them.
    RemoveById(u32, u32),
    /// `ruleRemoveByTag`: the rules that have this tag.
    RemoveByTag(Bytes),
}

impl Clone for Ctl {
    ghost is_clone = { λ a b. b ≡ a };

    fn clone(&self) -> Result<Ctl, AllocError> {
        match self {
            Ctl::Engine(engine) => Ok(Ctl::Engine(*engine)),
            Ctl::RequestBody(is_read) => Ok(Ctl::RequestBody(*is_read)),
            Ctl::ResponseBody(is_read) => Ok(Ctl::ResponseBody(*is_read)),
            Ctl::Body(processor) => Ok(Ctl::Body(*processor)),
            Ctl::RemoveById(first, last) => Ok(Ctl::RemoveById(*first, *last)),
            Ctl::RemoveByTag(tag) => Ok(Ctl::RemoveByTag(tag.clone()?)),
        }
    }
}

/// The disruptive action of a rule: what becomes of the transaction once the rule matches.
#[derive(Debug, PartialEq, Drop)]
pub enum Disrupt {
    /// `pass`: it goes on.
    Pass,
    /// `deny`: it is answered with a status.
    Deny,
    /// `drop`: its connection is closed.
    Drop,
    /// `redirect`: it is sent to another location.
    Redirect(Macro),
    /// `allow`: no further rule is looked at but those of the logging phase.
    Allow,
    /// `allow:phase`: no further rule of this phase is looked at.
    AllowPhase,
    /// `allow:request`: no further rule of the request's phases is looked at.
    AllowRequest,
}

impl Clone for Disrupt {
    ghost is_clone = { λ a b. b ≡ a };

    fn clone(&self) -> Result<Disrupt, AllocError> {
        match self {
            Disrupt::Pass => Ok(Disrupt::Pass),
            Disrupt::Deny => Ok(Disrupt::Deny),
            Disrupt::Drop => Ok(Disrupt::Drop),
            Disrupt::Redirect(location) => Ok(Disrupt::Redirect(location.clone()?)),
            Disrupt::Allow => Ok(Disrupt::Allow),
            Disrupt::AllowPhase => Ok(Disrupt::AllowPhase),
            Disrupt::AllowRequest => Ok(Disrupt::AllowRequest),
        }
    }
}
