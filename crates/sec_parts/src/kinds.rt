ghost use Rattle.std.specs.Prelude.{◌≡◌};
ghost use Rattle.sec_parts.specs.Kinds.{is_first, is_link, is_not_later, is_refused_action, is_refused_transform, kind_name, kind_named, may_stand};

use crate::texts::begins_with_name;
use sec_ast::is_among;

/// Where a list of actions stands.
#[derive(Clone, Copy, Debug, PartialEq, Eq)]
pub enum Stand {
    /// In the first directive of a rule.
    First,
    /// In a further directive of a chain.
    Later,
    /// In `SecDefaultAction`.
    Defaults,
}

// An action by its name.
#[derive(Clone, Copy)]
pub enum Kind {
    Id,
    Phase,
    Msg,
    Logdata,
    Tag,
    Log,
    Nolog,
    Pass,
    Deny,
    Drop,
    Redirect,
    Allow,
    Block,
    Status,
    Skip,
    SkipAfter,
    Chain,
    T,
    Capture,
    MultiMatch,
    Setvar,
    Ctl,
    Auditlog,
    Noauditlog,
    Severity,
    Ver,
    Rev,
    Maturity,
    Accuracy,
}

const KINDS: [Kind; 29] = [
    Kind::Id,
    Kind::Phase,
    Kind::Msg,
    Kind::Logdata,
    Kind::Tag,
    Kind::Log,
    Kind::Nolog,
    Kind::Pass,
    Kind::Deny,
    Kind::Drop,
    Kind::Redirect,
    Kind::Allow,
    Kind::Block,
    Kind::Status,
    Kind::Skip,
    Kind::SkipAfter,
    Kind::Chain,
    Kind::T,
    Kind::Capture,
    Kind::MultiMatch,
    Kind::Setvar,
    Kind::Ctl,
    Kind::Auditlog,
    Kind::Noauditlog,
    Kind::Severity,
    Kind::Ver,
    Kind::Rev,
    Kind::Maturity,
    Kind::Accuracy,
];

const REFUSED_ACTIONS: [&[u8]; 13] = [
    b"exec",
    b"proxy",
    b"pause",
    b"initcol",
    b"expirevar",
    b"deprecatevar",
    b"setenv",
    b"setuid",
    b"setsid",
    b"setrsc",
    b"xmlns",
    b"prepend",
    b"append",
];

const REFUSED_TRANSFORMS: [&[u8]; 7] = [
    b"urlEncode",
    b"removeComments",
    b"base64DecodeExt",
    b"sqlHexDecode",
    b"parityEven7bit",
    b"parityOdd7bit",
    b"parityZero7bit",
];

fn is_first_link(stand: Stand) -> bool
    ensures { result ≡ is_first stand }
{
    match stand {
        Stand::First => true,
        _ => false,
    }
}

fn is_some_link(stand: Stand) -> bool
    ensures { result ≡ is_link stand }
{
    match stand {
        Stand::Defaults => false,
        _ => true,
    }
}

fn is_no_later_link(stand: Stand) -> bool
    ensures { result ≡ is_not_later stand }
{
    match stand {
        Stand::Later => false,
        _ => true,
    }
}

impl Kind {
    fn name(self) -> &'static [u8]
        ensures { result.now ≡ kind_name self }
    {
        match self {
            Kind::Id => b"id",
            Kind::Phase => b"phase",
            Kind::Msg => b"msg",
            Kind::Logdata => b"logdata",
            Kind::Tag => b"tag",
            Kind::Log => b"log",
            Kind::Nolog => b"nolog",
            Kind::Pass => b"pass",
            Kind::Deny => b"deny",
            Kind::Drop => b"drop",
            Kind::Redirect => b"redirect",
            Kind::Allow => b"allow",
            Kind::Block => b"block",
            Kind::Status => b"status",
            Kind::Skip => b"skip",
            Kind::SkipAfter => b"skipAfter",
            Kind::Chain => b"chain",
            Kind::T => b"t",
            Kind::Capture => b"capture",
            Kind::MultiMatch => b"multiMatch",
            Kind::Setvar => b"setvar",
            Kind::Ctl => b"ctl",
            Kind::Auditlog => b"auditlog",
            Kind::Noauditlog => b"noauditlog",
            Kind::Severity => b"severity",
            Kind::Ver => b"ver",
            Kind::Rev => b"rev",
            Kind::Maturity => b"maturity",
            Kind::Accuracy => b"accuracy",
        }
    }

    #[tactic(auto, unfolding(crate::specs::Kinds::kind_named))]
    pub fn named(word: &[u8]) -> Option<Kind>
        ensures { result ≡ kind_named word.now }
    {
        KINDS
            .iter()
            .copied()
            .find(|kind| kind.name().eq_ignore_ascii_case(word))
    }

    pub fn may_stand(self, stand: Stand) -> bool
        ensures { result ≡ may_stand self stand }
    {
        match self {
            Kind::Id
            | Kind::Msg
            | Kind::Logdata
            | Kind::Tag
            | Kind::Allow
            | Kind::Block
            | Kind::Skip
            | Kind::SkipAfter => is_first_link(stand),
            Kind::Phase | Kind::Pass | Kind::Deny | Kind::Drop | Kind::Redirect | Kind::Status =>
                is_no_later_link(stand),
            Kind::Chain
            | Kind::Capture
            | Kind::MultiMatch
            | Kind::Setvar
            | Kind::Ctl
            | Kind::Severity
            | Kind::Ver
            | Kind::Rev
            | Kind::Maturity
            | Kind::Accuracy => is_some_link(stand),
            Kind::Log | Kind::Nolog | Kind::T | Kind::Auditlog | Kind::Noauditlog => true,
        }
    }
}

// Whether this agent leaves out the action of this name.
#[tactic(auto, unfolding(crate::specs::Kinds::is_refused_action))]
pub fn is_refused_action(name: &[u8]) -> bool
    ensures { result ≡ is_refused_action name.now }
{
    is_among(name, &REFUSED_ACTIONS) || begins_with_name(name, b"sanitise")
}

// Whether this agent leaves out the transformation of this name.
#[tactic(auto, unfolding(crate::specs::Kinds::is_refused_transform))]
pub fn is_refused_transform(name: &[u8]) -> bool
    ensures { result ≡ is_refused_transform name.now }
{
    is_among(name, &REFUSED_TRANSFORMS)
}
