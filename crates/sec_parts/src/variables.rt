ghost use Rattle.std.specs.Prelude.{◌≡◌};
ghost use Rattle.sec_parts.specs.Variables.{is_refused_variable};

use crate::texts::begins_with_name;
use sec_ast::is_among;

const REFUSED: [&[u8]; 11] = [
    b"GEO",
    b"ENV",
    b"IP",
    b"SESSION",
    b"USER",
    b"GLOBAL",
    b"RESOURCE",
    b"RULE",
    b"DURATION",
    b"FULL_REQUEST",
    b"FULL_REQUEST_LENGTH",
];

// Whether this agent leaves out the variable of this name, as those of lasting collections, of time
// and of performance.
#[tactic(auto, unfolding(crate::specs::Variables::is_refused_variable))]
pub fn is_refused_variable(name: &[u8]) -> bool
    ensures { result ≡ is_refused_variable name.now }
{
    is_among(name, &REFUSED) || begins_with_name(name, b"TIME") || begins_with_name(name, b"PERF_")
}
