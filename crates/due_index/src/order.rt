//! Which of two entries comes first.
ghost use Rattle.std.specs.Prelude.{◌≡◌};
ghost use Rattle.due_index.specs.Due.{is_before};
ghost use Rattle.due_index.specs.Tree.{sooner};

use crate::Due;

/// Of two entries that there may be, the one that comes first.
pub(crate) fn sooner(a: Option<Due>, b: Option<Due>) -> Option<Due>
    ensures { result ≡ sooner a b }
{
    match (a, b) {
        (Some(a), Some(b)) => Some(if is_before(b, a) { b } else { a }),
        (Some(a), None) => Some(a),
        (None, b) => b,
    }
}

fn is_before(a: Due, b: Due) -> bool
    ensures { result ≡ is_before a b }
{
    if a.0 != b.0 {
        a.0 < b.0
    } else if a.1 != b.1 {
        a.1 < b.1
    } else {
        a.2 < b.2
    }
}
