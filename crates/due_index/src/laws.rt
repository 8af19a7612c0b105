//! What holds of the least entry, as a function without a body.
ghost use Rattle.due_index.specs.Due.{LeastIsOne};

/// No two answers are both the least of one index.
pub fn least_is_one()
    ensures { LeastIsOne }
{}
