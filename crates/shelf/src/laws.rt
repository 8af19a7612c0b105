//! What holds of every history of the list of applications.
ghost use Rattle.shelf.specs.Promised.{Numbered};

/// In every legal history the list in force is the one that was published last, and its generation
/// says how many there were, with the one at the start.
pub fn lists_are_numbered<R: Clone>()
    ensures { Numbered R R.is_clone }
{}
