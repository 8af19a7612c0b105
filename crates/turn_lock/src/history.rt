//! What a history is a list of.

/// A call with the reply that it got.
pub struct Entry<C, R> {
    pub call: C,
    pub reply: R,
}
