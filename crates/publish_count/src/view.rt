//! What a tally knows, for contracts alone: no value of this type is made.

/// What a tally knows.
pub struct View {
    /// The publishes that it added and did not take back.
    pub count: u64,
    /// Its part of the 2^32 - 1 shares of the count; 0 once it was joined into another.
    pub share: u64,
}
