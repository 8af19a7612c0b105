//! Where a token stands in a pattern.

/// Where a token stands.
#[derive(Clone, Copy, Debug, PartialEq, Eq)]
pub enum Place {
    /// Outside of classes.
    Outside,
    /// At the front of a class, where a `]` does not close it.
    Opened,
    /// Further inside a class.
    Inside,
}

/// A set of bytes that PCRE has an escape for, and the crate has not.
#[derive(Clone, Copy, Debug, PartialEq, Eq)]
pub enum Set {
    /// `\h`: space and tab.
    Blanks,
    /// `\v`: the bytes that end lines.
    VerticalSpaces,
}
