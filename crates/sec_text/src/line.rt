use waf_plain::Bytes;

/// A logical line: physical lines that a `\` at their end joins. `number` is that of the first of
/// them, counted from 1.
#[derive(Debug, PartialEq, Drop)]
pub struct Line {
    pub number: u32,
    pub text: Bytes,
}
