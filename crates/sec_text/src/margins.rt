ghost use Rattle.std.specs.Prelude.{◌≡◌, drop};
ghost use Rattle.std.specs.List.{prefix_len};
ghost use Rattle.sec_text.specs.Quotes.{is_blank};
ghost use Rattle.sec_text.specs.Margins.{in_margin, without_end};

use crate::characters::{CARRIAGE_RETURN, SPACE, TAB};

/// The bytes that are cut off at the ends of a text.
#[derive(Clone, Copy, Debug, PartialEq, Eq)]
pub enum Margin {
    /// Spaces and tabs.
    Blanks,
    /// Spaces, tabs and carriage returns.
    BlanksAndReturns,
}

/// Whether a byte is a space or a tab.
pub fn is_blank_byte(byte: u8) -> bool
    ensures { result ≡ is_blank byte }
{
    byte == SPACE || byte == TAB
}

fn is_in_margin(margin: Margin, byte: u8) -> bool
    ensures { result ≡ in_margin margin byte }
{
    match margin {
        Margin::Blanks => is_blank_byte(byte),
        Margin::BlanksAndReturns => is_blank_byte(byte) || byte == CARRIAGE_RETURN,
    }
}

/// The text without such bytes at its start.
pub fn trim_start(margin: Margin, text: &[u8]) -> &[u8]
    ensures { result.now ≡ drop (prefix_len (in_margin margin) text.now) text.now }
{
    let mut count = 0;
    while count < text.len() && is_in_margin(margin, text[count]) {
        count += 1;
    }
    text.split_at(count).1
}

/// The text without such bytes at its end.
pub fn trim_end(margin: Margin, text: &[u8]) -> &[u8]
    ensures { result.now ≡ without_end (in_margin margin) text.now }
{
    let mut count = text.len();
    while count > 0 && is_in_margin(margin, text[count - 1]) {
        count -= 1;
    }
    text.split_at(count).0
}
