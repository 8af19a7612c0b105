ghost use Rattle.std.specs.Prelude.{◌≡◌, ◌==◌, position};
ghost use Rattle.web_parts.specs.Pieces.{before};
ghost use Rattle.sec_collect.specs.Request.{through};

use web_parts::cut;

/// The text before the first such byte, or the whole.
pub(crate) fn before(text: &[u8], mark: u8) -> &[u8]
    ensures { result.now ≡ before mark text.now }
{
    cut(text, mark).0
}

/// The same with that byte.
pub(crate) fn through(text: &[u8], mark: u8) -> &[u8]
    ensures { result.now ≡ through mark text.now }
{
    match place_of(text, mark) {
        Some(at) => text.split_at(at + 1).0,
        None => text,
    }
}

fn place_of(text: &[u8], mark: u8) -> Option<usize>
    ensures { result ≡ position (λ b. b == mark) text.now }
{
    text.iter().position(|byte| *byte == mark)
}
