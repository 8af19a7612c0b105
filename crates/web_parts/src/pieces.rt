ghost use Rattle.std.specs.Prelude.{◌≡◌, ◌==◌, position};
ghost use Rattle.std.specs.Option.{option_map};
ghost use Rattle.web_parts.specs.Pieces.{before, behind, is_blank, trimmed, without_end, without_start};

const SPACE: u8 = b' ';

const TAB: u8 = b'\t';

/// The text before the first such byte, or the whole, and the text after it, where there is one.
pub fn cut(text: &[u8], mark: u8) -> (&[u8], Option<&[u8]>)
    ensures before { result.0.now ≡ before mark text.now }
    ensures behind { option_map (λ rest. rest.now) result.1 ≡ behind mark text.now }
{
    match place_of(text, mark) {
        Some(at) => (text.split_at(at).0, Some(text.split_at(at + 1).1)),
        None => (text, None),
    }
}

fn place_of(text: &[u8], mark: u8) -> Option<usize>
    ensures { result ≡ position (λ b. b == mark) text.now }
{
    text.iter().position(|byte| *byte == mark)
}

/// The text without the spaces and tabs at both ends.
pub fn trimmed(text: &[u8]) -> &[u8]
    ensures { result.now ≡ trimmed text.now }
{
    without_end(without_start(text))
}

fn without_start(text: &[u8]) -> &[u8]
    ensures { result.now ≡ without_start text.now }
{
    let mut rest = text;
    while let Some((first, behind)) = rest.split_first() {
        if !is_blank(*first) {
            return rest;
        }
        rest = behind;
    }
    rest
}

fn without_end(text: &[u8]) -> &[u8]
    ensures { result.now ≡ without_end text.now }
{
    let mut rest = text;
    while let Some((last, before)) = rest.split_last() {
        if !is_blank(*last) {
            return rest;
        }
        rest = before;
    }
    rest
}

// A space or a tab.
fn is_blank(byte: u8) -> bool
    ensures { result ≡ is_blank byte }
{
    byte == SPACE || byte == TAB
}
