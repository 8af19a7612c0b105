ghost use Rattle.std.specs.Prelude.{◌≡◌, ◌==◌, ◌≤◌, drop, length};
ghost use Rattle.std.specs.List.{list_any};
ghost use Rattle.pattern_text.specs.Texts.{begins_in, digit_count};

/// Whether a text begins with one of these bytes.
pub(crate) fn begins_among(bytes: &[u8], text: &[u8]) -> bool
    ensures { result ≡ begins_in bytes.now text.now }
{
    match text {
        [] => false,
        [first, ..] => bytes.contains(first),
    }
}

/// The text after its first `count` bytes, nothing where it has fewer.
pub(crate) fn after(count: usize, text: &[u8]) -> &[u8]
    ensures { result.now ≡ drop count text.now }
{
    if count > text.len() {
        return &[];
    }
    text.split_at(count).1
}

/// How many decimal digits stand at the front.
pub(crate) fn digit_count(text: &[u8]) -> usize
    ensures count { result ≡ digit_count text.now }
    ensures within { result ≤ length text.now }
{
    text.iter().take_while(|c| c.is_ascii_digit()).count()
}
