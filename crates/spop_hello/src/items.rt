ghost use Rattle.std.specs.Prelude.{◌≡◌, length};
ghost use Rattle.std.specs.List.{list_all};
ghost use Rattle.spop_hello.specs.Items.{has_item, is_digit, is_pipelining, is_version};
ghost use Rattle.spop_hello.specs.Items.{without_blanks, without_end, without_start};

// What parts items, and what is trimmed off them.
const COMMA: u8 = b',';

const SPACE: u8 = b' ';

// Whether a version of this protocol is among the items: 2, a point and digits.
pub fn has_version(text: &[u8]) -> bool
    ensures { result ≡ has_item is_version text.now }
{
    text.split(|byte| *byte == COMMA)
        .any(|item| is_version(trimmed(item)))
}

pub fn has_pipelining(text: &[u8]) -> bool
    ensures { result ≡ has_item is_pipelining text.now }
{
    text.split(|byte| *byte == COMMA)
        .any(|item| is_pipelining(trimmed(item)))
}

fn is_version(item: &[u8]) -> bool
    ensures { result ≡ is_version item.now }
{
    match item.split_first_chunk::<2>() {
        Some((start, digits)) => *start == *b"2." && !digits.is_empty() && all_digits(digits),
        None => false,
    }
}

fn all_digits(text: &[u8]) -> bool
    ensures { result ≡ list_all is_digit text.now }
{
    text.iter().all(|byte| byte.is_ascii_digit())
}

fn is_pipelining(item: &[u8]) -> bool
    ensures { result ≡ is_pipelining item.now }
{
    item == b"pipelining".as_slice()
}

fn trimmed(item: &[u8]) -> &[u8]
    ensures { result.now ≡ without_blanks item.now }
{
    trimmed_end(trimmed_start(item))
}

fn trimmed_start(item: &[u8]) -> &[u8]
    ensures { result.now ≡ without_start item.now }
{
    let mut rest = item;
    while let Some((first, more)) = rest.split_first() {
        if *first != SPACE {
            return rest;
        }
        rest = more;
    }
    rest
}

fn trimmed_end(item: &[u8]) -> &[u8]
    ensures { result.now ≡ without_end item.now }
{
    let mut rest = item;
    while let Some((last, more)) = rest.split_last() {
        if *last != SPACE {
            return rest;
        }
        rest = more;
    }
    rest
}
