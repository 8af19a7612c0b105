ghost use Rattle.std.specs.Prelude.{◌≡◌, IfOk};
ghost use Rattle.sec_read.specs.Names.{begins_with_slash, beside, folder_of, has_wildcard};

use std::alloc::Global;
use waf_plain::{Bytes, NoMemory};

const ASTERISK: u8 = b'*';

const QUESTION_MARK: u8 = b'?';

const LEFT_BRACKET: u8 = b'[';

const SLASH: u8 = b'/';

pub fn has_wildcard_byte(word: &[u8]) -> bool
    ensures { result ≡ has_wildcard word.now }
{
    word.iter().any(|b| *b == ASTERISK || *b == QUESTION_MARK || *b == LEFT_BRACKET)
}

fn is_absolute(word: &[u8]) -> bool
    ensures { result ≡ begins_with_slash word.now }
{
    match word {
        [] => false,
        [first, ..] => *first == SLASH,
    }
}

// A name up to and including its last slash.
fn folder(name: &[u8]) -> &[u8]
    ensures { result.now ≡ folder_of name.now }
{
    let mut count = name.len();
    while count > 0 && name[count - 1] != SLASH {
        count -= 1;
    }
    name.split_at(count).0
}

/// The name that a word stands for in a file: the word where it begins with `/`, else the word after
/// the file's own name up to and including its last `/`.
pub fn name_beside(alloc: Global, file: &[u8], word: &[u8]) -> Result<Bytes, NoMemory>
    ensures { IfOk result (λ name. name ≡ beside file.now word.now) }
{
    if is_absolute(word) {
        return Bytes::copy(alloc, word);
    }
    let mut name = Bytes::copy(alloc, folder(file))?;
    name.append(word)?;
    Ok(name)
}
