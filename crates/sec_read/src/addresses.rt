ghost use Rattle.std.specs.Prelude.{◌≡◌};
ghost use Rattle.std.specs.Option.{option_copied};
ghost use Rattle.sec_read.specs.Operators.{first_bad, is_address_word};

use ip_set::Block;
use waf_plain::Bytes;

// Whether a word is an address or a block of addresses.
fn is_address(word: &[u8]) -> bool
    ensures { result ≡ is_address_word word.now }
{
    Block::read(word).is_some()
}

// The first word that is neither.
pub fn find_no_address(words: &[Bytes]) -> Option<&Bytes>
    ensures { option_copied result ≡ first_bad words.now }
{
    words.iter().find(|word| !is_address(word.as_slice()))
}
