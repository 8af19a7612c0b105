ghost use Rattle.std.specs.Prelude.{◌≡◌, ◌↔◌, ◌++◌, List, ◌+◌, ◌<◌, ◌^◌, ℕ, length};

/// What some bytes begin with.
#[derive(Clone, Copy, Debug, PartialEq, Eq)]
pub enum Varint {
    /// A number, and how many bytes spell it.
    Read { value: u64, used: u64 },
    /// The bytes begin a spelling and end before it does.
    Short,
    /// No number below 2^64 begins here, whatever follows.
    TooLarge,
}

ghost use Rattle.std.specs.Option.{option_map};
ghost use Rattle.spop_varint.specs.Reading.{number_at, split_number, tail_at};
ghost use Rattle.spop_varint.specs.Varint.{IsRead, IsShort, IsTooLarge, Spells};

/// Reads the number that the bytes begin with; others may follow it. It takes no memory.
pub fn read_varint(input: &[u8]) -> Varint
    ensures read { IsRead input.now result }
    ensures again { (spelling rest : List ℕ) (v : ℕ) → Spells spelling v → input.now ≡ spelling ++ rest
        → result ≡ Varint.Read v (length spelling) }
    ensures short { (result ≡ Varint.Short) ↔ IsShort input.now }
    ensures too_large { (result ≡ Varint.TooLarge) ↔ IsTooLarge input.now }
    ensures exact { result ≡ number_at input.now }
{
    number(input)
}

/// The number that the bytes begin with, and those after it; `None` where the bytes don't begin with a whole
/// spelling. It takes no memory.
pub fn split_varint(bytes: &[u8]) -> Option<(u64, &[u8])>
    ensures { option_map (λ x. (x.0, x.1.now)) result ≡ split_number bytes.now }
{
    match read_varint(bytes) {
        Varint::Read { value, used } => Some((value, bytes.split_at(used as usize).1)),
        Varint::Short | Varint::TooLarge => None,
    }
}

fn number(input: &[u8]) -> Varint
    ensures { result ≡ number_at input.now }
{
    match input.split_first() {
        None => Varint::Short,
        Some((first, rest)) => {
            if *first < 240 {
                Varint::Read {
                    value: u64::from(*first),
                    used: 1,
                }
            } else {
                tail(*first, rest)
            }
        }
    }
}

// The number that a first byte of 240 or more and these bytes begin.
fn tail(first: u8, bytes: &[u8]) -> Varint
    requires { length bytes.now + 1 < 2 ^ 63 }
    ensures { result ≡ tail_at 1 4 first bytes.now }
{
    let mut sum = u64::from(first);
    let mut weight = 16u64;
    for (index, byte) in bytes.iter().enumerate() {
        let Some(part) = u64::from(*byte).checked_mul(weight) else {
            return Varint::TooLarge;
        };
        let Some(next) = sum.checked_add(part) else {
            return Varint::TooLarge;
        };
        if *byte < 128 {
            return Varint::Read {
                value: next,
                used: index as u64 + 2,
            };
        }
        sum = next;
        weight *= 128;
    }
    Varint::Short
}
