ghost use Rattle.std.specs.Prelude.{All, ◌≡◌, ◌++◌, List, ◌≤◌, ◌<◌, ◌^◌, ℕ, length, Some};
ghost use Rattle.spop_varint.specs.Reading.{split_number};
ghost use Rattle.spop_varint.specs.Varint.{Spells};
ghost use Rattle.spop_varint.specs.Writing.{spelling};
ghost use Rattle.spop_varint.specs.declared.write.TheConstants.{MAX_LENGTH};

/// A law, with nothing to run: each number has one spelling, no spelling begins another, and none has
/// more than `MAX_LENGTH` bytes. So what was written is read again, whatever follows it.
pub fn one_spelling()
    ensures apart { (a b x y : List ℕ) (m n : ℕ) → Spells a m → Spells b n → a ++ x ≡ b ++ y → (a ≡ b) × (m ≡ n) }
    ensures unique { (a b : List ℕ) (n : ℕ) → Spells a n → Spells b n → a ≡ b }
    ensures spelled { (n : ℕ) → n < 2 ^ 64 → Spells (spelling n) n }
    ensures written { (a : List ℕ) (n : ℕ) → Spells a n → a ≡ spelling n }
    ensures short { (a : List ℕ) (n : ℕ) → Spells a n → length a ≤ MAX_LENGTH }
{}

/// A law, with nothing to run: the number that bytes begin with, as a function on lists, is what its
/// spelling says, whatever follows it.
pub fn one_reading()
    ensures again { (bytes rest : List ℕ) (n : ℕ) → Spells bytes n → split_number (bytes ++ rest) ≡ Some (n, rest) }
    ensures spelled { (bytes rest : List ℕ) (n : ℕ) → All (λ b. b < 256) bytes → split_number bytes ≡ Some (n, rest)
        → (prefix : List ℕ) × Spells prefix n × (bytes ≡ prefix ++ rest) }
{}
