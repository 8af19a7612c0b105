ghost use Rattle.std.specs.Prelude.{◌≡◌, ◌++◌, ◌<◌, ◌^◌, List, ℕ, Some, length};
ghost use Rattle.spop_varint.specs.Varint.{Spells};
ghost use Rattle.spop_data.specs.Data.{IsCounted, SpellsData, SpellsPair, SpellsPairs};
ghost use Rattle.spop_data.specs.Reading.{counted_at, data_at, pair_at, pairs_at};
ghost use Rattle.spop_data.specs.Writing.{counted, data_bytes, number_bytes, pair_bytes, IsData, IsPair};
ghost use Rattle.spop_data.specs.declared.value.Data as values;
ghost use Rattle.spop_data.specs.declared.value.Pair.{Pair};

/// A law, with nothing to run: bytes spell at most one value, and no spelling begins another.
pub fn one_value()
    ensures values { (a b x y : List ℕ) (d e : values.Data) → SpellsData a d → SpellsData b e
        → a ++ x ≡ b ++ y → (a ≡ b) × (d ≡ e) }
    ensures pairs { (a b x y : List ℕ) (p q : Pair) → SpellsPair a p → SpellsPair b q
        → a ++ x ≡ b ++ y → (a ≡ b) × (p ≡ q) }
{}

/// A law, with nothing to run: what is spelled is read, whatever follows it.
pub fn spelled_is_read()
    ensures text { (bytes rest text : List ℕ) → IsCounted bytes text
        → counted_at (bytes ++ rest) ≡ Some (text, rest) }
    ensures value { (bytes rest : List ℕ) (d : values.Data) → SpellsData bytes d
        → data_at (bytes ++ rest) ≡ Some (d, rest) }
    ensures pair { (bytes rest : List ℕ) (p : Pair) → SpellsPair bytes p
        → pair_at (bytes ++ rest) ≡ Some (p, rest) }
    ensures pairs { (count : ℕ) (bytes rest : List ℕ) (ps : List Pair) → SpellsPairs count bytes ps
        → pairs_at count (bytes ++ rest) ≡ Some (ps, rest) }
{}

/// A law, with nothing to run: the bytes that are written for a value spell it. So what was written
/// is read again, whatever follows it.
pub fn written_is_spelled()
    ensures number { (v : ℕ) → v < 2 ^ 64 → Spells (number_bytes v) v }
    ensures text { (text : List ℕ) → length text < 2 ^ 64 → IsCounted (counted text) text }
    ensures value { (d : values.Data) → IsData d → SpellsData (data_bytes d) d }
    ensures pair { (p : Pair) → IsPair p → SpellsPair (pair_bytes p) p }
{}
