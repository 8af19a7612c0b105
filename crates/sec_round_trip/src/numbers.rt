ghost use Rattle.std.specs.Prelude.{◌≡◌, ◌≤◌, ◌<◌, ◌^◌, ℕ, Some, decimal};
ghost use Rattle.sec_parts.specs.Numbers.{number_in};

/// The round trip of a number within bounds below 2^32: its decimal digits are read as that number.
pub fn printed_numbers_are_read()
    ensures { (low high n : ℕ) → low ≤ n → n ≤ high → high < 2 ^ 32 → number_in low high (decimal n) ≡ Some n }
{}
