ghost use Rattle.std.specs.Prelude.{◌≡◌};
ghost use Rattle.std.specs.List.{list_any};
ghost use Rattle.std.specs.Str.{str_eq_ignore_ascii_case};

/// Whether a word is one of these names, without regard to the case of ASCII letters.
pub fn is_among(word: &[u8], names: &[&[u8]]) -> bool
    ensures { result ≡ list_any (λ name. str_eq_ignore_ascii_case name.now word.now) names.now }
{
    names.iter().any(|name| name.eq_ignore_ascii_case(word))
}
