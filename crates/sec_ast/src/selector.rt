ghost use Rattle.std.specs.Prelude.{◌≡◌, IfOk};

use waf_plain::NoMemory;

/// A test of names, as a compiled pattern is one.
pub trait Selector {
    ghost use Rattle.std.specs.Prelude.{Bool, List, ℕ};

    /// Which names it selects.
    ghost meaning: { Self → List ℕ → Bool };

    /// Whether it selects a name.
    fn selects(&self, name: &[u8]) -> Result<bool, NoMemory>
        ensures { IfOk result (λ is_selected. is_selected ≡ meaning self.now name.now) };
}
