use sec_ast::Place;
use waf_plain::NoMemory;

/// Why a listing is not compiled.
#[derive(Debug, Drop)]
pub enum CompileFault {
    /// A pattern of the rule at this place has no reading in the grammar of `regex`, or nests deeper
    /// than its bound: that of an operator `@rx`, or one by which a target selects names. The rule is
    /// the first such one of the listing.
    BadPattern { place: Place, id: u32 },
    /// No memory; a compiled pattern would pass the size limit of `regex`; or a word of `ipMatch` is
    /// no address and no block, which no listing that was read from rules has.
    NoMemory,
}

impl From<NoMemory> for CompileFault {
    ghost use Rattle.std.specs.Prelude.{◌≡◌};
    ghost use Rattle.sec_compile.specs.declared.fault.CompileFault.TheVariants.{NoMemory as no_memory};

    ghost from_gives = { λ _ fault. fault ≡ no_memory };

    fn from(_: NoMemory) -> Self {
        CompileFault::NoMemory
    }
}
