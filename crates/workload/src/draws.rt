ghost use Rattle.std.specs.Prelude.{◌≡◌, ◌/◌};
ghost use Rattle.workload.specs.Draws.{stepped};
ghost use Rattle.workload.specs.declared.draws.TheConstants.{DIVISOR};

// Those of Knuth's MMIX.
const MULTIPLIER: u64 = 6364136223846793005;

const INCREMENT: u64 = 1442695040888963407;

// A draw has the bits above the lowest 33, whose periods are short.
const DIVISOR: u64 = 1 << 33;

// A linear congruential generator.
#[derive(Drop)]
pub(crate) struct Draws {
    held: u64,
}

impl Draws {
    pub(crate) fn new(seed: u64) -> Draws
        ensures { result.held ≡ seed }
    {
        Draws { held: seed }
    }

    pub(crate) fn next(&mut self) -> u64
        ensures draw { result ≡ self.new.held / DIVISOR }
        ensures step { self.new.held ≡ stepped self.old.held }
    {
        self.held = step(self.held);
        self.held / DIVISOR
    }
}

fn step(held: u64) -> u64
    ensures { result ≡ stepped held }
{
    held.wrapping_mul(MULTIPLIER).wrapping_add(INCREMENT)
}
