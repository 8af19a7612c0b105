ghost use Rattle.std.specs.Prelude.{◌≡◌, IfOk};
ghost use Rattle.spop_frame.specs.declared.status.TheConstants.{NO_MEMORY};
ghost use Rattle.spop_hello.specs.Frames.{disconnect};

use spop_frame::status;
use spop_hello::disconnect_frame;
use std::alloc::Global;
use std::marker::Model;
use waf_plain::{Bytes, NoMemory};

// The DISCONNECT of an agent that is out of memory, made before it is needed.
#[derive(Drop)]
pub(crate) struct Farewell {
    bytes: Bytes,
}

impl Model for Farewell {
    ghost use Rattle.std.specs.Prelude.{◌≡◌, List, ℕ};
    ghost use Rattle.spop_frame.specs.declared.status.TheConstants.{NO_MEMORY};
    ghost use Rattle.spop_hello.specs.Frames.{disconnect};

    ghost Value = { List ℕ };

    ghost view = { λ f. f.bytes };

    ghost invariant = { λ f. f.bytes ≡ disconnect NO_MEMORY };
}

impl Farewell {
    pub(crate) fn new(alloc: Global) -> Result<Farewell, NoMemory>
        ensures { IfOk result (λ farewell. farewell ≡ disconnect NO_MEMORY) }
    {
        let mut bytes = Bytes::new(alloc);
        disconnect_frame(alloc, status::NO_MEMORY, &mut bytes)?;
        Ok(Farewell { bytes })
    }

    pub(crate) fn as_slice(&self) -> &[u8]
        ensures { result.now ≡ disconnect NO_MEMORY }
    {
        self.bytes.as_slice()
    }
}
