ghost use Rattle.std.specs.Prelude.{◌≡◌, ◌⊎◌};
ghost use Rattle.agent_conf.specs.declared.fault.ConfFault.TheVariants as faults;

use std::alloc::Global;
use waf_plain::{Bytes, NoMemory};

/// Why a configuration is refused; of several faults the first in this order.
#[derive(Debug, PartialEq, Drop)]
pub enum ConfFault {
    /// The text is not UTF-8, or no TOML document.
    Syntax,
    /// A key without a meaning: the top's first in the order of their bytes, and then those of one
    /// application after the other.
    UnknownKey(Bytes),
    /// An application lacks its `name`, or else its `rules`.
    MissingKey(Bytes),
    /// The value of the key is of another type, or out of its range. The keys are taken in the order
    /// in which `read_conf` lists them, the top's before those of one application after the other.
    BadValue(Bytes),
    /// There is no application.
    NoApp,
    /// An earlier application has this name too.
    DoubleApp(Bytes),
    /// The default is the name of no application.
    UnknownDefault(Bytes),
    NoMemory,
}

impl ConfFault {
    ghost use Rattle.agent_conf.specs.Words.{kind_of, word_of};

    /// The name of the kind, as it is printed.
    pub fn kind(&self) -> &'static [u8]
        ensures { result.now ≡ kind_of self.now }
    {
        match self {
            ConfFault::Syntax => b"Syntax",
            ConfFault::UnknownKey(_) => b"UnknownKey",
            ConfFault::MissingKey(_) => b"MissingKey",
            ConfFault::BadValue(_) => b"BadValue",
            ConfFault::NoApp => b"NoApp",
            ConfFault::DoubleApp(_) => b"DoubleApp",
            ConfFault::UnknownDefault(_) => b"UnknownDefault",
            ConfFault::NoMemory => b"NoMemory",
        }
    }

    /// The key or the name that it speaks of, and no bytes where there is none.
    pub fn word(&self) -> &[u8]
        ensures { result.now ≡ word_of self.now }
    {
        match self {
            ConfFault::UnknownKey(word)
            | ConfFault::MissingKey(word)
            | ConfFault::BadValue(word)
            | ConfFault::DoubleApp(word)
            | ConfFault::UnknownDefault(word) => word.as_slice(),
            ConfFault::Syntax | ConfFault::NoApp | ConfFault::NoMemory => b"",
        }
    }
}

impl From<NoMemory> for ConfFault {
    ghost use Rattle.std.specs.Prelude.{◌≡◌};
    ghost use Rattle.agent_conf.specs.declared.fault.ConfFault.TheVariants.{NoMemory as no_memory};

    ghost from_gives = { λ _ e. e ≡ no_memory };

    fn from(_: NoMemory) -> ConfFault {
        ConfFault::NoMemory
    }
}

// The fault of a key whose value is bad.
pub(crate) fn bad_value(alloc: Global, key: &str) -> ConfFault
    ensures { (result ≡ faults.BadValue key.now) ⊎ (result ≡ faults.NoMemory) }
{
    match Bytes::copy(alloc, key.as_bytes()) {
        Ok(key) => ConfFault::BadValue(key),
        Err(NoMemory) => ConfFault::NoMemory,
    }
}
