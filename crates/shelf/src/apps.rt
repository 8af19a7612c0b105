//! Applications.
ghost use Rattle.std.specs.Prelude.{◌^◌, ◌<◌, length};
ghost use Rattle.std.specs.Option.{ForSome};

use waf_plain::{Bytes, Seq};

/// What an application wants.
#[derive(Clone, Copy, Debug, PartialEq, Eq)]
pub struct Settings {
    /// Its responses are judged, too.
    pub responses: bool,
    /// How long a request waits for its response, in milliseconds.
    pub life: u64,
}

/// An application with its rules; `R` is a handle of them.
#[derive(Drop)]
pub struct App<R> {
    pub name: Bytes,
    pub rules: R,
    pub settings: Settings,
}

/// Applications, and the place of the one that serves for a name that none has.
#[derive(Drop)]
pub struct Apps<R> {
    pub list: Seq<App<R>>,
    pub fallback: Option<u32>,
    ghost few: { length list < 2 ^ 32 },
    ghost within: { ForSome fallback (λ place. place < length list) },
}
