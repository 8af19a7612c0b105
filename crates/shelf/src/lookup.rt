//! Which application a name means.
ghost use Rattle.std.specs.Prelude.{◌≡◌, bytes_eq, position};
ghost use Rattle.shelf.specs.Found.{place_in};

use crate::apps::{App, Apps};

/// The place of the first application of this name, else that of the fallback, where there is one.
pub fn find<R>(apps: &Apps<R>, name: &[u8]) -> Option<u32>
    ensures { result ≡ place_in apps.now name.now }
{
    match place_of(apps.list.as_slice(), name) {
        Some(place) => Some(place as u32),
        None => apps.fallback,
    }
}

fn place_of<R>(list: &[App<R>], name: &[u8]) -> Option<usize>
    ensures { result ≡ position (λ app. bytes_eq app.name name.now) list.now }
{
    list.iter().position(|app| app.name.as_slice() == name)
}
