//! The calls.
ghost use Rattle.std.specs.Prelude.{◌≡◌};
ghost use Rattle.std.specs.Option.{option_copied};
ghost use Rattle.shelf.specs.Found.{app_in};
ghost use Rattle.shelf.specs.Step.{IsLook, IsNew, IsPublished, published};

use crate::apps::{App, Apps};
use crate::calls::{Look, Published};
use crate::lookup::find;
use crate::shelf::Shelf;

impl<R> Shelf<R> {
    /// With these applications in force, as generation 1.
    pub fn new(apps: Apps<R>) -> Shelf<R>
        ensures { IsNew apps result }
    {
        Shelf {
            generation: 1,
            apps,
        }
    }
}

impl<R: Clone> Shelf<R> {
    /// The application that a name means.
    pub fn look(&self, name: &[u8]) -> Look<R>
        ensures { IsLook R.is_clone self.now name.now result }
    {
        let generation = self.generation;
        match app_of(&self.apps, name) {
            None => Look::UnknownApp { generation },
            Some(app) => match app.rules.clone() {
                Ok(rules) => Look::Found {
                    generation,
                    rules,
                    settings: app.settings,
                },
                Err(_) => Look::NoMemory,
            },
        }
    }
}

impl<R: Drop> Shelf<R> {
    /// Puts these applications in the place of those in force. Where it answers `Worn` they are dropped.
    pub fn publish(&mut self, apps: Apps<R>) -> Published
        ensures reply { IsPublished self.old result }
        ensures state { self.new ≡ published apps result self.old }
    {
        if self.generation == u64::MAX {
            return Published::Worn;
        }
        self.generation += 1;
        self.apps = apps;
        Published::Generation(self.generation)
    }
}

fn app_of<'a, R>(apps: &'a Apps<R>, name: &[u8]) -> Option<&'a App<R>>
    ensures { option_copied result ≡ app_in apps.now name.now }
{
    let place = find(apps, name)?;
    apps.list.get(u64::from(place))
}
