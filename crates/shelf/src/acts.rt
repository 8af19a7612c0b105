//! A call by its kind, for who keeps a list of calls and replies.
ghost use Rattle.shelf.specs.Acted.{Acted};
ghost use Rattle.shelf.specs.declared.calls.Call.{Call};

use crate::apps::Apps;
use crate::calls::{Call, Reply};
use crate::shelf::Shelf;
use waf_plain::Bytes;

impl<R: Clone> Shelf<R> {
    /// Makes a call.
    pub fn act(&mut self, call: Call<R>) -> Reply<R>
        ensures { Acted R.is_clone self.old call result self.new }
    {
        match call {
            Call::Look(name) => self.act_look(name),
            Call::Publish(apps) => self.act_publish(apps),
        }
    }

    fn act_look(&mut self, name: Bytes) -> Reply<R>
        ensures { Acted R.is_clone self.old (Call.Look name) result self.new }
    {
        Reply::OfLook(self.look(name.as_slice()))
    }

    fn act_publish(&mut self, apps: Apps<R>) -> Reply<R>
        ensures { Acted R.is_clone self.old (Call.Publish apps) result self.new }
    {
        Reply::OfPublish(self.publish(apps))
    }
}
