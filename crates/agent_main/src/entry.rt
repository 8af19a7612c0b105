ghost use Rattle.std.specs.Prelude.{◌≡◌, ◌++◌, IfOk, OnOk};
ghost use Rattle.agent_main.specs.Turns.{entries_text, entry_text};

use agent_conf::LoadFault;
use conn_core::Seen;
use replay_text::write_seen;
use reports::fault_line;
use std::alloc::Global;
use waf_plain::{Bytes, NoMemory};

// What a command showed, and the connection and the shard that it names.
#[derive(Drop)]
pub struct Entry {
    pub conn: Option<u32>,
    pub shard: u32,
    pub shown: Shown,
}

#[derive(Drop)]
pub enum Shown {
    // what its step showed
    Step(Seen),
    // why a reload was refused
    Kept(LoadFault),
}

// The lines of these entries, where the configuration has that name.
pub fn entries_text(alloc: Global, name: &[u8], entries: &[Entry]) -> Result<Bytes, NoMemory>
    ensures { IfOk result (λ text. text ≡ entries_text name.now entries.now) }
{
    let mut text = Bytes::new(alloc);
    for entry in entries {
        add_entry(alloc, name, entry, &mut text)?;
    }
    Ok(text)
}

#[tactic(auto, unfolding(crate::specs::Turns::entry_text))]
fn add_entry(alloc: Global, name: &[u8], entry: &Entry, text: &mut Bytes) -> Result<(), NoMemory>
    ensures { OnOk result (text.new ≡ text.old ++ entry_text name.now entry.now) }
{
    match &entry.shown {
        Shown::Step(seen) => write_seen(alloc, entry.conn, entry.shard, seen, text),
        Shown::Kept(fault) => {
            text.append(b"kept ")?;
            text.append(fault_line(alloc, name, fault)?.as_slice())
        }
    }
}
