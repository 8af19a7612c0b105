//! A reload.
ghost use Rattle.std.specs.Prelude.{◌≡◌, ◌≢◌, ◌≤◌, Err};
ghost use Rattle.turn_lock.specs.Lock.{own_of, share_of};
ghost use Rattle.waf_io.specs.Counts.{Rose};
ghost use Rattle.agent_conf.specs.declared.load_fault.LoadFault.TheVariants as faults;
ghost use Rattle.console.specs.declared.order.Order.TheVariants as orders;
ghost use Rattle.conn_worker.specs.Desk.{passes};
ghost use Rattle.conn_worker.specs.Entries.{HallPass, IsPassOfShelf};
ghost use Rattle.control.specs.Turns.{Loads, publish_text};
ghost use Rattle.control.specs.Written.{IsKept, IsWritten, Obeyed, Publishes};

use crate::parts::{write_both, write_number, write_text};
use agent_conf::{LoadFault, load};
use conn_worker::Handle;
use reports::fault_line;
use shelf::{Apps, Published};
use shelf_lock::{SharedShelf, ShelfPass};
use std::alloc::Global;
use std::sync::Wait;
use waf_io::{Files, Sink, Wrote};
use waf_plain::NoMemory;

// Loads the configuration of that name, publishes its applications, and says so, or why they were refused.
pub fn reload<W: Wait, F: Files, K: Sink>(
    rt: &W,
    alloc: Global,
    name: &[u8],
    files: &mut F,
    output: &mut K,
    rules: &SharedShelf<Handle>,
    pass: &mut ShelfPass<Handle>,
) -> Wrote
    requires rules { IsPassOfShelf rules.now pass.old }
    ensures rules { IsPassOfShelf rules.now pass.new }
    ensures share { share_of pass.new ≡ share_of pass.old }
    ensures obeyed { (desk : HallPass) → Obeyed (F.content files.old) name.now orders.Reload result
        (passes desk pass.old) (passes desk pass.new) (K.held output.old) (K.held output.new)
        (F.faults files.old) (F.faults files.new) }
    ensures same { F.content files.new ≡ F.content files.old }
    ensures later { K.faults output.old ≤ K.faults output.new }
    ensures cause { result ≡ Wrote.Failed → Rose (K.faults output.old) (K.faults output.new) }
{
    match load(alloc, name, files) {
        Ok((_, apps)) => publish(rt, output, rules, pass, apps),
        Err(fault) => keep(alloc, name, &fault, output),
    }
}

// Publishes the applications, and says under which generation.
fn publish<W: Wait, K: Sink>(
    rt: &W,
    output: &mut K,
    rules: &SharedShelf<Handle>,
    pass: &mut ShelfPass<Handle>,
    apps: Apps<Handle>,
) -> Wrote
    requires rules { IsPassOfShelf rules.now pass.old }
    ensures rules { IsPassOfShelf rules.now pass.new }
    ensures share { share_of pass.new ≡ share_of pass.old }
    ensures publishes { Publishes apps result pass.old pass.new (K.held output.old) (K.held output.new) }
    ensures later { K.faults output.old ≤ K.faults output.new }
    ensures cause { result ≡ Wrote.Failed → Rose (K.faults output.old) (K.faults output.new) }
{
    let published = rules.publish(rt, pass, apps);
    tell(output, published)
}

fn tell<K: Sink>(output: &mut K, published: Published) -> Wrote
    ensures written { IsWritten result (publish_text published) (K.held output.old) (K.held output.new) }
    ensures later { K.faults output.old ≤ K.faults output.new }
    ensures cause { result ≡ Wrote.Failed → Rose (K.faults output.old) (K.faults output.new) }
{
    match published {
        Published::Worn => write_text(output, b"worn\n"),
        Published::Generation(generation) => {
            match write_number(output, b"published ", generation) {
                Wrote::All => write_text(output, b"\n"),
                Wrote::Failed => Wrote::Failed,
            }
        }
    }
}

// Says why the applications in force are kept.
fn keep<K: Sink>(alloc: Global, name: &[u8], fault: &LoadFault, output: &mut K) -> Wrote
    ensures kept { IsKept name.now fault.now result (K.held output.old) (K.held output.new) }
    ensures later { K.faults output.old ≤ K.faults output.new }
    ensures cause { result ≡ Wrote.Failed → Rose (K.faults output.old) (K.faults output.new) }
{
    match fault {
        LoadFault::NoMemory => write_text(output, b"kept NoMemory\n"),
        fault => match fault_line(alloc, name, fault) {
            Ok(line) => write_both(output, b"kept ", line.as_slice()),
            Err(NoMemory) => write_text(output, b"kept NoMemory\n"),
        },
    }
}
