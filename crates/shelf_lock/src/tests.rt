ghost use Rattle.std.specs.Prelude.{◌<◌};
ghost use Rattle.turn_lock.specs.Lock.{share_of};
ghost use Rattle.shelf_lock.specs.Passes.{IsPassOfShelf};

use crate::{SharedShelf, ShelfPass};
use shelf::{App, Apps, Look, Published, Settings};
use std::alloc::Global;
use std::sync::Wait;
use std::test::Fail;
use std::thread::{Threads, join};
use waf_plain::{Bytes, NoMemory, Seq};

fn needs_sync<T: Sync>() {}

fn needs_send<T: Send>() {}

#[test]
fn the_list_and_its_passes_cross_threads() {
    needs_sync::<SharedShelf<Bytes>>();
    needs_send::<SharedShelf<Bytes>>();
    needs_send::<ShelfPass<Bytes>>();
}

// One application, and none that serves for other names.
fn only(alloc: Global, name: &[u8], rules: u64) -> Result<Apps<u64>, NoMemory> {
    let name = Bytes::copy(alloc, name)?;
    let settings = Settings {
        responses: true,
        life: 60,
    };
    let mut list = Seq::new(alloc);
    list.push(App {
        name,
        rules,
        settings,
    })?;
    Ok(Apps {
        list,
        fallback: None,
    })
}

// The generation and the rules of an answer.
fn found(look: Look<u64>) -> Option<(u64, u64)> {
    match look {
        Look::Found {
            generation,
            rules,
            ..
        } => Some((generation, rules)),
        _ => None,
    }
}

#[test]
fn another_pass_sees_what_was_published(rt: HostRuntime) -> Result<(), Fail> {
    let alloc = rt.alloc();
    let (shelf, mut pass) = SharedShelf::new(alloc, only(alloc, b"shop", 7)?)?;
    let mut other = shelf.split(&mut pass);
    let shop = Bytes::copy(alloc, b"shop")?;
    assert_eq!(rt; found(shelf.look(&rt, &mut other, shop)), Some((1, 7)));
    assert_eq!(rt;
        shelf.publish(&rt, &mut pass, only(alloc, b"mail", 8)?),
        Published::Generation(2)
    );
    let mail = Bytes::copy(alloc, b"mail")?;
    assert_eq!(rt; found(shelf.look(&rt, &mut other, mail)), Some((2, 8)));
    shelf.join(&mut pass, other);
    let closed = shelf.close(pass);
    assert_eq!(rt; found(closed.look(b"mail")), Some((2, 8)));
    Ok(())
}

// Publishes a list, and looks then for a name of it.
fn publish_and_look<W: Wait, R: Clone>(
    rt: &W,
    shelf: &SharedShelf<R>,
    mut pass: ShelfPass<R>,
    apps: Apps<R>,
    name: Bytes,
) -> (ShelfPass<R>, Published, Look<R>)
    requires { IsPassOfShelf R.is_clone shelf.now pass }
    ensures { IsPassOfShelf R.is_clone shelf.now result.0 }
{
    let published = shelf.publish(rt, &mut pass, apps);
    let look = shelf.look(rt, &mut pass, name);
    (pass, published, look)
}

fn look_once<W: Wait, R: Clone>(
    rt: &W,
    shelf: &SharedShelf<R>,
    mut pass: ShelfPass<R>,
    name: Bytes,
) -> (ShelfPass<R>, Look<R>)
    requires { IsPassOfShelf R.is_clone shelf.now pass }
    ensures { IsPassOfShelf R.is_clone shelf.now result.0 }
{
    let look = shelf.look(rt, &mut pass, name);
    (pass, look)
}

// One thread publishes a list and looks then, another looks meanwhile. Once both are joined, what
// the first got comes back with a third look.
fn publish_beside_a_look<T: Threads + Wait + Sync, R: Clone + Drop + Send>(
    rt: &T,
    shelf: SharedShelf<R>,
    pass: ShelfPass<R>,
    apps: Apps<R>,
    names: (Bytes, Bytes, Bytes),
) -> (Published, Look<R>, Look<R>)
    requires pass { IsPassOfShelf R.is_clone shelf pass }
    requires share { 1 < share_of pass }
{
    let (first_name, second_name, third_name) = names;
    let mut first = pass;
    let second = shelf.split(&mut first);
    let shared = &shelf;
    let ((mut pass, published, look), (other, _)) = join(
        rt,
        || -> (ShelfPass<R>, Published, Look<R>)
            requires { IsPassOfShelf R.is_clone shared.now first }
            ensures { IsPassOfShelf R.is_clone shared.entry.now result.0 }
        { publish_and_look(rt, shared, first, apps, first_name) },
        || -> (ShelfPass<R>, Look<R>)
            requires { IsPassOfShelf R.is_clone shared.now second }
            ensures { IsPassOfShelf R.is_clone shared.entry.now result.0 }
        { look_once(rt, shared, second, second_name) },
    );
    shelf.join(&mut pass, other);
    let last = shelf.look(rt, &mut pass, third_name);
    (published, look, last)
}

#[test]
fn who_published_on_a_thread_finds_its_list(rt: HostRuntime) -> Result<(), Fail> {
    let alloc = rt.alloc();
    let (shelf, pass) = SharedShelf::new(alloc, only(alloc, b"shop", 7)?)?;
    let names = (
        Bytes::copy(alloc, b"mail")?,
        Bytes::copy(alloc, b"shop")?,
        Bytes::copy(alloc, b"mail")?,
    );
    let apps = only(alloc, b"mail", 8)?;
    let (published, look, last) = publish_beside_a_look(&rt, shelf, pass, apps, names);
    assert_eq!(rt; published, Published::Generation(2));
    assert_eq!(rt; (found(look), found(last)), (Some((2, 8)), Some((2, 8))));
    Ok(())
}
