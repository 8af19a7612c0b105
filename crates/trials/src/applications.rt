// The list of applications, as one thread calls it.
use shelf::{App, Apps, Look, Published, Settings, Shelf};
use std::alloc::Global;
use std::test::Fail;
use waf_plain::{Bytes, NoMemory, Seq};

// One application, and none that serves for other names.
fn only(alloc: Global, name: &[u8], rules: u64) -> Result<Apps<u64>, NoMemory> {
    let name = Bytes::copy(alloc, name)?;
    let settings = Settings {
        responses: true,
        life: 60,
    };
    let mut list = Seq::new(alloc);
    list.push(App {
        name,
        rules,
        settings,
    })?;
    Ok(Apps {
        list,
        fallback: None,
    })
}

// The generation and the rules of a name.
fn found(shelf: &Shelf<u64>, name: &[u8]) -> Option<(u64, u64)> {
    match shelf.look(name) {
        Look::Found {
            generation,
            rules,
            ..
        } => Some((generation, rules)),
        _ => None,
    }
}

#[test]
fn lists_follow_each_other(rt: HostRuntime) -> Result<(), Fail> {
    let alloc = rt.alloc();
    let mut shelf = Shelf::new(only(alloc, b"shop", 7)?);
    assert_eq!(rt; found(&shelf, b"shop"), Some((1, 7)));
    assert_eq!(rt; found(&shelf, b"mail"), None);
    assert_eq!(rt;
        shelf.publish(only(alloc, b"mail", 8)?),
        Published::Generation(2)
    );
    assert_eq!(rt; found(&shelf, b"shop"), None);
    assert_eq!(rt; found(&shelf, b"mail"), Some((2, 8)));
    Ok(())
}
