// Values of the lowest crates under bounds.
use std::alloc::{AllocError, Global};
use std::test::Fail;
use waf_plain::{Bytes, NoMemory, Seq};

// Whether a clone is equal to what it was made of.
fn clones<T: Clone + PartialEq + Drop>(value: &T) -> Result<bool, AllocError> {
    let clone = value.clone()?;
    Ok(clone == *value)
}

fn crosses_threads<T: Send + Sync>(_: &T) {}

fn two_words(alloc: Global) -> Result<Seq<Bytes>, NoMemory> {
    let mut words = Seq::new(alloc);
    words.push(Bytes::copy(alloc, b"once")?)?;
    words.push(Bytes::copy(alloc, b"rules")?)?;
    Ok(words)
}

#[test]
fn lists_under_bounds(rt: HostRuntime) -> Result<(), Fail> {
    let words = two_words(rt.alloc())?;
    let bytes = Bytes::copy(rt.alloc(), b"once")?;
    assert!(rt; clones(&words)?);
    assert!(rt; clones(&bytes)?);
    assert!(rt; words == two_words(rt.alloc())?);
    crosses_threads(&words);
    crosses_threads(&bytes);
    Ok(())
}

#[test]
fn bytes_grow_and_shrink(rt: HostRuntime) -> Result<(), Fail> {
    let alloc = rt.alloc();
    let mut bytes = Bytes::copy(alloc, b"frame")?;
    bytes.push(b's')?;
    bytes.append(b" of SPOP")?;
    assert_eq!(rt; bytes.as_slice(), b"frames of SPOP".as_slice());
    bytes.drop_front(7);
    bytes.truncate(2);
    let vector = bytes.into_vec();
    assert_eq!(rt; Bytes::from_vec(vector).as_slice(), b"of".as_slice());
    Ok(())
}

#[test]
fn a_list_is_lent(rt: HostRuntime) -> Result<(), Fail> {
    let mut list = Seq::new(rt.alloc());
    for number in [3u32, 1, 4] {
        list.push(number)?;
    }
    assert_eq!(rt; (list.get(2), list.get(3)), (Some(&4), None));
    for item in list.as_mut_slice() {
        *item = item.wrapping_add(1);
    }
    let vector = list.into_vec();
    assert_eq!(rt; Seq::from_vec(vector).as_slice(), [4u32, 2, 5].as_slice());
    Ok(())
}
