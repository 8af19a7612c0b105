// The index of deadlines.
use due_index::DueIndex;
use std::test::Fail;

// Two of one deadline, the lesser ticket first, and a later one; each is taken out in its turn.
#[test]
fn the_least_deadline_is_known(rt: HostRuntime) -> Result<(), Fail> {
    let mut index = DueIndex::new(rt.alloc(), 3)?;
    assert_eq!(rt; index.least(), None);
    index.add(5, 2, 0);
    index.add(5, 1, 1);
    index.add(9, 3, 2);
    assert_eq!(rt; (index.len(), index.least()), (3, Some((5, 1, 1))));
    assert_eq!(rt;
        (index.remove(1), index.remove(1), index.remove(7)),
        (Some((5, 1)), None, None)
    );
    assert_eq!(rt; index.least(), Some((5, 2, 0)));
    assert_eq!(rt;
        (index.remove(0), index.least()),
        (Some((5, 2)), Some((9, 3, 2)))
    );
    assert_eq!(rt;
        (index.remove(2), index.least(), index.len()),
        (Some((9, 3)), None, 0)
    );
    Ok(())
}
