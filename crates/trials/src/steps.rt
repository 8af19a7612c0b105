// The counter of steps.
use std::marker::Brand;
use std::mem::size_of;
use waf_plain::Steps;

// It counts for contracts, and holds no bytes.
#[test]
fn a_counter_has_no_bytes(rt: HostRuntime) {
    assert_eq!(rt; size_of::<Steps<Brand>>(), 0);
}
