ghost use Rattle.std.specs.Prelude.{◌≡◌};

use crate::{Shift, serve_all};
use std::sync::Wait;

// Leaves in the door and the member what the other had, and the number.
#[derive(Drop)]
struct Swapped;

impl Shift<u32, u64> for Swapped {
    ghost is_open = { λ s d. Unit {0} };

    ghost is_ready = { λ s m. Unit {0} };

    ghost did = { λ s number d e m n. (e ≡ number) × (n ≡ d) };

    fn serve<W: Wait>(&self, _rt: &W, number: u32, door: &mut u32, member: &mut u64)
        ensures { (door.new ≡ number) × (member.new ≡ door.old) }
    {
        *member = u64::from(*door);
        *door = number;
    }
}

#[test]
fn each_member_serves_its_own_door(rt: HostRuntime) {
    let mut doors = [10, 11, 12, 13, 14];
    let mut members = [0; 5];
    serve_all(&rt, &Swapped, 7, &mut doors, &mut members);
    assert_eq!(rt; doors, [7, 8, 9, 10, 11]);
    assert_eq!(rt; members, [10, 11, 12, 13, 14]);
}
