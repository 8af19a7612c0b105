ghost use Rattle.std.specs.Prelude.{◌≡◌, ◌+◌, ◌≤◌, ◌^◌, length};
ghost use Rattle.std.specs.List.{All};
ghost use Rattle.std.specs.Thread.{IsSync};
ghost use Rattle.crew.specs.Served.{Each};
ghost use denote.Param.Send.{IsSend};

use crate::Shift;
use std::sync::Wait;
use std::thread::{Threads, join_mut};

/// Runs the k-th member at the k-th door, side by side where the machine gives threads, and returns when all have done.
/// The first member has this number, and each further one the next.
pub fn serve_all<R: Threads + Wait + Sync, D: Send, M: Send, T: Shift<D, M> + Sync>(
    rt: &R,
    shift: &T,
    first: u32,
    doors: &mut [D],
    members: &mut [M],
)
    requires count { length doors.old ≡ length members.old }
    requires numbers { first + length doors.old ≤ 2 ^ 32 }
    requires open { All (T.is_open shift.now) doors.old }
    requires ready { All (T.is_ready shift.now) members.old }
    ensures { Each (T.did shift.now) first doors.old doors.new members.old members.new }
{
    if doors.is_empty() {
        return;
    }
    if doors.len() == 1 {
        shift.serve(rt, first, &mut doors[0], &mut members[0]);
        return;
    }
    let half = doors.len() / 2;
    let second = first + half as u32;
    let (left_doors, right_doors) = doors.split_at_mut(half);
    let (left, right) = members.split_at_mut(half);
    join_mut(
        rt,
        &mut ||
            requires { IsSync R.row × IsSync T.row × IsSend D.row × IsSend M.row
                × (length left_doors.now ≡ length left.now) × (first + length left_doors.now ≤ 2 ^ 32)
                × All (T.is_open shift.now) left_doors.now × All (T.is_ready shift.now) left.now }
            ensures { Each (T.did shift.entry.now) first
                left_doors.entry.now left_doors.exit.now left.entry.now left.exit.now }
        { serve_all(rt, shift, first, left_doors, left) },
        &mut ||
            requires { IsSync R.row × IsSync T.row × IsSend D.row × IsSend M.row
                × (length right_doors.now ≡ length right.now) × (second + length right_doors.now ≤ 2 ^ 32)
                × All (T.is_open shift.now) right_doors.now × All (T.is_ready shift.now) right.now }
            ensures { Each (T.did shift.entry.now) second
                right_doors.entry.now right_doors.exit.now right.entry.now right.exit.now }
        { serve_all(rt, shift, second, right_doors, right) },
    );
}
