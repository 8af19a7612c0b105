ghost use Rattle.std.specs.Prelude.{◌≡◌, ℕ, ◌+◌, ◌%◌, ◌^◌, [], IfOk};
ghost use Rattle.turn_lock.specs.Lock.{own_of, share_of};
ghost use Rattle.turn_lock.specs.Numbers.{Answers, Draws, HasDrawn, moved, once_below, times};

use crate::{Object, Pass, TurnLock};
use std::alloc::Global;
use std::marker::Model;
use std::sync::Wait;
use std::test::Fail;
use std::thread::{Threads, join};
use waf_plain::NoMemory;

// A source of numbers. A call draws the next one, and none once the numbers are used up.
#[derive(Drop)]
struct Source {
    next: u64,
}

impl Model for Source {
    ghost use Rattle.std.specs.Prelude.{ℕ};

    ghost Value = { ℕ };

    ghost view = { λ s. s.next };
}

impl Object for Source {
    type Call = ();

    type Reply = Option<u64>;

    ghost starts = { λ s. s ≡ 0 };

    ghost may = { λ s c. Unit {0} };

    ghost allows = { λ s c r. Answers s r };

    ghost after = { λ s c r. moved s r };

    ghost fits = { λ own c. Unit {0} };

    ghost kept = { λ s lists. Unit {0} };

    fn act(&mut self, _: ()) -> Option<u64> {
        if self.next == u64::MAX {
            return None;
        }
        let number = self.next;
        self.next = number + 1;
        Some(number)
    }

    ghost kept_first = { λ s h. tt };

    ghost kept_call = { λ s lists i own c r k at f m a. tt };

    ghost kept_new = { λ s lists k. tt };

    ghost kept_join = { λ s lists i j xs ys zs k a n b z. tt };

    ghost may_fitting = { λ s lists i own c k at f. tt };
}

// Draws numbers through a new pass, as many as there are and room is kept for.
fn draw_all<R: Wait>(
    rt: &R,
    lock: &TurnLock<Source>,
    mut pass: Pass<Source>,
    room: Vec<u64>,
) -> (Pass<Source>, Vec<u64>)
    requires { Draws lock.now pass × (own_of pass ≡ []) × (room.items ≡ []) }
    ensures share { share_of result.0 ≡ share_of pass }
    ensures drawn { HasDrawn lock.now result.0 result.1.items }
{
    let mut numbers = room;
    for _ in 0..numbers.capacity() {
        if numbers.len() >= numbers.capacity() {
            break;
        }
        match lock.act(rt, &mut pass, ()) {
            Some(number) => numbers.push_reserved(number),
            None => break,
        }
    }
    (pass, numbers)
}

// Two threads draw `each` numbers at most. The next number comes back, with what each drew.
fn draw_side_by_side<R: Threads + Wait + Sync>(
    rt: &R,
    alloc: Global,
    each: usize,
) -> Result<(u64, Vec<u64>, Vec<u64>), NoMemory>
    ensures { IfOk result (λ t. (x : ℕ) → times x t.1.items + times x t.2.items ≡ once_below x t.0) }
{
    let left_room = Vec::with_capacity(alloc, each)?;
    let right_room = Vec::with_capacity(alloc, each)?;
    let (lock, mut first) = TurnLock::new(alloc, Source { next: 0 })?;
    let second = lock.split(&mut first);
    let shared = &lock;
    let ((mut pass, left), (other, right)) = join(
        rt,
        || -> (Pass<Source>, Vec<u64>)
            requires { Draws shared.now first × (own_of first ≡ []) × (left_room.items ≡ []) }
            ensures { HasDrawn shared.entry.now result.0 result.1.items × (share_of result.0 ≡ share_of first) }
        { draw_all(rt, shared, first, left_room) },
        || -> (Pass<Source>, Vec<u64>)
            requires { Draws shared.now second × (own_of second ≡ []) × (right_room.items ≡ []) }
            ensures { HasDrawn shared.entry.now result.0 result.1.items × (share_of result.0 ≡ share_of second) }
        { draw_all(rt, shared, second, right_room) },
    );
    lock.join(&mut pass, other);
    Ok((lock.close(pass).next, left, right))
}

#[test]
fn no_number_comes_twice(rt: HostRuntime) -> Result<(), Fail> {
    let (next, left, right) = draw_side_by_side(&rt, rt.alloc(), 1000)?;
    assert_eq!(rt; (next, left.len(), right.len()), (2000, 1000, 1000));
    Ok(())
}

fn needs_send<T: Send>() {}

fn needs_sync<T: Sync>() {}

// An object round a value of any type, of which it tells only how often it was asked.
#[derive(Drop)]
struct Keeper<P> {
    value: P,
    asked: u64,
}

enum Ask {
    Count,
}

impl<P> Object for Keeper<P> {
    type Call = Ask;

    type Reply = u64;

    ghost starts = { λ k. Unit {0} };

    ghost may = { λ k c. Unit {0} };

    ghost allows = { λ k c r. r ≡ k.asked };

    ghost after = { λ k c r. record k { asked = (r + 1) % 2 ^ 64 } };

    ghost fits = { λ own c. Unit {0} };

    ghost kept = { λ k lists. Unit {0} };

    fn act(&mut self, call: Ask) -> u64 {
        let Ask::Count = call;
        let before = self.asked;
        self.asked = before.wrapping_add(1);
        before
    }

    ghost kept_first = { λ s h. tt };

    ghost kept_call = { λ s lists i own c r k at f m a. tt };

    ghost kept_new = { λ s lists k. tt };

    ghost kept_join = { λ s lists i j xs ys zs k a n b z. tt };

    ghost may_fitting = { λ s lists i own c k at f. tt };
}

// Several locks and a pass of each, as a struct above may hold them.
#[derive(Drop)]
struct Locks<L> {
    locks: Vec<L>,
}

#[derive(Drop)]
struct Passes<S> {
    passes: Vec<S>,
}

type Keepers<P> = Locks<TurnLock<Keeper<P>>>;

type KeeperPasses<P> = Passes<Pass<Keeper<P>>>;

struct Desk<H, S> {
    keepers: H,
    source: S,
}

// What is shared among threads, and what each of them owns.
fn crosses_threads<P: Send>() {
    needs_sync::<TurnLock<Keeper<P>>>();
    needs_send::<TurnLock<Keeper<P>>>();
    needs_send::<Pass<Keeper<P>>>();
    needs_sync::<Keepers<P>>();
    needs_send::<Desk<KeeperPasses<P>, Pass<Source>>>();
}

#[test]
fn a_lock_is_shared_and_a_pass_is_sent(_rt: HostRuntime) {
    needs_sync::<TurnLock<Source>>();
    needs_send::<TurnLock<Source>>();
    needs_send::<Pass<Source>>();
    crosses_threads::<u64>();
}
