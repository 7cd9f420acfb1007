ghost use Rattle.std.specs.Prelude.{◌≡◌, ◌++◌, ◌∷◌, [], true, false, length, IfOk, IfErr, IfSome};
ghost use Rattle.std.specs.Thread.{IsSync};
ghost use Rattle.own_lock.specs.Passes.{IsOf, AreIdle};

use super::*;
use std::alloc::{AllocError, Global};
use std::process::Abort;
use std::sync::Wait;
use std::test::Fail;
use std::thread::{Threads, join, sleep};
use std::time::{Clock, Duration};
use watch::Watch;

mod waking;
mod watch;

#[derive(Clone, Copy, Debug, PartialEq)]
struct Entry {
    tag: u8,
    number: u32,
}

// Numbers, each with the tag of the pass that added it, and how many there are.
#[derive(Drop)]
struct Log {
    owner: u8,
    entries: Vec<Entry>,
    count: usize,
}

impl Kept for Log {
    type Key = u8;

    type Entry = Entry;

    ghost key = { λ log. log.owner };

    ghost entries = { λ log. log.entries.items };

    ghost tag_of = { λ entry. entry.tag };

    ghost fits = { λ log. log.count ≡ length log.entries.items };
}

impl Log {
    fn new(alloc: Global, owner: u8) -> Log
        ensures owner { result.owner ≡ owner }
        ensures empty { result.entries.items ≡ [] }
        ensures count { result.count ≡ length result.entries.items }
    {
        Log {
            owner,
            entries: Vec::new(alloc),
            count: 0,
        }
    }

    fn add(&mut self, tag: u8, number: u32) -> Result<(), AllocError>
        ensures owner { self.new.owner ≡ self.old.owner }
        ensures count { self.new.count ≡ length self.new.entries.items }
        ensures ok { IfOk result (λ _. self.new.entries.items ≡ self.old.entries.items ++ record { tag = tag; number = number } ∷ []) }
        ensures err { IfErr result (λ _. self.new.entries.items ≡ self.old.entries.items) }
    {
        let Ok(()) = self.entries.push(Entry { tag, number }) else {
            self.count = self.entries.len();
            return Err(AllocError);
        };
        self.count = self.entries.len();
        Ok(())
    }

    // The numbers with this tag are those from 0 on, as many as count.
    fn counts(&self, tag: u8, count: u32) -> bool {
        let mut next = 0;
        for entry in self.entries.as_slice() {
            if entry.tag == tag {
                if entry.number != next {
                    return false;
                }
                next = next.saturating_add(1);
            }
        }
        next == count
    }
}

// Adds a number to the log that the pass took, and gives the log back.
fn add_held(
    lock: &OwnLock<Log>,
    pass: &mut Pass<Log>,
    mut held: Held<Log>,
    number: u32,
) -> Result<(), AllocError>
    requires of { IsOf lock.now pass.old }
    requires holds { pass.old.holds ≡ true }
    requires key { held.owner ≡ lock.now.key }
    requires seen { held.entries.items ≡ pass.old.seen }
    ensures of { IsOf lock.now pass.new }
    ensures idle { pass.new.holds ≡ false }
    ensures ok { IfOk result (λ _. pass.new.mine ≡ pass.old.mine ++ record { tag = pass.old.tag; number = number } ∷ []) }
    ensures err { IfErr result (λ _. pass.new.mine ≡ pass.old.mine) }
{
    let done = held.state().add(pass.tag(), number);
    lock.give(pass, held);
    done
}

// Adds the numbers from 0 on, and holds the log for a millisecond now and then, so that others wait.
fn add_all<R: Wait + Clock>(
    rt: &R,
    lock: &OwnLock<Log>,
    mut pass: Pass<Log>,
    count: u32,
    watch: &Watch,
) -> Pass<Log>
    requires of { IsOf lock.now pass }
    requires idle { pass.holds ≡ false }
    ensures { IsOf lock.entry.now result × (result.holds ≡ false) }
{
    for number in 0..count {
        let held = lock.take(rt, &mut pass);
        if number % 50 == 0 {
            sleep(rt, Duration::from_millis(1));
        }
        let _ = add_held(lock, &mut pass, held, number);
        watch.tell();
    }
    pass
}

// Whether the pass finds the log taken. What it takes it gives back.
fn is_busy(lock: &OwnLock<Log>, pass: &mut Pass<Log>) -> bool
    requires of { IsOf lock.now pass.old }
    requires idle { pass.old.holds ≡ false }
    ensures of { IsOf lock.now pass.new }
    ensures idle { pass.new.holds ≡ false }
{
    match lock.try_take(pass) {
        Ok(held) => {
            lock.give(pass, held);
            false
        }
        Err(Busy) => true,
    }
}

fn add_in_two_threads<R: Threads + Wait + Clock + Sync>(
    rt: &R,
    lock: &OwnLock<Log>,
    a: Pass<Log>,
    b: Pass<Log>,
    count: u32,
    watch: &Watch,
) -> (Pass<Log>, Pass<Log>)
    requires a { IsOf lock.now a × (a.holds ≡ false) }
    requires b { IsOf lock.now b × (b.holds ≡ false) }
    ensures a { IsOf lock.entry.now result.0 × (result.0.holds ≡ false) }
    ensures b { IsOf lock.entry.now result.1 × (result.1.holds ≡ false) }
{
    join(
        rt,
        move || -> Pass<Log>
            requires { IsSync R.row × IsOf lock.now a × (a.holds ≡ false) }
            ensures { IsOf lock.entry.now result × (result.holds ≡ false) }
        { add_all(rt, lock, a, count, watch) },
        move || -> Pass<Log>
            requires { IsSync R.row × IsOf lock.now b × (b.holds ≡ false) }
            ensures { IsOf lock.entry.now result × (result.holds ≡ false) }
        { add_all(rt, lock, b, count, watch) },
    )
}

fn add_two_and_two<R: Threads + Wait + Clock + Sync>(
    rt: &R,
    lock: &OwnLock<Log>,
    a: Pass<Log>,
    b: Pass<Log>,
    c: Pass<Log>,
    d: Pass<Log>,
    count: u32,
    watch: &Watch,
) -> ((Pass<Log>, Pass<Log>), (Pass<Log>, Pass<Log>))
    requires a { IsOf lock.now a × (a.holds ≡ false) }
    requires b { IsOf lock.now b × (b.holds ≡ false) }
    requires c { IsOf lock.now c × (c.holds ≡ false) }
    requires d { IsOf lock.now d × (d.holds ≡ false) }
    ensures a { IsOf lock.entry.now result.0.0 × (result.0.0.holds ≡ false) }
    ensures b { IsOf lock.entry.now result.0.1 × (result.0.1.holds ≡ false) }
    ensures c { IsOf lock.entry.now result.1.0 × (result.1.0.holds ≡ false) }
    ensures d { IsOf lock.entry.now result.1.1 × (result.1.1.holds ≡ false) }
{
    join(
        rt,
        move || -> (Pass<Log>, Pass<Log>)
            requires { IsSync R.row × IsOf lock.now a × (a.holds ≡ false) × IsOf lock.now b × (b.holds ≡ false) }
            ensures { IsOf lock.entry.now result.0 × (result.0.holds ≡ false) × IsOf lock.entry.now result.1 × (result.1.holds ≡ false) }
        { add_in_two_threads(rt, lock, a, b, count, watch) },
        move || -> (Pass<Log>, Pass<Log>)
            requires { IsSync R.row × IsOf lock.now c × (c.holds ≡ false) × IsOf lock.now d × (d.holds ≡ false) }
            ensures { IsOf lock.entry.now result.0 × (result.0.holds ≡ false) × IsOf lock.entry.now result.1 × (result.1.holds ≡ false) }
        { add_in_two_threads(rt, lock, c, d, count, watch) },
    )
}

// The last of the passes.
fn last(lock: &OwnLock<Log>, passes: &mut Vec<Pass<Log>>) -> Option<Pass<Log>>
    requires { AreIdle lock.now passes.old.items }
    ensures rest { AreIdle lock.now passes.new.items }
    ensures last { IfSome result (λ pass. IsOf lock.now pass × (pass.holds ≡ false)) }
{
    passes.pop()
}

// One adds 5 and the other 6, and they meet.
// While one holds the state the other finds it taken, at a try and at the end.
fn find_taken<R: Abort>(rt: &R, lock: OwnLock<Log>, mut a: Pass<Log>, mut b: Pass<Log>)
    requires a { IsOf lock a × (a.holds ≡ false) }
    requires b { IsOf lock b × (b.holds ≡ false) }
{
    let Ok(held) = lock.try_take(&mut a) else {
        panic!(rt; "nobody held it");
    };
    assert!(rt; is_busy(&lock, &mut b));
    lock.give(&mut a, held);
    assert!(rt; !is_busy(&lock, &mut b));
    let Ok(held) = lock.try_take(&mut a) else {
        panic!(rt; "it was given back");
    };
    assert!(rt; lock.close(b).is_none());
    assert_eq!(rt; held.into_boxed().into_state().count, 0);
}

#[test]
fn busy_and_none_come_with_a_holder(rt: HostRuntime) -> Result<(), Fail> {
    let (lock, mut passes) = OwnLock::open(rt.alloc(), Log::new(rt.alloc(), 7), 2)?;
    let b = last(&lock, &mut passes).ok_or("two")?;
    let a = last(&lock, &mut passes).ok_or("two")?;
    find_taken(&rt, lock, a, b);
    let busy = format!(in rt.alloc(); "{Busy}")?;
    assert_eq!(rt; busy.as_str(), "Busy");
    Ok(())
}

// Each of the passes adds as many, two and two side by side, while another thread watches them. It says whether
// they came to their end without help.
fn add_in_four_threads<R: Threads + Wait + Clock + Sync>(
    rt: &R,
    lock: OwnLock<Log>,
    a: Pass<Log>,
    b: Pass<Log>,
    c: Pass<Log>,
    d: Pass<Log>,
    count: u32,
    watch: &Watch,
) -> (Option<Log>, bool)
    requires a { IsOf lock a × (a.holds ≡ false) }
    requires b { IsOf lock b × (b.holds ≡ false) }
    requires c { IsOf lock c × (c.holds ≡ false) }
    requires d { IsOf lock d × (d.holds ≡ false) }
{
    let shared = &lock;
    let (((a, b), (c, mut d)), by_themselves) = join(
        rt,
        move || -> ((Pass<Log>, Pass<Log>), (Pass<Log>, Pass<Log>))
            requires { IsSync R.row × IsOf shared.now a × (a.holds ≡ false) × IsOf shared.now b × (b.holds ≡ false) × IsOf shared.now c × (c.holds ≡ false) × IsOf shared.now d × (d.holds ≡ false) }
            ensures { IsOf shared.entry.now result.0.0 × (result.0.0.holds ≡ false) × IsOf shared.entry.now result.0.1 × (result.0.1.holds ≡ false) × IsOf shared.entry.now result.1.0 × (result.1.0.holds ≡ false) × IsOf shared.entry.now result.1.1 × (result.1.1.holds ≡ false) }
        { add_two_and_two(rt, shared, a, b, c, d, count, watch) },
        move || watch.comes(rt, 4 * count as u64),
    );
    lock.meet(a, &mut d);
    lock.meet(b, &mut d);
    lock.meet(c, &mut d);
    (lock.close(d), by_themselves)
}

#[test]
fn each_pass_adds_once_and_in_order(rt: HostRuntime) -> Result<(), Fail> {
    let (lock, mut passes) = OwnLock::open(rt.alloc(), Log::new(rt.alloc(), 7), 4)?;
    let watch = Watch::new(rt.alloc(), &passes)?;
    let d = last(&lock, &mut passes).ok_or("four")?;
    let c = last(&lock, &mut passes).ok_or("four")?;
    let b = last(&lock, &mut passes).ok_or("four")?;
    let a = last(&lock, &mut passes).ok_or("four")?;
    let (log, by_themselves) = add_in_four_threads(&rt, lock, a, b, c, d, 1000, &watch);
    assert!(rt; by_themselves, "a pass waits that nobody wakes");
    let log = log.ok_or("free")?;
    assert_eq!(rt; log.entries.len(), 4000);
    for tag in 0..4 {
        assert!(rt; log.counts(tag, 1000));
    }
    Ok(())
}
