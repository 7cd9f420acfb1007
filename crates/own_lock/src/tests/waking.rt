ghost use Rattle.std.specs.Prelude.{◌≡◌, true, false};
ghost use Rattle.std.specs.Thread.{IsSync};
ghost use Rattle.own_lock.specs.Passes.{IsOf};

use super::watch::{LOOKS, Watch};
use super::{Log, last};
use crate::lock::{AWAITED, Busy, OwnLock};
use crate::pass::Pass;
use crate::places::PLACE;
use std::sync::Wait;
use std::sync::atomic::Ordering::SeqCst;
use std::test::Fail;
use std::thread::{Threads, join, sleep};
use std::time::{Clock, Duration};

// The bits of a word of those that wait, a tag, and the tag that comes next.
// Whether the pass has been woken. One that hasn't been is waited for long.
// The pass waits, as far as the lock knows. It says whether it found the log taken. What it takes it gives back.
fn waits(lock: &OwnLock<Log>, pass: &mut Pass<Log>) -> bool
    requires of { IsOf lock.now pass.old }
    requires idle { pass.old.holds ≡ false }
    ensures of { IsOf lock.now pass.new }
    ensures idle { pass.new.holds ≡ false }
{
    lock.waiters.enter(pass.tag());
    match lock.press(pass) {
        Ok(held) => {
            lock.give(pass, held);
            false
        }
        Err(Busy) => true,
    }
}

// The second pass holds the log while the others wait, and gives it back. It says whether the third one was woken
// then, and whether the first one was, once the third one took the log and gave it back.
// The lock's word.
fn word_of(lock: &OwnLock<Log>) -> u64 {
    lock.table.shared.peek(PLACE)
}

// The words that are left where one pass tries and holds, another tries, the other waits, the first gives the log back, and
// the other takes it as one that waits does.
// The word while the pass holds the log that it took as one that waits does.
// The bits of those that wait.
fn waiting_at(lock: &OwnLock<Log>) -> u64 {
    lock.waiters.waiting.load(SeqCst)
}

// Whether those passes come to wait before long, and have left word: a bit for each, by its tag.
fn come_to_wait<R: Clock>(rt: &R, lock: &OwnLock<Log>, waiting: u64) -> bool {
    for _ in 0..LOOKS {
        if waiting_at(lock) == waiting && word_of(lock) == AWAITED {
            return true;
        }
        sleep(rt, Duration::from_millis(1));
    }
    false
}

// Takes the log and gives it back once those passes wait. It says whether they came to wait, and whether the log was taken
// as often then without help.
fn hold_until_awaited<R: Wait + Clock>(
    rt: &R,
    lock: &OwnLock<Log>,
    mut pass: Pass<Log>,
    waiting: u64,
    takings: u64,
    watch: &Watch,
) -> (bool, bool)
    requires of { IsOf lock.now pass }
    requires idle { pass.holds ≡ false }
{
    let held = lock.take(rt, &mut pass);
    watch.tell();
    let wait = come_to_wait(rt, lock, waiting);
    lock.give(&mut pass, held);
    (wait, watch.comes(rt, takings))
}

// Takes the log after the other pass.
fn take_second<R: Wait + Clock>(rt: &R, lock: &OwnLock<Log>, mut pass: Pass<Log>, watch: &Watch)
    requires of { IsOf lock.now pass }
    requires idle { pass.holds ≡ false }
{
    let _ = watch.comes(rt, 1);
    let held = lock.take(rt, &mut pass);
    watch.tell();
    lock.give(&mut pass, held);
}

fn wait_in_a_thread<R: Threads + Wait + Clock + Sync>(
    rt: &R,
    lock: &OwnLock<Log>,
    a: Pass<Log>,
    b: Pass<Log>,
    watch: &Watch,
) -> (bool, bool)
    requires a { IsOf lock.now a × (a.holds ≡ false) }
    requires b { IsOf lock.now b × (b.holds ≡ false) }
{
    let (done, ()) = join(
        rt,
        move || -> (bool, bool)
            requires { IsSync R.row × IsOf lock.now a × (a.holds ≡ false) }
        { hold_until_awaited(rt, lock, a, 0b10, 2, watch) },
        move || -> ()
            requires { IsSync R.row × IsOf lock.now b × (b.holds ≡ false) }
        { take_second(rt, lock, b, watch) },
    );
    done
}

#[test]
fn a_pass_that_waits_is_woken(rt: HostRuntime) -> Result<(), Fail> {
    let (lock, mut passes) = OwnLock::open(rt.alloc(), Log::new(rt.alloc(), 7), 2)?;
    let watch = Watch::new(rt.alloc(), &passes)?;
    let b = last(&lock, &mut passes).ok_or("two")?;
    let a = last(&lock, &mut passes).ok_or("two")?;
    let (waits, woken) = wait_in_a_thread(&rt, &lock, a, b, &watch);
    assert!(rt; waits, "a pass waits and doesn't tell");
    assert!(rt; woken, "a pass waits that nobody wakes");
    assert_eq!(rt; waiting_at(&lock), 0);
    Ok(())
}

fn take_in_two_threads<R: Threads + Wait + Clock + Sync>(
    rt: &R,
    lock: &OwnLock<Log>,
    b: Pass<Log>,
    c: Pass<Log>,
    watch: &Watch,
)
    requires b { IsOf lock.now b × (b.holds ≡ false) }
    requires c { IsOf lock.now c × (c.holds ≡ false) }
{
    let ((), ()) = join(
        rt,
        move || -> ()
            requires { IsSync R.row × IsOf lock.now b × (b.holds ≡ false) }
        { take_second(rt, lock, b, watch) },
        move || -> ()
            requires { IsSync R.row × IsOf lock.now c × (c.holds ≡ false) }
        { take_second(rt, lock, c, watch) },
    );
}

fn wait_in_two_threads<R: Threads + Wait + Clock + Sync>(
    rt: &R,
    lock: &OwnLock<Log>,
    a: Pass<Log>,
    b: Pass<Log>,
    c: Pass<Log>,
    watch: &Watch,
) -> (bool, bool)
    requires a { IsOf lock.now a × (a.holds ≡ false) }
    requires b { IsOf lock.now b × (b.holds ≡ false) }
    requires c { IsOf lock.now c × (c.holds ≡ false) }
{
    let (done, ()) = join(
        rt,
        move || -> (bool, bool)
            requires { IsSync R.row × IsOf lock.now a × (a.holds ≡ false) }
        { hold_until_awaited(rt, lock, a, 0b110, 3, watch) },
        move || -> ()
            requires { IsSync R.row × IsOf lock.now b × (b.holds ≡ false) × IsOf lock.now c × (c.holds ≡ false) }
        { take_in_two_threads(rt, lock, b, c, watch) },
    );
    done
}

// One that is woken leaves word for the other as it takes the log: else nobody would wake that one.
#[test]
fn one_that_was_woken_wakes_the_other(rt: HostRuntime) -> Result<(), Fail> {
    let (lock, mut passes) = OwnLock::open(rt.alloc(), Log::new(rt.alloc(), 7), 3)?;
    let watch = Watch::new(rt.alloc(), &passes)?;
    let c = last(&lock, &mut passes).ok_or("three")?;
    let b = last(&lock, &mut passes).ok_or("three")?;
    let a = last(&lock, &mut passes).ok_or("three")?;
    let (wait, woken) = wait_in_two_threads(&rt, &lock, a, b, c, &watch);
    assert!(rt; wait, "two passes wait and don't tell");
    assert!(rt; woken, "a pass waits that nobody wakes");
    assert_eq!(rt; waiting_at(&lock), 0);
    Ok(())
}

// Wakes the pass with the tag 0, which waits, while this one, with the tag 1, holds the log and nobody has left word. It
// says whether that one leaves word again, and whether it took the log in the end without help. The giving back before
// wakes the tag 2, which doesn't wait in truth, so that the one that does goes on sleeping.
fn wake_in_vain<R: Wait + Clock>(
    rt: &R,
    lock: &OwnLock<Log>,
    mut pass: Pass<Log>,
    watch: &Watch,
) -> (bool, bool)
    requires of { IsOf lock.now pass }
    requires idle { pass.holds ≡ false }
{
    let held = lock.take(rt, &mut pass);
    watch.tell();
    let waits = come_to_wait(rt, lock, 0b1);
    lock.waiters.enter(2);
    lock.give(&mut pass, held);
    lock.waiters.leave(2);
    let Ok(held) = lock.try_take(&mut pass) else {
        return (false, watch.comes(rt, 2));
    };
    watch.wake(0);
    let again = come_to_wait(rt, lock, 0b1);
    lock.give(&mut pass, held);
    (waits && again, watch.comes(rt, 2))
}

fn wake_in_vain_beside<R: Threads + Wait + Clock + Sync>(
    rt: &R,
    lock: &OwnLock<Log>,
    a: Pass<Log>,
    b: Pass<Log>,
    watch: &Watch,
) -> (bool, bool)
    requires a { IsOf lock.now a × (a.holds ≡ false) }
    requires b { IsOf lock.now b × (b.holds ≡ false) }
{
    let (done, ()) = join(
        rt,
        move || -> (bool, bool)
            requires { IsSync R.row × IsOf lock.now b × (b.holds ≡ false) }
        { wake_in_vain(rt, lock, b, watch) },
        move || -> ()
            requires { IsSync R.row × IsOf lock.now a × (a.holds ≡ false) }
        { take_second(rt, lock, a, watch) },
    );
    done
}

// A pass that is woken and finds the log taken leaves word before it sleeps again.
#[test]
fn one_that_was_woken_in_vain_leaves_word_again(rt: HostRuntime) -> Result<(), Fail> {
    let (lock, mut passes) = OwnLock::open(rt.alloc(), Log::new(rt.alloc(), 7), 3)?;
    let watch = Watch::new(rt.alloc(), &passes)?;
    let _idle = last(&lock, &mut passes).ok_or("three")?;
    let b = last(&lock, &mut passes).ok_or("three")?;
    let a = last(&lock, &mut passes).ok_or("three")?;
    let (leaves_word, woken) = wake_in_vain_beside(&rt, &lock, a, b, &watch);
    assert!(rt; leaves_word, "a pass sleeps again and doesn't tell");
    assert!(rt; woken, "a pass waits that nobody wakes");
    assert_eq!(rt; waiting_at(&lock), 0);
    Ok(())
}
