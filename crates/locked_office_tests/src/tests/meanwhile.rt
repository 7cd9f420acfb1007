//! A pass that waits while another has the office.

ghost use Rattle.std.specs.Prelude.{◌≡◌, false, true};
ghost use Rattle.std.specs.Thread.{IsSync};
ghost use Rattle.own_lock.specs.Passes.{IsOf};
ghost use Rattle.locked_office.specs.refinement.Holding.{Holds};

use super::{PAIR, last, opened, tags};
use locked_office::Desk;
use locked_office::laws::threads_share_a_desk;
use office_map::OfficeId;
use own_lock::{Held, Pass};
use site_core::Office;
use site_core::laws::{an_office_crosses_threads, steps_add_their_entry};
use std::sync::Wait;
use std::sync::atomic::AtomicBool;
use std::sync::atomic::Ordering::SeqCst;
use std::test::Fail;
use std::thread::{Threads, join, sleep};
use std::time::{Clock, Duration};

/// For how many milliseconds the office is held, so that the other pass comes, tries a while, and waits.
const HOLDING: u64 = 200;

/// How often it is looked whether the office is taken, a millisecond apart.
const LOOKS: u32 = 10_000;

/// Makes a frame while the pass holds the office, and gives the office back a while later.
fn send_and_give<R: Wait + Clock>(
    rt: &R,
    desk: &Desk,
    pass: &mut Pass<Office>,
    mut held: Held<Office>,
)
    requires { Holds desk.now pass.old held }
    ensures { IsOf desk.now pass.new × (pass.new.holds ≡ false) }
{
    steps_add_their_entry();
    let _ = held.state().send(pass.tag(), OfficeId::new(1), 0);
    sleep(rt, Duration::from_millis(HOLDING));
    let _ = held.get().journal();
    desk.lock().give(pass, held);
}

/// Takes the office, tells so, and adds an entry before it gives the office back.
fn hold<R: Wait + Clock>(rt: &R, desk: &Desk, mut pass: Pass<Office>, taken: &AtomicBool)
    requires { IsOf desk.now pass × (pass.holds ≡ false) }
{
    let held = desk.lock().take(rt, &mut pass);
    taken.store(true, SeqCst);
    send_and_give(rt, desk, &mut pass, held);
}

/// Asks for the journal once the office is taken. It says how many entries of each tag there are.
fn ask_meanwhile<R: Wait + Clock>(
    rt: &R,
    desk: &Desk,
    mut pass: Pass<Office>,
    taken: &AtomicBool,
) -> [u32; 4]
    requires { IsOf desk.now pass × (pass.holds ≡ false) }
{
    for _ in 0..LOOKS {
        if taken.load(SeqCst) {
            break;
        }
        sleep(rt, Duration::from_millis(1));
    }
    tags(rt, desk, &mut pass, 10).unwrap_or([0; 4])
}

fn in_two_threads<R: Threads + Wait + Clock + Sync>(
    rt: &R,
    desk: &Desk,
    a: Pass<Office>,
    b: Pass<Office>,
    taken: &AtomicBool,
) -> [u32; 4]
    requires a { IsOf desk.now a × (a.holds ≡ false) }
    requires b { IsOf desk.now b × (b.holds ≡ false) }
{
    an_office_crosses_threads();
    threads_share_a_desk();
    let ((), told) = join(
        rt,
        move || -> ()
            requires { IsSync R.row × IsOf desk.now a × (a.holds ≡ false) }
        { hold(rt, desk, a, taken) },
        move || -> [u32; 4]
            requires { IsSync R.row × IsOf desk.now b × (b.holds ≡ false) }
        { ask_meanwhile(rt, desk, b, taken) },
    );
    told
}

/// What a pass is told that waited begins with what was given.
#[test]
fn who_waits_is_told_what_was_given(rt: HostRuntime) -> Result<(), Fail> {
    let (desk, mut passes) = opened(rt.alloc(), PAIR, 2)?;
    let taken = AtomicBool::new(false);
    let b = last(&desk, &mut passes).ok_or("two")?;
    let a = last(&desk, &mut passes).ok_or("two")?;
    assert_eq!(rt; in_two_threads(&rt, &desk, a, b, &taken), [1, 0, 0, 0]);
    Ok(())
}
