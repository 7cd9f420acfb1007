//! What is asked at an office's desk.

ghost use Rattle.std.specs.Prelude.{◌≡◌, false, true, drop, IfErr, IfOk, OnErr};
ghost use Rattle.std.specs.String.{string_bytes};
ghost use Rattle.own_lock.specs.Entries.{AddsOnly};
ghost use Rattle.own_lock.specs.Passes.{IsOf};
ghost use Rattle.site_core.specs.Journals.{IsLegal};
ghost use Rattle.locked_office.specs.Calls.{Did, Does, Stays, tag_of};
ghost use Rattle.locked_office.specs.refinement.Holding.{GivesBack, Holds};
ghost use Rattle.serving.specs.answers.Answers.{Answered, Lacks};
ghost use Rattle.serving.specs.Rounds.{AnswersFirst, StopsAnswering};
ghost use Rattle.serving.specs.refinement.Asking.{Asks};

use crate::answers::{Lack, answer};
use locked_office::Desk;
use own_lock::{Held, OwnLock, Pass};
use session_reports::form::Form;
use session_streams::requests::Asked;
use site_core::Office;
use site_core::laws::steps_add_their_entry;
use std::alloc::{AllocError, Global};
use std::collections::VecDeque;
use std::sync::Wait;

/// Answers what was asked, in order, until the office's queue is full or nothing is left. The lines that say so are added. From the
/// place that is handed in on a ticket that was given is looked for first; no answer hangs on it. Each line is made apart.
///
/// # Errors
/// `JournalFull` or `Memory`, where there is no room for a session. Of what was answered the lines are there.
pub(crate) fn answer_some<R: Wait>(
    rt: &R,
    alloc: Global,
    form: Form,
    desk: &Desk,
    pass: &mut Pass<Office>,
    waiting: &mut VecDeque<Asked>,
    from: &mut usize,
    line: &mut String,
    text: &mut String,
) -> Result<(), Lack>
    requires of { IsOf desk.now pass.old }
    requires idle { pass.old.holds ≡ false }
    ensures stays { Stays desk.now pass.old pass.new }
    ensures answers { IfOk result (λ _. AnswersFirst form pass.old.tag desk.now.key pass.old pass.new waiting.old.items waiting.new.items (string_bytes text.old) (string_bytes text.new)) }
    ensures stops { IfErr result (λ lack. StopsAnswering form pass.old.tag desk.now.key pass.old pass.new waiting.old.items lack (string_bytes text.old) (string_bytes text.new)) }
{
    while let Some(first) = waiting.front() {
        match ask_and_say(rt, alloc, form, desk, pass, first, from, line, text) {
            Ok(true) => {}
            Ok(false) => return Ok(()),
            Err(lack) => return Err(lack),
        }
        drop_first(waiting);
    }
    Ok(())
}

/// What comes first waits no more.
fn drop_first(waiting: &mut VecDeque<Asked>)
    ensures { waiting.new.items ≡ drop 1 waiting.old.items }
{
    let _ = waiting.pop_front();
}

/// Answers one thing that is asked, and adds the line that says so, once it is whole.
fn ask_and_say<R: Wait>(
    rt: &R,
    alloc: Global,
    form: Form,
    desk: &Desk,
    pass: &mut Pass<Office>,
    asked: &Asked,
    from: &mut usize,
    line: &mut String,
    text: &mut String,
) -> Result<bool, Lack>
    requires of { IsOf desk.now pass.old }
    requires idle { pass.old.holds ≡ false }
    ensures stays { Stays desk.now pass.old pass.new }
    ensures asks { Does (λ s s'. Asks form pass.old.tag s asked.now result s' (string_bytes text.old) (string_bytes text.new)) desk.now.key pass.old pass.new }
    ensures same { OnErr result (string_bytes text.new ≡ string_bytes text.old) }
{
    line.clear();
    match ask(rt, alloc, form, desk, pass, asked, from, line) {
        Ok(true) => {}
        Ok(false) => return Ok(false),
        Err(lack) => return Err(lack),
    }
    match text.push_str(line) {
        Ok(()) => Ok(true),
        Err(AllocError) => Err(Lack::Memory),
    }
}

/// Answers one thing that is asked, in one holding of the office: between a look at its tickets and the session that is
/// submitted under the next, nobody else submits one.
fn ask<R: Wait>(
    rt: &R,
    alloc: Global,
    form: Form,
    desk: &Desk,
    pass: &mut Pass<Office>,
    asked: &Asked,
    from: &mut usize,
    line: &mut String,
) -> Result<bool, Lack>
    requires of { IsOf desk.now pass.old }
    requires idle { pass.old.holds ≡ false }
    ensures stays { Stays desk.now pass.old pass.new }
    ensures asks { Does (λ s s'. Asks form pass.old.tag s asked.now result s' (string_bytes line.old) (string_bytes line.new)) desk.now.key pass.old pass.new }
{
    let held = desk.lock().take(rt, pass);
    answer_held(alloc, form, desk.lock(), pass, held, asked, from, line)
}

/// Answers it at the office that is held, and gives that back.
fn answer_held(
    alloc: Global,
    form: Form,
    lock: &OwnLock<Office>,
    pass: &mut Pass<Office>,
    mut held: Held<Office>,
    asked: &Asked,
    from: &mut usize,
    line: &mut String,
) -> Result<bool, Lack>
    requires { Holds lock.now pass.old held }
    ensures stays { Stays lock.now pass.old pass.new }
    ensures asks { Did (λ s s'. Asks form pass.old.tag s asked.now result s' (string_bytes line.old) (string_bytes line.new)) lock.now.key pass.old pass.new }
{
    steps_add_their_entry();
    let answer = answer(alloc, form, held.state(), pass.tag(), asked, from, line);
    give_back(lock, pass, held);
    answer
}

/// The office goes back into the lock.
fn give_back(lock: &OwnLock<Office>, pass: &mut Pass<Office>, held: Held<Office>)
    requires of { IsOf lock.now pass.old }
    requires holds { pass.old.holds ≡ true }
    requires key { (held.plan, held.me) ≡ lock.now.key }
    requires adds { AddsOnly tag_of pass.old.tag pass.old.seen held.entries }
    ensures stays { Stays lock.now pass.old pass.new }
    ensures seen { pass.new.seen ≡ held.entries }
    ensures legal { IsLegal held }
    ensures back { GivesBack pass.old pass.new held }
{
    // Its journal is legal.
    let _ = held.get().journal();
    lock.give(pass, held);
}
