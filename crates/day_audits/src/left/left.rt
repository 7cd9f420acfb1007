//! Which sessions an office has left.

ghost use Rattle.std.specs.Prelude.{◌≡◌, ◌==◌, drop, filter, not, All, IfOk, IsTrue, OnOk};
ghost use Rattle.office_journal.specs.Shown.{event_shown};
ghost use Rattle.site_core.specs.declared.agendas.session.Session.{Session as ASession};
ghost use Rattle.session_programs.specs.Program.{fits};
ghost use Rattle.day_audits.specs.left.Left.{left_sessions};
ghost use Rattle.day_audits.specs.left.refinement.Walks.{after_event, after_rule, with_submitted};

use session_programs::Program;
use site_core::laws::sessions_go_in_order;
use site_core::{EventRef, Office, Reply, Rule, Session};
use std::alloc::{AllocError, Global};

/// The sessions of an office that were submitted, and have neither finished nor been withdrawn, in order of ticket. Each fits the
/// office's plan.
pub fn sessions_left(alloc: Global, office: &Office) -> Result<Vec<Session>, AllocError>
    ensures left { IfOk result (λ v. v.items ≡ left_sessions office.now) }
    ensures fit { IfOk result (λ v. All (λ s. IsTrue (fits office.now.plan s.program)) v.items) }
{
    sessions_go_in_order();
    let journal = office.journal();
    // Its places are numbers of this type.
    let _ = journal.len();
    let mut left = Vec::new(alloc);
    let mut place = 0;
    while let Some(entry) = journal.get(place) {
        note(&mut left, &entry.event, &entry.reply)?;
        place += 1;
    }
    Ok(left)
}

/// What is left after an event with this reply.
fn note(left: &mut Vec<Session>, event: &EventRef<'_>, reply: &Reply) -> Result<(), AllocError>
    ensures { OnOk result (left.new.items ≡ after_event left.old.items (event_shown event.now) reply.now) }
{
    match *event {
        EventRef::Submit(program) => submit(left, program, reply),
        EventRef::Do(rule) => {
            finish(left, rule);
            Ok(())
        }
        EventRef::Withdraw(ticket) => {
            withdraw(left, ticket);
            Ok(())
        }
        EventRef::Send(_, _) => Ok(()),
        EventRef::Took(_) => Ok(()),
    }
}

/// A session that is submitted is left, with the ticket that is answered.
fn submit(left: &mut Vec<Session>, program: &Program, reply: &Reply) -> Result<(), AllocError>
    ensures { OnOk result (left.new.items ≡ with_submitted left.old.items program.now reply.now) }
{
    let Reply::Ticket(ticket) = *reply else {
        return Ok(());
    };
    let program = program.copy()?;
    left.push(Session { ticket, program })?;
    Ok(())
}

/// By the rule of that name the first session that is left finishes.
fn finish(left: &mut Vec<Session>, rule: Rule)
    ensures { left.new.items ≡ after_rule left.old.items rule }
{
    if let Rule::Finish = rule {
        take_first(left);
    }
}

/// The first of them is left no more, if there is one.
fn take_first(left: &mut Vec<Session>)
    ensures { left.new.items ≡ drop 1 left.old.items }
{
    if !left.is_empty() {
        drop(left.remove(0));
    }
}

/// The session with this ticket is left no more.
fn withdraw(left: &mut Vec<Session>, ticket: u32)
    ensures { left.new.items ≡ filter (λ (s : ASession). not (s.ticket == ticket)) left.old.items }
{
    left.retain(|session| session.ticket != ticket);
}
