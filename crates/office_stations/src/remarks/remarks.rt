//! The lines of a run.

ghost use Rattle.std.specs.Prelude.{◌≡◌, length, OnOk};
ghost use Rattle.office_stations.specs.remarks.Left.{left_of};
ghost use Rattle.office_stations.specs.remarks.Counts.{nobody, with_left};

use crate::remarks::left::{tickets_left, wait_for};
use crate::remarks::lines::add_session;
use crate::remarks::way::{Way, unmet_by};
use office_map::{OfficeId, Plan};
use site_core::Office;
use std::alloc::{AllocError, Global};
use std::marker::Model;

/// The most sessions that are named.
const MOST_NAMED: usize = 10;

/// What is said of a run so far, of one office after another. Contracts see how many sessions are named, and how many more are
/// left.
#[derive(Drop)]
pub struct Remarks {
    alloc: Global,
    sessions: String,
    neighbours: String,
    named: usize,
    more: u64,
}

impl Model for Remarks {
    ghost use Rattle.std.specs.Prelude.{◌≤◌};
    ghost use Rattle.office_stations.specs.remarks.Counts.{Counts, most_named};

    ghost Value = { Counts };

    ghost view = { λ r. record { named = r.named; more = r.more } };

    ghost invariant = { λ r. r.named ≤ most_named };
}

impl Remarks {
    /// Of no office yet.
    pub fn new(alloc: Global) -> Remarks
        ensures { result ≡ nobody }
    {
        Remarks {
            alloc,
            sessions: String::new(alloc),
            neighbours: String::new(alloc),
            named: 0,
            more: 0,
        }
    }

    /// Of an office too, of which so many sessions are the run's, with the ways to its neighbours. Where memory runs out, some of
    /// it may be told.
    pub fn add(&mut self, office: &Office, sessions: u32, ways: &[Way]) -> Result<(), AllocError>
        ensures { OnOk result (self.new ≡ with_left (length (left_of office.now sessions)) self.old) }
    {
        let tickets = tickets_left(self.alloc, office, sessions)?;
        let named = tickets.len().min(MOST_NAMED - self.named);
        let (first, rest) = tickets.as_slice().split_at(named);
        add_sessions(self.alloc, &mut self.sessions, office, ways, first)?;
        add_unmet(&mut self.neighbours, office, ways)?;
        self.named += named;
        self.more = self.more.saturating_add(rest.len() as u64);
        Ok(())
    }

    /// The lines: the sessions, how many more are left, and the neighbours.
    pub fn text(self) -> Result<String, AllocError> {
        let Remarks {
            alloc: _,
            mut sessions,
            neighbours,
            named: _,
            more,
        } = self;
        match more {
            0 => {}
            1 => sessions.push_str("drink: and 1 more session is left\n")?,
            _ => writeln!(sessions, "drink: and {more} more sessions are left")?,
        }
        sessions.push_str(neighbours.as_str())?;
        Ok(sessions)
    }
}

/// The lines of these sessions, each of which waits for the one before.
fn add_sessions(
    alloc: Global,
    text: &mut String,
    office: &Office,
    ways: &[Way],
    tickets: &[u32],
) -> Result<(), AllocError> {
    let mut before = None;
    for ticket in tickets {
        let waits = wait_for(alloc, office, *ticket, before)?;
        add_session(alloc, text, office, ways, *ticket, &waits)?;
        before = Some(*ticket);
    }
    Ok(())
}

/// The lines of the neighbours that were never reached or heard.
fn add_unmet(text: &mut String, office: &Office, ways: &[Way]) -> Result<(), AllocError> {
    for way in ways {
        add_if_unmet(text, office.plan(), office.number(), way)?;
    }
    Ok(())
}

fn add_if_unmet(text: &mut String, plan: &Plan, me: OfficeId, way: &Way) -> Result<(), AllocError> {
    match unmet_by(plan, me, way) {
        Some(unmet) => writeln!(text, "drink: {unmet}"),
        None => Ok(()),
    }
}
