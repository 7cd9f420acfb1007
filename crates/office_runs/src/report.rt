//! What is told of a run.

ghost use Rattle.std.specs.Prelude.{◌≡◌, ◌<◌, ◌++◌, [], length, map, IfOk, OnOk};
ghost use Rattle.std.specs.List.{flat_map};
ghost use Rattle.std.specs.String.{string_bytes};
ghost use Rattle.session_reports.specs.form.Forms.{outcome_as, unfinished_as};
ghost use Rattle.office_stations.specs.Sessions.{finished_of};
ghost use Rattle.office_runs.specs.Runs.{IsQuiet};
ghost use Rattle.office_runs.specs.refinement.Reports.{AddsJournal, none_told};

use office_map::Plan;
use office_stations::RunFault;
use office_stations::remarks::{Remarks, Way};
use session_reports::form::Form;
use session_reports::form::report::{add_outcomes, add_unfinished};
use site_core::Office;
use std::alloc::{AllocError, Global};
use std::marker::Model;

/// What came of a run: what is printed of it, how many sessions haven't finished, and why it ended before its time, if it did; the
/// texts of the journals of the offices that ran, where these are wanted; and what is said for people of the sessions that are left
/// and of neighbours that were never reached or heard.
#[derive(Drop)]
pub struct Ran {
    pub text: String,
    pub unfinished: usize,
    pub fault: Option<RunFault>,
    pub journals: Vec<String>,
    pub remarks: String,
}

/// What is told of offices so far, one after the other. Contracts see the texts.
#[derive(Drop)]
pub struct Report {
    alloc: Global,
    text: String,
    wanted: bool,
    journals: Vec<String>,
    remarks: Remarks,
    /// How many sessions of the office that is told next are the run's, and the ways to its neighbours.
    sessions: u32,
    ways: Vec<Way>,
}

impl Model for Report {
    ghost use Rattle.std.specs.Prelude.{map};
    ghost use Rattle.std.specs.String.{string_bytes};
    ghost use Rattle.office_runs.specs.refinement.Reports.{Told};

    ghost Value = { Told };

    ghost view = { λ r. record { lines = string_bytes r.text; wanted = r.wanted; texts = map string_bytes r.journals.items } };
}

impl Report {
    /// Of no office yet; and whether the texts of their journals are wanted.
    pub fn new(alloc: Global, wanted: bool) -> Report
        ensures { result ≡ none_told wanted }
    {
        Report {
            alloc,
            text: String::new(alloc),
            wanted,
            journals: Vec::new(alloc),
            remarks: Remarks::new(alloc),
            sessions: 0,
            ways: Vec::new(alloc),
        }
    }

    /// So many sessions of the office that is told next are the run's, and these are the ways to its neighbours.
    pub fn expect(&mut self, sessions: usize, ways: Vec<Way>)
        ensures { self.new ≡ self.old }
    {
        self.sessions = u32::try_from(sessions).unwrap_or(u32::MAX);
        self.ways = ways;
    }

    /// The sessions of an office that finished are told, by ticket, and how many they are; and its journal, where it is wanted.
    /// Where memory runs out, some may be.
    pub(crate) fn add(
        &mut self,
        form: Form,
        plan: &Plan,
        office: &Office,
    ) -> Result<usize, AllocError>
        requires { office.now.me < length office.now.plan.offices }
        ensures lines { OnOk result (self.new.lines ≡ self.old.lines ++ flat_map (outcome_as form plan.now) (finished_of office.now)) }
        ensures count { IfOk result (λ n. n ≡ length (finished_of office.now)) }
        ensures journal { OnOk result (AddsJournal self.old.wanted office.now self.old.texts self.new.texts) }
        ensures wanted { self.new.wanted ≡ self.old.wanted }
    {
        self.add_remarks(office)?;
        self.add_journal(office)?;
        add_outcomes(&mut self.text, form, plan, office.outcomes())
    }

    fn add_remarks(&mut self, office: &Office) -> Result<(), AllocError>
        ensures { self.new ≡ self.old }
    {
        self.remarks.add(office, self.sessions, &self.ways)
    }

    fn add_journal(&mut self, office: &Office) -> Result<(), AllocError>
        requires { office.now.me < length office.now.plan.offices }
        ensures journal { OnOk result (AddsJournal self.old.wanted office.now self.old.texts self.new.texts) }
        ensures lines { self.new.lines ≡ self.old.lines }
        ensures wanted { self.new.wanted ≡ self.old.wanted }
    {
        if !self.wanted {
            return Ok(());
        }
        let text = journal_texts::text(
            self.alloc,
            office.journal(),
            office.plan(),
            office.number(),
        )?;
        self.journals.push(text)?;
        Ok(())
    }
}

/// What came of a run, of which the sessions that finished are told.
pub fn with_unfinished(
    report: Report,
    form: Form,
    unfinished: usize,
    fault: Option<RunFault>,
) -> Result<Ran, AllocError>
    ensures text { IfOk result (λ r. string_bytes r.text ≡ report.lines ++ unfinished_as form unfinished) }
    ensures unfinished { IfOk result (λ r. r.unfinished ≡ unfinished) }
    ensures fault { IfOk result (λ r. r.fault ≡ fault) }
    ensures journals { IfOk result (λ r. map string_bytes r.journals.items ≡ report.texts) }
    ensures quiet { IfOk result IsQuiet }
{
    let Report {
        alloc,
        mut text,
        wanted: _,
        journals,
        remarks,
        ..
    } = report;
    add_unfinished(&mut text, form, unfinished)?;
    let remarks = if unfinished > 0 || fault.is_some() {
        remarks.text()?
    } else {
        String::new(alloc)
    };
    Ok(Ran {
        text,
        unfinished,
        fault,
        journals,
        remarks,
    })
}
