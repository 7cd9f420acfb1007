//! One office: what it shares with its neighbours, its sessions, and the journal of all that it accepted.
//!
//! A caller:
//!
//! ```
//! use site_core::{Office, Refusal, Reply};
//!
//! /// An office does the rules that come next, and its messages go to the other.
//! fn turn(office: &mut Office, other: &mut Office) -> Result<(), Refusal> {
//!     for _ in 0..64 {
//!         match office.next_rule() {
//!             Some(rule) => drop(office.act(0, rule)?),
//!             None => break,
//!         }
//!     }
//!     let (_, many) = office.waiting(other.number()).unwrap_or((1, 0));
//!     for i in 0..many {
//!         if let Reply::Frame(frame) = office.send(0, other.number(), i.saturating_add(1))? {
//!             other.take(0, &frame)?;
//!         }
//!     }
//!     Ok(())
//! }
//! ```
//!
//! - An [`Office`] is what its journal tells: a contract sees the plan, the office's number and the list of entries, and `office_of`
//!   (`specs/Journals.antt`) is the office that these lead to from the opening. Each event is one step ([`Office::step`], or
//!   [`Office::submit`], [`Office::act`], [`Office::send`], [`Office::take`], [`Office::withdraw`] for one kind of them): `Steps` says
//!   which reply or refusal it gets, and that an accepted one adds its one entry and a refused one nothing.
//! - What an office answers is `answer`, in `specs/Offices.antt`; `may` and `act` there are the guard and the effect of each [`Rule`].
//!   What is shared with neighbours is that of `site_core::neighbours`, which says whose each row is; the sessions are those of
//!   `site_core::agendas`, and a session's work is that of `session_machine`. Rules, events, replies and the journal are `office_journal`'s.
//! - The journal is legal ([`Office::journal`]): each entry has the reply that the office gives there. [`Office::enabled`] tells a
//!   rule's guard, [`Office::next_rule`] the first rule that may be done in the order of `specs/RuleOrder.antt`, and each reader what
//!   the office at the end of its journal has.
//! - [`reopened`] is the office of which entries are the journal, or the entry that no office gives there (`specs/Reopening.antt`);
//!   [`gives`] does one such step.
//! - An office is `own_lock`'s `Kept`: it can be shared under that crate's lock.
//! - [`Office::receive`] takes bytes, and [`Office::take_read`] what was read of them already.
//!
//! An event is checked, then there has to be room in the journal, then what takes memory is made, and only then something changes. So
//! `Memory` is answered only where the event would be accepted. `proofs/OfficeLimits.antt` has that no link runs out of numbers before
//! the journal is full.
//!
//! - [`neighbours`]: forks, bottles and a channel to each neighbour, and that they agree.
//! - [`agendas`]: the sessions that wait, the current one, and how those ended that finished.
//!
//! Tickets number the sessions as they were submitted, and none is given twice. Those of the finished sessions, of the current one and
//! of those that wait rise in this order, with gaps where sessions were withdrawn.
//!
//! Of a record with an end here, no more than one message with its bottle waits for the other end ([`Office::waiting_value`], clause
//! `once`).
//!
//! Not said: that a rule which may be done is done; that a session finishes; that bottles which were asked for don't come once their
//! session is withdrawn.
#![tactic(auto)]

pub mod agendas;
mod fault;
mod kept;
pub mod laws;
mod limits;
pub mod neighbours;
mod office;
mod order;
mod reopening;
mod rules;

pub use crate::agendas::{LONGEST_PIECE, MAX_UNFINISHED, Session};
pub use crate::fault::ReopenFault;
pub use crate::limits::USUAL_PIECE;
pub use crate::office::Office;
pub use crate::reopening::{gives, reopened};
pub use office_journal::{
    ENTRY_BYTES, Entry, EntryRef, Event, EventPart, EventRef, Journal, MAX_ENTRIES, Refusal, Reply,
    Rule,
};
