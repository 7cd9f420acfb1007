//! Offices that are lost and opened again from their journals, as laws: there is no code here. One is opened by
//! `site_core::reopened`.
//!
//! - `specs/Lives.antt`: histories of offices that keep their journals in stores, are lost with what doesn't stand there, and are
//!   opened again; where no frame leaves before its entry stands.
//! - `specs/Restarts.antt`, [`laws`]: after each such history the journals are those of one world in which no office was ever
//!   lost, so the headline holds of them; and what stood once stands for good.
//! - `specs/Termination.antt`: only so many steps ever stand; and offices that go on finish, as long as messages arrive.
//!
//! Why nothing is lost that anybody heard of: a schedule is kept of the entries that stand, and of no others. An entry
//! ahead of its store hangs on frames that left alone, and these are of entries that stand; so when it stands it goes
//! onto the schedule, and a loss changes nothing there. No law of links, forks or bottles is used. Deleting events from
//! a schedule would need a law of all that hangs on them; an entry that doesn't stand yet was never on it. What is lost
//! with an office is told by what stood, and perhaps more: a start may find entries whose append was never answered.
//!
//! Why offices that go on finish, however often they are lost: what stands is a world of its own, to which the schedule of it
//! leads. Each step more that stands lowers what is left to do there, and a loss raises nothing, as it takes back only what
//! doesn't stand. While a session is left there, some office may do a rule or a message waits: so one step more stands sooner
//! or later, and there are only so many.
//!
//! Not said: when an office goes on or a frame arrives; that one session finishes while others are submitted for ever;
//! anything of a store that breaks the premise, where neighbours take numbers that are used twice for repeats, and an audit
//! alone shows it; anything of entries ahead of the store; that the entries of which an office is opened are those of its
//! store.
#![tactic(auto)]

pub mod laws;
