//! Schedules woven from journals: which events of a world, in which order, are what each office's journal tells.
//!
//! A caller:
//!
//! ```
//! use journal_weave::{GivenJournal, WeaveFault, weave};
//! use office_map::Plan;
//! use std::alloc::Global;
//! use world_schedule::World;
//!
//! /// How many sessions finished in the run of which these are the journals, one of each office; or why there is no such run.
//! fn audited(alloc: Global, plan: &Plan, journals: &[GivenJournal]) -> Result<usize, WeaveFault> {
//!     if journals.len() != plan.offices() {
//!         return Ok(0);
//!     }
//!     let events = weave(alloc, plan, journals)?;
//!     let mut world = World::open(alloc, plan.copy(alloc)?)?;
//!     match world.run(&events) {
//!         Ok(_) => Ok(world.finished().len()),
//!         Err(_) => Err(WeaveFault::Memory),
//!     }
//! }
//! ```
//!
//! [`weave`] answers such a schedule, or names an entry that no schedule has. [`woven`] does the same where the journals are told
//! entry by entry to offices that follow them ([`Replay`]), and answers what the schedule leaves beside these offices: so no list of
//! entries or of events stands.
//!
//! - `specs/Weaving.antt`: when a schedule is woven from what offices tell, and when it goes along with it.
//! - `specs/Given.antt`: the same of journals as they are given, and which entry is missed.
//! - `specs/Following.antt`, `specs/Replays.antt`: how far an office follows its journal, and what is known of one that did.
//! - `specs/Laws.antt`: a schedule that can't go on has all that any schedule has; [`laws`] has it proved.
//! - `specs/WorldRecords.antt`: the journals of every world are woven, and two schedules of the same journals lead to worlds that
//!   differ in order alone; [`laws`] has it proved.
//!
//! How it works: what an office answers depends on its own earlier entries alone. So each journal is replayed by itself first
//! (`replay`), up to the first entry that the office doesn't give. Then these beginnings are merged
//! (`merge`), where an entry waits for nothing but the frame that it takes. Each entry is replayed once and merged once, and
//! looked at once more at most for each office.
//!
//! It needs no world in code: what it promises speaks of `happens` and `run_of`, and of no other model. A world hands
//! in each event with the tag 0, so entries are compared without tags.
//!
//! ```text
//! journals       a: e1 e2 e3 e4 | e5 not given       b: f1 f2 f3           what each office follows by itself
//! round 1        a: e1 e2        e3 takes g           b: f1 f2 sends g      f3 takes h
//! round 2        a: e3 e4 sends h                     b: f3
//! round 3        nobody moves: a stands at e5, b is at its end
//! ```
//!
//! Why nothing is missed (`laws::none_goes_further`, `proofs/Furthest.antt`): take the schedule that was found and any
//! other that goes along with the journals, and walk the other one event by event, beside the world of the first. As
//! long as each event of the other is one that the first has too, its frames are among the frames of the first. At the
//! first event that the first hasn't, the office has the same entries in both worlds, so it gives the same answer, and
//! if the event takes a frame, that was sent in the first world too: so the first could go on, and hasn't stopped. A
//! schedule that has stopped therefore has of each office all that any other has. Where that is all that is told, it is
//! woven; where it isn't, none is.
//!
//! Both ways (`laws::worlds_are_woven`, `laws::schedules_differ_in_order`): a world is that of its accepted events
//! alone, since a refused one leaves it as it was; so its journals are those of a schedule. And an office is its plan,
//! its number and its entries; so two schedules of the same journals lead to the same offices, and all that these tell,
//! bottles too, is the same. What each finished is in the finishing list in its own order, with the program that its
//! journal has under that ticket, and each frame is the reply of an entry. How what the offices did lies among one
//! another is all that is left open.
//!
//! What it costs: a frame is looked up in time by the logarithm of how many were sent, whatever they say, so nobody can
//! write journals of which an entry is dearer. The offices are held, with what each gave of its journal, and the frames with
//! their map.
//!
//! Not said: that the offices did what they wrote down, or in that order; that the office which is named is the one at
//! fault; which of two offices' sessions finished first, or which frame was sent first; that `weave` answers the very
//! schedule by which a world came. `Memory` may stand in place of any answer.
#![tactic(auto)]

mod fault;
mod given;
mod key;
pub mod laws;
mod merge;
mod replay;
mod sent;
mod standing;
mod stop;
mod weaving;

pub use crate::fault::WeaveFault;
pub use crate::given::GivenJournal;
pub use crate::replay::Replay;
pub use crate::stop::Stop;
pub use crate::weaving::{Record, weave, woven};
