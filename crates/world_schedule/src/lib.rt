//! All offices of a plan in one process, and the headline: over every list of events, good or refused, each finished
//! session read, wrote and gave exactly what it does when the finished sessions run alone, one after another in
//! finishing order, from the plan's values; and each record has one bottle, which carries that serial run's value.
//!
//! A caller:
//!
//! ```
//! use frame_world::{NextStep, WorldRefusal};
//! use session_language::read_sessions;
//! use session_programs::Program;
//! use world_schedule::World;
//!
//! /// Sessions are submitted, and then the offices are left to themselves, until no session is left.
//! fn settle(world: &mut World, programs: &[Program]) -> Result<(), WorldRefusal> {
//!     for program in programs {
//!         world.submit(program.office(), program)?;
//!     }
//!     for _ in 0..1_000 {
//!         match world.next_step() {
//!             NextStep::Rule(office, rule) => drop(world.act(office, &rule)?),
//!             NextStep::Message(from, to, number) => {
//!                 let i = world.place_of(from, to, number);
//!                 world.send(from, to, i)?;
//!                 world.deliver(world.frames())?;
//!             }
//!             NextStep::AllFinished => break,
//!         }
//!     }
//!     Ok(())
//! }
//! ```
//!
//! - A [`World`] is what `frame_world` defines: a contract sees the plan, the offices' journals, every frame that was
//!   ever sent, and the finished sessions. Each event ([`World::apply`], or [`World::submit`], [`World::withdraw`],
//!   [`World::act`], [`World::send`], [`World::deliver`] for one kind of them) is that definition's `happens`: the office
//!   of that number takes its step, a frame that it makes is kept, and a session that it finishes is listed. Any frame of
//!   the list may come at any time, as often as it likes, or never.
//! - [`World::run`] does events in order, and stops only where memory runs out, at an event that is accepted there, or
//!   before the first one for want of room for the replies; [`Stopped`] tells after how many.
//! - [`World::headline`] is a law: what holds of every world. [`World::run`] ensures it of the world that it leaves.
//!   `frame_world` proves it of the definitions.
//! - [`World::of_record`] is the world to which events led, of the offices, the frames and the order of finishes that they left: so
//!   who has those needs to do no event again.
//! - [`World::offices`] and [`World::office`] lend the offices, [`World::journal`] what one accepted, and
//!   [`World::frame`] tells what was sent. [`World::finished`] tells which sessions finished, by office and ticket, and
//!   [`World::outcome`] how one ended; the world keeps no program and no outcome a second time. [`World::value_of`] reads
//!   a record's value off its bottle: where an office holds it, or else in the message that carries it.
//! - [`World::next_step`] tells what comes next, left to itself: a rule that may be done, or a message that is next, as long
//!   as a session is left. So no schedule leads to a world that stands still. [`World::next_step_asking`] tells the same
//!   over a [`Resting`], which knows of some offices that they have nothing to do: who takes step after step asks again
//!   only the one that the last step changed.
//!
//! `Memory` is answered only where the event would be accepted, and then nothing changed. No reader looks through all
//! frames, entries or sessions.
//!
//! - [`reports`]: what is printed of a world.
//!
//! Definitions: `specs/Readers.antt` for what readers tell, `specs/Resting.antt` for what is known of offices that have nothing
//! to do; all else, the headline too, is `frame_world`'s. What ties the code to them is in
//! `specs/refinement`. That a finished session is found by its ticket is proved in `proofs/FinishedSessions.antt`, each
//! event in `proofs/WorldSteps.antt` and `proofs/EventSteps.antt`, runs in `proofs/Runs.antt`, the one bottle in
//! `proofs/BottleValues.antt`, and that who rests still rests after a step in `proofs/RestingOffices.antt`.
//!
//! Not said, beside what `frame_world` leaves open: anything of bytes that a caller makes up, since a world takes none;
//! which offices [`World::next_step_asking`] asks; that memory suffices for the step that comes next.
#![tactic(auto)]

mod finished;
mod happening;
mod next;
mod opening;
mod recording;
pub mod reports;
mod resting;
mod sought;
mod values;
mod world;

pub use crate::finished::Finished;
pub use crate::resting::Resting;
pub use crate::world::{Stopped, World};
pub use journal_weave::weave;
