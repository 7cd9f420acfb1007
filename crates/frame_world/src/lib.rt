//! The world of offices and frames, as definitions, and the headline: over every list of events, good or refused, with
//! frames lost, repeated and reordered, each finished session read, gave and wrote exactly what it does when the finished
//! sessions run alone, one after another in finishing order, from the plan's values; and each record has one bottle,
//! which carries that serial run's value.
//!
//! There is no code here but the events' type, their refusals, and where a frame is told: what runs such a world
//! (`world_schedule`) keeps to `happens`.
//!
//! - `specs/Worlds.antt`: the offices with their journals, all frames that were ever sent, the finished sessions; what an
//!   event answers and leaves. An event is an office's own (`site_core`), or a frame of the list that comes to its
//!   addressee, any of them, at any time, as often as it likes. A frame that never comes is lost.
//! - `specs/Ways.antt`: what is on the way from one office to another, at how many places a thing is, and all bottles of
//!   a record; the tables (`dining_core`) and the bars (`drinking_core`) that the offices are.
//! - `specs/Headline.antt`: what holds of every world; [`laws`] has it proved. `specs/Strict.antt`: that the serial order
//!   keeps to the order in time. `specs/Tickets.antt`: which tickets the finished sessions have. `specs/EveryWorld.antt`:
//!   all of it in one record. `specs/Sent.antt`: which entry of which office tells a frame. `specs/Waiting.antt`: how much
//!   waits at an office, and how far ahead of its addressee a frame is. `specs/Standstill.antt`: what a world does next, left to itself, and that it can be done.
//!   `specs/RequestsFollow.antt`: that a request token goes behind its thing. `specs/WorkLeft.antt`: how much there is still
//!   to do in a world, as a number. `specs/Termination.antt`: that every run ends.
//! - [`hostile`]: the same world where some offices keep to no rule, and what holds between those that do.
//!
//! How it is proved: what happens to an office is, to tables and bars, an event of theirs or nothing
//! (`proofs/TablesFollow.antt`, `proofs/BarsFollow.antt`), which needs of the links that each frame says the truth, and
//! that what is kept was sent (`proofs/Links.antt`). A frame that comes is a step for its own message, and then one for
//! each kept message (`ByKept` of `proofs/Answers.antt`): what each step leaves, the whole event leaves. So the laws of
//! tables and bars hold of the offices (`proofs/Following.antt`), and with them the serial run is an invariant of few
//! lines (`proofs/SerialSessions.antt`). The finishing order only grows at its end, and a ticket that is answered is new, so
//! that order is strict (`proofs/StrictOrder.antt`). Tickets are looked at beside it (`proofs/Tickets.antt`): what an office has in
//! hand came by its journal, and what it finishes it tells last. Above the links a frame is looked at once more: that it
//! isn't refused (`proofs/SentFrames.antt`), and that its bytes say the same as it (`proofs/FrameBytes.antt`). What waits
//! is looked at office by office, with no need of the others (`proofs/WhatWaits.antt`, `proofs/FewWait.antt`); so no frame
//! comes too early (`proofs/NoneEarly.antt`). Where no rule may be done and nothing is on the way, the laws of tables and
//! bars leave no office thirsty, so none has a session left (`proofs/Standstill.antt`). What a step takes of an office's work
//! (`proofs/work/OfficeSteps.antt`, `proofs/work/OfficeSessions.antt`) and of the pairs' (`proofs/work/PairMoves.antt`) is looked at apart, and
//! put together once (`proofs/work/WorkGoesDown.antt`).
//!
//! A world is its offices' journals, all frames, and the finishing list. An office's state is the end of its journal,
//! so an event of the world is one step of an office that stands already, and no rule stands twice. Of what waits at
//! its sender all is on the way but what the other has taken: so no list of messages is kept beside the windows, and a
//! thing's place is a count over what is there. That counts are timely is said over the sender's journal: at each point
//! of it at which a frame's number wasn't used yet, no more had been taken than the frame's count. What happens to an
//! office is an equation for each event, without a premise but that each frame says the truth: so each law of tables
//! and bars holds of the offices at once, and another law of theirs will too.
//!
//! The finishing list has programs, so the serial run is of programs in that list, and not of texts that a reader would
//! have to look up. The headline compares offices and endings: the serial run counts tickets, an office answers them,
//! and a withdrawn session's isn't given again. That tickets rise is said of each two finished sessions of an office,
//! one line, which also says that no ticket stands twice; what it needs of `site_core` stands in one lemma
//! (`proofs/RisingTickets.antt`). A bottle's value is told as the list of all bottles of a record, held or on the way:
//! it has one element, with the serial run's value, so that there is one bottle and what it holds is one claim. One
//! claim says what a step is worth (`IsStep`): of a rule that it may be done, of a message that it is next, of
//! `AllFinished` that no session is left. So a body that says it is finished where it isn't is refused by the same
//! line.
//!
//! Why nobody waits for ever. An office waits for bottles, and for forks; the two are looked at apart, and neither part
//! knows the other's world. Say that no office may do a rule, and that nothing is on the way between two offices.
//!
//! - Bottles. A thirsty office lacks a bottle that its session needs, and has asked for it, or it could drink or ask.
//!   So the bottle and the request are with the neighbour, who keeps a bottle that is asked for only where it needs it
//!   itself and holds the fork of the two. So of each thirsty office some neighbour has the fork that they share.
//! - Forks. A thirsty office is hungry or eats. A hungry one lacks a fork and has asked for it, so both are with the
//!   neighbour. That one eats, and may not leave only since it is thirsty; or it has the fork clean and is hungry
//!   itself, and comes before the first in the order of the offices. That order has no ring, so the way from a hungry
//!   office to the neighbour that it waits for, and on from there, ends: some thirsty office eats.
//! - Both. An office that eats has all its forks, and a thirsty one lacks one. So no office is thirsty, none has a
//!   session that gathers, one that works has a rule to do, and one with waiting sessions may start.
//!
//! So where a session is left anywhere, some rule may be done or some message is on the way. A session that is
//! withdrawn changes none of this: its office is tranquil then; if it was hungry it stays so, gets its forks, eats and
//! leaves, as it would have.
//!
//! Why every run ends. A number tells what there is still to do in a world: of sessions, of forks, of bottles.
//!
//! - Sessions. One that waits has its instructions before it and six rules; the current one, and the meal that it needs,
//!   what is left of them. Each rule of these takes one at least.
//! - Forks. One that is dirty is given once, and comes; then it is clean until its office has eaten. A request for it is
//!   sent once, and comes. Who eats makes all its forks dirty again: so that is paid for by the rule that eats.
//! - Bottles. As long as no session begins or ends at its two ends, and their fork stays, a bottle is given twice at most:
//!   the office without the fork gives it to the other, who keeps it where it needs it, or gives it back and doesn't ask.
//!   What a session or a fork lets happen of this again is paid for where the session begins or ends, and the fork goes
//!   or comes.
//!
//! So each step takes one at least, whichever it is and in whatever order, and only a submitted session adds something.
//! Links keep the order of what is sent: no request token overtakes its thing, or two hungry offices could hand one to and
//! fro for ever while the fork is on its way.
//!
//! Not said: that a step is ever made, so that a session finishes or a hungry office eats at any time; that one session
//! finishes while others are submitted for ever; that anything is ever done, arrives or is
//! acknowledged; how often offices are turned; anything of frames that no office of this plan and run made; that what
//! is kept is taken, and not thrown out at its turn; that a count is the newest when its frame comes; that a frame of
//! the definitions is in the format's ranges, which holds of each world that a caller has (`World::headline`).
#![tactic(auto)]

mod event;
pub mod hostile;
pub mod laws;
mod next_step;
mod refusal;
mod sent;

pub use crate::event::WorldEvent;
pub use crate::next_step::NextStep;
pub use crate::refusal::WorldRefusal;
pub use crate::sent::SentAt;
