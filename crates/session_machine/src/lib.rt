//! The work of sessions in pieces, by their flat code.
//!
//! - [`Code`] is that of `session_programs`: lines that each say what to do and which line comes next. One line is one
//!   count of a session's length (`length_on`, in `session_meaning`'s `specs/Length.antt`).
//! - [`Work`] is a session on its way through that code. `begin` takes all the memory that it needs, `step` does so
//!   many lines, and `ending` and `into_ending` tell how the session ended; they need none more.
//! - Work that ended leaves its memory for other work ([`Work::take_spare`], [`Work::begin_in`]). What such work does is
//!   what it does in memory of its own: the clauses of `begin_in` are those of `begin`.
//! - Whatever the sizes of the pieces, the work has ended exactly when together they are at least as long as the
//!   session on what it read, and then it ended as the program does alone: `AnyPiecesGiveTheMeaning`, in
//!   `specs/Pieces.antt`, over the clauses `code`, `begun`, `piece` and `shown`. A caller that keeps what its work is
//!   (`work_of`) has the same from the clauses `work`, `progress` and `ending` of each call.
//! - What the machine is is in `specs/refinement/Instructions.antt`. Its loop is written once, over a `Workspace`: a
//!   session that has no text, neither in its code nor in what it read, works on `Numbers`, and any other on `Mixed` values,
//!   which take nine times the room. Which it is is seen once, as the work begins.
//!
//! An office that gives each of its sessions some instructions at a time can stop between any two of them, and that
//! changes nothing. Its working copy of the records is that of `session_meaning`, and so are the variables of work on `Mixed`
//! values, as for `serial_replay`; neither crate knows the other, and both end as `alone` says.
//!
//! Not said: how long an instruction takes on a machine, and anything of a step with the code of another program (where
//! the work began with no text, a text of such code is 0). The law asks for room (`HasRoom`), which `Code::of` tells of
//! every program (clause `room`). That a step needs no memory isn't a clause: [`Work::step`] has no answer for want of
//! memory. What a session wrote and gave stands where room was kept for it as the work began; work that gave leaves no
//! memory for other work, since that needs room for as much.
#![tactic(auto)]

mod counters;
mod course;
mod ended;
mod gives;
pub mod laws;
mod machine;
mod mixed;
mod numbers;
mod phase;
mod progress;
mod records;
mod space;
mod spare;
mod state;
mod way;
mod work;
mod workspace;

pub use crate::progress::Progress;
pub use crate::spare::Spare;
pub use crate::work::Work;
pub use session_programs::Code;
