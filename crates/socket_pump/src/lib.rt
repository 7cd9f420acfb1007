//! A pump between the desk of an office and a wire to its neighbours.
//!
//! A caller:
//!
//! ```
//! use locked_office::Desk;
//! use office_map::{OfficeId, Plan};
//! use session_programs::Program;
//! use site_core::Office;
//! use socket_pump::{Pump, Turn, Wire};
//! use std::alloc::Global;
//! use std::sync::Wait;
//! use std::test::Fail;
//!
//! /// The first office of a plan submits a session and is turned once.
//! fn turned<R: Wait, W: Wire>(
//!     rt: &R,
//!     alloc: Global,
//!     plan: &Plan,
//!     program: &Program,
//!     wire: &mut W,
//! ) -> Result<Turn, Fail> {
//!     let me = OfficeId::new(0);
//!     if me.index() >= plan.offices() {
//!         return Err(Fail::from("an office"));
//!     }
//!     let mut pump = Pump::open(alloc, plan, me)?;
//!     let (desk, mut passes) = Desk::open(alloc, Office::open(alloc, plan, me)?, 1)?;
//!     let Some(mut pass) = passes.pop() else {
//!         return Err(Fail::from("a pass"));
//!     };
//!     desk.submit(rt, &mut pass, program)?;
//!     // Of an office that runs, again and again, with the time in milliseconds.
//!     Ok(pump.turn(rt, wire, &desk, &mut pass, 0)?)
//! }
//! ```
//!
//! - [`Wire`]: where datagrams come from and go to. [`UdpWire`] is a UDP socket, which tells of each neighbour what is known of the
//!   way there ([`Contact`]); `socket_pump::memory` has one in memory, for tests.
//! - [`Pump::turn`]: datagrams that came, at most 32; then the rules that come next, at most 64; then each message that waits and
//!   was never sent or was last sent at least 50 milliseconds ago; then a count to each neighbour that sent something and got
//!   nothing. What a turn leaves is `Turned`, and `Stage` at a fault, in `specs/Turns.antt`.
//! - [`Pump::adaptive_turn`]: the same, but that after each datagram that was taken the rules that come next are done, at most 64,
//!   and that a message is due ever more seldom while its neighbour isn't heard, from each 50 milliseconds to each 5 seconds,
//!   and each 50 milliseconds again with the first frame of it that the office takes (`specs/Last.antt`). What it leaves is
//!   `AdaptiveTurned`, and `AdaptiveStage` at a fault, in `specs/AdaptiveTurns.antt`.
//!
//! Each part of a turn is a call at the desk, so clients and pumps of one office need nothing but passes of their own:
//!
//! ```text
//! wire                  desk                                   journal of the pump's pass
//! receive  32 or none   took      the frame, or refused        took
//!                       advance   in an adaptive turn, where   do    do   ..
//!                                 it was taken: at most 64
//!                       advance   at most 64                   do    do   ..
//! send     its bytes    send_number, where it is due           send  send ..
//! send     its bytes    send      a count alone                send  ..
//! ```
//!
//! Between any two of them other passes may add entries, so the chain of a turn says 'entries of others, then this' at
//! each, and nothing of when. The proof goes the same way: one datagram, all datagrams; one message, all to one
//! neighbour, all; and chains that are joined.
//!
//! Each frame is an entry. In adaptive turns a message to a neighbour that is away is sent ever more seldom, so it fills a journal
//! in 57 days; each 50 milliseconds it takes 14 hours. A neighbour is heard by a frame that the office takes, and by none that it
//! refuses: so two offices of different runs that send to each other do so ever more seldom.
//!
//! Not said: that a datagram arrives; anything of a message that another pass takes an acknowledgement for meanwhile,
//! or that waits at the end of a turn alone and wasn't sent; that each count went out before a fault; that the wire
//! fails for a reason. A UDP wire fails where 64 reads in a row do, and at a frame for an office whose address it
//! wasn't told. Of one that the system took nothing is known, nor that a frame is counted as what the system answered
//! and goes to that address.
#![tactic(auto)]

mod contact;
mod handled;
mod heard;
mod last;
pub mod memory;
mod pump;
mod senders;
pub mod sockets;
mod udp;
mod wire;

pub use crate::contact::{Contact, Contacts};
pub use crate::last::{Backoff, LONGEST_RESEND, Lasts, SHORTEST_RESEND};
pub use crate::memory::FaultWire;
pub use crate::pump::{MOST_DATAGRAMS, MOST_RULES, Pump, PumpFault, Turn};
pub use crate::udp::UdpWire;
pub use crate::wire::{Wire, WireFailed};
