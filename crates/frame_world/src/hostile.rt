//! The world of offices and frames of which some keep to no rule, as definitions, and what holds between those that do.
//!
//! There is no code here.
//!
//! - `specs/hostile/Hostile.antt`: a world in which an office that keeps to no rule sends any frame at all, to
//!   anybody. What it makes up comes like any other: any of them, at any time, as often as it likes.
//! - `specs/hostile/Claims.antt`: what two offices share that keep to the rules has one place each, and their counts are true; their
//!   records' bottles keep the values that were written, sessions read these, and end as they do alone on what they read.
//!   [`laws`] has it proved.
//!
//! How it is proved: a mask shows of each office only what it shares with offices that keep to the rules; all else is as the
//! plan starts it, and an office that keeps to none stands at its start for ever (`proofs/hostile_lemmas/Masks.antt`). What happens to an
//! office is, seen through the mask, what happens in a world that has nothing but the pairs of honest offices, or nothing
//! (`proofs/hostile_lemmas/MaskedSteps.antt`): each guard that holds, holds there, since it asks for less. So the laws of links, tables and
//! bars, as they are carried to a world, hold of what the mask shows (`proofs/hostile_lemmas/MaskedWorlds.antt`), and there nothing is
//! masked of what two honest offices share (`proofs/hostile_lemmas/HonestThings.antt`). A session of an honest office has the bottles that it
//! writes, with the values that it read; so a bottle that is shown has what such sessions wrote, in finishing order
//! (`proofs/hostile_lemmas/HonestValues.antt`, `proofs/hostile_lemmas/HonestSessions.antt`).
//!
//! Not said: that nobody speaks in the name of an honest office. Over datagrams a frame's sender is who its bytes claim: where
//! others can send in its name, it counts as one that keeps to no rule. Nor is said that a session finishes, or anything of
//! records with an end that isn't honest, and so not that sessions which need those are a serial run.

pub mod laws;
