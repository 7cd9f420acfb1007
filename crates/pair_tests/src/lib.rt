//! Tests of what a pair of neighbours shares, a module for each crate: frames, links and channels (`frame_codec`, `window_link`,
//! `token_channel`), forks and bottles (`dining_core`, `drinking_core`). They call what is public there, and it isn't proved again with them.
#![tactic(auto)]

#[cfg(test)]
mod tests;
