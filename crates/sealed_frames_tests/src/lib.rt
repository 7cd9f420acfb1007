//! Tests of `datagram_seals::frames`: the published vectors of HMAC-SHA-256, and what is opened and what isn't.
#![tactic(auto)]

#[cfg(test)]
mod tests;
