//! Tests of what calls say to a reader: the callers that stand at the heads of crates, an order of offices, serial runs, and values. They call
//! what is public there, and it isn't proved again with them.
#![tactic(auto)]

#[cfg(test)]
mod tests;
