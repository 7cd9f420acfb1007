//! What a run has around it.

/// What binds the sockets of a run, what holds its turns, and who looks on.
///
/// So tests run offices over sockets in memory, and over those that fail or can't be bound. The program hands in UDP,
/// no gate, and a watch that prints how far a run is where the standard error is a terminal, and in any case what was
/// left; the terminal is asked by the program, since only it has the stream.
#[derive(Clone, Copy)]
pub struct Around<'a, B, G, W> {
    pub binds: &'a B,
    pub gate: &'a G,
    pub watch: &'a W,
}
