//! How an office ended its service.

use crate::fault::ServeFault;

/// How an office ended its service: how many sessions that it submitted haven't finished, and why it ended before its time, if it did.
#[derive(Drop)]
pub struct Served {
    pub unfinished: usize,
    pub fault: Option<ServeFault>,
}
