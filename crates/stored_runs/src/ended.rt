//! How a run of an office that keeps its journal in a store ended.

use crate::fault::StoredFault;

/// How a run ended: how many of the office's sessions aren't told as finished, why it ended before its time, if it did, and what is
/// said for people of those that are left and of neighbours that were never reached or heard.
#[derive(Drop)]
pub struct Ended {
    pub unfinished: usize,
    pub fault: Option<StoredFault>,
    pub remarks: String,
}
