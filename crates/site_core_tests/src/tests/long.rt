//! What a long journal tells, entry by entry.

use super::{A, PAIR, offices};
use office_map::OfficeId;
use site_core::{EventRef, Journal, Office};
use std::process::Abort;
use std::test::Fail;

/// The tag of the entry at this place, and of which message it made a frame.
fn sent(journal: &Journal, i: usize) -> Option<(u8, usize)> {
    let Some(entry) = journal.get(i) else {
        return None;
    };
    match entry.event {
        EventRef::Send(_, place) => Some((entry.tag, place)),
        _ => None,
    }
}

/// Where the growth is refused that a 257th entry needs, all entries stay, and the same event makes that entry afterwards.
#[test]
fn a_refused_page_leaves_all_entries(rt: HostRuntime) -> Result<(), Fail> {
    let mut offices = offices(rt.alloc(), PAIR)?;
    match offices.get_mut(A) {
        Some(office) => fills_pages(&rt, office),
        None => return Err(Fail::from("an office")),
    }
    Ok(())
}

fn fills_pages<R: Abort>(rt: &R, office: &mut Office) {
    for i in 0..257 {
        let tag = (i % 16) as u8;
        if !sends(office, tag) {
            assert_eq!(rt; office.journal().len(), i);
            assert!(rt; sends(office, tag), "entry {i}");
        }
        assert_eq!(rt; office.journal().len(), i + 1);
    }
    for i in 0..257 {
        assert_eq!(rt;
            sent(office.journal(), i),
            Some(((i % 16) as u8, 0)),
            "entry {i}"
        );
    }
}

/// Whether a frame of the count alone was made. It is refused for want of memory alone.
fn sends(office: &mut Office, tag: u8) -> bool {
    office.send(tag % 16, OfficeId::new(1), 0).is_ok()
}
