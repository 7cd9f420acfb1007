//! Two pumps over UDP on loopback.

use crate::tests::{
    Both, STAR, STAR_SESSIONS, open_both_of, programs, programs_of, submit, turn, value_after,
};
use office_map::OfficeId;
use session_programs::Program;
use socket_pump::{Contact, UdpWire};
use std::alloc::Global;
use std::io;
use std::net::{Ipv4Addr, Net, SocketAddr};
use std::process::Abort;
use std::sync::Wait;
use std::test::Fail;

fn bound(net: &impl Net, alloc: Global) -> io::Result<UdpWire> {
    UdpWire::bind(net, alloc, SocketAddr::from((Ipv4Addr::LOCALHOST, 0)))
}

/// Two sockets, each of which knows the other's address.
fn connected(net: &impl Net, alloc: Global) -> io::Result<(UdpWire, UdpWire)> {
    let mut wire_a = bound(net, alloc)?;
    let mut wire_b = bound(net, alloc)?;
    wire_a.set_peer(OfficeId::new(1), wire_b.address()?);
    wire_b.set_peer(OfficeId::new(0), wire_a.address()?);
    Ok((wire_a, wire_b))
}

/// The system takes no frame for the third office, since nothing has port 0. The second office gets its frames.
#[test]
fn the_system_takes_no_frame(rt: HostRuntime) -> Result<(), Fail> {
    let programs = programs_of(rt.alloc(), STAR, STAR_SESSIONS)?;
    let nobody = SocketAddr::from((Ipv4Addr::LOCALHOST, 0));
    let contact = third_at(&rt, rt.alloc(), nobody, &programs)?;
    assert_eq!(rt;
        (contact.went, contact.cause, contact.heard),
        (0, Some(22), 0)
    );
    assert!(rt; contact.lost > 1);
    Ok(())
}

/// The first two offices of the star turn, and the second finishes its session. What the first then knows of the third.
fn third_at<R: Net + Wait + Abort>(
    rt: &R,
    alloc: Global,
    at: SocketAddr,
    programs: &[Program],
) -> Result<Contact, Fail> {
    let mut wires = connected(rt, alloc)?;
    let mut both = open_both_of(alloc, STAR)?;
    wires.0.set_peer(OfficeId::new(2), at);
    assert_eq!(rt;
        is_served(rt, &mut both, &mut wires.0, &mut wires.1, programs),
        Some(70)
    );
    assert!(rt; is_near(wires.0.contact(OfficeId::new(1))));
    assert!(rt; is_near(wires.1.contact(OfficeId::new(0))));
    Ok(wires.0.contact(OfficeId::new(2)))
}

/// Frames went to it, none was lost on the way out, and it was heard.
fn is_near(contact: Contact) -> bool {
    contact.went > 0 && contact.lost == 0 && contact.cause.is_none() && contact.heard > 0
}

fn is_served<R: Wait>(
    rt: &R,
    both: &mut Both,
    wire_a: &mut UdpWire,
    wire_b: &mut UdpWire,
    programs: &[Program],
) -> Option<i64> {
    submit(rt, &mut both.a, programs.get(0)?)?;
    let ticket = submit(rt, &mut both.b, programs.get(1)?)?;
    for round in 0..2_000u64 {
        if turn(rt, &mut both.a, wire_a, round * 50).is_err() {
            return None;
        }
        if turn(rt, &mut both.b, wire_b, round * 50).is_err() {
            return None;
        }
        if let Some(value) = value_after(rt, &mut both.b, ticket) {
            return Some(value);
        }
        if wire_a.poll(1).is_err() {
            return None;
        }
    }
    None
}
