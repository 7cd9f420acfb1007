//! The way to a neighbour, and what is said where it was never reached or heard, or speaks another version of frames.

ghost use Rattle.std.specs.Prelude.{◌≡◌, is_some};
ghost use Rattle.office_stations.specs.remarks.Counts.{is_unreached, is_other, is_unmet};

use bottle_values::Version;
use journal_texts::wording::words::office_name;
use office_map::{OfficeId, Plan};
use socket_pump::Contact;
use std::net::SocketAddr;
use std::{fmt, io};

/// The way to a neighbour of an office, and from it.
#[derive(Clone, Copy)]
pub struct Way {
    pub to: OfficeId,
    /// Where it is.
    pub at: SocketAddr,
    pub contact: Contact,
    /// For how many milliseconds nothing came from it, since something did.
    pub silent: Option<u64>,
}

/// What is said of a neighbour that an office never reached or never heard, or of which it takes no frame, for its version.
///
/// That a neighbour wasn't reached is said of frames that the system didn't take, and that it wasn't heard of frames
/// that came. Whether a frame arrived is nobody's to know.
#[derive(Clone, Copy)]
pub struct Unmet<'a> {
    office: &'a str,
    neighbour: &'a str,
    at: SocketAddr,
    contact: Contact,
    own: Version,
}

/// What is said of a neighbour that this office never reached or never heard, or that speaks another version; else nothing.
pub fn unmet_by<'a>(plan: &'a Plan, me: OfficeId, way: &Way) -> Option<Unmet<'a>>
    ensures { is_some result ≡ is_unmet plan.now.version way.now.contact }
{
    let own = plan.version();
    if !is_unmet(own, &way.contact) {
        return None;
    }
    Some(Unmet {
        office: office_name(plan, me),
        neighbour: office_name(plan, way.to),
        at: way.at,
        contact: way.contact,
        own,
    })
}

fn is_unmet(own: Version, contact: &Contact) -> bool
    ensures { result ≡ is_unmet own contact.now }
{
    is_unreached(contact) || contact.heard == 0 || is_other(own, contact.version)
}

/// What came last was of the other version.
fn is_other(own: Version, version: Option<Version>) -> bool
    ensures { result ≡ is_other own version }
{
    match version {
        Some(version) => version.number() != own.number(),
        None => false,
    }
}

/// The system took no frame for it, and some were lost.
fn is_unreached(contact: &Contact) -> bool
    ensures { result ≡ is_unreached contact.now }
{
    contact.went == 0 && contact.lost > 0
}

impl fmt::Display for Unmet<'_> {
    fn fmt<W: fmt::Write>(&self, f: &mut fmt::Formatter<W>) -> fmt::Result {
        let Unmet {
            office,
            neighbour,
            at,
            contact,
            own,
        } = *self;
        if is_unreached(&contact) {
            write!(f, "{office} never reached {neighbour} at {at}")?;
            return match contact.cause {
                Some(cause) => write!(f, ": {}", io::Error::from_raw_os_error(cause)),
                None => Ok(()),
            };
        }
        match contact.version {
            Some(version) if contact.heard > 0 => {
                write_versions(f, office, neighbour, version, own)
            }
            _ => write!(f, "{office} never heard {neighbour} at {at}"),
        }
    }
}

/// That a neighbour's plan is of this version, and the office's own of that one.
fn write_versions<W: fmt::Write>(
    f: &mut fmt::Formatter<W>,
    office: &str,
    neighbour: &str,
    version: Version,
    own: Version,
) -> fmt::Result {
    let theirs = version.number();
    let own = own.number();
    write!(
        f,
        "{office} takes no frame of {neighbour}: they are of version {theirs}, its own plan is `plan {own}` (L4 WrongVersion)"
    )
}
