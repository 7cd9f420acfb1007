//! What is known of the ways to neighbours.

ghost use Rattle.std.specs.Prelude.{◌≡◌, ◌<◌, ℕ, true};
ghost use Rattle.socket_pump.specs.Contacts.{no_contact, contact_with, tried, heard_in, Changes, Hears};

use bottle_values::Version;
use frame_codec::decode;
use office_map::OfficeId;
use std::marker::Model;

/// What is known of the way to a neighbour, and from it.
///
/// Who started another run by mistake is there, and its source address may be a relay's: so it is heard all the same. A
/// count stops at the top of its type (`risen`): 2^64 of them don't come, and a clause that says so costs less than a
/// condition on every caller.
#[derive(Clone, Copy, PartialEq, Eq)]
pub struct Contact {
    /// How many frames to it the system took.
    pub went: u64,
    /// How many it didn't take: they are lost.
    pub lost: u64,
    /// Why it didn't take the last of those: the system's number, of which `io::Error::from_raw_os_error` has the words.
    pub cause: Option<i32>,
    /// How many datagrams came that read as a frame of it, of whatever run.
    pub heard: u64,
    /// The version of the last of those.
    pub version: Option<Version>,
}

impl Contact {
    /// Nothing went to it, nothing was lost, nothing came.
    pub fn none() -> Contact
        ensures { result ≡ no_contact }
    {
        Contact {
            went: 0,
            lost: 0,
            cause: None,
            heard: 0,
            version: None,
        }
    }

    // The system took a frame more, or didn't, for this cause.
    fn after(self, outcome: Result<(), Option<i32>>) -> Contact
        ensures { result ≡ tried self outcome }
    {
        match outcome {
            Ok(()) => Contact {
                went: self.went.saturating_add(1),
                ..self
            },
            Err(cause) => Contact {
                lost: self.lost.saturating_add(1),
                cause,
                ..self
            },
        }
    }
}

/// A contact for each neighbour.
#[derive(Drop)]
pub struct Contacts {
    contacts: [Contact; 16],
}

impl Model for Contacts {
    ghost use Rattle.std.specs.Prelude.{List};
    ghost use Rattle.socket_pump.specs.declared.contact.Contact.{Contact};

    ghost Value = { List Contact };

    ghost view = { λ c. c.contacts };
}

impl Contacts {
    /// None yet.
    pub fn none() -> Contacts
        ensures { (v : ℕ) → contact_with result v ≡ no_contact }
    {
        Contacts {
            contacts: [Contact::none(); 16],
        }
    }

    /// That of a neighbour.
    pub fn of(&self, v: OfficeId) -> Contact
        requires { v < 16 }
        ensures { result ≡ contact_with self.now v }
    {
        self.contacts[v.index()]
    }

    /// The system took a frame, or didn't, for this cause.
    pub(crate) fn tried(&mut self, v: OfficeId, outcome: Result<(), Option<i32>>)
        requires { v < 16 }
        ensures { Changes self.old v (tried (contact_with self.old v) outcome) self.new }
    {
        let contact = self.of(v).after(outcome);
        self.contacts[v.index()] = contact;
    }

    // It was heard once more, in a frame of this version.
    fn hear(&mut self, v: OfficeId, version: Version)
        requires { v < 16 }
        ensures { Changes self.old v (heard_in version (contact_with self.old v)) self.new }
    {
        let contact = self.of(v);
        let contact = Contact {
            heard: contact.heard.saturating_add(1),
            version: Some(version),
            ..contact
        };
        self.contacts[v.index()] = contact;
    }

    /// A datagram came: whose frame it is, if it reads as one, was heard.
    pub fn came(&mut self, bytes: &[u8])
        ensures { Hears self.old bytes.now self.new }
    {
        let Ok(frame) = decode(bytes) else { return };
        let from = OfficeId::new(frame.from());
        if from.index() < self.contacts.len() {
            self.hear(from, frame.version());
        }
    }
}
