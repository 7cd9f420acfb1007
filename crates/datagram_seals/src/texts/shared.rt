//! Keys that two offices share.

ghost use Rattle.std.specs.Prelude.{◌≡◌, is_none};
ghost use Rattle.std.specs.List.{list_any};
ghost use Rattle.datagram_seals.specs.texts.SecretText.{is_between, secret_between};

use crate::frames::Secret;
use crate::texts::key::Key;
use office_map::OfficeId;

/// A key and the two offices that share it, in the order of their line.
#[derive(Drop)]
pub struct SharedKey {
    pub first: OfficeId,
    pub second: OfficeId,
    pub key: Key,
}

impl SharedKey {
    /// Whether these two share it, in either order.
    pub fn is_between(&self, a: OfficeId, b: OfficeId) -> bool
        ensures { result ≡ is_between a b self.now }
    {
        (self.first == a && self.second == b) || (self.first == b && self.second == a)
    }
}

/// Whether some key is shared by these two.
pub(crate) fn has_key(keys: &[SharedKey], a: OfficeId, b: OfficeId) -> bool
    ensures { result ≡ list_any (is_between a b) keys.now }
{
    keys.iter().any(|key| key.is_between(a, b))
}

/// Whether these two share none.
#[tactic(auto, using(crate::proofs::texts_lemmas::SharedSecrets::none_there))]
pub(crate) fn share_nothing(keys: &[SharedKey], a: OfficeId, b: OfficeId) -> bool
    ensures { result ≡ is_none (secret_between keys.now a b) }
{
    !has_key(keys, a, b)
}

/// The secret that these two share.
pub(crate) fn secret_between(keys: &[SharedKey], a: OfficeId, b: OfficeId) -> Option<Secret>
    ensures { result ≡ secret_between keys.now a b }
{
    let shared = keys.iter().find(|key| key.is_between(a, b))?;
    Some(Secret::of_key(shared.key.bytes()))
}
