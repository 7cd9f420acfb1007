//! What holds of secrets that are read.

ghost use Rattle.datagram_seals.specs.texts.SecretLaws.{NeighboursHaveSecrets, NeighboursShareOneSecret, SecretsAreOfLines};

/// An office has a secret with each of its neighbours, and with nobody else.
pub fn neighbours_have_secrets()
    ensures { NeighboursHaveSecrets }
{}

/// Two offices that read one text have the same secret with each other.
pub fn neighbours_share_one_secret()
    ensures { NeighboursShareOneSecret }
{}

/// Each secret of an office is that of a line which names the office and the other.
pub fn secrets_are_of_lines()
    ensures { SecretsAreOfLines }
{}
