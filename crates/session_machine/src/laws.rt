//! The law of work in pieces.

ghost use Rattle.session_machine.specs.Pieces.{AnyPiecesGiveTheMeaning};

/// Over every list of sizes the work has ended exactly when their sum is at least the session's
/// length, and its ending is then what the program does alone.
#[tactic(auto, using(crate::proofs::WorkInPieces::any_pieces))]
pub fn any_pieces_give_the_meaning()
    ensures { AnyPiecesGiveTheMeaning }
{}
