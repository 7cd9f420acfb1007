//! What holds of sealed wires.

ghost use Rattle.datagram_seals.specs.wires.SealedWires.{EachIsOpened};

/// Each frame that is handed on was opened under the secret with the office that it names as its sender.
pub fn each_is_opened()
    ensures { EachIsOpened }
{}
