//! What holds of the sessions that are left.

ghost use Rattle.day_audits.specs.left.Left.{NothingIsLostOrTwice};
ghost use Rattle.day_audits.specs.left.LeftTexts.{TextsAreReadInTurn};

use site_core::laws::sessions_go_in_order;

/// Of the sessions that were submitted those are left that have no outcome and weren't withdrawn.
pub fn nothing_is_lost_or_twice()
    ensures { NothingIsLostOrTwice }
{
    sessions_go_in_order();
}

/// The texts of sessions, one after the other, are read as these sessions.
pub fn texts_are_read_in_turn()
    ensures { TextsAreReadInTurn }
{}
