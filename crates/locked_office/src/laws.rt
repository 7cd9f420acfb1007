//! Laws of desks.

ghost use denote.Param.Send.{IsSend, IsSync};
ghost use Rattle.locked_office.specs.contracts.desk.Desk as desk;

use site_core::laws::an_office_crosses_threads;

/// Threads may share a desk.
///
/// A function that hands a desk to threads calls these laws, and `an_office_crosses_threads` for the passes.
pub fn threads_share_a_desk()
    ensures { IsSync desk.the_row }
{
    an_office_crosses_threads();
}

/// A desk may be handed from thread to thread.
pub fn a_desk_crosses_threads()
    ensures { IsSend desk.the_row }
{
    an_office_crosses_threads();
}
