//! What holds of what is heard of a stream.

ghost use Rattle.session_streams.specs.StreamLaws.{TextsAreHeard, FirstFaultsAreTold, SessionsStandAlone, FaultsAreToldOnce, LinesCloseOne};

/// Of a text that can be read, its sessions are heard, in order, and nothing else.
pub fn texts_are_heard()
    ensures { TextsAreHeard }
{}

/// Of any other text that isn't too long, its first fault is told, after the sessions before it.
pub fn first_faults_are_told()
    ensures { FirstFaultsAreTold }
{}

/// A stream that is cut where a line begins with `session` is heard as its parts are, each by itself.
pub fn sessions_stand_alone()
    ensures { SessionsStandAlone }
{}

/// After a fault nothing is told up to the next line that begins with `session`.
pub fn faults_are_told_once()
    ensures { FaultsAreToldOnce }
{}

/// A line closes one session at most, and none where it begins one.
pub fn lines_close_one()
    ensures { LinesCloseOne }
{}
