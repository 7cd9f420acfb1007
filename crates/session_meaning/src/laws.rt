//! Laws of the definitions that the contracts cite.

ghost use Rattle.session_meaning.specs.Stepwise.{LengthCountsSteps};
ghost use Rattle.session_meaning.specs.Laws.{WritesWhatItHas, TellsWhatItRead, ValuesFit};

/// A session writes only records that it needs.
pub fn writes_what_it_has()
    ensures { WritesWhatItHas }
{}

/// However a session ends, it tells what it read.
pub fn tells_what_it_read()
    ensures { TellsWhatItRead }
{}

/// A session that is read one step at a time takes as many steps as its length.
pub fn length_counts_steps()
    ensures { LengthCountsSteps }
{}

/// A session that a run of a version has writes and gives values of that version, if those that it read are such: under
/// version 1 numbers alone.
pub fn values_fit()
    ensures { ValuesFit }
{}
