//! Laws of the definitions that the contracts cite.

ghost use Rattle.journal_texts.specs.Growing.{TextsGoOn, WrittenIsRead, TornTextsBegin};
ghost use Rattle.journal_texts.specs.JournalText.{ATextIsOneJournal, AFaultyTextIsNoJournal};

/// A text is the journal of one office at most, with one list of entries, and ends with them or not.
pub fn a_text_is_one_journal()
    ensures { ATextIsOneJournal }
{}

/// A text that has a fault is no journal.
pub fn a_faulty_text_is_no_journal()
    ensures { AFaultyTextIsNoJournal }
{}

/// A journal's text goes on by the lines of the entries that are added.
pub fn texts_go_on()
    ensures { TextsGoOn }
{}

/// What was written of a legal journal, in whatever parts, is read as that journal.
pub fn written_is_read()
    ensures { WrittenIsRead }
{}

/// Of a beginning of a journal's text, the whole lines are the text of the journal's first entries.
pub fn torn_texts_begin()
    ensures { TornTextsBegin }
{}
