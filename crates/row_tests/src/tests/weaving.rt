use journal_texts::read_journal;
use journal_weave::GivenJournal;
use office_map::Plan;
use std::alloc::Global;
use std::test::Fail;

mod caller;

/// The first office's journal of a session that moves an amount.
const MOVES: &str =
    "journal 1 run 42 office a\n0 submit 73657373696f6e20610a6c65742076203d207265616420780a7365742078203d2076202d2033300a7365742079203d20726561642079202b2033300a67697665207265616420780a67697665207265616420790a656e640a = ticket 1\n0 do start = done\n0 do hungry = done\n0 do eat = done\n0 do askbottle y = done\n0 send b 1 = frame 445001010000002a000100000000000000010000000000000000030001\n0 took 445001010000002a0100000000000000000100000000000000010400010000000000000000 = taken\n0 do drink = done\n0 do leave = done\n0 do work 100 = done\n0 do finish = done\n";

/// The other's, whole and with nothing in it.
const GIVES: &str =
    "journal 1 run 42 office b\n0 took 445001010000002a000100000000000000010000000000000000030001 = taken\n0 do givebottle y = done\n0 send a 1 = frame 445001010000002a0100000000000000000100000000000000010400010000000000000000\n";

const SILENT: &str = "journal 1 run 42 office b\n";

/// The journals of these texts.
fn both(alloc: Global, plan: &Plan, first: &str, second: &str) -> Result<Vec<GivenJournal>, Fail> {
    let mut journals = Vec::new(alloc);
    for text in [first, second] {
        let journal = given(alloc, plan, text)?;
        journals.push(journal)?;
    }
    Ok(journals)
}

fn given(alloc: Global, plan: &Plan, text: &str) -> Result<GivenJournal, Fail> {
    let read = read_journal(alloc, text.as_bytes(), plan)?;
    Ok(GivenJournal {
        entries: read.entries,
        ends: read.ends,
    })
}
