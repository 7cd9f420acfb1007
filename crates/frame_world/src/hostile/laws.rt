//! What holds between offices that keep to the rules, whatever frames others make up.

ghost use Rattle.frame_world.specs.hostile.Claims.{Always, HaveOnePlaceEach, HaveTrueCounts, BottlesKeepTheirValues, SessionsReadWhatWasLeft, SessionsEndAsAlone};

use dining_core::laws as tables;
use drinking_core::laws as bars;
use session_meaning::laws::{tells_what_it_read, writes_what_it_has};
use token_channel::laws::{what_comes_was_away, what_follows_was_away};

/// Each thing that two of them share is at one place.
pub fn honest_pairs_keep_their_things()
    ensures { Always HaveOnePlaceEach }
{
    tables::each_has_one_place();
    bars::each_has_one_place();
    bars::peers_stay();
    what_comes_was_away();
    what_follows_was_away();
}

/// Their counts of messages are true.
pub fn honest_counts_are_true()
    ensures { Always HaveTrueCounts }
{
    bars::peers_stay();
    what_comes_was_away();
    what_follows_was_away();
}

/// A record between two of them has one bottle, with the value that was written to it last by a session at either.
pub fn honest_bottles_keep_their_values()
    ensures { Always BottlesKeepTheirValues }
{
    bars::each_has_its_spots();
    bars::no_other_spot();
    bars::records_stay();
    bars::peers_stay();
    bars::bottles_start_with_their_values();
    bars::values_stay();
    bars::finishing_writes();
    writes_what_it_has();
    tells_what_it_read();
    what_comes_was_away();
    what_follows_was_away();
}

/// Each session that finished at one of them read there what those before it had left.
pub fn honest_sessions_read_what_was_left()
    ensures { Always SessionsReadWhatWasLeft }
{
    bars::records_stay();
    bars::peers_stay();
    bars::bottles_start_with_their_values();
    bars::values_stay();
    bars::finishing_writes();
    writes_what_it_has();
    tells_what_it_read();
    what_comes_was_away();
    what_follows_was_away();
}

/// Each session that finished at one of them ended as its program does alone on what it read.
pub fn honest_sessions_end_as_alone()
    ensures { Always SessionsEndAsAlone }
{
    tells_what_it_read();
}
