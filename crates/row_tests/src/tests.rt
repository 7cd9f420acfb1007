mod offices;
mod plans;
mod sessions;
mod values;
mod weaving;
mod worlds;

/// Two offices, and two records of theirs.
const PAIR: &str =
    "plan 1 run 42\noffice a -\noffice b -\npair a b fork a\nrecord x a b 100 at a\nrecord y a b 0 at b\n";

/// A session that moves 30 from one record to the other.
const MOVE: &str =
    "session a\nlet v = read x\nset x = v - 30\nset y = read y + 30\ngive read x\ngive read y\nend\n";
