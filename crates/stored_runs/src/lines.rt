//! Which line of a store a fault is told of. No claim rests on it.

use text_lines::Statements;

/// The number of the line, from 1, of the statement of that place, from 0; 0 where there is none.
pub(crate) fn line_of(text: &[u8], statement: usize) -> u64 {
    let mut left = Statements {
        rest: text,
        number: 1,
    };
    for _ in 0..statement {
        if left.next().is_none() {
            return 0;
        }
    }
    match left.next() {
        Some((line, _)) => line,
        None => 0,
    }
}

/// The first line, from 1, that isn't the same in both texts.
pub(crate) fn first_other_line(one: &[u8], other: &[u8]) -> u64 {
    let mut line = 1u64;
    let least = one.len().min(other.len());
    for i in 0..least {
        if one[i] != other[i] {
            return line;
        }
        if one[i] == b'\n' {
            line = line.saturating_add(1);
        }
    }
    line
}
