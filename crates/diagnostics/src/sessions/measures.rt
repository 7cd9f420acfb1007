//! How much a session costs and gives, counted on its lines.

use crate::sessions::place::{keyword_in, second_word};
use session_language::keyword::Keyword;
use session_language::lexer::{Piece, Pieces, Symbol};
use std::alloc::{AllocError, Global};
use text_lines::number;

/// What a session or a part of it has.
#[derive(Clone, Copy)]
pub(crate) struct Measures {
    pub statements: u64,
    pub cost: u64,
    pub gives: u64,
}

/// A block that is open: what stands before it, what its first line costs, and the part before its `else`.
#[derive(Clone, Copy)]
struct Open {
    before: Measures,
    head: u64,
    turns: Option<u64>,
    first: Measures,
}

const NONE: Measures = Measures {
    statements: 0,
    cost: 0,
    gives: 0,
};

fn measured(statements: u64, cost: u64, gives: u64) -> Measures {
    Measures {
        statements,
        cost,
        gives,
    }
}

/// The measures of the lines of a session.
pub(crate) fn measures_of(alloc: Global, body: &[&[u8]]) -> Result<Measures, AllocError> {
    let mut now = NONE;
    let mut blocks: Vec<Open> = Vec::new(alloc);
    for line in body {
        match keyword_in(*line) {
            Keyword::If => {
                let head = nodes(*line).saturating_add(1);
                blocks.push(opened(now, head, None))?;
                now = NONE;
            }
            Keyword::Repeat => {
                let turns = number(second_word(*line)).unwrap_or(0);
                blocks.push(opened(now, 1, Some(turns)))?;
                now = NONE;
            }
            Keyword::Else => {
                if let Some(mut block) = blocks.pop() {
                    block.first = now;
                    blocks.push(block)?;
                    now = NONE;
                }
            }
            Keyword::End => {
                if let Some(block) = blocks.pop() {
                    now = closed(block, now);
                }
            }
            keyword => {
                let cost = nodes(*line).saturating_add(1);
                let gives = if keyword == Keyword::Give { 1 } else { 0 };
                now = sum(now, measured(1, cost, gives));
            }
        }
    }
    Ok(now)
}

fn opened(before: Measures, head: u64, turns: Option<u64>) -> Open {
    Open {
        before,
        head,
        turns,
        first: NONE,
    }
}

/// What stands before a block, and the block, whose last part is this.
fn closed(block: Open, last: Measures) -> Measures {
    let first = block.first;
    let statements = first
        .statements
        .saturating_add(last.statements)
        .saturating_add(1);
    let (cost, gives) = match block.turns {
        None => (first.cost.max(last.cost), first.gives.max(last.gives)),
        Some(turns) => (
            turns.saturating_mul(last.cost.saturating_add(1)),
            turns.saturating_mul(last.gives),
        ),
    };
    let cost = cost.saturating_add(block.head);
    sum(block.before, measured(statements, cost, gives))
}

fn sum(a: Measures, b: Measures) -> Measures {
    Measures {
        statements: a.statements.saturating_add(b.statements),
        cost: a.cost.saturating_add(b.cost),
        gives: a.gives.saturating_add(b.gives),
    }
}

/// The nodes of a line's expressions and condition.
fn nodes(line: &[u8]) -> u64 {
    let mut count: u64 = 0;
    let first: usize = match keyword_in(line) {
        Keyword::Let | Keyword::Set => 2,
        _ => 1,
    };
    let mut pieces = Pieces { rest: line };
    for i in 0..line.len() {
        let Some(piece) = pieces.next() else {
            break;
        };
        if i >= first {
            if is_end(piece) {
                break;
            }
            if is_node(piece) {
                count = count.saturating_add(1);
            }
        }
    }
    count
}

/// Whether the condition of a `require` ends here.
fn is_end(piece: Piece<'_>) -> bool {
    match piece {
        Piece::Word(word) => word == b"else".as_slice(),
        _ => false,
    }
}

/// A record's name stands for its `read`.
fn is_node(piece: Piece<'_>) -> bool {
    match piece {
        Piece::Word(word) => word != b"read".as_slice(),
        Piece::Symbol(symbol) => match symbol {
            Symbol::Assign | Symbol::Open | Symbol::Close => false,
            _ => true,
        },
        Piece::Quoted(_) => true,
        Piece::Stray => false,
    }
}
