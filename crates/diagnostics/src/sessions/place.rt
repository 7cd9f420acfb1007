//! Where a line of a text of sessions stands.

use crate::shown::Lines;
use office_map::Plan;
use session_language::keyword::{Keyword, keyword_of};
use session_language::lexer::{Piece, Pieces};
use std::alloc::{AllocError, Global};

/// A block that is open.
#[derive(Clone, Copy)]
pub(crate) struct Block {
    pub keyword: Keyword,
    pub line: u64,
    pub has_else: bool,
}

/// The session round a line, if there is one, as far as that line, and the plan of the text.
#[derive(Drop)]
pub(crate) struct Place<'a> {
    pub alloc: Global,
    pub plan: &'a Plan,
    pub line: &'a [u8],
    /// How many lines above begin a session.
    pub sessions: u64,
    /// The line that begins the session that is open, or 0.
    pub begun: u64,
    pub office: &'a [u8],
    /// What stands in the open session above the line.
    pub body: Vec<&'a [u8]>,
    pub blocks: Vec<Block>,
}

impl<'a> Place<'a> {
    /// The place of the line of this number, from 1. The lines above it have no fault.
    pub fn of(
        alloc: Global,
        plan: &'a Plan,
        text: &'a [u8],
        number: u64,
    ) -> Result<Place<'a>, AllocError> {
        let mut place = Place {
            alloc,
            plan,
            line: &[],
            sessions: 0,
            begun: 0,
            office: &[],
            body: Vec::new(alloc),
            blocks: Vec::new(alloc),
        };
        let mut lines = Lines { rest: text };
        for i in 0..text.len() {
            let Some(line) = lines.next() else {
                break;
            };
            let at = i as u64 + 1;
            if at >= number {
                place.line = line;
                break;
            }
            place.add(at, line)?;
        }
        Ok(place)
    }

    fn add(&mut self, at: u64, line: &'a [u8]) -> Result<(), AllocError> {
        let keyword = keyword_in(line);
        match keyword {
            Keyword::Session => {
                self.sessions = self.sessions.saturating_add(1);
                self.begun = at;
                self.office = second_word(line);
                return Ok(());
            }
            Keyword::If | Keyword::Repeat => self.blocks.push(Block {
                keyword,
                line: at,
                has_else: false,
            })?,
            Keyword::Else => {
                if let Some(mut block) = self.blocks.pop() {
                    block.has_else = true;
                    self.blocks.push(block)?;
                }
            }
            Keyword::End => {
                if self.blocks.pop().is_none() {
                    self.begun = 0;
                    self.body.clear();
                    return Ok(());
                }
            }
            Keyword::Let | Keyword::Set | Keyword::Give | Keyword::Require => {}
            Keyword::Other => return Ok(()),
        }
        self.body.push(line)?;
        Ok(())
    }
}

/// What a line begins with: no keyword, where it says nothing.
pub(crate) fn keyword_in(line: &[u8]) -> Keyword {
    keyword_of(first_word(line))
}

/// The word that a line begins with, or no bytes where it begins with none.
pub(crate) fn first_word(line: &[u8]) -> &[u8] {
    let mut pieces = Pieces { rest: line };
    match pieces.next() {
        Some(Piece::Word(word)) => word,
        _ => &[],
    }
}

/// The word after it.
pub(crate) fn second_word(line: &[u8]) -> &[u8] {
    let mut pieces = Pieces { rest: line };
    let _first = pieces.next();
    match pieces.next() {
        Some(Piece::Word(word)) => word,
        _ => &[],
    }
}
