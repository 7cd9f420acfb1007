//! The parts of a session that is open.

ghost use Rattle.std.specs.Prelude.{◌≡◌, ◌<◌, OnOk, IfOk, Ok, vec_len};
ghost use Rattle.session_meaning.specs.refinement.TreeOfStatements.{command_of, block_of};
ghost use Rattle.session_language.specs.refinement.PartsRefinement.{head_of, parts_of};
ghost use Rattle.session_language.specs.refinement.ReaderRefinement.{Stops};
ghost use Rattle.bottle_values.specs.Memory.{UnlessMemory};
ghost use Rattle.session_language.specs.Reading.{begun, with_command, with_block, turned_in, whole, ended, Going};

use crate::fault::{SessionRule, Stop};
use office_map::{OfficeId, RecordId};
use session_meaning::{Condition, Statement};
use std::alloc::{AllocError, Global};
use std::mem;
use text_lines::ShortName;

/// How an open block begins: an `if`, before its `else` or after it, with its first part, or a
/// `repeat`.
#[derive(Drop)]
pub(crate) enum Head {
    If(Box<Condition>),
    Else(Box<Condition>, Vec<Statement>),
    Repeat(u16),
}

/// A block that is open, and the statements before it in the block around it.
#[derive(Drop)]
pub(crate) struct OpenBlock {
    pub before: Vec<Statement>,
    pub head: Head,
}

/// The office of a session, its variables, the records that it needs so far, the blocks that are
/// open, the innermost last, and the statements so far of the innermost.
///
/// A block becomes a statement at its `end`: nothing recurs over the text, and no statement is moved again but with its
/// whole list. A session has a tree only once it is closed, so its measures are taken then, and a limit of them is told
/// at its closing `end`.
#[derive(Drop)]
pub(crate) struct Parts {
    pub office: OfficeId,
    pub variables: Vec<ShortName>,
    pub needs: Vec<RecordId>,
    pub outer: Vec<OpenBlock>,
    pub statements: Vec<Statement>,
}

impl Parts {
    /// Nothing yet.
    pub fn begun(alloc: Global, office: OfficeId) -> Parts
        ensures { parts_of result ≡ begun office }
    {
        Parts {
            office,
            variables: Vec::new(alloc),
            needs: Vec::new(alloc),
            outer: Vec::new(alloc),
            statements: Vec::new(alloc),
        }
    }

    /// Leaves nothing but the office.
    pub fn clear(&mut self)
        ensures { parts_of self.new ≡ begun self.old.office }
    {
        self.variables.clear();
        self.needs.clear();
        self.outer.clear();
        self.statements.clear();
    }

    /// Adds a statement to the innermost block.
    pub fn push(&mut self, statement: Statement) -> Result<(), AllocError>
        ensures { OnOk result (parts_of self.new ≡ with_command (parts_of self.old) (command_of statement)) }
    {
        self.statements.push(statement)?;
        Ok(())
    }

    /// Opens a block in the innermost one.
    pub fn open(&mut self, alloc: Global, head: Head) -> Result<(), AllocError>
        ensures { OnOk result (parts_of self.new ≡ with_block (parts_of self.old) (head_of head)) }
    {
        let before = mem::replace(&mut self.statements, Vec::new(alloc));
        self.outer.push(OpenBlock { before, head })?;
        Ok(())
    }

    /// Goes on with the part after `else`, where the innermost block is an `if` without one.
    pub fn turned(self, alloc: Global) -> Result<Parts, Stop>
        ensures { UnlessMemory parts_of Stops result (turned_in (parts_of self) (parts_of self).outer) }
    {
        let mut parts = self;
        let Some(innermost) = parts.outer.pop() else {
            return Err(Stop::Refused(SessionRule::Syntax));
        };
        let OpenBlock { before, head } = innermost;
        let Head::If(condition) = head else {
            return Err(Stop::Refused(SessionRule::Syntax));
        };
        let first = mem::replace(&mut parts.statements, Vec::new(alloc));
        parts.outer.push(OpenBlock {
            before,
            head: Head::Else(condition, first),
        })?;
        Ok(parts)
    }

    /// Ends the innermost block.
    pub fn ended(self) -> Result<Parts, AllocError>
        requires { 0 < vec_len self.outer }
        ensures { IfOk result (λ p. ended (parts_of self) ≡ Ok (Going (parts_of p))) }
    {
        let mut parts = self;
        let Some(block) = parts.outer.pop() else {
            return Ok(parts);
        };
        let OpenBlock { before, head } = block;
        let body = mem::replace(&mut parts.statements, before);
        parts.statements.push(whole(head, body))?;
        Ok(parts)
    }
}

/// The statement that a block is, once it ends.
fn whole(head: Head, body: Vec<Statement>) -> Statement
    ensures { command_of result ≡ whole (head_of head) (block_of body.items) }
{
    match head {
        Head::If(condition) => Statement::If(condition, body),
        Head::Else(condition, first) => Statement::IfElse(condition, first, body),
        Head::Repeat(turns) => Statement::Repeat(turns, body),
    }
}
