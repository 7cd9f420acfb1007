//! Expressions and conditions worked out on values, and what a statement does with the value of one.

ghost use Rattle.std.specs.Prelude.{◌≡◌, ◌≤◌};
ghost use Rattle.session_meaning.specs.Tree.{LetVar, SetTo, GiveOf};
ghost use Rattle.session_meaning.specs.refinement.TreeOfStatements.{test_of};
ghost use Rattle.session_meaning.specs.Meaning.{value_of, truth_of, command};
ghost use Rattle.session_programs.specs.WellFormed.{depth};
ghost use Rattle.session_programs.specs.Limits.{most_depth};
ghost use Rattle.serial_replay.specs.refinement.WalkRefinement.{environment_of, Leaves};

use crate::environment::Environment;
use crate::stop::Stop;
use bottle_values::{Value, ValueFault};
use office_map::RecordId;
use session_meaning::{Condition, End, Expression, Node};
use session_programs::limits::MOST_DEPTH;

/// How many values there is room for below the top. An expression has no more operands at once than it is deep: the
/// last one is the top, and below the first stands a 0.
pub const ROOM: usize = MOST_DEPTH as usize;

/// Lets a variable have the value of an expression.
#[cold]
#[inline(never)]
pub fn let_value(environment: &mut Environment, place: u8, e: &Expression) -> Result<(), Stop>
    requires { depth e.now ≤ most_depth }
    ensures { Leaves result environment.new (command (LetVar place e.now) (environment_of environment.old)) }
{
    match value_of(environment, e) {
        Ok(value) => {
            environment.variables.set(place, value);
            Ok(())
        }
        Err(fault) => Err(Stop::Ended(End::by(fault))),
    }
}

/// Sets a record to the value of an expression.
#[cold]
#[inline(never)]
pub fn set_value(environment: &mut Environment, id: RecordId, e: &Expression) -> Result<(), Stop>
    requires { depth e.now ≤ most_depth }
    ensures { Leaves result environment.new (command (SetTo id e.now) (environment_of environment.old)) }
{
    match value_of(environment, e) {
        Ok(value) => {
            environment.records.set(id, value);
            Ok(())
        }
        Err(fault) => Err(Stop::Ended(End::by(fault))),
    }
}

/// Gives the value of an expression.
#[cold]
#[inline(never)]
pub fn give_value(environment: &mut Environment, e: &Expression) -> Result<(), Stop>
    requires { depth e.now ≤ most_depth }
    ensures { Leaves result environment.new (command (GiveOf e.now) (environment_of environment.old)) }
{
    match value_of(environment, e) {
        Ok(value) => {
            environment.gives.push(value)?;
            Ok(())
        }
        Err(fault) => Err(Stop::Ended(End::by(fault))),
    }
}

/// Whether a condition holds, or the fault of what it compares.
#[cold]
#[inline(never)]
pub fn test_values(environment: &Environment, c: &Condition) -> Result<bool, ValueFault>
    requires left { depth c.now.left ≤ most_depth }
    requires right { depth c.now.right ≤ most_depth }
    ensures { result ≡ truth_of (test_of c.now) (environment_of environment.now) }
{
    let left = value_of(environment, &c.left)?;
    let right = value_of(environment, &c.right)?;
    c.comparison.holds(left, right)
}

/// The value of an expression that is no deeper than those of programs, or why it has none.
///
/// The top of the stack is a local, and the array has what is below. The stack begins with a 0 that no operator takes: so
/// there always is a top, and every operand puts one away.
fn value_of(environment: &Environment, e: &Expression) -> Result<Value, ValueFault>
    requires { depth e.now ≤ most_depth }
    ensures { result ≡ value_of e.now (environment_of environment.now) }
{
    let mut below = [Value::Number(0); ROOM];
    let mut top = Value::Number(0);
    let mut waiting = 0;
    let nodes = e.nodes();
    for i in 0..nodes.len() {
        match nodes.node(i) {
            Node::Literal(value) => {
                below[waiting] = top;
                waiting += 1;
                top = value;
            }
            Node::Variable(place) => {
                below[waiting] = top;
                waiting += 1;
                top = environment.variables.value(place);
            }
            Node::Read(id) => {
                below[waiting] = top;
                waiting += 1;
                top = environment.records.value(id);
            }
            Node::Negate => top = top.neg()?,
            Node::Apply(operator) => {
                waiting -= 1;
                top = operator.apply(below[waiting], top)?;
            }
        }
    }
    Ok(top)
}
