//! Forms read as expressions, with a stack in place of a recursion.

ghost use Rattle.std.specs.Prelude.{◌≡◌, ◌+◌, ◌<◌, OnOk, IfErr, Ok};
ghost use Rattle.lisp_read.specs.Views.{form_of};
ghost use Rattle.lisp_spec.specs.Expressions as spec;
ghost use Rattle.lisp_syntax.specs.declared.fault.FormFault.TheVariants.{OutOfMemory};
ghost use Rattle.lisp_syntax.specs.Scopes.{scope_of};
ghost use Rattle.lisp_syntax.specs.Marks.{marks_of};
ghost use Rattle.lisp_syntax.specs.Shapes.{◌before◌, shape_written, shape_left};
ghost use Rattle.lisp_syntax.specs.Tasks.{tasks_written, all_written, tasks_left, Answers};

use crate::shape::{Part, Shape, shape_of};
use crate::{Expression, FormFault, Node, Scope};
use lisp_read::Form;
use std::alloc::Global;

/// What is still to do: a part is read, or a node is put behind its parts.
#[derive(Clone, Copy)]
enum Task<'a> {
    Reads(Part<'a>),
    Puts(Node<'a>),
}

// The parts of the shape are next, the first before the others, and then its node.
fn take_up<'a>(
    tasks: &mut Vec<Task<'a>>,
    nodes: &mut Vec<Node<'a>>,
    shape: Shape<'a>,
) -> Result<(), FormFault>
    ensures same { OnOk result ((scope : spec.Scope) → all_written scope nodes.new.items tasks.new.items ≡ (Ok (marks_of nodes.old.items) before shape_written scope shape.entry before tasks_written scope tasks.old.items)) }
    ensures less { OnOk result (tasks_left tasks.new.items ≡ tasks_left tasks.old.items + shape_left shape.entry) }
    ensures memory { IfErr result (λ fault. fault ≡ OutOfMemory) }
{
    match shape {
        Shape::Leaf(node) => nodes.push(node)?,
        Shape::One(part, node) => {
            tasks.push(Task::Puts(node))?;
            tasks.push(Task::Reads(part))?;
        }
        Shape::Two(first, second, node) => {
            tasks.push(Task::Puts(node))?;
            tasks.push(Task::Reads(second))?;
            tasks.push(Task::Reads(first))?;
        }
        Shape::Three(first, second, third, node) => {
            tasks.push(Task::Puts(node))?;
            tasks.push(Task::Reads(third))?;
            tasks.push(Task::Reads(second))?;
            tasks.push(Task::Reads(first))?;
        }
    }
    Ok(())
}

/// The expression that a form is in its scope, or its first fault: a pair that is no expression, or a symbol that names
/// nothing that may stand there.
pub fn expression<'a>(
    alloc: Global,
    form: &'a Form,
    scope: &Scope<'_>,
) -> Result<Expression<'a>, FormFault>
    ensures { Answers (spec.expression_of (form_of form.now) (scope_of scope.now)) result }
{
    let mut nodes = Vec::new(alloc);
    let mut tasks = Vec::new(alloc);
    tasks.push(Task::Reads(Part::Expression(form)))?;
    'tasks: while let Some(task) = tasks.pop() {
        let shape = match task {
            Task::Reads(part) => shape_of(scope, part)?,
            Task::Puts(node) => Shape::Leaf(node),
        };
        take_up(&mut tasks, &mut nodes, shape)?;
    }
    Ok(Expression { nodes })
}
