//! What the body of a macro gives for a call, with pending work in frames in place of a recursion.

ghost use Rattle.std.specs.Prelude.{◌≡◌, ◌+◌, ◌≤◌, IfOk, IfErr};
ghost use Rattle.lisp_read.specs.Views.{form_of};
ghost use Rattle.lisp_read.specs.Copies.{size};
ghost use Rattle.lisp_spec.specs.MacroBodies.{Gives, body_value, template_value, headed_value};
ghost use Rattle.lisp_macro.specs.Operators.{head_of};
ghost use Rattle.lisp_macro.specs.Calls.{call_of};
ghost use Rattle.lisp_macro.specs.Evaluations.{operand_list, frame_goes, frame_left, StepsTo, IsStop};

use crate::call::Call;
use crate::fault::Stop;
use crate::operators::{Head, Operator, head_at};
use crate::value::Value;
use lisp_read::{Form, Place, copy};

/// What waits for a value.
#[derive(Clone, Copy)]
enum Frame<'a> {
    /// An operand, for the list of the values behind it.
    Operand(&'a Form),
    /// A pair with this rest, for its first.
    Behind(Place, &'a Value<'a>),
    /// An operator, for the list of its operands' values.
    Apply(Operator),
    /// `if` with its two branches, for the condition.
    Branches(&'a Form, &'a Form),
    /// The first of a template's pair, for the pair's rest.
    Front(Place, &'a Form),
}

/// What is next.
#[derive(Clone, Copy)]
enum Next<'a> {
    /// An expression is to be evaluated.
    Evaluates(&'a Form),
    /// A template is to be filled.
    Fills(&'a Form),
    /// The operands of this list are to be evaluated, the last of them first.
    Lists(&'a Form),
    /// There is a value.
    Gives(&'a Value<'a>),
}

impl<'a> Call<'a> {
    // The head and the number of the operands come before the operands.
    fn begin_headed(
        &self,
        frames: &mut Vec<Frame<'a>>,
        turns: u32,
        head: Head,
        rest: &'a Form,
    ) -> Result<Next<'a>, Stop>
        ensures { StepsTo (call_of self.now) frames.old.items frames.new.items turns
            (headed_value (body_value (call_of self.now)) self.now.place (head_of head) (form_of rest.now) turns) (size (form_of rest.now) + 2) result }
    {
        match head {
            Head::Quotation => Ok(Next::Gives(copy(self.alloc, self.bump, rest)?)),
            Head::TemplateOf => {
                let Some(template) = rest.only() else {
                    return Err(Stop::BadMacro);
                };
                Ok(Next::Fills(template))
            }
            Head::Branches => {
                let Some((condition, second, third)) = rest.three() else {
                    return Err(Stop::BadMacro);
                };
                frames.push(Frame::Branches(second, third))?;
                Ok(Next::Evaluates(condition))
            }
            Head::Operation(operator) => {
                if !operator.suits(rest) {
                    return Err(Stop::BadMacro);
                }
                frames.push(Frame::Apply(operator))?;
                Ok(Next::Lists(rest))
            }
            Head::NoHead => Err(Stop::BadMacro),
        }
    }

    // The turn of an expression is taken when its evaluation begins.
    fn evaluate(
        &self,
        frames: &mut Vec<Frame<'a>>,
        turns: &mut u32,
        expression: &'a Form,
    ) -> Result<Next<'a>, Stop>
        ensures steps { StepsTo (call_of self.now) frames.old.items frames.new.items turns.new
            (body_value (call_of self.now) (form_of expression.now) turns.old) (size (form_of expression.now)) result }
        ensures fewer { turns.new ≤ turns.old }
    {
        if *turns == 0 {
            return Err(Stop::TurnsSpent);
        }
        *turns -= 1;
        match expression {
            Form::Atom(place, bytes) => {
                let atom = Value::atom(self.bump, *place, bytes.as_slice())?;
                Ok(Next::Gives(atom))
            }
            Form::Symbol(place, name) => {
                let value = self.symbol(*place, name.as_slice())?;
                Ok(Next::Gives(value))
            }
            Form::Pair(_, head, rest) => {
                self.begin_headed(frames, *turns, head_at(head.get()), rest.get())
            }
        }
    }

    // Of a template the rest of a pair is filled before its first.
    fn fill(
        &self,
        frames: &mut Vec<Frame<'a>>,
        turns: u32,
        template: &'a Form,
    ) -> Result<Next<'a>, Stop>
        ensures { StepsTo (call_of self.now) frames.old.items frames.new.items turns
            (template_value (body_value (call_of self.now)) (form_of template.now) turns) (size (form_of template.now)) result }
    {
        match template {
            Form::Atom(place, bytes) => {
                let atom = Value::atom(self.bump, *place, bytes.as_slice())?;
                Ok(Next::Gives(atom))
            }
            Form::Symbol(place, name) => {
                let symbol = Value::symbol(self.bump, *place, name.as_slice())?;
                Ok(Next::Gives(symbol))
            }
            Form::Pair(place, first, rest) => {
                if first.get().is_symbol(b"unquote") {
                    let Some(expression) = rest.get().only() else {
                        return Err(Stop::BadMacro);
                    };
                    return Ok(Next::Evaluates(expression));
                }
                frames.push(Frame::Front(*place, first.get()))?;
                Ok(Next::Fills(rest.get()))
            }
        }
    }

    // The operands behind an operand come before it.
    fn list(
        &self,
        frames: &mut Vec<Frame<'a>>,
        turns: u32,
        operands: &'a Form,
    ) -> Result<Next<'a>, Stop>
        ensures { StepsTo (call_of self.now) frames.old.items frames.new.items turns
            (operand_list (body_value (call_of self.now)) self.now.place (form_of operands.now) turns) (size (form_of operands.now)) result }
    {
        match operands {
            Form::Pair(_, first, rest) => {
                frames.push(Frame::Operand(first.get()))?;
                Ok(Next::Lists(rest.get()))
            }
            _ => {
                let end = Value::atom(self.bump, self.place, b"")?;
                Ok(Next::Gives(end))
            }
        }
    }

    // The innermost frame goes on with the value that it waited for.
    fn go_on(
        &self,
        frames: &mut Vec<Frame<'a>>,
        turns: u32,
        frame: Frame<'a>,
        value: &'a Value<'a>,
    ) -> Result<Next<'a>, Stop>
        ensures { StepsTo (call_of self.now) frames.old.items frames.new.items turns
            (frame_goes (call_of self.now) frame.entry value.now turns) (frame_left frame.entry) result }
    {
        match frame {
            Frame::Operand(operand) => {
                frames.push(Frame::Behind(self.place, value))?;
                Ok(Next::Evaluates(operand))
            }
            Frame::Behind(place, rest) => {
                let pair = Value::pair(self.bump, place, value, rest)?;
                Ok(Next::Gives(pair))
            }
            Frame::Apply(operator) => {
                let applied = operator.applied(self.bump, self.place, value)?;
                Ok(Next::Gives(applied))
            }
            Frame::Branches(second, third) => {
                if value.is_empty() {
                    Ok(Next::Evaluates(third))
                } else {
                    Ok(Next::Evaluates(second))
                }
            }
            Frame::Front(place, template) => {
                frames.push(Frame::Behind(place, value))?;
                Ok(Next::Fills(template))
            }
        }
    }

    /// The value of the body. Each expression that is evaluated takes a turn.
    pub(crate) fn evaluate_body(
        &self,
        body: &'a Form,
        turns: &mut u32,
    ) -> Result<&'a Value<'a>, Stop>
        ensures value { IfOk result (λ value. body_value (call_of self.now) (form_of body.now) turns.old ≡ Gives value.now turns.new) }
        ensures fewer { turns.new ≤ turns.old }
        ensures stops { IfErr result (IsStop (body_value (call_of self.now) (form_of body.now) turns.old) turns.new) }
    {
        let mut frames = Vec::new(self.alloc);
        let mut next = Next::Evaluates(body);
        'frames: loop {
            match next {
                Next::Evaluates(form) => next = self.evaluate(&mut frames, turns, form)?,
                Next::Fills(form) => next = self.fill(&mut frames, *turns, form)?,
                Next::Lists(form) => next = self.list(&mut frames, *turns, form)?,
                Next::Gives(value) => match frames.pop() {
                    Some(frame) => next = self.go_on(&mut frames, *turns, frame, value)?,
                    None => return Ok(value),
                },
            }
        }
    }
}
