//! What a form is made of where it is read as an expression, as operands or as a template, or why it is none.

ghost use Rattle.std.specs.Prelude.{◌≡◌, ◌+◌, option_map, Ok};
ghost use Rattle.lisp_read.specs.Views.{form_of};
ghost use Rattle.lisp_read.specs.Copies.{size};
ghost use Rattle.lisp_read.specs.FormLists.{single};
ghost use Rattle.lisp_read.specs.Forms as forms;
ghost use Rattle.lisp_spec.specs.ModuleFaults.{Unbound, fault, expect};
ghost use Rattle.lisp_spec.specs.declared.head.Head.TheVariants as heads;
ghost use Rattle.lisp_spec.specs.Expressions as spec;
ghost use Rattle.lisp_syntax.specs.Scopes.{scope_of};
ghost use Rattle.lisp_syntax.specs.Marks.{marked, operands_marked, template_marked, unquoted_marked};
ghost use Rattle.lisp_syntax.specs.Shapes.{IsShapeOf, Makes, part_written, part_left};

use crate::{FormFault, Node, Place, Scope};
use lisp_read::{Form, Word};
use lisp_spec::head::Head;

/// A form that is still to be read, by what it is read as.
#[derive(Clone, Copy)]
pub(crate) enum Part<'a> {
    Expression(&'a Form),
    /// A list of expressions, from one of them on.
    Operands(&'a Form),
    Template(&'a Form),
}

/// A node, and the parts of which it is made.
#[derive(Clone, Copy)]
pub(crate) enum Shape<'a> {
    Leaf(Node<'a>),
    One(Part<'a>, Node<'a>),
    Two(Part<'a>, Part<'a>, Node<'a>),
    Three(Part<'a>, Part<'a>, Part<'a>, Node<'a>),
}

// A symbol is the name of a parameter or a constant.
fn named<'a>(scope: &Scope<'_>, place: Place, name: &'a Word) -> Result<Shape<'a>, FormFault>
    ensures { IsShapeOf (scope_of scope.now) (marked (spec.named (scope_of scope.now) place name.now)) 1 result }
{
    if scope.has_symbol(name) {
        Ok(Shape::Leaf(Node::Name(name)))
    } else {
        Err(FormFault::Unbound(place))
    }
}

// The one operand of `quote`.
fn quoted<'a>(pair: Place, behind: &'a Form) -> Result<Shape<'a>, FormFault>
    ensures { (scope : spec.Scope) → IsShapeOf scope (marked (spec.quoted pair (single (form_of behind.now)))) (size (form_of behind.now) + 2) result }
{
    match behind.only() {
        Some(operand) => Ok(Shape::Leaf(Node::Literal(operand))),
        None => Err(FormFault::BadForm(pair)),
    }
}

// The one operand of `qq`.
fn filled<'a>(pair: Place, behind: &'a Form) -> Result<Shape<'a>, FormFault>
    ensures { (scope : spec.Scope) → IsShapeOf scope (marked (spec.only_template (form_of behind.now) pair scope)) (size (form_of behind.now) + 2) result }
{
    match behind.only() {
        Some(template) => Ok(Shape::One(Part::Template(template), Node::Filled)),
        None => Err(FormFault::BadForm(pair)),
    }
}

// The three operands of `if`.
fn choice<'a>(pair: Place, behind: &'a Form) -> Result<Shape<'a>, FormFault>
    ensures { (scope : spec.Scope) → IsShapeOf scope (marked (spec.choice_of (form_of behind.now) pair scope)) (size (form_of behind.now) + 2) result }
{
    match behind.three() {
        Some((condition, second, third)) => Ok(Shape::Three(
            Part::Expression(condition),
            Part::Expression(second),
            Part::Expression(third),
            Node::Choice,
        )),
        None => Err(FormFault::BadForm(pair)),
    }
}

// The one operand of `unquote`, in a template.
fn unquoted<'a>(pair: Place, behind: &'a Form) -> Result<Shape<'a>, FormFault>
    ensures { (scope : spec.Scope) → IsShapeOf scope (unquoted_marked (spec.only_expression (form_of behind.now) pair scope)) (size (form_of behind.now) + 2) result }
{
    match behind.only() {
        Some(expression) => Ok(Shape::One(Part::Expression(expression), Node::Unquoted)),
        None => Err(FormFault::BadForm(pair)),
    }
}

// Where something isn't bound, that is a fault there.
fn unless(bound: bool, place: Place) -> Option<Place>
    ensures { option_map (fault Unbound) result ≡ expect bound Unbound place }
{
    if bound { None } else { Some(place) }
}

// The operands are a proper list, whatever the head; then comes the fault of the head.
fn applied<'a>(
    pair: Place,
    behind: &'a Form,
    unbound: Option<Place>,
    node: Node<'a>,
) -> Result<Shape<'a>, FormFault>
    ensures { (scope : spec.Scope) (make : spec.Operands → spec.Expression) → Makes node.entry make → IsShapeOf scope (marked (spec.applied pair (form_of behind.now) (option_map (fault Unbound) unbound) (spec.operands_of (form_of behind.now)) make scope)) (size (form_of behind.now) + 2) result }
{
    if !behind.is_list() {
        return Err(FormFault::BadForm(pair));
    }
    if let Some(place) = unbound {
        return Err(FormFault::Unbound(place));
    }
    Ok(Shape::One(Part::Operands(behind), node))
}

// A name that is none of the language's.
fn called<'a>(
    scope: &Scope<'_>,
    pair: Place,
    place: Place,
    name: &'a Word,
    behind: &'a Form,
) -> Result<Shape<'a>, FormFault>
    ensures { IsShapeOf (scope_of scope.now) (marked (spec.headed pair place name.now (form_of behind.now) (spec.operands_of (form_of behind.now)) (spec.choice_of (form_of behind.now)) (spec.only_template (form_of behind.now)) (scope_of scope.now) heads.Calls)) (size (form_of behind.now) + 2) result }
{
    let unbound = unless(scope.has_call(name), place);
    let node = if scope.has_inline(name) {
        Node::InlineCall(name)
    } else {
        Node::FunctionCall(name)
    };
    applied(pair, behind, unbound, node)
}

// A pair whose head is a symbol.
fn headed<'a>(
    scope: &Scope<'_>,
    pair: Place,
    place: Place,
    name: &'a Word,
    behind: &'a Form,
) -> Result<Shape<'a>, FormFault>
    ensures { IsShapeOf (scope_of scope.now) (marked (spec.expression_of (forms.Pair pair (forms.Symbol place name.now) (form_of behind.now)) (scope_of scope.now))) (size (form_of behind.now) + 2) result }
{
    match Head::of(name.as_slice()) {
        Head::QuotesRest => Ok(Shape::Leaf(Node::Literal(behind))),
        Head::QuotesOne => quoted(pair, behind),
        Head::Templates => filled(pair, behind),
        Head::Unquotes => Err(FormFault::BadForm(pair)),
        Head::Chooses => choice(pair, behind),
        Head::Lists => applied(pair, behind, None, Node::Listing),
        Head::Operates(code) => {
            let unbound = unless(scope.may_apply(code), place);
            applied(pair, behind, unbound, Node::Operation(code))
        }
        Head::Calls => called(scope, pair, place, name, behind),
    }
}

fn expression_shape<'a>(scope: &Scope<'_>, form: &'a Form) -> Result<Shape<'a>, FormFault>
    ensures { IsShapeOf (scope_of scope.now) (marked (spec.expression_of (form_of form.now) (scope_of scope.now))) (size (form_of form.now)) result }
{
    match form {
        Form::Atom(_, _) => Ok(Shape::Leaf(Node::Literal(form))),
        Form::Symbol(place, name) => named(scope, *place, name),
        Form::Pair(pair, head, behind) => match head.get() {
            Form::Symbol(place, name) => headed(scope, *pair, *place, name, behind.get()),
            _ => Err(FormFault::BadForm(*pair)),
        },
    }
}

fn operands_shape(form: &Form) -> Shape<'_>
    ensures { (scope : spec.Scope) → IsShapeOf scope (operands_marked (spec.operands_of (form_of form.now) scope)) (size (form_of form.now)) (Ok result) }
{
    match form {
        Form::Pair(_, first, rest) => Shape::Two(
            Part::Expression(first.get()),
            Part::Operands(rest.get()),
            Node::Operand,
        ),
        _ => Shape::Leaf(Node::NoMore),
    }
}

fn template_shape(form: &Form) -> Result<Shape<'_>, FormFault>
    ensures { (scope : spec.Scope) → IsShapeOf scope (template_marked (spec.template_of (form_of form.now) scope)) (size (form_of form.now)) result }
{
    match form {
        Form::Pair(pair, first, rest) => {
            if first.get().is_symbol(b"unquote") {
                return unquoted(*pair, rest.get());
            }
            Ok(Shape::Two(
                Part::Template(first.get()),
                Part::Template(rest.get()),
                Node::Both,
            ))
        }
        _ => Ok(Shape::Leaf(Node::Plain(form))),
    }
}

/// What the part is made of.
pub(crate) fn shape_of<'a>(scope: &Scope<'_>, part: Part<'a>) -> Result<Shape<'a>, FormFault>
    ensures { IsShapeOf (scope_of scope.now) (part_written (scope_of scope.now) part.entry) (part_left part.entry) result }
{
    match part {
        Part::Expression(form) => expression_shape(scope, form),
        Part::Operands(form) => Ok(operands_shape(form)),
        Part::Template(form) => template_shape(form),
    }
}
