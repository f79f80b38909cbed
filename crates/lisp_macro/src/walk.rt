//! The expansion of a form by macros, from the outside in, with a stack in place of a recursion.

ghost use Rattle.std.specs.Prelude.{◌≡◌, ℕ, List, is_some, Err, IfOk, IfErr};
ghost use Rattle.lisp_read.specs.Views.{form_of};
ghost use Rattle.lisp_read.specs.Copies.{size};
ghost use Rattle.lisp_spec.specs.FormParts as parts;
ghost use Rattle.lisp_read.specs.FormLists.{form_elements};
ghost use Rattle.lisp_spec.specs.Macros.{Macro, macro_named};
ghost use Rattle.lisp_spec.specs.Expansion.{Expands, call_kind, kind_of, written_at, expanded_part, expansion};
ghost use Rattle.lisp_macro.specs.Faults.{IsMacroFault};
ghost use Rattle.lisp_macro.specs.declared.fault.MacroFault.TheVariants as faults;
ghost use Rattle.lisp_macro.specs.Walks.{part_of, pair_of, IsKind, level_goes, level_left, StepsTo};

use crate::MacroFault;
use crate::given::call_given;
use crate::macros::{Definition, Macros};
use lisp_read::{Form, FormBox, Parts, Place, Word};
use lisp_spec::head::Head;
use std::alloc::Global;

/// As what a form is looked at.
#[derive(Clone, Copy)]
enum Part {
    Expression,
    /// A list of expressions, from one of them on.
    Operands,
    Template,
    /// A list of one template.
    OneTemplate,
}

/// A pair of which one part is expanded.
#[derive(Drop)]
enum Level {
    /// Behind the first, the rest is looked at so, with the place of the written call from whose result it comes.
    First(Place, Part, Option<Place>, FormBox),
    Rest(Place, FormBox),
}

/// What is next: a form that is to be expanded, or one that is.
#[derive(Drop)]
enum Next {
    Looks(Part, Option<Place>, Form),
    Has(Form),
}

/// What an expression that is a pair is by its head.
enum Kind<'a> {
    Calls(&'a Definition),
    /// What follows the head is looked at so.
    Behind(Part),
    /// Nothing of it is expanded.
    Kept,
}

/// A pair that is looked at, and the place of the written call from whose result it comes, if it comes from one.
#[derive(Drop)]
struct Pair {
    outer: Option<Place>,
    place: Place,
    first: FormBox,
    rest: FormBox,
}

// A macro's name before a list that isn't proper is no call.
fn called<'a>(macros: &'a Macros, name: &Word, rest: &Form) -> Kind<'a>
    ensures { IsKind result (call_kind (macro_named name.now macros.now) (is_some (form_elements (form_of rest.now)))) }
{
    let Some(definition) = macros.find(name) else {
        return Kind::Behind(Part::Operands);
    };
    if rest.is_list() {
        Kind::Calls(definition)
    } else {
        Kind::Behind(Part::Operands)
    }
}

fn kind_of<'a>(macros: &'a Macros, head: &Form, rest: &Form) -> Kind<'a>
    ensures { IsKind result (kind_of macros.now (form_of head.now) (form_of rest.now)) }
{
    let Form::Symbol(_, name) = head else {
        return Kind::Behind(Part::Operands);
    };
    match Head::of(name.as_slice()) {
        Head::QuotesRest | Head::QuotesOne => Kind::Kept,
        Head::Templates => Kind::Behind(Part::OneTemplate),
        _ => called(macros, name, rest),
    }
}

// The faults of a call stand at the call that is written: of calls within each other's results, the outermost.
fn written_at(outer: Option<Place>, place: Place) -> Place
    ensures { result ≡ written_at outer place }
{
    outer.unwrap_or(place)
}

fn look_at_expression(
    alloc: Global,
    macros: &Macros,
    levels: &mut Vec<Level>,
    turns: &mut u32,
    pair: Pair,
) -> Result<Next, MacroFault>
    ensures { StepsTo macros.now levels.old.items levels.new.items turns.old turns.new (expanded_part macros.now parts.Expression pair.outer (pair_of pair) turns.old) (size (pair_of pair)) result }
{
    match kind_of(macros, pair.first.get(), pair.rest.get()) {
        Kind::Kept => Ok(Next::Has(Form::Pair(pair.place, pair.first, pair.rest))),
        Kind::Behind(part) => {
            levels.push(Level::Rest(pair.place, pair.first))?;
            Ok(Next::Looks(part, pair.outer, pair.rest.into_inner()))
        }
        Kind::Calls(definition) => {
            let written = written_at(pair.outer, pair.place);
            let given = call_given(alloc, definition, pair.rest.get(), written, turns)?;
            Ok(Next::Looks(Part::Expression, Some(written), given))
        }
    }
}

// The first is an expression, and the rest more operands.
fn look_at_operands(levels: &mut Vec<Level>, pair: Pair) -> Result<Next, MacroFault>
    ensures { (macros : List Macro) (turns : ℕ) → StepsTo macros levels.old.items levels.new.items turns turns (expanded_part macros parts.Operands pair.outer (pair_of pair) turns) (size (pair_of pair)) result }
{
    levels.push(Level::First(pair.place, Part::Operands, pair.outer, pair.rest))?;
    Ok(Next::Looks(Part::Expression, pair.outer, pair.first.into_inner()))
}

// Of a template only what stands under `unquote` is expanded.
fn look_at_template(levels: &mut Vec<Level>, pair: Pair) -> Result<Next, MacroFault>
    ensures { (macros : List Macro) (turns : ℕ) → StepsTo macros levels.old.items levels.new.items turns turns (expanded_part macros parts.Template pair.outer (pair_of pair) turns) (size (pair_of pair)) result }
{
    if pair.first.get().is_symbol(b"unquote") {
        levels.push(Level::Rest(pair.place, pair.first))?;
        return Ok(Next::Looks(Part::Operands, pair.outer, pair.rest.into_inner()));
    }
    levels.push(Level::First(pair.place, Part::Template, pair.outer, pair.rest))?;
    Ok(Next::Looks(Part::Template, pair.outer, pair.first.into_inner()))
}

// Where no list of one template stands, nothing is expanded.
fn look_at_one_template(levels: &mut Vec<Level>, pair: Pair) -> Result<Next, MacroFault>
    ensures { (macros : List Macro) (turns : ℕ) → StepsTo macros levels.old.items levels.new.items turns turns (expanded_part macros parts.OneTemplate pair.outer (pair_of pair) turns) (size (pair_of pair)) result }
{
    if !pair.rest.get().is_nil() {
        return Ok(Next::Has(Form::Pair(pair.place, pair.first, pair.rest)));
    }
    levels.push(Level::First(pair.place, Part::OneTemplate, pair.outer, pair.rest))?;
    Ok(Next::Looks(Part::Template, pair.outer, pair.first.into_inner()))
}

fn look_at_pair(
    alloc: Global,
    macros: &Macros,
    levels: &mut Vec<Level>,
    turns: &mut u32,
    part: Part,
    pair: Pair,
) -> Result<Next, MacroFault>
    ensures { StepsTo macros.now levels.old.items levels.new.items turns.old turns.new (expanded_part macros.now (part_of part) pair.outer (pair_of pair) turns.old) (size (pair_of pair)) result }
{
    match part {
        Part::Expression => look_at_expression(alloc, macros, levels, turns, pair),
        Part::Operands => look_at_operands(levels, pair),
        Part::Template => look_at_template(levels, pair),
        Part::OneTemplate => look_at_one_template(levels, pair),
    }
}

fn look(
    alloc: Global,
    macros: &Macros,
    levels: &mut Vec<Level>,
    turns: &mut u32,
    part: Part,
    outer: Option<Place>,
    form: Form,
) -> Result<Next, MacroFault>
    ensures { StepsTo macros.now levels.old.items levels.new.items turns.old turns.new (expanded_part macros.now (part_of part) outer (form_of form) turns.old) (size (form_of form)) result }
{
    match form.into_parts() {
        Parts::Atom(place, bytes) => Ok(Next::Has(Form::Atom(place, bytes))),
        Parts::Symbol(place, name) => Ok(Next::Has(Form::Symbol(place, name))),
        Parts::Pair(place, first, rest) => {
            let pair = Pair {
                outer,
                place,
                first,
                rest,
            };
            look_at_pair(alloc, macros, levels, turns, part, pair)
        }
    }
}

// The innermost level goes on with the part that it waited for.
fn go_on(
    alloc: Global,
    levels: &mut Vec<Level>,
    level: Level,
    form: Form,
) -> Result<Next, MacroFault>
    ensures { (macros : List Macro) (turns : ℕ) → StepsTo macros levels.old.items levels.new.items turns turns (level_goes macros level (form_of form) turns) (level_left level) result }
{
    let part_done = FormBox::new(alloc, form)?;
    match level {
        Level::First(place, part, outer, rest) => {
            levels.push(Level::Rest(place, part_done))?;
            Ok(Next::Looks(part, outer, rest.into_inner()))
        }
        Level::Rest(place, first) => Ok(Next::Has(Form::Pair(place, first, part_done))),
    }
}

/// The form with each call of a macro replaced by what its body gives, from the outside in. The turns are those that are
/// left, and fall by those used. A fault stands at the outermost call, the one that is written in the form. Where memory is
/// wanting the turns stand as before.
pub fn expand(
    alloc: Global,
    form: &Form,
    macros: &Macros,
    turns: &mut u32,
) -> Result<Form, MacroFault>
    ensures expanded { IfOk result (λ expanded. expansion macros.now (form_of form.now) turns.old ≡ Expands (form_of expanded) turns.new) }
    ensures fault { IfErr result (IsMacroFault (expansion macros.now (form_of form.now) turns.old) turns.new) }
    ensures out_of_memory { result ≡ Err faults.OutOfMemory → turns.new ≡ turns.old }
{
    let mut left = *turns;
    let expanded = expand_within(alloc, form, macros, &mut left);
    if !matches!(expanded, Err(MacroFault::OutOfMemory)) {
        *turns = left;
    }
    expanded
}

// Where memory is wanting, of the turns nothing is said.
fn expand_within(
    alloc: Global,
    form: &Form,
    macros: &Macros,
    turns: &mut u32,
) -> Result<Form, MacroFault>
    ensures expanded { IfOk result (λ expanded. expansion macros.now (form_of form.now) turns.old ≡ Expands (form_of expanded) turns.new) }
    ensures fault { IfErr result (IsMacroFault (expansion macros.now (form_of form.now) turns.old) turns.new) }
{
    let mut levels = Vec::new(alloc);
    let mut next = Next::Looks(Part::Expression, None, form.copy(alloc)?);
    'levels: loop {
        match next {
            Next::Looks(part, outer, form) => {
                next = look(alloc, macros, &mut levels, turns, part, outer, form)?
            }
            Next::Has(form) => match levels.pop() {
                Some(level) => next = go_on(alloc, &mut levels, level, form)?,
                None => return Ok(form),
            },
        }
    }
}
