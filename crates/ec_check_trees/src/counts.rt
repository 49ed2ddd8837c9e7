//! The numbers of objects and functions of a program, which have limits.
//!
//! Objects are counted down: what is left of a number, once those of a part of the tree are taken from it.
ghost use Rattle.std.specs.Prelude.{◌≡◌, ◌-◌, map, nat_lt};
ghost use Rattle.ec_grammar.specs.Views.{view_shape, view_init_declarator, view_next_init_declarator, view_declaration};
ghost use Rattle.ec_grammar.specs.Views.{view_params, view_heading, views_items, view_item, view_statement};
ghost use Rattle.ec_grammar.specs.Views.{view_function, view_external, view_tree};
ghost use Rattle.ec_check_trees.specs.Counts.{most_objects, most_functions, is_function, objects_in_shape};
ghost use Rattle.ec_check_trees.specs.Counts.{objects_in_declarator, objects_in_more, objects_in_declaration};
ghost use Rattle.ec_check_trees.specs.Counts.{objects_in_params, objects_in_heading, objects_in_items, objects_in_item};
ghost use Rattle.ec_check_trees.specs.Counts.{objects_in_statement, objects_in_function, objects_in_external};
ghost use Rattle.ec_check_trees.specs.Counts.{objects_in_externals, objects_declared, functions_in_external};
ghost use Rattle.ec_check_trees.specs.Counts.{functions_in_externals, functions_defined};

use ec_grammar::{
    Declaration, External, First, Function, Heading, InitDeclarator, Item, NextInitDeclarator,
    Params, Shape, Statement, Tree,
};

/// Whether a declarator has the form of a function.
pub fn is_function(shape: &Shape) -> bool
    ensures { result ≡ is_function (view_shape shape.now) }
{
    match shape {
        Shape::Object | Shape::Array(_, _, _) => false,
        Shape::Function(_, _, _) => true,
    }
}

fn less_shape(left: usize, shape: &Shape) -> usize
    ensures { result ≡ left - objects_in_shape (view_shape shape.now) }
{
    match shape {
        Shape::Object | Shape::Array(_, _, _) => left.saturating_sub(1),
        Shape::Function(_, _, _) => left,
    }
}

fn less_declarator(left: usize, d: &InitDeclarator) -> usize
    ensures { result ≡ left - objects_in_declarator (view_init_declarator d.now) }
{
    less_shape(left, &d.declarator.shape)
}

fn less_more(left: usize, more: &[NextInitDeclarator]) -> usize
    ensures { result ≡ left - objects_in_more (map view_next_init_declarator more.now) }
{
    let mut rest = left;
    for d in more {
        rest = less_declarator(rest, &d.declarator);
    }
    rest
}

fn less_declaration(left: usize, d: &Declaration) -> usize
    ensures { result ≡ left - objects_in_declaration (view_declaration d.now) }
{
    less_more(less_declarator(left, &d.first), &d.more)
}

fn less_params(left: usize, params: &Params) -> usize
    ensures { result ≡ left - objects_in_params (view_params params.now) }
{
    match params {
        Params::Void(_) => left,
        Params::Some(_, more) => left.saturating_sub(1).saturating_sub(more.len()),
    }
}

fn less_heading(left: usize, heading: &Heading) -> usize
    ensures { result ≡ left - objects_in_heading (view_heading heading.now) }
{
    match &heading.first {
        First::Declared(d) => less_declaration(left, d),
        First::Evaluated(_, _) => left,
    }
}

#[cycle(counts)]
fn less_statement(left: usize, statement: &Statement) -> usize
    ensures { result ≡ left - objects_in_statement (view_statement statement.now) }
{
    match statement {
        Statement::Compound(c) => less_items(left, &c.items),
        Statement::If(_, _, a) | Statement::While(_, _, a) | Statement::Do(_, a, _, _, _) => {
            less_statement(left, a)
        }
        Statement::IfElse(_, _, a, _, b) => less_statement(less_statement(left, a), b),
        Statement::For(_, heading, a) => less_statement(less_heading(left, heading), a),
        Statement::Simple(_, _)
        | Statement::Break(_, _)
        | Statement::Continue(_, _)
        | Statement::Return(_, _, _) => left,
    }
}

#[cycle(counts)]
fn less_item(left: usize, item: &Item) -> usize
    ensures { result ≡ left - objects_in_item (view_item item.now) }
{
    match item {
        Item::Declaration(d) => less_declaration(left, d),
        Item::Statement(s) => less_statement(left, s),
    }
}

#[cycle(counts)]
fn less_items(left: usize, items: &[Item]) -> usize
    ensures { result ≡ left - objects_in_items (views_items items.now) }
{
    let mut rest = left;
    for item in items {
        rest = less_item(rest, item);
    }
    rest
}

/// What is left of a number, once the objects of a function that is defined are taken from it: its parameters and what
/// its body declares.
pub fn less_function(left: usize, f: &Function) -> usize
    ensures { result ≡ left - objects_in_function (view_function f.now) }
{
    less_items(less_params(left, &f.params), &f.body.items)
}

fn less_external(left: usize, external: &External) -> usize
    ensures { result ≡ left - objects_in_external (view_external external.now) }
{
    match external {
        External::Pragma(_) | External::Structure(_) => left,
        External::Register(_) => left.saturating_sub(1),
        External::Declaration(d) => less_declaration(left, d),
        External::Function(f) => less_function(left, f),
    }
}

fn less_externals(left: usize, externals: &[External]) -> usize
    ensures { result ≡ left - objects_in_externals (map view_external externals.now) }
{
    let mut rest = left;
    for external in externals {
        rest = less_external(rest, external);
    }
    rest
}

fn less_units(left: usize, units: &[Tree]) -> usize
    ensures { result ≡ left - objects_declared (map view_tree units.now) }
{
    let mut rest = left;
    for unit in units {
        rest = less_externals(rest, &unit.items);
    }
    rest
}

/// Whether the units declare more than 1,024 objects: declarators without parameters, in blocks too, objects in named
/// registers, and parameters of functions that are defined.
pub fn has_too_many_objects(units: &[Tree]) -> bool
    ensures { result ≡ nat_lt most_objects (objects_declared (map view_tree units.now)) }
{
    less_units(1_025, units) == 0
}

fn less_defined(left: usize, external: &External) -> usize
    ensures { result ≡ left - functions_in_external (view_external external.now) }
{
    match external {
        External::Pragma(_)
        | External::Structure(_)
        | External::Register(_)
        | External::Declaration(_) => left,
        External::Function(_) => left.saturating_sub(1),
    }
}

fn less_all_defined(left: usize, externals: &[External]) -> usize
    ensures { result ≡ left - functions_in_externals (map view_external externals.now) }
{
    let mut rest = left;
    for external in externals {
        rest = less_defined(rest, external);
    }
    rest
}

/// Whether the units define more than 256 functions.
pub fn has_too_many_functions(units: &[Tree]) -> bool
    ensures { result ≡ nat_lt most_functions (functions_defined (map view_tree units.now)) }
{
    let mut rest = 257;
    for unit in units {
        rest = less_all_defined(rest, &unit.items);
    }
    rest == 0
}
