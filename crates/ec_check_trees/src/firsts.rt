//! The first tokens of parts of a tree, by their indices.
ghost use Rattle.std.specs.Prelude.{◌≡◌};
ghost use Rattle.ec_grammar.specs.Views.{view_expression, view_assignment, view_conditional, view_binary, view_cast};
ghost use Rattle.ec_grammar.specs.Views.{view_unary, view_postfix, view_primary, view_spec, view_specs, view_type_name};
ghost use Rattle.ec_grammar.specs.Views.{view_optional, view_param, view_initialiser, view_declaration, view_compound};
ghost use Rattle.ec_grammar.specs.Views.{view_item, view_statement};
ghost use Rattle.ec_check_trees.specs.Firsts.{first_expression, first_assignment, first_conditional, first_binary};
ghost use Rattle.ec_check_trees.specs.Firsts.{first_cast, first_unary, first_postfix, first_primary, first_spec, first_specs};
ghost use Rattle.ec_check_trees.specs.Firsts.{first_type_name, first_param, first_initialiser, first_declaration};
ghost use Rattle.ec_check_trees.specs.Firsts.{first_optional, first_compound, first_item, first_statement};

use ec_grammar::{
    Assignment, Binary, Cast, Compound, Conditional, Declaration, Expression, Initialiser, Item,
    Param, Postfix, Primary, Spec, Specs, Spot, Statement, TypeName, Unary,
};

pub fn first_primary(e: &Primary) -> u32
    ensures { result ≡ first_primary (view_primary e.now) }
{
    match e {
        Primary::Name(n) => n.spot.index,
        Primary::Constant(s, _)
        | Primary::Parenthesised(s, _, _)
        | Primary::Operation(s, _, _, _, _, _) => s.index,
    }
}

pub fn first_postfix(e: &Postfix) -> u32
    ensures { result ≡ first_postfix (view_postfix e.now) }
{
    match e {
        Postfix::Primary(p) => first_primary(p),
        Postfix::Index(p, _, _, _)
        | Postfix::Call(p, _, _, _)
        | Postfix::Member(p, _, _, _)
        | Postfix::Stepped(p, _, _) => first_postfix(p),
    }
}

pub fn first_unary(e: &Unary) -> u32
    ensures { result ≡ first_unary (view_unary e.now) }
{
    match e {
        Unary::Postfix(p) => first_postfix(p),
        Unary::Step(s, _, _) | Unary::Prefix(s, _, _) | Unary::Size(s, _, _, _) => s.index,
    }
}

pub fn first_cast(e: &Cast) -> u32
    ensures { result ≡ first_cast (view_cast e.now) }
{
    match e {
        Cast::Uncast(u) => first_unary(u),
        Cast::Convert(s, _, _, _) => s.index,
    }
}

pub fn first_binary(e: &Binary) -> u32
    ensures { result ≡ first_binary (view_binary e.now) }
{
    match e {
        Binary::Operand(c) => first_cast(c),
        Binary::Join(a, _, _, _) => first_binary(a),
    }
}

pub fn first_conditional(e: &Conditional) -> u32
    ensures { result ≡ first_conditional (view_conditional e.now) }
{
    match e {
        Conditional::Plain(b) | Conditional::Choose(b, _, _, _, _) => first_binary(b),
    }
}

pub fn first_assignment(e: &Assignment) -> u32
    ensures { result ≡ first_assignment (view_assignment e.now) }
{
    match e {
        Assignment::Value(c) => first_conditional(c),
        Assignment::Assign(u, _, _, _) => first_unary(u),
    }
}

pub fn first_expression(e: &Expression) -> u32
    ensures { result ≡ first_expression (view_expression e.now) }
{
    match e {
        Expression::Single(a) => first_assignment(a),
        Expression::Comma(a, _, _) => first_expression(a),
    }
}

pub fn first_spec(spec: &Spec) -> u32
    ensures { result ≡ first_spec (view_spec spec.now) }
{
    match spec {
        Spec::Word(s, _) | Spec::Struct(s, _) => s.index,
    }
}

pub fn first_specs(specs: &Specs) -> u32
    ensures { result ≡ first_specs (view_specs specs.now) }
{
    first_spec(&specs.first)
}

pub fn first_type_name(name: &TypeName) -> u32
    ensures { result ≡ first_type_name (view_type_name name.now) }
{
    first_specs(&name.specs)
}

pub fn first_param(param: &Param) -> u32
    ensures { result ≡ first_param (view_param param.now) }
{
    first_type_name(&param.ty)
}

pub fn first_initialiser(initialiser: &Initialiser) -> u32
    ensures { result ≡ first_initialiser (view_initialiser initialiser.now) }
{
    match initialiser {
        Initialiser::Value(a) => first_assignment(a),
        Initialiser::Braces(s, _, _, _, _) => s.index,
    }
}

pub fn first_declaration(declaration: &Declaration) -> u32
    ensures { result ≡ first_declaration (view_declaration declaration.now) }
{
    first_specs(&declaration.specs)
}

fn first_optional(e: &Option<Box<Expression>>, s: Spot) -> u32
    ensures { result ≡ first_optional (view_optional e.now) s }
{
    match e {
        None => s.index,
        Some(e) => first_expression(e),
    }
}

pub fn first_compound(compound: &Compound) -> u32
    ensures { result ≡ first_compound (view_compound compound.now) }
{
    compound.opening.index
}

/// The first token of a statement, which is its `;` where nothing stands before it.
pub fn first_statement(statement: &Statement) -> u32
    ensures { result ≡ first_statement (view_statement statement.now) }
{
    match statement {
        Statement::Compound(c) => c.opening.index,
        Statement::Simple(e, s) => first_optional(e, *s),
        Statement::If(s, _, _)
        | Statement::IfElse(s, _, _, _, _)
        | Statement::While(s, _, _)
        | Statement::Do(s, _, _, _, _)
        | Statement::For(s, _, _)
        | Statement::Break(s, _)
        | Statement::Continue(s, _)
        | Statement::Return(s, _, _) => s.index,
    }
}

pub fn first_item(item: &Item) -> u32
    ensures { result ≡ first_item (view_item item.now) }
{
    match item {
        Item::Declaration(d) => first_declaration(d),
        Item::Statement(s) => first_statement(s),
    }
}
