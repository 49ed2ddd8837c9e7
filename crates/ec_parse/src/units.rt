//! Units (ISO/IEC 9899:1999, 6.9; named registers: ISO/IEC TR 18037:2008, 5.2.2).
ghost use Rattle.std.specs.Prelude.{◌≡◌, Some, map};
ghost use Rattle.ec_grammar.specs.Trees.{function_item};
ghost use Rattle.ec_grammar.specs.Views.{view_specs, view_declarator};
ghost use Rattle.ec_grammar.specs.Views.{view_function, view_external, view_tree, view_compound};
ghost use Rattle.ec_grammar.specs.Nesting.{height_declarator};
ghost use Rattle.ec_parse_laws.specs.Reading.{within, many, function_at, defined_by, external_at, unit_by, read};
ghost use Rattle.ec_parse_tokens.specs.Reads.{leaves_of, made, Gives, GivesAt};
ghost use Rattle.ec_parse_expressions.specs.Heights.{IsHeight};
ghost use Rattle.ec_parse.specs.Units.{IsHead, view_head, function_with, function_by, declared_item_by};
ghost use Rattle.ec_parse.specs.Units.{register_item_by};

use crate::statements::compound;
use ec_grammar::{
    Compound, Declarator, External, Function, Identifier, Params, PunctKind, RegisterObject, Shape,
    Specs, Spot, Token, Tree, TypeName, WordKind,
};
use ec_parse_declarations::{declarator, declared, structure, structure_head};
use ec_parse_expressions::specs;
use ec_parse_tokens::{
    LIMIT, ReadError, Source, add, begins_specs, begun_body, boxed, expect, expect_end,
    expect_name, take, take_pragma, take_word, unexpected,
};

// Parts of units.

/// The part of a unit in a box of its own.
fn listed(
    source: Source,
    tree: External,
    tokens: &[Token],
) -> Result<Option<(Box<External>, &[Token])>, ReadError>
    ensures { GivesAt (λ x. (view_external x.0.value, leaves_of source.count x.1.now)) result
        (Some (made (view_external tree) (leaves_of source.count tokens.now))) }
{
    let tree = boxed(source, tree)?;
    Ok(Some((tree, tokens)))
}

// Named registers.

/// What follows the word `register`.
#[tactic(auto, unfolding(ec_parse_laws::specs::Reading::register_by))]
fn register(
    source: Source,
    word: Spot,
    tokens: &[Token],
) -> Result<Option<(Box<External>, &[Token])>, ReadError>
    ensures { GivesAt (λ x. (view_external x.0.value, leaves_of source.count x.1.now)) result
        (Some (register_item_by word (leaves_of source.count tokens.now))) }
{
    let (register, rest) = expect_name(source, tokens)?;
    let (specs, rest) = specs(source, rest)?;
    let (name, rest) = expect_name(source, rest)?;
    let (semicolon, rest) = expect(source, rest, PunctKind::Semicolon)?;
    let tree = RegisterObject {
        word,
        register,
        specs: Box::into_inner(specs),
        name,
        semicolon,
    };
    listed(source, External::Register(tree), rest)
}

// Functions and declarations.

/// The parts of a function before its body.
#[derive(Drop)]
pub struct Head {
    pub result: TypeName,
    pub name: Identifier,
    pub opening: Spot,
    pub params: Params,
    pub closing: Spot,
}

/// The specifiers and the declarator, taken apart where they are those of a function and its body begins; else the
/// two again.
#[tactic(auto, unfolding(ec_parse_laws::specs::Reading::function_at))]
fn head_of(
    source: Source,
    specs: Specs,
    declarator: Declarator,
    tokens: &[Token],
) -> Result<Head, (Specs, Declarator)>
    ensures { IsHead (view_specs specs) (view_declarator declarator) result
        (function_at (view_specs specs) (view_declarator declarator) (leaves_of source.count tokens.now)) }
{
    let Some(_) = take(source, tokens, PunctKind::LeftBrace) else {
        return Err((specs, declarator));
    };
    match declarator {
        Declarator {
            stars,
            name,
            shape: Shape::Function(opening, params, closing),
        } => {
            let result = TypeName { specs, stars };
            Ok(Head {
                result,
                name,
                opening,
                params,
                closing,
            })
        }
        other => Err((specs, other)),
    }
}

/// The function of these parts, which has this body.
fn function_of(head: Head, body: Compound) -> Function
    ensures { function_item (view_function result) ≡ function_with (view_head head) (view_compound body) }
{
    Function {
        result: head.result,
        name: head.name,
        opening: head.opening,
        params: head.params,
        closing: head.closing,
        body,
    }
}

/// The function whose body begins here.
fn function(
    source: Source,
    left: u8,
    head: Head,
    tokens: &[Token],
) -> Result<Option<(Box<External>, &[Token])>, ReadError>
    ensures { GivesAt (λ x. (view_external x.0.value, leaves_of source.count x.1.now)) result
        (Some (function_by (within 64 left) (view_head head) (leaves_of source.count tokens.now))) }
{
    let left = match begun_body(source, left, tokens) {
        Ok(left) => left,
        Err(stop) => {
            drop(head);
            return Err(stop);
        }
    };
    match compound(source, left, LIMIT, tokens) {
        Ok((body, _, rest)) => listed(source, External::Function(function_of(head, body)), rest),
        Err(stop) => {
            drop(head);
            Err(stop)
        }
    }
}

/// The declaration whose specifiers and first declarator stand before the tokens.
fn declared_item(
    source: Source,
    left: u8,
    specs: Specs,
    declarator: Declarator,
    height: u8,
    tokens: &[Token],
) -> Result<Option<(Box<External>, &[Token])>, ReadError>
    requires { IsHeight 64 (height_declarator (view_declarator declarator)) height }
    ensures { GivesAt (λ x. (view_external x.0.value, leaves_of source.count x.1.now)) result
        (Some (declared_item_by (within 64 left) (view_specs specs) (view_declarator declarator)
        (leaves_of source.count tokens.now))) }
{
    let declarator = boxed(source, declarator)?;
    let specs = boxed(source, specs)?;
    let (tree, _, rest) = declared(source, left, specs, declarator, height, tokens)?;
    listed(source, External::Declaration(Box::into_inner(tree)), rest)
}

/// A function, where the brace of a body follows a declarator of one; else a declaration.
#[tactic(auto, unfolding(ec_parse_laws::specs::Reading::defined_by))]
fn defined(
    source: Source,
    left: u8,
    tokens: &[Token],
) -> Result<Option<(Box<External>, &[Token])>, ReadError>
    ensures { GivesAt (λ x. (view_external x.0.value, leaves_of source.count x.1.now)) result
        (Some (defined_by (within 64 left) (leaves_of source.count tokens.now))) }
{
    let (specs, rest) = specs(source, tokens)?;
    let (declarator, height, rest) = declarator(source, left, rest)?;
    match head_of(
        source,
        Box::into_inner(specs),
        Box::into_inner(declarator),
        rest,
    ) {
        Ok(head) => function(source, left, head, rest),
        Err((specs, declarator)) => declared_item(source, left, specs, declarator, height, rest),
    }
}

// Units.

#[tactic(auto, unfolding(ec_parse_laws::specs::Reading::external_at))]
fn external(
    source: Source,
    left: u8,
    tokens: &[Token],
) -> Result<Option<(Box<External>, &[Token])>, ReadError>
    ensures { GivesAt (λ x. (view_external x.0.value, leaves_of source.count x.1.now)) result
        (external_at (within 64 left) (leaves_of source.count tokens.now)) }
{
    if let Some((pragma, rest)) = take_pragma(source, tokens) {
        return listed(source, External::Pragma(pragma), rest);
    }
    if let Some((word, tag, opening, rest)) = structure_head(source, tokens)? {
        let (tree, rest) = structure(source, left, word, tag, opening, rest)?;
        return listed(source, External::Structure(Box::into_inner(tree)), rest);
    }
    if let Some((word, rest)) = take_word(source, tokens, WordKind::Register) {
        return register(source, word, rest);
    }
    if begins_specs(source, tokens) {
        return defined(source, left, tokens);
    }
    Ok(None)
}

#[tactic(auto, using(ec_parse_expressions::proofs::Many::loops))]
fn externals(
    source: Source,
    left: u8,
    tokens: &[Token],
) -> Result<(Vec<External>, &[Token]), ReadError>
    ensures { Gives (λ x. (map view_external x.0.items, leaves_of source.count x.1.now)) result
        (many (external_at (within 64 left)) (leaves_of source.count tokens.now)) }
{
    let mut all = Vec::new(source.alloc);
    let mut rest = tokens;
    for _ in 0..tokens.len() {
        let Some((item, after)) = external(source, left, rest)? else {
            return Ok((all, rest));
        };
        add(&mut all, item)?;
        rest = after;
    }
    Ok((all, rest))
}

#[tactic(auto, unfolding(ec_parse_laws::specs::Reading::unit_by))]
fn unit(source: Source, left: u8, tokens: &[Token]) -> Result<(Tree, &[Token]), ReadError>
    ensures { Gives (λ x. (view_tree x.0, leaves_of source.count x.1.now)) result
        (unit_by (within 64 left) (leaves_of source.count tokens.now)) }
{
    let (items, rest) = externals(source, left, tokens)?;
    let (end, rest) = expect_end(source, rest)?;
    Ok((Tree { items, end }, rest))
}

/// The tree of all the tokens, which stand last in a list of `source.count`.
#[tactic(auto, unfolding(ec_parse_laws::specs::Reading::read))]
pub fn read(source: Source, tokens: &[Token]) -> Result<Tree, ReadError>
    ensures { Gives view_tree result (read 64 (leaves_of source.count tokens.now)) }
{
    let (tree, rest) = unit(source, LIMIT, tokens)?;
    if rest.is_empty() {
        Ok(tree)
    } else {
        Err(unexpected(source, rest))
    }
}
