//! Declarators, initialisers and declarations (ISO/IEC 9899:1999, 6.7).
//!
//! Where a part has a height, it is answered behind the tree.
ghost use Rattle.std.specs.Prelude.{◌≡◌, ◌≤◌, map, max, Ok};
ghost use Rattle.ec_grammar.specs.Grammar.{is_void, lone_void};
ghost use Rattle.ec_grammar.specs.Nesting.{height_list, height_option, height_shape, height_declarator};
ghost use Rattle.ec_grammar.specs.Nesting.{height_initialiser, height_initialisers, height_start};
ghost use Rattle.ec_grammar.specs.Nesting.{height_init_declarator, height_next_init_declarator, height_declaration};
ghost use Rattle.ec_grammar.specs.Trees.{next_param, next_init_declarator, next_declarator};
ghost use Rattle.ec_grammar.specs.Views.{view_option, view_identifier, view_specs, view_type_name, view_param};
ghost use Rattle.ec_grammar.specs.Views.{view_next_param, view_params, view_shape, view_declarator, view_initialiser};
ghost use Rattle.ec_grammar.specs.Views.{views_initialisers, view_start, view_init_declarator};
ghost use Rattle.ec_grammar.specs.Views.{view_next_init_declarator, view_declaration, view_next_declarator};
ghost use Rattle.ec_grammar.specs.Views.{view_member, view_structure};
ghost use Rattle.ec_parse_laws.specs.Reading.{within, many, behind_comma, name_at, param_by, params_by, array_by};
ghost use Rattle.ec_parse_laws.specs.Reading.{shape_by, declarator_by, initialisers_of, initialiser_at, comma_at};
ghost use Rattle.ec_parse_laws.specs.Reading.{braces_by, initialiser_by, start_by, init_declarator_by, declared_by};
ghost use Rattle.ec_parse_laws.specs.Reading.{declaration_by, members_by, members_at, structure_by};
ghost use Rattle.ec_parse_tokens.specs.Reads.{leaves_of, inner_at, Gives, GivesAt, Reads, ReadsAt};
ghost use Rattle.ec_parse_expressions.specs.Heights.{IsHeight, IsNodeHeight};
ghost use Rattle.ec_parse_declarations.specs.Parts.{is_void_spec, view_next_initialiser, braces_after};

use crate::structures::structure_end;
use ec_grammar::{
    Declaration, Declarator, Identifier, InitDeclarator, Initialiser, Member, NextDeclarator,
    NextInitDeclarator, NextInitialiser, NextParam, Param, Params, PunctKind, Shape, Spec, Specs,
    Spot, Start, Structure, Token, TypeName, WordKind,
};
use ec_parse_expressions::{assignment, conditional, specs, stars, type_name};
use ec_parse_tokens::{
    LIMIT, ReadError, Source, add, begins_specs, boxed, ended, expect, expect_name, higher, opened,
    take, take_name, take_void, unexpected,
};

// Parameters.

fn name(source: Source, tokens: &[Token]) -> Result<(Option<Identifier>, &[Token]), ReadError>
    ensures { Gives (λ x. (view_option view_identifier x.0, leaves_of source.count x.1.now)) result
        (name_at (leaves_of source.count tokens.now)) }
{
    match take_name(source, tokens)? {
        Some((name, rest)) => Ok((Some(name), rest)),
        None => Ok((None, tokens)),
    }
}

fn is_void(spec: &Spec) -> bool
    ensures { result ≡ is_void_spec spec.now }
{
    matches!(spec, Spec::Word(_, WordKind::Void))
}

/// Whether it is `void` alone, which is no parameter (6.7.5.3, 10).
#[tactic(auto, using(crate::proofs::Voids::voids))]
fn is_lone_void(ty: &TypeName, name: &Option<Identifier>) -> bool
    ensures { result ≡ lone_void (view_type_name ty.now) (view_option view_identifier name.now) }
{
    if let Some(_) = name {
        return false;
    }
    if !ty.stars.is_empty() {
        return false;
    }
    if !ty.specs.more.is_empty() {
        return false;
    }
    is_void(&ty.specs.first)
}

#[tactic(auto, unfolding(ec_parse_laws::specs::Reading::param_by))]
fn param(source: Source, tokens: &[Token]) -> Result<(Param, &[Token]), ReadError>
    ensures { Gives (λ x. (view_param x.0, leaves_of source.count x.1.now)) result
        (param_by (leaves_of source.count tokens.now)) }
{
    let (ty, rest) = type_name(source, tokens)?;
    let (name, rest) = name(source, rest)?;
    if is_lone_void(&*ty, &name) {
        return Err(unexpected(source, rest));
    }
    let ty = Box::into_inner(ty);
    Ok((Param { ty, name }, rest))
}

fn another_param(
    source: Source,
    tokens: &[Token],
) -> Result<Option<(NextParam, &[Token])>, ReadError>
    ensures { GivesAt (λ x. (view_next_param x.0, leaves_of source.count x.1.now)) result
        (behind_comma next_param param_by (leaves_of source.count tokens.now)) }
{
    let Some((comma, rest)) = take(source, tokens, PunctKind::Comma) else {
        return Ok(None);
    };
    let (param, rest) = param(source, rest)?;
    Ok(Some((NextParam { comma, param }, rest)))
}

#[tactic(auto, using(ec_parse_expressions::proofs::Many::loops))]
fn more_params(source: Source, tokens: &[Token]) -> Result<(Vec<NextParam>, &[Token]), ReadError>
    ensures { Gives (λ x. (map view_next_param x.0.items, leaves_of source.count x.1.now)) result
        (many (behind_comma next_param param_by) (leaves_of source.count tokens.now)) }
{
    let mut all = Vec::new(source.alloc);
    let mut rest = tokens;
    for _ in 0..tokens.len() {
        let Some((item, after)) = another_param(source, rest)? else {
            return Ok((all, rest));
        };
        all.push(item)?;
        rest = after;
    }
    Ok((all, rest))
}

/// The parameters of a function (6.7.5.3).
#[tactic(auto, unfolding(ec_parse_laws::specs::Reading::params_by))]
fn params(source: Source, tokens: &[Token]) -> Result<(Params, &[Token]), ReadError>
    ensures { Gives (λ x. (view_params x.0, leaves_of source.count x.1.now)) result
        (params_by (leaves_of source.count tokens.now)) }
{
    if let Some((word, rest)) = take_void(source, tokens) {
        return Ok((Params::Void(word), rest));
    }
    let (first, rest) = param(source, tokens)?;
    let first = boxed(source, first)?;
    let (more, rest) = more_params(source, rest)?;
    Ok((Params::Some(Box::into_inner(first), more), rest))
}

// Declarators.

#[tactic(auto, unfolding(ec_parse_laws::specs::Reading::array_by))]
fn array(
    source: Source,
    left: u8,
    opening: Spot,
    tokens: &[Token],
) -> Result<(Shape, u8, &[Token]), ReadError>
    ensures { Reads (λ x. (view_shape x.0, leaves_of source.count x.2.now))
        (λ x. IsHeight 64 (height_shape (view_shape x.0)) x.1) result
        (array_by (inner_at left) opening (leaves_of source.count tokens.now)) }
{
    if let Some((closing, rest)) = take(source, tokens, PunctKind::RightBracket) {
        return Ok((Shape::Array(opening, None, closing), 0, rest));
    }
    let (size, height, rest) = conditional(source, left, LIMIT, tokens)?;
    let size = boxed(source, size)?;
    let (closing, rest) = expect(source, rest, PunctKind::RightBracket)?;
    Ok((
        Shape::Array(opening, Some(Box::into_inner(size)), closing),
        height,
        rest,
    ))
}

#[tactic(auto, unfolding(ec_parse_laws::specs::Reading::shape_by))]
fn shape(source: Source, left: u8, tokens: &[Token]) -> Result<(Shape, u8, &[Token]), ReadError>
    ensures { Reads (λ x. (view_shape x.0, leaves_of source.count x.2.now))
        (λ x. IsHeight 64 (height_shape (view_shape x.0)) x.1) result
        (shape_by (within 64 left) (leaves_of source.count tokens.now)) }
{
    if let Some((opening, rest)) = take(source, tokens, PunctKind::LeftBracket) {
        let left = opened(source, left, rest)?;
        return array(source, left, opening, rest);
    }
    if let Some((opening, rest)) = take(source, tokens, PunctKind::LeftParenthesis) {
        let _ = opened(source, left, rest)?;
        let (params, rest) = params(source, rest)?;
        let params = boxed(source, params)?;
        let (closing, rest) = expect(source, rest, PunctKind::RightParenthesis)?;
        return Ok((
            Shape::Function(opening, Box::into_inner(params), closing),
            0,
            rest,
        ));
    }
    Ok((Shape::Object, 0, tokens))
}

/// A declarator (6.7.5), its height and the tokens after it.
#[tactic(auto, unfolding(ec_parse_laws::specs::Reading::declarator_by))]
pub fn declarator(
    source: Source,
    left: u8,
    tokens: &[Token],
) -> Result<(Box<Declarator>, u8, &[Token]), ReadError>
    ensures { Reads (λ x. (view_declarator x.0.value, leaves_of source.count x.2.now))
        (λ x. IsHeight 64 (height_declarator (view_declarator x.0.value)) x.1) result
        (declarator_by (within 64 left) (leaves_of source.count tokens.now)) }
{
    let (stars, rest) = stars(source, tokens)?;
    let (name, rest) = expect_name(source, rest)?;
    let (shape, height, rest) = shape(source, left, rest)?;
    let tree = boxed(source, Declarator { stars, name, shape })?;
    Ok((tree, height, rest))
}

// Initialisers.

#[cycle(initialisers)]
#[tactic(auto, unfolding(ec_parse_laws::specs::Reading::initialiser_at))]
fn another_initialiser(
    source: Source,
    left: u8,
    tokens: &[Token],
) -> Result<Option<(NextInitialiser, u8, &[Token])>, ReadError>
    ensures { ReadsAt (λ x. (view_next_initialiser x.0, leaves_of source.count x.2.now))
        (λ x. IsHeight 64 (height_initialiser (view_initialiser x.0.value)) x.1) result
        (initialiser_at (inner_at left) (leaves_of source.count tokens.now)) }
{
    let Some((comma, rest)) = take(source, tokens, PunctKind::Comma) else {
        return Ok(None);
    };
    if let Some(_) = take(source, rest, PunctKind::RightBrace) {
        return Ok(None);
    }
    let (value, height, rest) = initialiser(source, left, LIMIT, rest)?;
    Ok(Some((NextInitialiser { comma, value }, height, rest)))
}

/// Initialisers that follow another one, and their height.
#[cycle(initialisers)]
fn more_initialisers(
    source: Source,
    left: u8,
    tokens: &[Token],
) -> Result<(Vec<NextInitialiser>, u8, &[Token]), ReadError>
    ensures { Reads (λ x. (map view_next_initialiser x.0.items, leaves_of source.count x.2.now))
        (λ x. IsHeight 64 (height_initialisers (initialisers_of (map view_next_initialiser x.0.items))) x.1) result
        (many (initialiser_at (inner_at left)) (leaves_of source.count tokens.now)) }
{
    let mut all = Vec::new(source.alloc);
    let mut height = 0;
    let mut rest = tokens;
    for _ in 0..tokens.len() {
        let Some((item, tall, after)) = another_initialiser(source, left, rest)? else {
            return Ok((all, height, rest));
        };
        all.push(item)?;
        height = higher(height, tall);
        rest = after;
    }
    Ok((all, height, rest))
}

/// A comma, where one stands.
fn comma(source: Source, tokens: &[Token]) -> (Option<Spot>, &[Token])
    ensures { comma_at (leaves_of source.count tokens.now) ≡ Ok (result.0, leaves_of source.count result.1.now) }
{
    match take(source, tokens, PunctKind::Comma) {
        Some((comma, rest)) => (Some(comma), rest),
        None => (None, tokens),
    }
}

/// Initialisers whose brace ends here, with the greatest of their heights.
#[tactic(auto, using(crate::proofs::Lists::initialisers_map))]
fn braces_end(
    source: Source,
    room: u8,
    opening: Spot,
    first: Box<Initialiser>,
    more: Vec<NextInitialiser>,
    below: u8,
    tokens: &[Token],
) -> Result<(Initialiser, u8, &[Token]), ReadError>
    requires { IsHeight 64 (max (height_initialiser (view_initialiser first.value))
        (height_initialisers (initialisers_of (map view_next_initialiser more.items)))) below }
    ensures { Reads (λ x. (view_initialiser x.0, leaves_of source.count x.2.now))
        (λ x. IsNodeHeight room (height_initialiser (view_initialiser x.0)) x.1) result
        (braces_after room opening (view_initialiser first.value)
        (initialisers_of (map view_next_initialiser more.items))
        (leaves_of source.count tokens.now)) }
{
    let (comma, rest) = comma(source, tokens);
    let (closing, rest) = expect(source, rest, PunctKind::RightBrace)?;
    let height = ended(source, room, below, rest)?;
    let tree = Initialiser::Braces(opening, first, more, comma, closing);
    Ok((tree, height, rest))
}

#[cycle(initialisers)]
#[tactic(auto, unfolding(ec_parse_laws::specs::Reading::braces_by))]
fn braces(
    source: Source,
    left: u8,
    room: u8,
    opening: Spot,
    tokens: &[Token],
) -> Result<(Initialiser, u8, &[Token]), ReadError>
    requires { room ≤ 64 }
    ensures { Reads (λ x. (view_initialiser x.0, leaves_of source.count x.2.now))
        (λ x. IsNodeHeight room (height_initialiser (view_initialiser x.0)) x.1) result
        (braces_by (inner_at left) room opening (leaves_of source.count tokens.now)) }
{
    let (first, height, rest) = initialiser(source, left, LIMIT, tokens)?;
    let first = boxed(source, first)?;
    let (more, more_height, rest) = more_initialisers(source, left, rest)?;
    let below = higher(height, more_height);
    braces_end(source, room, opening, first, more, below, rest)
}

/// An initialiser (6.7.8).
#[cycle(initialisers)]
#[tactic(auto, unfolding(ec_parse_laws::specs::Reading::initialiser_by))]
fn initialiser(
    source: Source,
    left: u8,
    room: u8,
    tokens: &[Token],
) -> Result<(Initialiser, u8, &[Token]), ReadError>
    requires { room ≤ 64 }
    ensures { Reads (λ x. (view_initialiser x.0, leaves_of source.count x.2.now))
        (λ x. IsNodeHeight room (height_initialiser (view_initialiser x.0)) x.1) result
        (initialiser_by (within 64 left) room (leaves_of source.count tokens.now)) }
{
    if let Some((opening, rest)) = take(source, tokens, PunctKind::LeftBrace) {
        let left = opened(source, left, rest)?;
        return braces(source, left, room, opening, rest);
    }
    let (value, height, rest) = assignment(source, left, room, tokens)?;
    Ok((Initialiser::Value(Box::into_inner(value)), height, rest))
}

#[tactic(auto, unfolding(ec_parse_laws::specs::Reading::start_by))]
fn start(
    source: Source,
    left: u8,
    tokens: &[Token],
) -> Result<(Option<Start>, u8, &[Token]), ReadError>
    ensures { Reads (λ x. (view_option view_start x.0, leaves_of source.count x.2.now))
        (λ x. IsHeight 64 (height_option height_start (view_option view_start x.0)) x.1) result
        (start_by (within 64 left) (leaves_of source.count tokens.now)) }
{
    let Some((equals, rest)) = take(source, tokens, PunctKind::Assign) else {
        return Ok((None, 0, tokens));
    };
    let (value, height, rest) = initialiser(source, left, LIMIT, rest)?;
    Ok((Some(Start { equals, value }), height, rest))
}

// Declarations.

/// A declarator with the initialiser that follows it, if one does.
fn initialised(
    source: Source,
    left: u8,
    declarator: Box<Declarator>,
    declarator_height: u8,
    tokens: &[Token],
) -> Result<(Box<InitDeclarator>, u8, &[Token]), ReadError>
    requires { IsHeight 64 (height_declarator (view_declarator declarator.value)) declarator_height }
    ensures { Reads (λ x. (view_option view_start x.0.value.start, leaves_of source.count x.2.now))
        (λ x. (view_declarator x.0.value.declarator ≡ view_declarator declarator.value)
        × IsHeight 64 (height_init_declarator (view_init_declarator x.0.value)) x.1) result
        (start_by (within 64 left) (leaves_of source.count tokens.now)) }
{
    let (start, height, rest) = start(source, left, tokens)?;
    let declarator = Box::into_inner(declarator);
    let tree = boxed(source, InitDeclarator { declarator, start })?;
    Ok((tree, higher(declarator_height, height), rest))
}

#[tactic(auto, unfolding(ec_parse_laws::specs::Reading::init_declarator_by))]
fn init_declarator(
    source: Source,
    left: u8,
    tokens: &[Token],
) -> Result<(Box<InitDeclarator>, u8, &[Token]), ReadError>
    ensures { Reads (λ x. (view_init_declarator x.0.value, leaves_of source.count x.2.now))
        (λ x. IsHeight 64 (height_init_declarator (view_init_declarator x.0.value)) x.1) result
        (init_declarator_by (within 64 left) (leaves_of source.count tokens.now)) }
{
    let (declarator, height, rest) = declarator(source, left, tokens)?;
    initialised(source, left, declarator, height, rest)
}

fn another_init_declarator(
    source: Source,
    left: u8,
    tokens: &[Token],
) -> Result<Option<(Box<NextInitDeclarator>, u8, &[Token])>, ReadError>
    ensures { ReadsAt (λ x. (view_next_init_declarator x.0.value, leaves_of source.count x.2.now))
        (λ x. IsHeight 64 (height_next_init_declarator (view_next_init_declarator x.0.value)) x.1) result
        (behind_comma next_init_declarator (init_declarator_by (within 64 left)) (leaves_of source.count tokens.now)) }
{
    let Some((comma, rest)) = take(source, tokens, PunctKind::Comma) else {
        return Ok(None);
    };
    let (declarator, height, rest) = init_declarator(source, left, rest)?;
    let declarator = Box::into_inner(declarator);
    let tree = boxed(source, NextInitDeclarator { comma, declarator })?;
    Ok(Some((tree, height, rest)))
}

fn more_init_declarators(
    source: Source,
    left: u8,
    tokens: &[Token],
) -> Result<(Vec<NextInitDeclarator>, u8, &[Token]), ReadError>
    ensures { Reads (λ x. (map view_next_init_declarator x.0.items, leaves_of source.count x.2.now))
        (λ x. IsHeight 64 (height_list height_next_init_declarator (map view_next_init_declarator x.0.items)) x.1)
        result
        (many (behind_comma next_init_declarator (init_declarator_by (within 64 left)))
        (leaves_of source.count tokens.now)) }
{
    let mut all = Vec::new(source.alloc);
    let mut height = 0;
    let mut rest = tokens;
    for _ in 0..tokens.len() {
        let Some((item, tall, after)) = another_init_declarator(source, left, rest)? else {
            return Ok((all, height, rest));
        };
        add(&mut all, item)?;
        height = higher(height, tall);
        rest = after;
    }
    Ok((all, height, rest))
}

/// The declaration whose specifiers and first declarator, which is of such a height, stand before the tokens; its
/// height and the tokens after it.
#[tactic(auto, unfolding(ec_parse_laws::specs::Reading::declared_by))]
pub fn declared(
    source: Source,
    left: u8,
    specs: Box<Specs>,
    declarator: Box<Declarator>,
    declarator_height: u8,
    tokens: &[Token],
) -> Result<(Box<Declaration>, u8, &[Token]), ReadError>
    requires { IsHeight 64 (height_declarator (view_declarator declarator.value)) declarator_height }
    ensures { Reads (λ x. (view_declaration x.0.value, leaves_of source.count x.2.now))
        (λ x. IsHeight 64 (height_declaration (view_declaration x.0.value)) x.1) result
        (declared_by (within 64 left) (view_specs specs.value) (view_declarator declarator.value)
        (leaves_of source.count tokens.now)) }
{
    let (first, height, rest) = initialised(source, left, declarator, declarator_height, tokens)?;
    let (more, more_height, rest) = more_init_declarators(source, left, rest)?;
    let (semicolon, rest) = match expect(source, rest, PunctKind::Semicolon) {
        Ok(ended) => ended,
        Err(stop) => {
            drop((specs, first, more));
            return Err(stop);
        }
    };
    let tree = Declaration {
        specs: Box::into_inner(specs),
        first: Box::into_inner(first),
        more,
        semicolon,
    };
    let tree = boxed(source, tree)?;
    Ok((tree, higher(height, more_height), rest))
}

/// A declaration (6.7), its height and the tokens after it.
#[tactic(auto, unfolding(ec_parse_laws::specs::Reading::declaration_by))]
pub fn declaration(
    source: Source,
    left: u8,
    tokens: &[Token],
) -> Result<(Box<Declaration>, u8, &[Token]), ReadError>
    ensures { Reads (λ x. (view_declaration x.0.value, leaves_of source.count x.2.now))
        (λ x. IsHeight 64 (height_declaration (view_declaration x.0.value)) x.1) result
        (declaration_by (within 64 left) (leaves_of source.count tokens.now)) }
{
    let (specs, rest) = specs(source, tokens)?;
    let (declarator, height, rest) = declarator(source, left, rest)?;
    declared(source, left, specs, declarator, height, rest)
}

// Members of a struct.

fn another_declarator(
    source: Source,
    left: u8,
    tokens: &[Token],
) -> Result<Option<(NextDeclarator, &[Token])>, ReadError>
    ensures { GivesAt (λ x. (view_next_declarator x.0, leaves_of source.count x.1.now)) result
        (behind_comma next_declarator (declarator_by (within 64 left)) (leaves_of source.count tokens.now)) }
{
    let Some((comma, rest)) = take(source, tokens, PunctKind::Comma) else {
        return Ok(None);
    };
    let (declarator, _, rest) = declarator(source, left, rest)?;
    let declarator = Box::into_inner(declarator);
    Ok(Some((NextDeclarator { comma, declarator }, rest)))
}

#[tactic(auto, using(ec_parse_expressions::proofs::Many::loops))]
fn more_declarators(
    source: Source,
    left: u8,
    tokens: &[Token],
) -> Result<(Vec<NextDeclarator>, &[Token]), ReadError>
    ensures { Gives (λ x. (map view_next_declarator x.0.items, leaves_of source.count x.1.now)) result
        (many (behind_comma next_declarator (declarator_by (within 64 left))) (leaves_of source.count tokens.now)) }
{
    let mut all = Vec::new(source.alloc);
    let mut rest = tokens;
    for _ in 0..tokens.len() {
        let Some((item, after)) = another_declarator(source, left, rest)? else {
            return Ok((all, rest));
        };
        all.push(item)?;
        rest = after;
    }
    Ok((all, rest))
}

/// A declaration of members of a struct (6.7.2.1).
#[tactic(auto, unfolding(ec_parse_laws::specs::Reading::members_by))]
fn member(source: Source, left: u8, tokens: &[Token]) -> Result<(Box<Member>, &[Token]), ReadError>
    ensures { Gives (λ x. (view_member x.0.value, leaves_of source.count x.1.now)) result
        (members_by (within 64 left) (leaves_of source.count tokens.now)) }
{
    let (specs, rest) = specs(source, tokens)?;
    let (first, _, rest) = declarator(source, left, rest)?;
    let (more, rest) = more_declarators(source, left, rest)?;
    let (semicolon, rest) = expect(source, rest, PunctKind::Semicolon)?;
    let tree = Member {
        specs: Box::into_inner(specs),
        first: Box::into_inner(first),
        more,
        semicolon,
    };
    let tree = boxed(source, tree)?;
    Ok((tree, rest))
}

#[tactic(auto, unfolding(ec_parse_laws::specs::Reading::members_at))]
fn another_member(
    source: Source,
    left: u8,
    tokens: &[Token],
) -> Result<Option<(Box<Member>, &[Token])>, ReadError>
    ensures { GivesAt (λ x. (view_member x.0.value, leaves_of source.count x.1.now)) result
        (members_at (within 64 left) (leaves_of source.count tokens.now)) }
{
    if !begins_specs(source, tokens) {
        return Ok(None);
    }
    let member = member(source, left, tokens)?;
    Ok(Some(member))
}

/// Declarations of members that follow another one.
#[tactic(auto, using(ec_parse_expressions::proofs::Many::loops))]
fn more_members(
    source: Source,
    left: u8,
    tokens: &[Token],
) -> Result<(Vec<Member>, &[Token]), ReadError>
    ensures { Gives (λ x. (map view_member x.0.items, leaves_of source.count x.1.now)) result
        (many (members_at (within 64 left)) (leaves_of source.count tokens.now)) }
{
    let mut all = Vec::new(source.alloc);
    let mut rest = tokens;
    for _ in 0..tokens.len() {
        let Some((item, after)) = another_member(source, left, rest)? else {
            return Ok((all, rest));
        };
        add(&mut all, item)?;
        rest = after;
    }
    Ok((all, rest))
}

/// The definition of a struct (6.7.2.1) that has begun, and the tokens after it.
#[tactic(auto, unfolding(ec_parse_laws::specs::Reading::structure_by))]
pub fn structure(
    source: Source,
    left: u8,
    word: Spot,
    tag: Identifier,
    opening: Spot,
    tokens: &[Token],
) -> Result<(Box<Structure>, &[Token]), ReadError>
    ensures { Gives (λ x. (view_structure x.0.value, leaves_of source.count x.1.now)) result
        (structure_by (within 64 left) word (view_identifier tag) opening (leaves_of source.count tokens.now)) }
{
    let (first, rest) = member(source, left, tokens)?;
    let (more, rest) = more_members(source, left, rest)?;
    let (closing, semicolon, rest) = structure_end(source, rest)?;
    let tree = Structure {
        word,
        tag,
        opening,
        first: Box::into_inner(first),
        more,
        closing,
        semicolon,
    };
    let tree = boxed(source, tree)?;
    Ok((tree, rest))
}
