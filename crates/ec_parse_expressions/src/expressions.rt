//! Expressions (ISO/IEC 9899:1999, 6.5; operations of `<iohw.h>`: ISO/IEC TR 18037:2008, 6).
//!
//! A function answers the tree, its height and the tokens after it. Its `left` says how many constructs may still be
//! opened, and its `room` what height the nodes around, as far as they may end with this one, leave to it.
ghost use Rattle.std.specs.Prelude.{◌≡◌, ◌-◌, ◌<◌, ◌≤◌, suc, max, map, Ok};
ghost use Rattle.ec_grammar.specs.Nesting.{height_expression, height_assignment, height_conditional, height_binary};
ghost use Rattle.ec_grammar.specs.Nesting.{height_cast, height_unary, height_postfix, height_arguments, height_further};
ghost use Rattle.ec_grammar.specs.Nesting.{height_primary};
ghost use Rattle.ec_grammar.specs.Trees as t;
ghost use Rattle.ec_grammar.specs.Views.{view_expression, view_assignment, view_conditional, view_binary, view_cast};
ghost use Rattle.ec_grammar.specs.Views.{view_unary, view_postfix, view_arguments, view_primary, view_identifier};
ghost use Rattle.ec_grammar.specs.Views.{view_type_name};
ghost use Rattle.ec_parse_laws.specs.Reading.{within, ends, argument_at, further_by, further_of, arguments_by};
ghost use Rattle.ec_parse_laws.specs.Reading.{operation_by, primary_by, index_by, call_by, member_by, suffix_by};
ghost use Rattle.ec_parse_laws.specs.Reading.{suffixes_by, postfix_by, size_by, unary_by, cast_by, joins_by, binary_by};
ghost use Rattle.ec_parse_laws.specs.Reading.{choice_by, conditional_by, assigned_by, assignment_by, commas_by};
ghost use Rattle.ec_parse_laws.specs.Reading.{expression_by};
ghost use Rattle.ec_parse_tokens.specs.Reads.{leaves_of, inner_at, made, Reads, ReadsAt, Builds};
ghost use Rattle.ec_parse_expressions.specs.Heights.{IsHeight, IsNodeHeight, IsBehind, HasRoom, HasRoomAbove};
ghost use Rattle.ec_parse_expressions.specs.Parts.{Parts, view_argument, operation_after, parenthesised_after, atom_by};
ghost use Rattle.ec_parse_expressions.specs.Parts.{index_after, call_after};

use crate::types::type_name;
use ec_grammar::{
    Argument, Arguments, Assignment, Binary, Cast, Conditional, Expression, Identifier, Operation,
    Postfix, Primary, PunctKind, Spot, Token, TypeName, Unary, WordKind,
};
use ec_parse_tokens::{
    CHAIN, LIMIT, ReadError, Source, begun_expression, boxed, ended, expect, expect_name, higher,
    opened, room_behind, take, take_access, take_assign, take_cast, take_constant, take_level,
    take_name, take_operation, take_prefix, take_step, take_word, too_long, unexpected,
};

// Arguments.

#[cycle(expressions)]
fn argument(
    source: Source,
    left: u8,
    tokens: &[Token],
) -> Result<Option<(Argument, u8, &[Token])>, ReadError>
    ensures { ReadsAt (λ x. (view_argument x.0, leaves_of source.count x.2.now))
        (λ x. IsHeight 64 (height_assignment (view_assignment x.0.value)) x.1) result
        (argument_at (inner_at left) (leaves_of source.count tokens.now)) }
{
    let Some((comma, rest)) = take(source, tokens, PunctKind::Comma) else {
        return Ok(None);
    };
    let (value, height, rest) = assignment(source, left, LIMIT, rest)?;
    let value = Box::into_inner(value);
    Ok(Some((Argument { comma, value }, height, rest)))
}

/// Arguments that follow another one, and their height.
#[cycle(expressions)]
#[tactic(auto, unfolding(ec_parse_laws::specs::Reading::further_by))]
fn further(
    source: Source,
    left: u8,
    tokens: &[Token],
) -> Result<(Vec<Argument>, u8, &[Token]), ReadError>
    ensures { Reads (λ x. (further_of (map view_argument x.0.items), leaves_of source.count x.2.now))
        (λ x. IsHeight 64 (height_further (further_of (map view_argument x.0.items))) x.1) result
        (further_by (inner_at left) (leaves_of source.count tokens.now)) }
{
    let mut all = Vec::new(source.alloc);
    let mut height = 0;
    let mut rest = tokens;
    for _ in 0..tokens.len() {
        let Some((item, tall, after)) = argument(source, left, rest)? else {
            return Ok((all, height, rest));
        };
        all.push(item)?;
        height = higher(height, tall);
        rest = after;
    }
    Ok((all, height, rest))
}

fn some_arguments(first: Assignment, more: Vec<Argument>) -> Arguments
    ensures { view_arguments result ≡ t.arguments (view_assignment first) (further_of (map view_argument more.items)) }
{
    Arguments::Some(first, more)
}

#[cycle(expressions)]
#[tactic(auto, unfolding(ec_parse_laws::specs::Reading::arguments_by))]
fn arguments(
    source: Source,
    left: u8,
    tokens: &[Token],
) -> Result<(Arguments, u8, &[Token]), ReadError>
    ensures { Reads (λ x. (view_arguments x.0, leaves_of source.count x.2.now))
        (λ x. IsHeight 64 (height_arguments (view_arguments x.0)) x.1) result
        (arguments_by (inner_at left) (leaves_of source.count tokens.now)) }
{
    if take(source, tokens, PunctKind::RightParenthesis).is_some() {
        return Ok((Arguments::None, 0, tokens));
    }
    let (first, height, rest) = assignment(source, left, LIMIT, tokens)?;
    let (more, tall, rest) = further(source, left, rest)?;
    let first = Box::into_inner(first);
    Ok((some_arguments(first, more), higher(height, tall), rest))
}

// Primary expressions.

/// An operation whose parenthesis ends here.
fn operation_end(
    source: Source,
    room: u8,
    spot: Spot,
    op: Operation,
    opening: Spot,
    port: Identifier,
    more: Vec<Argument>,
    below: u8,
    tokens: &[Token],
) -> Result<(Primary, u8, &[Token]), ReadError>
    requires { IsHeight 64 (height_further (further_of (map view_argument more.items))) below }
    ensures { Reads (λ x. (view_primary x.0, leaves_of source.count x.2.now))
        (λ x. IsNodeHeight room (height_primary (view_primary x.0)) x.1) result
        (operation_after room spot op opening (view_identifier port) (further_of (map view_argument more.items))
        (leaves_of source.count tokens.now)) }
{
    let (closing, rest) = expect(source, tokens, PunctKind::RightParenthesis)?;
    let height = ended(source, room, below, rest)?;
    let port = boxed(source, port)?;
    let tree = Primary::Operation(spot, op, opening, port, more, closing);
    Ok((tree, height, rest))
}

#[cycle(expressions)]
#[tactic(auto, unfolding(ec_parse_laws::specs::Reading::operation_by))]
fn operation(
    source: Source,
    left: u8,
    room: u8,
    spot: Spot,
    op: Operation,
    tokens: &[Token],
) -> Result<(Primary, u8, &[Token]), ReadError>
    requires { room ≤ 64 }
    ensures { Reads (λ x. (view_primary x.0, leaves_of source.count x.2.now))
        (λ x. IsNodeHeight room (height_primary (view_primary x.0)) x.1) result
        (operation_by (within 64 left) room spot op (leaves_of source.count tokens.now)) }
{
    let (opening, rest) = expect(source, tokens, PunctKind::LeftParenthesis)?;
    let left = opened(source, left, rest)?;
    let (port, rest) = expect_name(source, rest)?;
    let (more, below, rest) = further(source, left, rest)?;
    operation_end(source, room, spot, op, opening, port, more, below, rest)
}

/// An expression whose parenthesis ends here.
fn parenthesised(
    source: Source,
    room: u8,
    opening: Spot,
    inner: Box<Expression>,
    below: u8,
    tokens: &[Token],
) -> Result<(Primary, u8, &[Token]), ReadError>
    requires { IsHeight 64 (height_expression (view_expression inner.value)) below }
    ensures { Reads (λ x. (view_primary x.0, leaves_of source.count x.2.now))
        (λ x. IsNodeHeight room (height_primary (view_primary x.0)) x.1) result
        (parenthesised_after room opening (view_expression inner.value) (leaves_of source.count tokens.now)) }
{
    let (closing, rest) = expect(source, tokens, PunctKind::RightParenthesis)?;
    let height = ended(source, room, below, rest)?;
    let tree = Primary::Parenthesised(opening, inner, closing);
    Ok((tree, height, rest))
}

/// A constant or a name.
fn atom(source: Source, room: u8, tokens: &[Token]) -> Result<(Primary, u8, &[Token]), ReadError>
    ensures { Reads (λ x. (view_primary x.0, leaves_of source.count x.2.now))
        (λ x. IsNodeHeight room (height_primary (view_primary x.0)) x.1) result
        (atom_by room (leaves_of source.count tokens.now)) }
{
    if let Some((spot, constant, rest)) = take_constant(source, tokens) {
        let height = ended(source, room, 0, rest)?;
        let constant = boxed(source, constant)?;
        return Ok((Primary::Constant(spot, constant), height, rest));
    }
    if let Some((name, rest)) = take_name(source, tokens)? {
        let height = ended(source, room, 0, rest)?;
        return Ok((Primary::Name(name), height, rest));
    }
    Err(unexpected(source, tokens))
}

#[cycle(expressions)]
#[tactic(auto, unfolding(ec_parse_laws::specs::Reading::primary_by))]
fn primary(
    source: Source,
    left: u8,
    room: u8,
    tokens: &[Token],
) -> Result<(Primary, u8, &[Token]), ReadError>
    requires { room ≤ 64 }
    ensures { Reads (λ x. (view_primary x.0, leaves_of source.count x.2.now))
        (λ x. IsNodeHeight room (height_primary (view_primary x.0)) x.1) result
        (primary_by (within 64 left) room (leaves_of source.count tokens.now)) }
{
    if let Some((opening, rest)) = take(source, tokens, PunctKind::LeftParenthesis) {
        let left = opened(source, left, rest)?;
        let (inner, below, rest) = expression(source, left, LIMIT, rest)?;
        return parenthesised(source, room, opening, inner, below, rest);
    }
    if let Some((spot, op, rest)) = take_operation(source, tokens) {
        return operation(source, left, room, spot, op, rest);
    }
    atom(source, room, tokens)
}

// Postfix expressions.

/// A subscript whose bracket ends here.
fn index_end(
    source: Source,
    room: u8,
    array: Box<Postfix>,
    array_height: u8,
    opening: Spot,
    index: Box<Expression>,
    index_height: u8,
    tokens: &[Token],
) -> Result<(Box<Postfix>, u8, &[Token]), ReadError>
    requires { IsBehind room (height_postfix (view_postfix array.value)) array_height
        × IsHeight 64 (height_expression (view_expression index.value)) index_height }
    ensures { Reads (λ x. (view_postfix x.0.value, leaves_of source.count x.2.now))
        (λ x. IsNodeHeight room (height_postfix (view_postfix x.0.value)) x.1) result
        (index_after room (view_postfix array.value) opening (view_expression index.value)
        (leaves_of source.count tokens.now)) }
{
    let (closing, rest) = expect(source, tokens, PunctKind::RightBracket)?;
    let height = ended(source, room, higher(array_height, index_height), rest)?;
    let tree = boxed(source, Postfix::Index(array, opening, index, closing))?;
    Ok((tree, height, rest))
}

#[cycle(expressions)]
#[tactic(auto, unfolding(ec_parse_laws::specs::Reading::index_by))]
fn index(
    source: Source,
    left: u8,
    room: u8,
    array: Box<Postfix>,
    array_height: u8,
    opening: Spot,
    tokens: &[Token],
) -> Result<(Box<Postfix>, u8, &[Token]), ReadError>
    requires { IsBehind room (height_postfix (view_postfix array.value)) array_height }
    ensures { Reads (λ x. (view_postfix x.0.value, leaves_of source.count x.2.now))
        (λ x. IsNodeHeight room (height_postfix (view_postfix x.0.value)) x.1) result
        (index_by (within 64 left) room (view_postfix array.value) opening (leaves_of source.count tokens.now)) }
{
    let left = opened(source, left, tokens)?;
    let (index, height, rest) = expression(source, left, LIMIT, tokens)?;
    index_end(
        source,
        room,
        array,
        array_height,
        opening,
        index,
        height,
        rest,
    )
}

/// A call whose parenthesis ends here.
fn call_end(
    source: Source,
    room: u8,
    function: Box<Postfix>,
    function_height: u8,
    opening: Spot,
    given: Arguments,
    given_height: u8,
    tokens: &[Token],
) -> Result<(Box<Postfix>, u8, &[Token]), ReadError>
    requires { IsBehind room (height_postfix (view_postfix function.value)) function_height
        × IsHeight 64 (height_arguments (view_arguments given)) given_height }
    ensures { Reads (λ x. (view_postfix x.0.value, leaves_of source.count x.2.now))
        (λ x. IsNodeHeight room (height_postfix (view_postfix x.0.value)) x.1) result
        (call_after room (view_postfix function.value) opening (view_arguments given)
        (leaves_of source.count tokens.now)) }
{
    let given = boxed(source, given)?;
    let (closing, rest) = expect(source, tokens, PunctKind::RightParenthesis)?;
    let height = ended(source, room, higher(function_height, given_height), rest)?;
    let tree = boxed(source, Postfix::Call(function, opening, given, closing))?;
    Ok((tree, height, rest))
}

#[cycle(expressions)]
#[tactic(auto, unfolding(ec_parse_laws::specs::Reading::call_by))]
fn call(
    source: Source,
    left: u8,
    room: u8,
    function: Box<Postfix>,
    function_height: u8,
    opening: Spot,
    tokens: &[Token],
) -> Result<(Box<Postfix>, u8, &[Token]), ReadError>
    requires { IsBehind room (height_postfix (view_postfix function.value)) function_height }
    ensures { Reads (λ x. (view_postfix x.0.value, leaves_of source.count x.2.now))
        (λ x. IsNodeHeight room (height_postfix (view_postfix x.0.value)) x.1) result
        (call_by (within 64 left) room (view_postfix function.value) opening (leaves_of source.count tokens.now)) }
{
    let left = opened(source, left, tokens)?;
    let (given, height, rest) = arguments(source, left, tokens)?;
    call_end(
        source,
        room,
        function,
        function_height,
        opening,
        given,
        height,
        rest,
    )
}

#[tactic(auto, unfolding(ec_parse_laws::specs::Reading::member_by))]
fn member(
    source: Source,
    room: u8,
    object: Box<Postfix>,
    object_height: u8,
    spot: Spot,
    op: PunctKind,
    tokens: &[Token],
) -> Result<(Box<Postfix>, u8, &[Token]), ReadError>
    requires { IsBehind room (height_postfix (view_postfix object.value)) object_height }
    ensures { Reads (λ x. (view_postfix x.0.value, leaves_of source.count x.2.now))
        (λ x. IsNodeHeight room (height_postfix (view_postfix x.0.value)) x.1) result
        (member_by room (view_postfix object.value) spot op (leaves_of source.count tokens.now)) }
{
    let (name, rest) = expect_name(source, tokens)?;
    let height = ended(source, room, object_height, rest)?;
    let tree = boxed(source, Postfix::Member(object, spot, op, name))?;
    Ok((tree, height, rest))
}

fn stepped(
    source: Source,
    room: u8,
    place: Box<Postfix>,
    place_height: u8,
    spot: Spot,
    op: PunctKind,
    tokens: &[Token],
) -> Result<(Box<Postfix>, u8, &[Token]), ReadError>
    requires { IsBehind room (height_postfix (view_postfix place.value)) place_height }
    ensures { Reads (λ x. (view_postfix x.0.value, leaves_of source.count x.2.now))
        (λ x. IsNodeHeight room (height_postfix (view_postfix x.0.value)) x.1) result
        (ends room (suc (height_postfix (view_postfix place.value))) (t.stepped (view_postfix place.value) spot op)
        (leaves_of source.count tokens.now)) }
{
    let height = ended(source, room, place_height, tokens)?;
    let tree = boxed(source, Postfix::Stepped(place, spot, op))?;
    Ok((tree, height, tokens))
}

/// What the suffixes that follow make of an expression: there are at most so many.
#[cycle(expressions)]
#[tactic(auto, unfolding(ec_parse_laws::specs::Reading::suffixes_by, ec_parse_laws::specs::Reading::suffix_by))]
fn suffixes(
    source: Source,
    left: u8,
    room: u8,
    count: u8,
    first: Box<Postfix>,
    first_height: u8,
    tokens: &[Token],
) -> Result<(Box<Postfix>, u8, &[Token]), ReadError>
    requires { IsBehind room (height_postfix (view_postfix first.value)) first_height }
    ensures { Reads (λ x. (view_postfix x.0.value, leaves_of source.count x.2.now))
        (λ x. IsNodeHeight room (height_postfix (view_postfix x.0.value)) x.1) result
        (suffixes_by (within 64 left) room count (view_postfix first.value) (leaves_of source.count tokens.now)) }
{
    if count == 0 {
        return Err(too_long(source, tokens));
    }
    if let Some((opening, rest)) = take(source, tokens, PunctKind::LeftBracket) {
        let (tree, height, rest) = index(source, left, room, first, first_height, opening, rest)?;
        return suffixes(source, left, room, count - 1, tree, height, rest);
    }
    if let Some((opening, rest)) = take(source, tokens, PunctKind::LeftParenthesis) {
        let (tree, height, rest) = call(source, left, room, first, first_height, opening, rest)?;
        return suffixes(source, left, room, count - 1, tree, height, rest);
    }
    if let Some((spot, op, rest)) = take_access(source, tokens) {
        let (tree, height, rest) = member(source, room, first, first_height, spot, op, rest)?;
        return suffixes(source, left, room, count - 1, tree, height, rest);
    }
    if let Some((spot, op, rest)) = take_step(source, tokens) {
        let (tree, height, rest) = stepped(source, room, first, first_height, spot, op, rest)?;
        return suffixes(source, left, room, count - 1, tree, height, rest);
    }
    Ok((first, first_height, tokens))
}

#[cycle(expressions)]
#[tactic(auto, unfolding(ec_parse_laws::specs::Reading::postfix_by))]
fn postfix(
    source: Source,
    left: u8,
    room: u8,
    tokens: &[Token],
) -> Result<(Box<Postfix>, u8, &[Token]), ReadError>
    requires { room ≤ 64 }
    ensures { Reads (λ x. (view_postfix x.0.value, leaves_of source.count x.2.now))
        (λ x. IsNodeHeight room (height_postfix (view_postfix x.0.value)) x.1) result
        (postfix_by (within 64 left) room (leaves_of source.count tokens.now)) }
{
    let (first, height, rest) = primary(source, left, room, tokens)?;
    let first = boxed(source, Postfix::Primary(first))?;
    suffixes(source, left, room, CHAIN, first, height, rest)
}

// Unary expressions and casts.

#[tactic(auto, unfolding(ec_parse_laws::specs::Reading::size_by))]
fn size(
    source: Source,
    left: u8,
    room: u8,
    spot: Spot,
    tokens: &[Token],
) -> Result<(Unary, u8, &[Token]), ReadError>
    requires { room ≤ 64 }
    ensures { Reads (λ x. (view_unary x.0, leaves_of source.count x.2.now))
        (λ x. IsNodeHeight room (height_unary (view_unary x.0)) x.1) result
        (size_by (within 64 left) room spot (leaves_of source.count tokens.now)) }
{
    let (opening, rest) = expect(source, tokens, PunctKind::LeftParenthesis)?;
    let _ = opened(source, left, rest)?;
    let (ty, rest) = type_name(source, rest)?;
    let (closing, rest) = expect(source, rest, PunctKind::RightParenthesis)?;
    let height = ended(source, room, 0, rest)?;
    Ok((Unary::Size(spot, opening, ty, closing), height, rest))
}

fn prefixed(
    source: Source,
    room: u8,
    spot: Spot,
    op: PunctKind,
    operand: Cast,
    height: u8,
    tokens: &[Token],
) -> Result<(Unary, u8, &[Token]), ReadError>
    requires { HasRoomAbove room (height_cast (view_cast operand)) height }
    ensures { Reads (λ x. (view_unary x.0, leaves_of source.count x.2.now))
        (λ x. IsNodeHeight room (height_unary (view_unary x.0)) x.1) result
        (made (t.prefix spot op (view_cast operand)) (leaves_of source.count tokens.now)) }
{
    let operand = boxed(source, operand)?;
    Ok((Unary::Prefix(spot, op, operand), height + 1, tokens))
}

fn stepped_first(
    source: Source,
    room: u8,
    spot: Spot,
    op: PunctKind,
    operand: Unary,
    height: u8,
    tokens: &[Token],
) -> Result<(Unary, u8, &[Token]), ReadError>
    requires { HasRoomAbove room (height_unary (view_unary operand)) height }
    ensures { Reads (λ x. (view_unary x.0, leaves_of source.count x.2.now))
        (λ x. IsNodeHeight room (height_unary (view_unary x.0)) x.1) result
        (made (t.step spot op (view_unary operand)) (leaves_of source.count tokens.now)) }
{
    let operand = boxed(source, operand)?;
    Ok((Unary::Step(spot, op, operand), height + 1, tokens))
}

#[cycle(expressions)]
#[tactic(auto, unfolding(ec_parse_laws::specs::Reading::unary_by))]
fn unary(
    source: Source,
    left: u8,
    room: u8,
    tokens: &[Token],
) -> Result<(Unary, u8, &[Token]), ReadError>
    requires { room ≤ 64 }
    ensures { Reads (λ x. (view_unary x.0, leaves_of source.count x.2.now))
        (λ x. IsNodeHeight room (height_unary (view_unary x.0)) x.1) result
        (unary_by (within 64 left) room (leaves_of source.count tokens.now)) }
{
    if let Some((spot, op, rest)) = take_prefix(source, tokens) {
        let left = opened(source, left, rest)?;
        let (operand, height, rest) = cast(source, left, room.saturating_sub(1), rest)?;
        return prefixed(source, room, spot, op, operand, height, rest);
    }
    if let Some((spot, op, rest)) = take_step(source, tokens) {
        let left = opened(source, left, rest)?;
        let (operand, height, rest) = unary(source, left, room.saturating_sub(1), rest)?;
        return stepped_first(source, room, spot, op, operand, height, rest);
    }
    if let Some((spot, rest)) = take_word(source, tokens, WordKind::Sizeof) {
        return size(source, left, room, spot, rest);
    }
    let (operand, height, rest) = postfix(source, left, room, tokens)?;
    Ok((Unary::Postfix(Box::into_inner(operand)), height, rest))
}

fn converted(
    source: Source,
    room: u8,
    opening: Spot,
    ty: Box<TypeName>,
    closing: Spot,
    operand: Cast,
    height: u8,
    tokens: &[Token],
) -> Result<(Cast, u8, &[Token]), ReadError>
    requires { HasRoomAbove room (height_cast (view_cast operand)) height }
    ensures { Reads (λ x. (view_cast x.0, leaves_of source.count x.2.now))
        (λ x. IsNodeHeight room (height_cast (view_cast x.0)) x.1) result
        (made (t.convert opening (view_type_name ty.value) closing (view_cast operand))
        (leaves_of source.count tokens.now)) }
{
    let operand = boxed(source, operand)?;
    let tree = Cast::Convert(opening, ty, closing, operand);
    Ok((tree, height + 1, tokens))
}

#[cycle(expressions)]
#[tactic(auto, unfolding(ec_parse_laws::specs::Reading::cast_by))]
fn cast(
    source: Source,
    left: u8,
    room: u8,
    tokens: &[Token],
) -> Result<(Cast, u8, &[Token]), ReadError>
    requires { room ≤ 64 }
    ensures { Reads (λ x. (view_cast x.0, leaves_of source.count x.2.now))
        (λ x. IsNodeHeight room (height_cast (view_cast x.0)) x.1) result
        (cast_by (within 64 left) room (leaves_of source.count tokens.now)) }
{
    let Some((opening, rest)) = take_cast(source, tokens) else {
        let (operand, height, rest) = unary(source, left, room, tokens)?;
        return Ok((Cast::Uncast(operand), height, rest));
    };
    let left = opened(source, left, rest)?;
    let (ty, rest) = type_name(source, rest)?;
    let (closing, rest) = expect(source, rest, PunctKind::RightParenthesis)?;
    let (operand, height, rest) = cast(source, left, room.saturating_sub(1), rest)?;
    converted(source, room, opening, ty, closing, operand, height, rest)
}

// Binary operators.

fn joined(
    source: Source,
    room: u8,
    first: Box<Binary>,
    first_height: u8,
    spot: Spot,
    op: PunctKind,
    second: Box<Binary>,
    second_height: u8,
) -> Result<(Box<Binary>, u8), ReadError>
    requires { HasRoom room (height_binary (view_binary first.value)) first_height
        (height_binary (view_binary second.value)) second_height }
    ensures { Builds (λ x. view_binary x.0.value)
        (λ x. IsNodeHeight room (height_binary (view_binary x.0.value)) x.1) result
        (t.join (view_binary first.value) spot op (view_binary second.value)) }
{
    let both = boxed(source, Binary::Join(first, spot, op, second))?;
    Ok((both, higher(first_height, second_height) + 1))
}

/// What the operators of a level that follow make of an expression: there are at most so many.
#[cycle(expressions)]
#[tactic(auto, unfolding(ec_parse_laws::specs::Reading::joins_by))]
fn joins(
    source: Source,
    left: u8,
    level: u8,
    room: u8,
    count: u8,
    first: Box<Binary>,
    first_height: u8,
    tokens: &[Token],
) -> Result<(Box<Binary>, u8, &[Token]), ReadError>
    requires { (0 < level) × IsBehind room (height_binary (view_binary first.value)) first_height }
    ensures { Reads (λ x. (view_binary x.0.value, leaves_of source.count x.2.now))
        (λ x. IsNodeHeight room (height_binary (view_binary x.0.value)) x.1) result
        (joins_by (binary_by (within 64 left) (level - 1)) level room count (view_binary first.value)
        (leaves_of source.count tokens.now)) }
{
    if count == 0 {
        return Err(too_long(source, tokens));
    }
    let Some((spot, op, rest)) = take_level(source, tokens, level) else {
        return Ok((first, first_height, tokens));
    };
    let last = room_behind(room, first_height);
    let (second, second_height, rest) = binary(source, left, level - 1, last, rest)?;
    let (both, height) = joined(
        source,
        room,
        first,
        first_height,
        spot,
        op,
        second,
        second_height,
    )?;
    joins(source, left, level, room, count - 1, both, height, rest)
}

/// Casts joined by the operators up to a level.
#[cycle(expressions)]
#[tactic(auto, unfolding(ec_parse_laws::specs::Reading::binary_by))]
fn binary(
    source: Source,
    left: u8,
    level: u8,
    room: u8,
    tokens: &[Token],
) -> Result<(Box<Binary>, u8, &[Token]), ReadError>
    requires { room ≤ 64 }
    ensures { Reads (λ x. (view_binary x.0.value, leaves_of source.count x.2.now))
        (λ x. IsNodeHeight room (height_binary (view_binary x.0.value)) x.1) result
        (binary_by (within 64 left) level room (leaves_of source.count tokens.now)) }
{
    if level == 0 {
        let (operand, height, rest) = cast(source, left, room, tokens)?;
        let operand = boxed(source, Binary::Operand(operand))?;
        return Ok((operand, height, rest));
    }
    let (first, height, rest) = binary(source, left, level - 1, room, tokens)?;
    joins(source, left, level, room, CHAIN, first, height, rest)
}

// Conditionals and assignments.

fn chosen(
    source: Source,
    room: u8,
    test: Box<Binary>,
    question: Spot,
    second: Box<Expression>,
    colon: Spot,
    below: u8,
    third: Conditional,
    third_height: u8,
    tokens: &[Token],
) -> Result<(Conditional, u8, &[Token]), ReadError>
    requires { HasRoom room (max (height_binary (view_binary test.value))
        (height_expression (view_expression second.value))) below
        (height_conditional (view_conditional third)) third_height }
    ensures { Reads (λ x. (view_conditional x.0, leaves_of source.count x.2.now))
        (λ x. IsNodeHeight room (height_conditional (view_conditional x.0)) x.1) result
        (made (t.choose (view_binary test.value) question (view_expression second.value) colon (view_conditional third))
        (leaves_of source.count tokens.now)) }
{
    let third = boxed(source, third)?;
    let tree = Conditional::Choose(Box::into_inner(test), question, second, colon, third);
    Ok((tree, higher(below, third_height) + 1, tokens))
}

#[cycle(expressions)]
#[tactic(auto, unfolding(ec_parse_laws::specs::Reading::choice_by))]
fn choice(
    source: Source,
    left: u8,
    room: u8,
    test: Box<Binary>,
    test_height: u8,
    question: Spot,
    tokens: &[Token],
) -> Result<(Conditional, u8, &[Token]), ReadError>
    requires { IsBehind room (height_binary (view_binary test.value)) test_height }
    ensures { Reads (λ x. (view_conditional x.0, leaves_of source.count x.2.now))
        (λ x. IsNodeHeight room (height_conditional (view_conditional x.0)) x.1) result
        (choice_by (within 64 left) room (view_binary test.value) question (leaves_of source.count tokens.now)) }
{
    let left = begun_expression(source, left, tokens)?;
    let (second, second_height, rest) = expression(source, left, LIMIT, tokens)?;
    let (colon, rest) = expect(source, rest, PunctKind::Colon)?;
    let below = higher(test_height, second_height);
    let (third, height, rest) = conditional(source, left, room_behind(room, below), rest)?;
    chosen(
        source, room, test, question, second, colon, below, third, height, rest,
    )
}

/// A conditional expression (6.5.15).
#[cycle(expressions)]
#[tactic(auto, unfolding(ec_parse_laws::specs::Reading::conditional_by))]
pub fn conditional(
    source: Source,
    left: u8,
    room: u8,
    tokens: &[Token],
) -> Result<(Conditional, u8, &[Token]), ReadError>
    requires { room ≤ 64 }
    ensures { Reads (λ x. (view_conditional x.0, leaves_of source.count x.2.now))
        (λ x. IsNodeHeight room (height_conditional (view_conditional x.0)) x.1) result
        (conditional_by (within 64 left) room (leaves_of source.count tokens.now)) }
{
    let (test, height, rest) = binary(source, left, 10, room, tokens)?;
    if let Some((question, rest)) = take(source, rest, PunctKind::Question) {
        return choice(source, left, room, test, height, question, rest);
    }
    Ok((Conditional::Plain(Box::into_inner(test)), height, rest))
}

/// The unary expression that it is, or the whole again.
fn unary_alone(tree: Conditional) -> Result<Unary, Conditional>
    ensures { Parts (view_conditional tree) result }
{
    match tree {
        Conditional::Plain(Binary::Operand(Cast::Uncast(unary))) => Ok(unary),
        other => Err(other),
    }
}

fn assigns(
    source: Source,
    room: u8,
    place: Box<Unary>,
    place_height: u8,
    spot: Spot,
    op: PunctKind,
    value: Box<Assignment>,
    value_height: u8,
    tokens: &[Token],
) -> Result<(Box<Assignment>, u8, &[Token]), ReadError>
    requires { HasRoom room (height_unary (view_unary place.value)) place_height
        (height_assignment (view_assignment value.value)) value_height }
    ensures { Reads (λ x. (view_assignment x.0.value, leaves_of source.count x.2.now))
        (λ x. IsNodeHeight room (height_assignment (view_assignment x.0.value)) x.1) result
        (made (t.assign (view_unary place.value) spot op (view_assignment value.value))
        (leaves_of source.count tokens.now)) }
{
    let place = Box::into_inner(place);
    let tree = boxed(source, Assignment::Assign(place, spot, op, value))?;
    Ok((tree, higher(place_height, value_height) + 1, tokens))
}

#[cycle(expressions)]
#[tactic(auto, unfolding(ec_parse_laws::specs::Reading::assigned_by))]
fn assigned(
    source: Source,
    left: u8,
    room: u8,
    place: Unary,
    place_height: u8,
    spot: Spot,
    op: PunctKind,
    tokens: &[Token],
) -> Result<(Box<Assignment>, u8, &[Token]), ReadError>
    requires { IsBehind room (height_unary (view_unary place)) place_height }
    ensures { Reads (λ x. (view_assignment x.0.value, leaves_of source.count x.2.now))
        (λ x. IsNodeHeight room (height_assignment (view_assignment x.0.value)) x.1) result
        (assigned_by (within 64 left) room (view_unary place) spot op (leaves_of source.count tokens.now)) }
{
    let place = boxed(source, place)?;
    let left = begun_expression(source, left, tokens)?;
    let last = room_behind(room, place_height);
    let (value, height, rest) = assignment(source, left, last, tokens)?;
    assigns(
        source,
        room,
        place,
        place_height,
        spot,
        op,
        value,
        height,
        rest,
    )
}

/// An assignment expression (6.5.16). An operator that follows no unary expression is left.
#[cycle(expressions)]
#[tactic(auto, unfolding(ec_parse_laws::specs::Reading::assignment_by))]
pub fn assignment(
    source: Source,
    left: u8,
    room: u8,
    tokens: &[Token],
) -> Result<(Box<Assignment>, u8, &[Token]), ReadError>
    requires { room ≤ 64 }
    ensures { Reads (λ x. (view_assignment x.0.value, leaves_of source.count x.2.now))
        (λ x. IsNodeHeight room (height_assignment (view_assignment x.0.value)) x.1) result
        (assignment_by (within 64 left) room (leaves_of source.count tokens.now)) }
{
    let (tree, height, rest) = conditional(source, left, room, tokens)?;
    let Some((spot, op, after)) = take_assign(source, rest) else {
        let tree = boxed(source, Assignment::Value(tree))?;
        return Ok((tree, height, rest));
    };
    match unary_alone(tree) {
        Ok(place) => assigned(source, left, room, place, height, spot, op, after),
        Err(tree) => {
            let tree = boxed(source, Assignment::Value(tree))?;
            Ok((tree, height, rest))
        }
    }
}

fn with_comma(
    source: Source,
    room: u8,
    first: Box<Expression>,
    first_height: u8,
    comma: Spot,
    second: Box<Assignment>,
    second_height: u8,
) -> Result<(Box<Expression>, u8), ReadError>
    requires { HasRoom room (height_expression (view_expression first.value)) first_height
        (height_assignment (view_assignment second.value)) second_height }
    ensures { Builds (λ x. view_expression x.0.value)
        (λ x. IsNodeHeight room (height_expression (view_expression x.0.value)) x.1) result
        (t.comma (view_expression first.value) comma (view_assignment second.value)) }
{
    let both = boxed(source, Expression::Comma(first, comma, second))?;
    Ok((both, higher(first_height, second_height) + 1))
}

/// What the commas that follow make of an expression: there are at most so many.
#[cycle(expressions)]
#[tactic(auto, unfolding(ec_parse_laws::specs::Reading::commas_by))]
fn commas(
    source: Source,
    left: u8,
    room: u8,
    count: u8,
    first: Box<Expression>,
    first_height: u8,
    tokens: &[Token],
) -> Result<(Box<Expression>, u8, &[Token]), ReadError>
    requires { IsBehind room (height_expression (view_expression first.value)) first_height }
    ensures { Reads (λ x. (view_expression x.0.value, leaves_of source.count x.2.now))
        (λ x. IsNodeHeight room (height_expression (view_expression x.0.value)) x.1) result
        (commas_by (within 64 left) room count (view_expression first.value) (leaves_of source.count tokens.now)) }
{
    if count == 0 {
        return Err(too_long(source, tokens));
    }
    let Some((spot, rest)) = take(source, tokens, PunctKind::Comma) else {
        return Ok((first, first_height, tokens));
    };
    let last = room_behind(room, first_height);
    let (second, second_height, rest) = assignment(source, left, last, rest)?;
    let (both, height) = with_comma(
        source,
        room,
        first,
        first_height,
        spot,
        second,
        second_height,
    )?;
    commas(source, left, room, count - 1, both, height, rest)
}

/// An expression (6.5.17).
#[cycle(expressions)]
#[tactic(auto, unfolding(ec_parse_laws::specs::Reading::expression_by))]
pub fn expression(
    source: Source,
    left: u8,
    room: u8,
    tokens: &[Token],
) -> Result<(Box<Expression>, u8, &[Token]), ReadError>
    requires { room ≤ 64 }
    ensures { Reads (λ x. (view_expression x.0.value, leaves_of source.count x.2.now))
        (λ x. IsNodeHeight room (height_expression (view_expression x.0.value)) x.1) result
        (expression_by (within 64 left) room (leaves_of source.count tokens.now)) }
{
    let (first, height, rest) = assignment(source, left, room, tokens)?;
    let first = boxed(source, Expression::Single(Box::into_inner(first)))?;
    commas(source, left, room, CHAIN, first, height, rest)
}
