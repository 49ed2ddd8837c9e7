//! Statements (ISO/IEC 9899:1999, 6.8).
//!
//! A function answers the tree, its height and the tokens after it, as those of expressions do.
ghost use Rattle.std.specs.Prelude.{◌≡◌, ◌<◌, ◌≤◌, max, map, Some};
ghost use Rattle.ec_grammar.specs.Nesting.{height_option, height_expression, height_condition, height_first};
ghost use Rattle.ec_grammar.specs.Nesting.{height_heading, height_compound, height_items, height_item};
ghost use Rattle.ec_grammar.specs.Nesting.{height_statement};
ghost use Rattle.ec_grammar.specs.Trees as t;
ghost use Rattle.ec_grammar.specs.Views.{view_optional, view_condition, view_first, view_heading};
ghost use Rattle.ec_grammar.specs.Views.{view_compound, view_item, view_statement};
ghost use Rattle.ec_parse_laws.specs.Reading.{within, many, ends, expected, expression_by, condition_by};
ghost use Rattle.ec_parse_laws.specs.Reading.{optional_by, first_by, heading_by, substatement, items_of, item_at};
ghost use Rattle.ec_parse_laws.specs.Reading.{pragma_at, compound_by, else_by, if_by, while_by, do_by, for_by, return_by};
ghost use Rattle.ec_parse_laws.specs.Reading.{worded_by, simple_by, statement_by};
ghost use Rattle.ec_parse_tokens.specs.Reads.{leaves_of, inner_at, made, Gives, GivesAt, Reads, ReadsAt, view_jump};
ghost use Rattle.ec_parse_expressions.specs.Heights.{IsHeight, IsNodeHeight};
ghost use Rattle.ec_parse.specs.Statements.{IsKnownHeight, HasHeightAbove, again_by, do_after};

use ec_grammar::{
    Compound, Condition, Expression, First, Heading, Item, Pragma, PunctKind, Spot, Statement,
    Token, WordKind,
};
use ec_parse_declarations::declaration;
use ec_parse_expressions::expression;
use ec_parse_tokens::{
    Jump, Keyword, LIMIT, ReadError, Source, add, begins_specs, begun_statement, boxed, ended,
    expect, expect_word, higher, opened, room_behind, take, take_keyword, take_pragma, take_word,
};

// Parts of statements.

/// An expression in parentheses.
#[tactic(auto, unfolding(ec_parse_laws::specs::Reading::condition_by))]
fn condition(
    source: Source,
    left: u8,
    tokens: &[Token],
) -> Result<(Box<Condition>, u8, &[Token]), ReadError>
    ensures { Reads (λ x. (view_condition x.0.value, leaves_of source.count x.2.now))
        (λ x. IsHeight 64 (height_condition (view_condition x.0.value)) x.1) result
        (condition_by (within 64 left) (leaves_of source.count tokens.now)) }
{
    let (opening, rest) = expect(source, tokens, PunctKind::LeftParenthesis)?;
    let left = opened(source, left, rest)?;
    let (value, height, rest) = expression(source, left, LIMIT, rest)?;
    let (closing, rest) = expect(source, rest, PunctKind::RightParenthesis)?;
    let value = Box::into_inner(value);
    let tree = boxed(
        source,
        Condition {
            opening,
            value,
            closing,
        },
    )?;
    Ok((tree, height, rest))
}

/// An expression or none, and the punctuator that ends it.
#[tactic(auto, unfolding(ec_parse_laws::specs::Reading::optional_by))]
fn optional(
    source: Source,
    left: u8,
    end: PunctKind,
    tokens: &[Token],
) -> Result<(Option<Box<Expression>>, Spot, u8, &[Token]), ReadError>
    ensures { Reads (λ x. ((view_optional x.0, x.1), leaves_of source.count x.3.now))
        (λ x. IsHeight 64 (height_option height_expression (view_optional x.0)) x.2) result
        (optional_by (expression_by (within 64 left) 64) end (leaves_of source.count tokens.now)) }
{
    if let Some((end, rest)) = take(source, tokens, end) {
        return Ok((None, end, 0, rest));
    }
    let (value, height, rest) = expression(source, left, LIMIT, tokens)?;
    let (end, rest) = expect(source, rest, end)?;
    Ok((Some(value), end, height, rest))
}

/// The first part of a `for` (6.8.5).
#[tactic(auto, unfolding(ec_parse_laws::specs::Reading::first_by))]
fn first(
    source: Source,
    left: u8,
    tokens: &[Token],
) -> Result<(Box<First>, u8, &[Token]), ReadError>
    ensures { Reads (λ x. (view_first x.0.value, leaves_of source.count x.2.now))
        (λ x. IsHeight 64 (height_first (view_first x.0.value)) x.1) result
        (first_by (inner_at left) (leaves_of source.count tokens.now)) }
{
    if begins_specs(source, tokens) {
        let (declaration, height, rest) = declaration(source, left, tokens)?;
        let tree = boxed(source, First::Declared(declaration))?;
        return Ok((tree, height, rest));
    }
    let (value, end, height, rest) = optional(source, left, PunctKind::Semicolon, tokens)?;
    let tree = boxed(source, First::Evaluated(value, end))?;
    Ok((tree, height, rest))
}

/// The parts of a `for` in its parentheses (6.8.5).
#[tactic(auto, unfolding(ec_parse_laws::specs::Reading::heading_by))]
fn heading(
    source: Source,
    left: u8,
    tokens: &[Token],
) -> Result<(Box<Heading>, u8, &[Token]), ReadError>
    ensures { Reads (λ x. (view_heading x.0.value, leaves_of source.count x.2.now))
        (λ x. IsHeight 64 (height_heading (view_heading x.0.value)) x.1) result
        (heading_by (within 64 left) (leaves_of source.count tokens.now)) }
{
    let (opening, rest) = expect(source, tokens, PunctKind::LeftParenthesis)?;
    let left = opened(source, left, rest)?;
    let (first, first_height, rest) = first(source, left, rest)?;
    let (condition, semicolon, condition_height, rest) = optional(
        source,
        left,
        PunctKind::Semicolon,
        rest,
    )?;
    let (last, closing, last_height, rest) = optional(
        source,
        left,
        PunctKind::RightParenthesis,
        rest,
    )?;
    let height = higher(first_height, higher(condition_height, last_height));
    let tree = Heading {
        opening,
        first: Box::into_inner(first),
        condition,
        semicolon,
        last,
        closing,
    };
    let tree = boxed(source, tree)?;
    Ok((tree, height, rest))
}

fn pragma(source: Source, tokens: &[Token]) -> Result<Option<(Pragma, &[Token])>, ReadError>
    ensures { GivesAt (λ x. (x.0, leaves_of source.count x.1.now)) result
        (pragma_at (leaves_of source.count tokens.now)) }
{
    Ok(take_pragma(source, tokens))
}

#[tactic(auto, using(ec_parse_expressions::proofs::Many::loops))]
fn pragmas(source: Source, tokens: &[Token]) -> Result<(Vec<Pragma>, &[Token]), ReadError>
    ensures { Gives (λ x. (x.0.items, leaves_of source.count x.1.now)) result
        (many pragma_at (leaves_of source.count tokens.now)) }
{
    let mut all = Vec::new(source.alloc);
    let mut rest = tokens;
    for _ in 0..tokens.len() {
        let Some((item, after)) = pragma(source, rest)? else {
            return Ok((all, rest));
        };
        all.push(item)?;
        rest = after;
    }
    Ok((all, rest))
}

// Compound statements.

#[cycle(statements)]
#[tactic(auto, unfolding(ec_parse_laws::specs::Reading::item_at))]
fn item(
    source: Source,
    left: u8,
    tokens: &[Token],
) -> Result<Option<(Box<Item>, u8, &[Token])>, ReadError>
    ensures { ReadsAt (λ x. (view_item x.0.value, leaves_of source.count x.2.now))
        (λ x. IsHeight 64 (height_item (view_item x.0.value)) x.1) result
        (item_at (within 64 left) (leaves_of source.count tokens.now)) }
{
    if begins_specs(source, tokens) {
        let (declaration, height, rest) = declaration(source, left, tokens)?;
        let tree = boxed(source, Item::Declaration(declaration))?;
        return Ok(Some((tree, height, rest)));
    }
    if take(source, tokens, PunctKind::RightBrace).is_some() {
        return Ok(None);
    }
    let (statement, height, rest) = substatement(source, left, LIMIT, tokens)?;
    let tree = boxed(source, Item::Statement(Box::into_inner(statement)))?;
    Ok(Some((tree, height, rest)))
}

/// Declarations and statements, and their height.
#[cycle(statements)]
fn items(source: Source, left: u8, tokens: &[Token]) -> Result<(Vec<Item>, u8, &[Token]), ReadError>
    ensures { Reads (λ x. (map view_item x.0.items, leaves_of source.count x.2.now))
        (λ x. IsHeight 64 (height_items (items_of (map view_item x.0.items))) x.1) result
        (many (item_at (within 64 left)) (leaves_of source.count tokens.now)) }
{
    let mut all = Vec::new(source.alloc);
    let mut height = 0;
    let mut rest = tokens;
    for _ in 0..tokens.len() {
        let Some((item, tall, after)) = item(source, left, rest)? else {
            return Ok((all, height, rest));
        };
        add(&mut all, item)?;
        height = higher(height, tall);
        rest = after;
    }
    Ok((all, height, rest))
}

/// A compound statement (6.8.2), its height and the tokens after it.
#[cycle(statements)]
#[tactic(auto, using(crate::proofs::Lists::items_map), unfolding(ec_parse_laws::specs::Reading::compound_by))]
pub fn compound(
    source: Source,
    left: u8,
    room: u8,
    tokens: &[Token],
) -> Result<(Compound, u8, &[Token]), ReadError>
    requires { room ≤ 64 }
    ensures { Reads (λ x. (view_compound x.0, leaves_of source.count x.2.now))
        (λ x. IsNodeHeight room (height_compound (view_compound x.0)) x.1) result
        (compound_by (within 64 left) room (leaves_of source.count tokens.now)) }
{
    let (opening, rest) = expect(source, tokens, PunctKind::LeftBrace)?;
    let (pragmas, rest) = pragmas(source, rest)?;
    let (items, below, rest) = items(source, left, rest)?;
    let (closing, rest) = expect(source, rest, PunctKind::RightBrace)?;
    let height = ended(source, room, below, rest)?;
    let tree = Compound {
        opening,
        pragmas,
        items,
        closing,
    };
    Ok((tree, height, rest))
}

// Statements.

/// The statement in a box of its own, with its height.
fn stated(
    source: Source,
    tree: Statement,
    height: u8,
    tokens: &[Token],
) -> Result<(Box<Statement>, u8, &[Token]), ReadError>
    requires { height ≡ height_statement (view_statement tree) }
    ensures { Reads (λ x. (view_statement x.0.value, leaves_of source.count x.2.now))
        (λ x. IsKnownHeight height (height_statement (view_statement x.0.value)) x.1) result
        (made (view_statement tree) (leaves_of source.count tokens.now)) }
{
    let tree = boxed(source, tree)?;
    Ok((tree, height, tokens))
}

/// The same, where the parts have such a height, and the statement may end before these tokens.
fn finished(
    source: Source,
    room: u8,
    below: u8,
    tree: Statement,
    tokens: &[Token],
) -> Result<(Box<Statement>, u8, &[Token]), ReadError>
    requires { HasHeightAbove (height_statement (view_statement tree)) below }
    ensures { Reads (λ x. (view_statement x.0.value, leaves_of source.count x.2.now))
        (λ x. IsNodeHeight room (height_statement (view_statement x.0.value)) x.1) result
        (ends room (height_statement (view_statement tree)) (view_statement tree)
        (leaves_of source.count tokens.now)) }
{
    let height = ended(source, room, below, tokens)?;
    stated(source, tree, height, tokens)
}

/// A statement inside another one.
#[cycle(statements)]
fn substatement(
    source: Source,
    left: u8,
    room: u8,
    tokens: &[Token],
) -> Result<(Box<Statement>, u8, &[Token]), ReadError>
    requires { room ≤ 64 }
    ensures { Reads (λ x. (view_statement x.0.value, leaves_of source.count x.2.now))
        (λ x. IsNodeHeight room (height_statement (view_statement x.0.value)) x.1) result
        (substatement (within 64 left) room (leaves_of source.count tokens.now)) }
{
    let left = begun_statement(source, left, tokens)?;
    statement(source, left, room, tokens)
}

/// A selection statement (6.8.4.1): an `else` belongs to the `if` right before it.
#[cycle(statements)]
#[tactic(auto, unfolding(ec_parse_laws::specs::Reading::if_by, ec_parse_laws::specs::Reading::else_by))]
fn selection(
    source: Source,
    left: u8,
    room: u8,
    word: Spot,
    tokens: &[Token],
) -> Result<(Box<Statement>, u8, &[Token]), ReadError>
    requires { room ≤ 64 }
    ensures { Reads (λ x. (view_statement x.0.value, leaves_of source.count x.2.now))
        (λ x. IsNodeHeight room (height_statement (view_statement x.0.value)) x.1) result
        (if_by (within 64 left) room word (leaves_of source.count tokens.now)) }
{
    let (test, test_height, rest) = condition(source, left, tokens)?;
    let last = room_behind(room, test_height);
    let (first, height, rest) = substatement(source, left, last, rest)?;
    let below = higher(test_height, height);
    let Some((other, rest)) = take_word(source, rest, WordKind::Else) else {
        let tree = Statement::If(word, test, first);
        return stated(source, tree, below + 1, rest);
    };
    let last = room_behind(room, below);
    let (second, height, rest) = substatement(source, left, last, rest)?;
    let tree = Statement::IfElse(word, test, first, other, second);
    stated(source, tree, higher(below, height) + 1, rest)
}

/// A `while` (6.8.5.1).
#[cycle(statements)]
#[tactic(auto, unfolding(ec_parse_laws::specs::Reading::while_by))]
fn loop_while(
    source: Source,
    left: u8,
    room: u8,
    word: Spot,
    tokens: &[Token],
) -> Result<(Box<Statement>, u8, &[Token]), ReadError>
    requires { room ≤ 64 }
    ensures { Reads (λ x. (view_statement x.0.value, leaves_of source.count x.2.now))
        (λ x. IsNodeHeight room (height_statement (view_statement x.0.value)) x.1) result
        (while_by (within 64 left) room word (leaves_of source.count tokens.now)) }
{
    let (test, below, rest) = condition(source, left, tokens)?;
    let last = room_behind(room, below);
    let (body, height, rest) = substatement(source, left, last, rest)?;
    let tree = Statement::While(word, test, body);
    stated(source, tree, higher(below, height) + 1, rest)
}

/// A `for` (6.8.5.3).
#[cycle(statements)]
#[tactic(auto, unfolding(ec_parse_laws::specs::Reading::for_by))]
fn loop_for(
    source: Source,
    left: u8,
    room: u8,
    word: Spot,
    tokens: &[Token],
) -> Result<(Box<Statement>, u8, &[Token]), ReadError>
    requires { room ≤ 64 }
    ensures { Reads (λ x. (view_statement x.0.value, leaves_of source.count x.2.now))
        (λ x. IsNodeHeight room (height_statement (view_statement x.0.value)) x.1) result
        (for_by (within 64 left) room word (leaves_of source.count tokens.now)) }
{
    let (heading, below, rest) = heading(source, left, tokens)?;
    let last = room_behind(room, below);
    let (body, height, rest) = substatement(source, left, last, rest)?;
    let tree = Statement::For(word, heading, body);
    stated(source, tree, higher(below, height) + 1, rest)
}

/// What follows the body of a `do`: the word, the condition, the semicolon and the condition's height.
fn again(
    source: Source,
    left: u8,
    tokens: &[Token],
) -> Result<(Spot, Box<Condition>, Spot, u8, &[Token]), ReadError>
    ensures { Reads (λ x. ((x.0, view_condition x.1.value, x.2), leaves_of source.count x.4.now))
        (λ x. IsHeight 64 (height_condition (view_condition x.1.value)) x.3) result
        (again_by (within 64 left) (leaves_of source.count tokens.now)) }
{
    let (word, rest) = expect_word(source, tokens, WordKind::While)?;
    let (test, height, rest) = condition(source, left, rest)?;
    let (semicolon, rest) = expect(source, rest, PunctKind::Semicolon)?;
    Ok((word, test, semicolon, height, rest))
}

/// A `do` whose body stands before the tokens.
fn do_end(
    source: Source,
    left: u8,
    room: u8,
    word: Spot,
    body: Box<Statement>,
    body_height: u8,
    tokens: &[Token],
) -> Result<(Box<Statement>, u8, &[Token]), ReadError>
    requires { IsHeight 64 (height_statement (view_statement body.value)) body_height }
    ensures { Reads (λ x. (view_statement x.0.value, leaves_of source.count x.2.now))
        (λ x. IsNodeHeight room (height_statement (view_statement x.0.value)) x.1) result
        (do_after (within 64 left) room word (view_statement body.value) (leaves_of source.count tokens.now)) }
{
    let (again, test, semicolon, test_height, rest) = again(source, left, tokens)?;
    let tree = Statement::Do(word, body, again, test, semicolon);
    finished(source, room, higher(body_height, test_height), tree, rest)
}

/// A `do` (6.8.5.2).
#[cycle(statements)]
#[tactic(auto, unfolding(ec_parse_laws::specs::Reading::do_by))]
fn loop_do(
    source: Source,
    left: u8,
    room: u8,
    word: Spot,
    tokens: &[Token],
) -> Result<(Box<Statement>, u8, &[Token]), ReadError>
    requires { room ≤ 64 }
    ensures { Reads (λ x. (view_statement x.0.value, leaves_of source.count x.2.now))
        (λ x. IsNodeHeight room (height_statement (view_statement x.0.value)) x.1) result
        (do_by (within 64 left) room word (leaves_of source.count tokens.now)) }
{
    let (body, height, rest) = substatement(source, left, LIMIT, tokens)?;
    do_end(source, left, room, word, body, height, rest)
}

/// A `break`, a `continue` or a `return` (6.8.6).
#[tactic(auto, unfolding(ec_parse_laws::specs::Reading::return_by))]
fn jumped(
    source: Source,
    left: u8,
    room: u8,
    word: Spot,
    jump: Jump,
    tokens: &[Token],
) -> Result<(Box<Statement>, u8, &[Token]), ReadError>
    requires { room ≤ 64 }
    ensures { Reads (λ x. (view_statement x.0.value, leaves_of source.count x.2.now))
        (λ x. IsNodeHeight room (height_statement (view_statement x.0.value)) x.1) result
        (worded_by (within 64 left) room word (view_jump jump) (leaves_of source.count tokens.now)) }
{
    match jump {
        Jump::Break => {
            let (semicolon, rest) = expect(source, tokens, PunctKind::Semicolon)?;
            finished(source, room, 0, Statement::Break(word, semicolon), rest)
        }
        Jump::Continue => {
            let (semicolon, rest) = expect(source, tokens, PunctKind::Semicolon)?;
            finished(source, room, 0, Statement::Continue(word, semicolon), rest)
        }
        Jump::Return => {
            let (value, semicolon, below, rest) = optional(
                source,
                left,
                PunctKind::Semicolon,
                tokens,
            )?;
            let tree = Statement::Return(word, value, semicolon);
            finished(source, room, below, tree, rest)
        }
    }
}

/// The compound statement, which is of such a height, as a statement in a box of its own.
fn blocked(
    source: Source,
    compound: Compound,
    height: u8,
    tokens: &[Token],
) -> Result<(Box<Statement>, u8, &[Token]), ReadError>
    requires { height ≡ height_compound (view_compound compound) }
    ensures { Reads (λ x. (view_statement x.0.value, leaves_of source.count x.2.now))
        (λ x. IsKnownHeight height (height_statement (view_statement x.0.value)) x.1) result
        (made (t.block (view_compound compound)) (leaves_of source.count tokens.now)) }
{
    let tree = boxed(source, Statement::Compound(compound))?;
    Ok((tree, height, tokens))
}

/// A statement that has begun (6.8): a word tells its kind, or it is a compound statement, an expression or none.
#[cycle(statements)]
#[tactic(auto, unfolding(ec_parse_laws::specs::Reading::statement_by, ec_parse_laws::specs::Reading::simple_by))]
fn statement(
    source: Source,
    left: u8,
    room: u8,
    tokens: &[Token],
) -> Result<(Box<Statement>, u8, &[Token]), ReadError>
    requires { room ≤ 64 }
    ensures { Reads (λ x. (view_statement x.0.value, leaves_of source.count x.2.now))
        (λ x. IsNodeHeight room (height_statement (view_statement x.0.value)) x.1) result
        (statement_by (within 64 left) room (leaves_of source.count tokens.now)) }
{
    if let Some((word, keyword, rest)) = take_keyword(source, tokens) {
        return match keyword {
            Keyword::If => selection(source, left, room, word, rest),
            Keyword::While => loop_while(source, left, room, word, rest),
            Keyword::Do => loop_do(source, left, room, word, rest),
            Keyword::For => loop_for(source, left, room, word, rest),
            Keyword::Jump(jump) => jumped(source, left, room, word, jump, rest),
        };
    }
    if take(source, tokens, PunctKind::LeftBrace).is_some() {
        let (compound, height, rest) = compound(source, left, room, tokens)?;
        return blocked(source, compound, height, rest);
    }
    let (value, semicolon, below, rest) = optional(source, left, PunctKind::Semicolon, tokens)?;
    let tree = Statement::Simple(value, semicolon);
    finished(source, room, below, tree, rest)
}
