//! The limit of nesting, which is this translator's own (ISO/IEC 9899:1999, 5.2.4.1, leaves such limits to it): 64
//! constructs open at once, and expressions, initialisers and statements of height 64.
ghost use Rattle.std.specs.Prelude.{◌≡◌, ◌+◌, ◌<◌, ◌≤◌, ◌⊎◌, max};
ghost use Rattle.ec_parse_laws.specs.Reading.{room_after, starts_lexeme, starts_statement, is_brace};
ghost use Rattle.ec_parse_tokens.specs.Reads.{leaves_of, Opens, BeginsIf, Begins, Ends, IsTooLong};

use crate::stop::ReadError;
use crate::tokens::{Source, begins_body, begins_expression, begins_statement, unexpected};
use ec_grammar::Token;

/// How many constructs may be open at once, and the greatest height that is accepted.
pub const LIMIT: u8 = 64;

/// More parts than a chain that is accepted has.
pub const CHAIN: u8 = LIMIT + 2;

/// How many constructs may be opened inside one that the token before opens, where so many are left.
#[tactic(auto, using(crate::proofs::Depths::depths), unfolding(ec_parse_laws::specs::Reading::opened_at))]
pub fn opened(source: Source, left: u8, tokens: &[Token]) -> Result<u8, ReadError>
    ensures { Opens left result (leaves_of source.count tokens.now) }
{
    if left == 0 {
        return Err(ReadError::TooDeep(tokens.len() + 1));
    }
    Ok(left - 1)
}

/// The same where the first token opens it, if a construct can begin with that token.
#[tactic(auto, using(crate::proofs::Depths::depths), unfolding(ec_parse_laws::specs::Reading::opened_at))]
fn begun(source: Source, left: u8, starts: bool, tokens: &[Token]) -> Result<u8, ReadError>
    ensures { BeginsIf starts left result (leaves_of source.count tokens.now) }
{
    if left > 0 {
        return Ok(left - 1);
    }
    if starts {
        return Err(ReadError::TooDeep(tokens.len()));
    }
    Err(unexpected(source, tokens))
}

/// How many constructs may be opened inside the right side that begins here.
pub fn begun_expression(source: Source, left: u8, tokens: &[Token]) -> Result<u8, ReadError>
    ensures { Begins starts_lexeme left result (leaves_of source.count tokens.now) }
{
    begun(source, left, begins_expression(source, tokens), tokens)
}

/// How many constructs may be opened inside the statement that begins here.
pub fn begun_statement(source: Source, left: u8, tokens: &[Token]) -> Result<u8, ReadError>
    ensures { Begins starts_statement left result (leaves_of source.count tokens.now) }
{
    begun(source, left, begins_statement(source, tokens), tokens)
}

/// How many constructs may be opened inside the body that begins here.
pub fn begun_body(source: Source, left: u8, tokens: &[Token]) -> Result<u8, ReadError>
    ensures { Begins is_brace left result (leaves_of source.count tokens.now) }
{
    begun(source, left, begins_body(source, tokens), tokens)
}

/// A chain has more parts before these tokens than any that is accepted.
#[tactic(auto, using(crate::proofs::Leaves::length_leaves))]
pub fn too_long(source: Source, tokens: &[Token]) -> ReadError
    ensures { IsTooLong result (leaves_of source.count tokens.now) }
{
    ReadError::TooDeep(tokens.len())
}

/// The greater of two heights.
pub fn higher(first: u8, second: u8) -> u8
    ensures { result ≡ max first second }
{
    if first < second { second } else { first }
}

/// The room of what stands last in a node, behind parts of such a height.
pub fn room_behind(room: u8, height: u8) -> u8
    ensures room { result ≡ room_after room height }
    ensures behind { (result ≡ 0) ⊎ ((height < room) × (result + 1 ≡ room)) }
    ensures within { result ≤ room }
{
    if height < room { room - 1 } else { 0 }
}

/// The height of a node whose parts have such a height, where it may end before these tokens.
#[tactic(auto, using(crate::proofs::Depths::depths))]
pub fn ended(source: Source, room: u8, below: u8, tokens: &[Token]) -> Result<u8, ReadError>
    requires { below ≤ 64 }
    ensures { Ends room below result (leaves_of source.count tokens.now) }
{
    let height = below + 1;
    if room < height {
        return Err(ReadError::TooDeep(tokens.len() + 1));
    }
    Ok(height)
}
