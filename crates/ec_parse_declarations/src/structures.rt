//! How definitions of structs begin and end (ISO/IEC 9899:1999, 6.7.2.1).
ghost use Rattle.ec_grammar.specs.Views.{view_identifier};
ghost use Rattle.ec_parse_laws.specs.Reading.{structure_at};
ghost use Rattle.ec_parse_tokens.specs.Reads.{leaves_of, Gives, GivesFirst};
ghost use Rattle.ec_parse_declarations.specs.Structures.{structure_end};

use ec_grammar::{Identifier, PunctKind, Spot, Token, WordKind};
use ec_parse_tokens::{ReadError, Source, expect, take, take_name, take_word};
use ec_space::NoMemory;

/// What the definition of a struct begins with: `struct`, the tag and `{`; and the tokens after it.
#[tactic(auto, unfolding(ec_parse_laws::specs::Reading::structure_at))]
pub fn structure_head(
    source: Source,
    tokens: &[Token],
) -> Result<Option<(Spot, Identifier, Spot, &[Token])>, NoMemory>
    ensures { GivesFirst (λ x. (x.0, view_identifier x.1, x.2, leaves_of source.count x.3.now)) result
        (structure_at (leaves_of source.count tokens.now)) }
{
    let Some((word, rest)) = take_word(source, tokens, WordKind::Struct) else {
        return Ok(None);
    };
    let Some((tag, rest)) = take_name(source, rest)? else {
        return Ok(None);
    };
    let Some((opening, rest)) = take(source, rest, PunctKind::LeftBrace) else {
        return Ok(None);
    };
    Ok(Some((word, tag, opening, rest)))
}

/// What the definition of a struct ends with: `}` and `;`; and the tokens after them.
pub fn structure_end(source: Source, tokens: &[Token]) -> Result<(Spot, Spot, &[Token]), ReadError>
    ensures { Gives (λ x. ((x.0, x.1), leaves_of source.count x.2.now)) result
        (structure_end (leaves_of source.count tokens.now)) }
{
    let (closing, rest) = expect(source, tokens, PunctKind::RightBrace)?;
    let (semicolon, rest) = expect(source, rest, PunctKind::Semicolon)?;
    Ok((closing, semicolon, rest))
}
