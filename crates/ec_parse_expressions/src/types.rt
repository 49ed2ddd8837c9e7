//! Specifiers and type names (ISO/IEC 9899:1999, 6.7.1 to 6.7.3, 6.7.5.1 and 6.7.6).
ghost use Rattle.std.specs.Prelude.{◌≡◌, map};
ghost use Rattle.ec_grammar.specs.Views.{view_star, view_spec, view_specs, view_type_name};
ghost use Rattle.ec_parse_laws.specs.Reading.{many, qualifier_at, star_at, spec_at, specs_by, type_name_by};
ghost use Rattle.ec_parse_tokens.specs.Reads.{leaves_of, Gives, GivesAt};

use ec_grammar::{PunctKind, Qualifier, Spec, Specs, Star, Token, TypeName, WordKind};
use ec_parse_tokens::{
    ReadError, Source, boxed, expect_name, take, take_qualifier, take_spec_word, take_word,
    unexpected,
};

fn qualifier(source: Source, tokens: &[Token]) -> Result<Option<(Qualifier, &[Token])>, ReadError>
    ensures { GivesAt (λ x. (x.0, leaves_of source.count x.1.now)) result
        (qualifier_at (leaves_of source.count tokens.now)) }
{
    let Some((spot, word, rest)) = take_qualifier(source, tokens) else {
        return Ok(None);
    };
    Ok(Some((Qualifier { spot, word }, rest)))
}

#[tactic(auto, using(crate::proofs::Many::loops))]
fn qualifiers(source: Source, tokens: &[Token]) -> Result<(Vec<Qualifier>, &[Token]), ReadError>
    ensures { Gives (λ x. (x.0.items, leaves_of source.count x.1.now)) result
        (many qualifier_at (leaves_of source.count tokens.now)) }
{
    let mut all = Vec::new(source.alloc);
    let mut rest = tokens;
    for _ in 0..tokens.len() {
        let Some((item, after)) = qualifier(source, rest)? else {
            return Ok((all, rest));
        };
        all.push(item)?;
        rest = after;
    }
    Ok((all, rest))
}

#[tactic(auto, unfolding(ec_parse_laws::specs::Reading::star_at))]
fn star(source: Source, tokens: &[Token]) -> Result<Option<(Star, &[Token])>, ReadError>
    ensures { GivesAt (λ x. (view_star x.0, leaves_of source.count x.1.now)) result
        (star_at (leaves_of source.count tokens.now)) }
{
    let Some((spot, rest)) = take(source, tokens, PunctKind::Star) else {
        return Ok(None);
    };
    let (qualifiers, rest) = qualifiers(source, rest)?;
    Ok(Some((Star { spot, qualifiers }, rest)))
}

/// Stars and their qualifiers, as many as there are.
#[tactic(auto, using(crate::proofs::Many::loops))]
pub fn stars(source: Source, tokens: &[Token]) -> Result<(Vec<Star>, &[Token]), ReadError>
    ensures { Gives (λ x. (map view_star x.0.items, leaves_of source.count x.1.now)) result
        (many star_at (leaves_of source.count tokens.now)) }
{
    let mut all = Vec::new(source.alloc);
    let mut rest = tokens;
    for _ in 0..tokens.len() {
        let Some((item, after)) = star(source, rest)? else {
            return Ok((all, rest));
        };
        all.push(item)?;
        rest = after;
    }
    Ok((all, rest))
}

#[tactic(auto, unfolding(ec_parse_laws::specs::Reading::spec_at))]
fn spec(source: Source, tokens: &[Token]) -> Result<Option<(Spec, &[Token])>, ReadError>
    ensures { GivesAt (λ x. (view_spec x.0, leaves_of source.count x.1.now)) result
        (spec_at (leaves_of source.count tokens.now)) }
{
    if let Some((spot, word, rest)) = take_spec_word(source, tokens) {
        return Ok(Some((Spec::Word(spot, word), rest)));
    }
    let Some((spot, rest)) = take_word(source, tokens, WordKind::Struct) else {
        return Ok(None);
    };
    let (tag, rest) = expect_name(source, rest)?;
    Ok(Some((Spec::Struct(spot, tag), rest)))
}

#[tactic(auto, using(crate::proofs::Many::loops))]
fn more_specs(source: Source, tokens: &[Token]) -> Result<(Vec<Spec>, &[Token]), ReadError>
    ensures { Gives (λ x. (map view_spec x.0.items, leaves_of source.count x.1.now)) result
        (many spec_at (leaves_of source.count tokens.now)) }
{
    let mut all = Vec::new(source.alloc);
    let mut rest = tokens;
    for _ in 0..tokens.len() {
        let Some((item, after)) = spec(source, rest)? else {
            return Ok((all, rest));
        };
        all.push(item)?;
        rest = after;
    }
    Ok((all, rest))
}

/// The specifiers of a declaration, of which there is one at least (6.7).
#[tactic(auto, unfolding(ec_parse_laws::specs::Reading::specs_by))]
pub fn specs(source: Source, tokens: &[Token]) -> Result<(Box<Specs>, &[Token]), ReadError>
    ensures { Gives (λ x. (view_specs x.0.value, leaves_of source.count x.1.now)) result
        (specs_by (leaves_of source.count tokens.now)) }
{
    let Some((first, rest)) = spec(source, tokens)? else {
        return Err(unexpected(source, tokens));
    };
    let (more, rest) = more_specs(source, rest)?;
    let all = boxed(source, Specs { first, more })?;
    Ok((all, rest))
}

/// A type name (6.7.6).
#[tactic(auto, unfolding(ec_parse_laws::specs::Reading::type_name_by))]
pub fn type_name(source: Source, tokens: &[Token]) -> Result<(Box<TypeName>, &[Token]), ReadError>
    ensures { Gives (λ x. (view_type_name x.0.value, leaves_of source.count x.1.now)) result
        (type_name_by (leaves_of source.count tokens.now)) }
{
    let (specs, rest) = specs(source, tokens)?;
    let (stars, rest) = stars(source, rest)?;
    let specs = Box::into_inner(specs);
    let ty = boxed(source, TypeName { specs, stars })?;
    Ok((ty, rest))
}
