//! What qualifiers say, and the rules that they can break (ISO/IEC 9899:1999, 6.7.3; ISO/IEC TR 18037:2008, 5.1.2).
ghost use Rattle.std.specs.Prelude.{◌≡◌, ◌&&◌, is_some};
ghost use Rattle.ec_check_names.specs.Qualifiers.{space_word, is_const_word, is_flash_word};
ghost use Rattle.std.specs.Prelude.{List};
ghost use Rattle.ec_check_operands.specs.Faults.{Judgement, all_judged};
ghost use Rattle.ec_check_names.specs.Qualifiers.{unqualified, first_space};
ghost use Rattle.ec_check_names.specs.Qualifiers.{with_quality, qualities_of, space_in, quality_rules, qualifier_rules};
ghost use Rattle.ec_check_names.specs.Qualifiers.{qualifier_rules_from, own_space_rules};

use ec_check_operands::Faults;
use ec_grammar::{Qualifier, WordKind};
use ec_space::SpaceId;

/// The space that a word names (ISO/IEC TR 18037:2008, 5.1.2), or None for any other word.
pub fn space_word(word: WordKind) -> Option<SpaceId>
    ensures { result ≡ space_word word }
{
    match word {
        WordKind::Flash => Some(SpaceId::Flash),
        WordKind::FarFlash => Some(SpaceId::FarFlash),
        WordKind::Data => Some(SpaceId::Data),
        _ => None,
    }
}

/// Whether a word is `const`.
pub fn is_const_word(word: WordKind) -> bool
    ensures { result ≡ is_const_word word }
{
    match word {
        WordKind::Const => true,
        _ => false,
    }
}

/// Whether a word names a space that lies in the flash: `__flash` or `__farflash`.
pub fn is_flash_word(word: WordKind) -> bool
    ensures { result ≡ is_flash_word word }
{
    match word {
        WordKind::Flash | WordKind::FarFlash => true,
        _ => false,
    }
}

/// Whether a word names a space in a list whose words before it name one or not.
pub fn is_second_space(before: bool, word: WordKind) -> bool
    ensures { result ≡ (before && is_some (space_word word)) }
{
    before && space_word(word).is_some()
}

/// A word that names a space, and the index of its token.
#[derive(Clone, Copy, Debug)]
pub struct SpaceWord {
    pub at: u32,
    pub space: SpaceId,
}

/// What a list of qualifiers says: whether it has `const`, and its first space.
#[derive(Clone, Copy, Debug)]
pub struct Qualities {
    pub konst: bool,
    pub space: Option<SpaceWord>,
}

fn first_space(before: Option<SpaceWord>, at: u32, space: Option<SpaceId>) -> Option<SpaceWord>
    ensures { result ≡ first_space before at space }
{
    match before {
        Some(first) => Some(first),
        None => match space {
            Some(space) => Some(SpaceWord { at, space }),
            None => None,
        },
    }
}

impl Qualities {
    /// Nothing is qualified.
    pub fn none() -> Qualities
        ensures { result ≡ unqualified }
    {
        Qualities {
            konst: false,
            space: None,
        }
    }

    /// What a list says with one more word, which stands at the token `at`. A word that is no qualifier says nothing.
    pub fn with(self, at: u32, word: WordKind) -> Qualities
        ensures { result ≡ with_quality self at word }
    {
        Qualities {
            konst: self.konst || is_const_word(word),
            space: first_space(self.space, at, space_word(word)),
        }
    }

    /// The space that is said, which is the generic one where none is.
    pub fn space_id(self) -> SpaceId
        ensures { result ≡ space_in self.space }
    {
        match self.space {
            Some(word) => word.space,
            None => SpaceId::Generic,
        }
    }

    /// Judges that the object, parameter, member or result that is so qualified may have a space (rule 3, told at the
    /// space).
    pub fn judge_own_space(self, faults: &mut Faults, allowed: bool)
        ensures judged { (rest : List Judgement) →
            all_judged faults.new.least rest ≡ all_judged faults.old.least (own_space_rules allowed self.space rest) }
    {
        if let Some(word) = self.space {
            faults.judge(3, !allowed, word.at);
        }
    }
}

/// What a list of qualifiers says.
pub fn qualities_of(qualifiers: &[Qualifier]) -> Qualities
    ensures { result ≡ qualities_of qualifiers.now }
{
    let mut said = Qualities::none();
    for x in qualifiers {
        said = said.with(x.spot.index, x.word);
    }
    said
}

/// Judges a word of a list that said so much before it, and that has `const` or not: a second space (rule 2), and
/// `__flash` or `__farflash` without `const` (rule 4).
pub fn judge_quality(faults: &mut Faults, before: Qualities, konst: bool, at: u32, word: WordKind)
    ensures judged { (rest : List Judgement) → all_judged faults.new.least rest
        ≡ all_judged faults.old.least (quality_rules before.space konst at word rest) }
{
    faults.judge(2, is_second_space(before.space.is_some(), word), at);
    faults.judge(4, is_flash_word(word) && !konst, at);
}

/// Judges a list of qualifiers (rules 2 and 4, each at the space), and answers what it says.
pub fn judge_qualifiers(faults: &mut Faults, qualifiers: &[Qualifier]) -> Qualities
    ensures value { result ≡ qualities_of qualifiers.now }
    ensures judged { (rest : List Judgement) →
        all_judged faults.new.least rest ≡ all_judged faults.old.least (qualifier_rules qualifiers.now rest) }
{
    let all = qualities_of(qualifiers);
    let mut said = Qualities::none();
    for x in qualifiers {
        judge_quality(faults, said, all.konst, x.spot.index, x.word);
        said = said.with(x.spot.index, x.word);
    }
    all
}
