//! Type words, and the types that they name (ISO/IEC 9899:1999, 6.7.2; ISO/IEC TR 18037:2008, 4.1.1).
ghost use Rattle.std.specs.Prelude.{◌≡◌};
ghost use Rattle.ec_core.specs.Plain.{plain_type};
ghost use Rattle.ec_check_names.specs.Words.{again, together, is_never, is_once, is_at_most_once, no_words, with_word};
ghost use Rattle.ec_check_names.specs.Words.{has_one_form, fract_kind, accum_kind, fixed_kind, fixed_type, has_integer_word};
ghost use Rattle.ec_check_names.specs.Words.{integer_type, number_type, are_none, integer_of, lone_type, base_type};

use ec_core::{Arithmetic, CType, FixedType, IntegerType};
use ec_fx::FxKind;
use ec_grammar::WordKind;

/// How often a word stands.
#[derive(Clone, Copy, Debug)]
pub enum Times {
    Never,
    Once,
    /// More than once.
    Often,
}

impl Times {
    /// As often, and once more.
    pub fn again(self) -> Times
        ensures { result ≡ again self }
    {
        match self {
            Times::Never => Times::Once,
            Times::Once | Times::Often => Times::Often,
        }
    }

    /// How often two words stand together.
    pub fn with(self, other: Times) -> Times
        ensures { result ≡ together self other }
    {
        match self {
            Times::Never => other,
            Times::Once => other.again(),
            Times::Often => Times::Often,
        }
    }

    pub fn is_never(self) -> bool
        ensures { result ≡ is_never self }
    {
        match self {
            Times::Never => true,
            Times::Once | Times::Often => false,
        }
    }

    pub fn is_once(self) -> bool
        ensures { result ≡ is_once self }
    {
        match self {
            Times::Once => true,
            Times::Never | Times::Often => false,
        }
    }

    pub fn is_at_most_once(self) -> bool
        ensures { result ≡ is_at_most_once self }
    {
        match self {
            Times::Never | Times::Once => true,
            Times::Often => false,
        }
    }
}

/// How often each of the type words stands that name a type together.
#[derive(Clone, Copy, Debug)]
pub struct Words {
    /// `char`
    pub character: Times,
    pub short: Times,
    pub int: Times,
    pub long: Times,
    pub signed: Times,
    pub unsigned: Times,
    /// `_Fract`
    pub fract: Times,
    /// `_Accum`
    pub accum: Times,
    /// `_Sat`
    pub sat: Times,
}

impl Words {
    /// No word stands.
    pub fn none() -> Words
        ensures { result ≡ no_words }
    {
        Words {
            character: Times::Never,
            short: Times::Never,
            int: Times::Never,
            long: Times::Never,
            signed: Times::Never,
            unsigned: Times::Never,
            fract: Times::Never,
            accum: Times::Never,
            sat: Times::Never,
        }
    }

    /// The words with one more. A word that is none of them changes nothing.
    pub fn with(mut self, word: WordKind) -> Words
        ensures { result ≡ with_word word self }
    {
        match word {
            WordKind::Char => self.character = self.character.again(),
            WordKind::Short => self.short = self.short.again(),
            WordKind::Int => self.int = self.int.again(),
            WordKind::Long => self.long = self.long.again(),
            WordKind::Signed => self.signed = self.signed.again(),
            WordKind::Unsigned => self.unsigned = self.unsigned.again(),
            WordKind::Fract => self.fract = self.fract.again(),
            WordKind::Accum => self.accum = self.accum.again(),
            WordKind::Sat => self.sat = self.sat.again(),
            _ => {}
        }
        self
    }

    fn has_one_form(self) -> bool
        ensures { result ≡ has_one_form self }
    {
        self.short.with(self.long).is_at_most_once()
            && self.signed.with(self.unsigned).is_at_most_once()
    }

    fn fixed_kind(self) -> FxKind
        ensures { result ≡ fixed_kind self }
    {
        let unsigned = self.unsigned.is_once();
        let short = self.short.is_once();
        let long = self.long.is_once();
        if self.fract.is_once() {
            fract_kind(unsigned, short, long)
        } else {
            accum_kind(unsigned, short, long)
        }
    }

    fn fixed_type(self) -> Option<Arithmetic>
        ensures { result ≡ fixed_type self }
    {
        if self.fract.with(self.accum).is_once()
            && self.character.is_never()
            && self.int.is_never()
            && self.has_one_form()
            && self.sat.is_at_most_once()
        {
            Some(Arithmetic::Fixed(FixedType {
                kind: self.fixed_kind(),
                sat: self.sat.is_once(),
            }))
        } else {
            None
        }
    }

    fn has_integer_word(self) -> bool
        ensures { result ≡ has_integer_word self }
    {
        let signs = self.signed.with(self.unsigned);
        !self
            .int
            .with(self.short.with(self.long.with(signs)))
            .is_never()
    }

    fn integer_type(self) -> Option<Arithmetic>
        ensures { result ≡ integer_type self }
    {
        if !self.sat.is_never() || !self.has_one_form() {
            return None;
        }
        let signed = self.unsigned.is_never();
        if self.character.is_once() {
            if self.int.is_never() && self.short.with(self.long).is_never() {
                return Some(Arithmetic::Integer(IntegerType { signed, bytes: 1 }));
            }
            return None;
        }
        if self.character.is_never() && self.int.is_at_most_once() && self.has_integer_word() {
            let bytes = if self.long.is_once() { 4 } else { 2 };
            return Some(Arithmetic::Integer(IntegerType { signed, bytes }));
        }
        None
    }

    /// The type that the words name together, if they name one.
    pub fn number_type(self) -> Option<Arithmetic>
        ensures { result ≡ number_type self }
    {
        if self.fract.is_never() && self.accum.is_never() {
            self.integer_type()
        } else {
            self.fixed_type()
        }
    }

    /// Whether none of the words stands.
    pub fn are_none(self) -> bool
        ensures { result ≡ are_none self }
    {
        self.character.with(self.int.with(self.sat)).is_never()
            && self.short.with(self.long).is_never()
            && self.signed.with(self.unsigned).is_never()
            && self.fract.with(self.accum).is_never()
    }
}

fn fract_kind(unsigned: bool, short: bool, long: bool) -> FxKind
    ensures { result ≡ fract_kind unsigned short long }
{
    match (unsigned, short, long) {
        (true, true, _) => FxKind::UnsignedShortFract,
        (true, false, true) => FxKind::UnsignedLongFract,
        (true, false, false) => FxKind::UnsignedFract,
        (false, true, _) => FxKind::ShortFract,
        (false, false, true) => FxKind::LongFract,
        (false, false, false) => FxKind::Fract,
    }
}

fn accum_kind(unsigned: bool, short: bool, long: bool) -> FxKind
    ensures { result ≡ accum_kind unsigned short long }
{
    match (unsigned, short, long) {
        (true, true, _) => FxKind::UnsignedShortAccum,
        (true, false, true) => FxKind::UnsignedLongAccum,
        (true, false, false) => FxKind::UnsignedAccum,
        (false, true, _) => FxKind::ShortAccum,
        (false, false, true) => FxKind::LongAccum,
        (false, false, false) => FxKind::Accum,
    }
}

/// A type that specifiers name, before stars and brackets.
#[derive(Clone, Copy, Debug, PartialEq, Eq)]
pub enum BaseType {
    Void,
    Number(Arithmetic),
    /// The struct with this place in the program's list.
    Struct(u32),
}

impl BaseType {
    /// The type itself.
    pub fn to_type(self) -> CType
        ensures { plain_type result ≡ base_type self }
    {
        match self {
            BaseType::Void => CType::Void,
            BaseType::Number(Arithmetic::Integer(t)) => CType::Int {
                signed: t.signed,
                bytes: t.bytes,
            },
            BaseType::Number(Arithmetic::Fixed(t)) => CType::Fx {
                kind: t.kind,
                sat: t.sat,
            },
            BaseType::Struct(index) => CType::Struct { index },
        }
    }
}

fn integer_of(signed: bool, bytes: u8) -> BaseType
    ensures { result ≡ integer_of signed bytes }
{
    BaseType::Number(Arithmetic::Integer(IntegerType { signed, bytes }))
}

/// The type that a word names alone: `void`, or a name of `<stdint.h>`.
pub fn lone_type(word: WordKind) -> Option<BaseType>
    ensures { result ≡ lone_type word }
{
    match word {
        WordKind::Void => Some(BaseType::Void),
        WordKind::Int8 => Some(integer_of(true, 1)),
        WordKind::Uint8 => Some(integer_of(false, 1)),
        WordKind::Int16 => Some(integer_of(true, 2)),
        WordKind::Uint16 => Some(integer_of(false, 2)),
        WordKind::Int32 => Some(integer_of(true, 4)),
        WordKind::Uint32 => Some(integer_of(false, 4)),
        _ => None,
    }
}
