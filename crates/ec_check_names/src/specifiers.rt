//! What the specifiers of a declaration say (ISO/IEC 9899:1999, 6.7.1 and 6.7.2), and the rules that they can break.
ghost use Rattle.std.specs.Prelude.{◌≡◌, List, map};
ghost use Rattle.ec_check_operands.specs.Faults.{Judgement, all_judged};
ghost use Rattle.ec_grammar.specs.Views.{view_spec, view_specs};
ghost use Rattle.ec_check_names.specs.Specifiers.{storage_word, no_storage, first_storage, with_storage, with_spec_storage};
ghost use Rattle.ec_check_names.specs.Specifiers.{storages_from, storages_of, no_type_words, with_lone, with_type_word};
ghost use Rattle.ec_check_names.specs.Specifiers.{struct_type, names_type, lone_of, base_of, at_void, void_at, nothing_said};
ghost use Rattle.ec_check_names.specs.Specifiers.{with_spec, specified_from, specified, with_spec_quality, spec_rules};
ghost use Rattle.ec_check_names.specs.Specifiers.{more_spec_rules, breaks_type_words, specs_rules};
ghost use Rattle.ec_check_names.specs.Tags.{plain_tags};

use crate::qualifiers::{Qualities, judge_quality};
use crate::tags::{TagState, Tags};
use crate::words::{BaseType, Times, Words, lone_type};
use ec_check_operands::Faults;
use ec_check_trees::first_spec;
use ec_grammar::{Spec, Specs, WordKind};

/// A storage-class specifier (6.7.1).
#[derive(Clone, Copy, Debug, PartialEq, Eq)]
pub enum StorageWord {
    Extern,
    Static,
}

/// A storage word, and the index of its token.
#[derive(Clone, Copy, Debug)]
pub struct Storage {
    pub at: u32,
    pub word: StorageWord,
}

/// The first storage word of a list of specifiers, and how often storage words stand there.
#[derive(Clone, Copy, Debug)]
pub struct Storages {
    pub first: Option<Storage>,
    pub times: Times,
}

fn storage_word(word: WordKind) -> Option<StorageWord>
    ensures { result ≡ storage_word word }
{
    match word {
        WordKind::Extern => Some(StorageWord::Extern),
        WordKind::Static => Some(StorageWord::Static),
        _ => None,
    }
}

fn first_storage(before: Option<Storage>, at: u32, word: StorageWord) -> Option<Storage>
    ensures { result ≡ first_storage before at word }
{
    match before {
        Some(first) => Some(first),
        None => Some(Storage { at, word }),
    }
}

impl Storages {
    fn none() -> Storages
        ensures { result ≡ no_storage }
    {
        Storages {
            first: None,
            times: Times::Never,
        }
    }

    fn with_storage(self, at: u32, word: Option<StorageWord>) -> Storages
        ensures { result ≡ with_storage self at word }
    {
        match word {
            None => self,
            Some(word) => Storages {
                first: first_storage(self.first, at, word),
                times: self.times.again(),
            },
        }
    }

    fn with(self, spec: &Spec) -> Storages
        ensures { result ≡ with_spec_storage self (view_spec spec.now) }
    {
        match spec {
            Spec::Word(spot, word) => self.with_storage(spot.index, storage_word(*word)),
            Spec::Struct(_, _) => self,
        }
    }

    fn with_all(self, specs: &[Spec]) -> Storages
        ensures { result ≡ storages_from self (map view_spec specs.now) }
    {
        let mut said = self;
        for spec in specs {
            said = said.with(spec);
        }
        said
    }
}

/// The first storage word of specifiers, and how often storage words stand there.
pub fn storages_of(specs: &Specs) -> Storages
    ensures { result ≡ storages_of (view_specs specs.now) }
{
    Storages::none().with(&specs.first).with_all(&specs.more)
}

/// A specifier that names a type alone, and the index of its first token.
#[derive(Clone, Copy, Debug)]
pub struct Lone {
    pub at: u32,
    /// None for a struct that is not defined, or whose definition breaks a rule.
    pub ty: Option<BaseType>,
}

/// The specifiers of a list that name a type (6.7.2).
#[derive(Clone, Copy, Debug)]
pub struct TypeWords {
    /// Those that name it together.
    pub words: Words,
    /// How often one stands that names a type alone.
    pub lones: Times,
    /// The last of these.
    pub lone: Option<Lone>,
}

fn struct_type(state: TagState) -> Option<BaseType>
    ensures { result ≡ struct_type state }
{
    match state {
        TagState::Undefined | TagState::Broken => None,
        TagState::Struct(index) => Some(BaseType::Struct(index)),
    }
}

fn lone_of(lone: Option<Lone>) -> Option<BaseType>
    ensures { result ≡ lone_of lone }
{
    match lone {
        None => None,
        Some(lone) => lone.ty,
    }
}

fn at_void(ty: Option<BaseType>, lone: Option<Lone>) -> Option<u32>
    ensures { result ≡ at_void ty lone }
{
    match ty {
        Some(BaseType::Void) => match lone {
            Some(lone) => Some(lone.at),
            None => None,
        },
        _ => None,
    }
}

impl TypeWords {
    fn none() -> TypeWords
        ensures { result ≡ no_type_words }
    {
        TypeWords {
            words: Words::none(),
            lones: Times::Never,
            lone: None,
        }
    }

    fn with_lone(self, at: u32, ty: Option<BaseType>) -> TypeWords
        ensures { result ≡ with_lone self at ty }
    {
        TypeWords {
            words: self.words,
            lones: self.lones.again(),
            lone: Some(Lone { at, ty }),
        }
    }

    fn with_word(self, at: u32, word: WordKind) -> TypeWords
        ensures { result ≡ with_type_word self at word }
    {
        match lone_type(word) {
            Some(ty) => self.with_lone(at, Some(ty)),
            None => TypeWords {
                words: self.words.with(word),
                lones: self.lones,
                lone: self.lone,
            },
        }
    }

    /// Whether they name a type: one of the lists of 6.7.2, or a struct, be it defined or not.
    pub fn names_type(self) -> bool
        ensures { result ≡ names_type self }
    {
        match self.lones {
            Times::Never => self.words.number_type().is_some(),
            Times::Once => self.words.are_none(),
            Times::Often => false,
        }
    }

    /// The type that they name. There is none where they name none, or a struct that is not defined or whose definition
    /// breaks a rule.
    pub fn base(self) -> Option<BaseType>
        ensures { result ≡ base_of self }
    {
        match self.lones {
            Times::Never => match self.words.number_type() {
                Some(number) => Some(BaseType::Number(number)),
                None => None,
            },
            Times::Once => {
                if self.words.are_none() {
                    lone_of(self.lone)
                } else {
                    None
                }
            }
            Times::Often => None,
        }
    }

    /// The index of the word `void`, where that is the type that they name.
    pub fn void_at(self) -> Option<u32>
        ensures { result ≡ void_at self }
    {
        at_void(self.base(), self.lone)
    }
}

/// What specifiers say of the type that they name and of its qualifiers.
#[derive(Clone, Copy, Debug)]
pub struct Specified {
    pub types: TypeWords,
    pub qualities: Qualities,
}

impl Specified {
    fn nothing() -> Specified
        ensures { result ≡ nothing_said }
    {
        Specified {
            types: TypeWords::none(),
            qualities: Qualities::none(),
        }
    }

    fn with(self, tags: &Tags, spec: &Spec) -> Specified
        ensures { result ≡ with_spec (plain_tags tags.now) self (view_spec spec.now) }
    {
        match spec {
            Spec::Word(spot, word) => Specified {
                types: self.types.with_word(spot.index, *word),
                qualities: self.qualities.with(spot.index, *word),
            },
            Spec::Struct(spot, tag) => Specified {
                types: self
                    .types
                    .with_lone(spot.index, struct_type(tags.state(&tag.name))),
                qualities: self.qualities,
            },
        }
    }

    fn with_all(self, tags: &Tags, specs: &[Spec]) -> Specified
        ensures { result ≡ specified_from (plain_tags tags.now) self (map view_spec specs.now) }
    {
        let mut said = self;
        for spec in specs {
            said = said.with(tags, spec);
        }
        said
    }
}

/// What specifiers say where these tags are known.
pub fn said_by(tags: &Tags, specs: &Specs) -> Specified
    ensures { result ≡ specified (plain_tags tags.now) (view_specs specs.now) }
{
    Specified::nothing()
        .with(tags, &specs.first)
        .with_all(tags, &specs.more)
}

fn with_spec_quality(said: Qualities, spec: &Spec) -> Qualities
    ensures { result ≡ with_spec_quality said (view_spec spec.now) }
{
    match spec {
        Spec::Word(spot, word) => said.with(spot.index, *word),
        Spec::Struct(_, _) => said,
    }
}

fn judge_spec(faults: &mut Faults, tags: &Tags, before: Qualities, konst: bool, spec: &Spec)
    ensures judged { (rest : List Judgement) → all_judged faults.new.least rest
        ≡ all_judged faults.old.least (spec_rules (plain_tags tags.now) before konst (view_spec spec.now) rest) }
{
    match spec {
        Spec::Word(spot, word) => judge_quality(faults, before, konst, spot.index, *word),
        Spec::Struct(_, tag) => {
            faults.judge(10, tags.state(&tag.name).is_undefined(), tag.spot.index);
        }
    }
}

fn judge_more(faults: &mut Faults, tags: &Tags, before: Qualities, konst: bool, specs: &[Spec])
    ensures judged { (rest : List Judgement) → all_judged faults.new.least rest
        ≡ all_judged faults.old.least
        (more_spec_rules (plain_tags tags.now) before konst (map view_spec specs.now) rest) }
{
    let mut said = before;
    for spec in specs {
        judge_spec(faults, tags, said, konst, spec);
        said = with_spec_quality(said, spec);
    }
}

fn breaks_type_words(may_store: bool, types: TypeWords, storages: Storages) -> bool
    ensures { result ≡ breaks_type_words may_store types storages }
{
    !types.names_type()
        || !storages.times.is_at_most_once()
        || !may_store && !storages.times.is_never()
}

/// Judges specifiers, and answers what they say: rule 1 at the first of them, where their words name no type, more than
/// one storage word stands, or one does where there may be none; rules 2 and 4 at a space; rule 10 at a tag that is not
/// defined.
pub fn judge_specs(faults: &mut Faults, tags: &Tags, may_store: bool, specs: &Specs) -> Specified
    ensures value { result ≡ specified (plain_tags tags.now) (view_specs specs.now) }
    ensures judged { (rest : List Judgement) → all_judged faults.new.least rest
        ≡ all_judged faults.old.least (specs_rules (plain_tags tags.now) may_store (view_specs specs.now) rest) }
{
    let all = said_by(tags, specs);
    let broken = breaks_type_words(may_store, all.types, storages_of(specs));
    faults.judge(1, broken, first_spec(&specs.first));
    let konst = all.qualities.konst;
    judge_spec(faults, tags, Qualities::none(), konst, &specs.first);
    let said = with_spec_quality(Qualities::none(), &specs.first);
    judge_more(faults, tags, said, konst, &specs.more);
    all
}
