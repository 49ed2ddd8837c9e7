//! The tags of structs (ISO/IEC 9899:1999, 6.7.2.3).
ghost use Rattle.std.specs.Prelude.{◌≡◌, OnOk, []};
ghost use Rattle.ec_check_names.specs.Tables.{with_name};
ghost use Rattle.ec_check_names.specs.Tags.{plain_tags, state_by, tag_state, is_undefined};

use ec_space::{Name, NoMemory};
use indexmap::IndexMap;
use std::alloc::Global;

/// What a tag stands for at a place of a unit.
#[derive(Clone, Copy, Debug, PartialEq, Eq)]
pub enum TagState {
    /// No definition of it has ended.
    Undefined,
    /// Its definition breaks a rule, so there is no such struct.
    Broken,
    /// The struct with this place in the program's list.
    Struct(u32),
}

impl TagState {
    pub fn is_undefined(self) -> bool
        ensures { result ≡ is_undefined self }
    {
        match self {
            TagState::Undefined => true,
            TagState::Broken | TagState::Struct(_) => false,
        }
    }
}

/// The tags that a unit has defined so far.
#[derive(Drop)]
pub struct Tags {
    /// The struct's place in the program's list, where the definition breaks no rule.
    pub structs: IndexMap<Name, Option<u32>>,
}

fn state_by(found: Option<Option<u32>>) -> TagState
    ensures { result ≡ state_by found }
{
    match found {
        None => TagState::Undefined,
        Some(None) => TagState::Broken,
        Some(Some(index)) => TagState::Struct(index),
    }
}

impl Tags {
    /// No tag is defined.
    pub fn new(alloc: Global) -> Tags
        ensures { plain_tags result ≡ [] }
    {
        Tags {
            structs: IndexMap::new(alloc),
        }
    }

    /// What a tag stands for.
    pub fn state(&self, tag: &Name) -> TagState
        ensures { result ≡ tag_state tag.now.items (plain_tags self.now) }
    {
        state_by(self.structs.get(tag).copied())
    }

    /// Takes note of a definition that has ended: of the struct with a place in the program's list, or of one that
    /// breaks a rule. A second definition of a tag takes the place of the first.
    pub fn define(&mut self, tag: Name, index: Option<u32>) -> Result<(), NoMemory>
        ensures { OnOk result (plain_tags self.new ≡ with_name tag.items index (plain_tags self.old)) }
    {
        match self.structs.insert(tag, index) {
            Ok(_) => Ok(()),
            Err(_) => Err(NoMemory),
        }
    }
}
