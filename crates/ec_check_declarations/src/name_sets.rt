//! Names that stood before: those of members, and of parameters.
ghost use Rattle.std.specs.Prelude.{◌≡◌, ◌∷◌, ◌++◌, [], OnOk, OnErr, map};
ghost use Rattle.ec_check_declarations.specs.NameSets.{is_among, AddsName};
ghost use Rattle.ec_check_declarations.specs.Structures.{plain_member_declared, is_member};

use crate::scopes::copied_name;
use crate::structures::MemberDeclared;
use ec_space::{Name, NoMemory, Seq};
use indexmap::IndexSet;
use std::alloc::Global;
use std::marker::Model;

/// Whether one of some names is this one.
pub(crate) fn is_among(names: &IndexSet<Name>, name: &Name) -> bool
    ensures { result ≡ is_among name.now.items names.now.keys }
{
    names.contains(name)
}

fn insert(names: &mut IndexSet<Name>, name: Name) -> Result<(), NoMemory>
    ensures ok { OnOk result (AddsName name.items names.old.keys names.new.keys) }
    ensures err { OnErr result (names.new.keys ≡ names.old.keys) }
{
    match names.insert(name) {
        Ok(_) => Ok(()),
        Err(_) => Err(NoMemory),
    }
}

/// One name more, which may be there.
pub(crate) fn note_name(
    alloc: Global,
    names: &mut IndexSet<Name>,
    name: &Name,
) -> Result<(), NoMemory>
    ensures ok { OnOk result (AddsName name.now.items names.old.keys names.new.keys) }
    ensures err { OnErr result (names.new.keys ≡ names.old.keys) }
{
    let copy = copied_name(alloc, name)?;
    insert(names, copy)
}

/// The members that a definition of a struct has declared so far, in their order. Contracts see their list.
#[derive(Drop)]
pub(crate) struct Members {
    list: Seq<MemberDeclared>,
    names: IndexSet<Name>,
}

impl Model for Members {
    ghost use Rattle.std.specs.Prelude.{map};
    ghost use Rattle.ec_space.specs.Listed.{Listed, listed_code};
    ghost use Rattle.ec_check_declarations.specs.declared.structures.MemberDeclared.{MemberDeclared};
    ghost use Rattle.ec_check_declarations.specs.contracts.structures.MemberDeclared as member_declared;
    ghost use Rattle.ec_check_declarations.specs.Structures.{plain_member_declared};
    ghost use Rattle.ec_check_declarations.specs.NameSets.{AreMemberNames};

    ghost Value = { Listed MemberDeclared };

    ghost coded = { listed_code member_declared.the_row.coded };

    ghost view = { λ a. a.list };

    ghost invariant = { λ a. AreMemberNames a.names.keys (map plain_member_declared a.list.items) };
}

impl Members {
    /// There is no member.
    pub(crate) fn new(alloc: Global) -> Members
        ensures { result.items ≡ [] }
    {
        Members {
            list: Seq::new(alloc),
            names: IndexSet::new(alloc),
        }
    }

    /// Whether a member has this name.
    pub(crate) fn has(&self, name: &Name) -> bool
        ensures { result ≡ is_member name.now.items (map plain_member_declared self.now.items) }
    {
        is_among(&self.names, name)
    }

    /// One member more, behind all others.
    pub(crate) fn push(&mut self, alloc: Global, m: MemberDeclared) -> Result<(), NoMemory>
        ensures { OnOk result (self.new.items ≡ self.old.items ++ m ∷ []) }
    {
        self.list.reserve(1)?;
        note_name(alloc, &mut self.names, &m.name)?;
        self.list.push(m)
    }

    /// The members, in their order.
    pub(crate) fn as_slice(&self) -> &[MemberDeclared]
        ensures { result.now ≡ self.now.items }
    {
        self.list.as_slice()
    }
}
