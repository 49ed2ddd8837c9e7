//! What is known between the external declarations of all units.
ghost use Rattle.std.specs.Prelude.{◌≡◌, OnOk, option_map, length};
ghost use Rattle.ec_iohw.specs.Valid.{ValidIo};
ghost use Rattle.ec_core.specs.Plain.{plain_object};
ghost use Rattle.ec_check_names.specs.Names.{plain_named};
ghost use Rattle.ec_check_expressions.specs.Known.{IsSound, plain_known};
ghost use Rattle.ec_check_initialisers.specs.Places.{IsNamedObject, NamesObjects};
ghost use Rattle.ec_check_file_scope.specs.FileNames.{plain_file_name};
ghost use Rattle.ec_check_file_scope.specs.FileObjects.{with_object};
ghost use Rattle.ec_check_file_scope.specs.States.{plain_setting, plain_state, known_of, with_name, broken, nothing_declared};
ghost use Rattle.ec_check_file_scope.specs.States.{in_unit, default_modes, IsSoundState};

use crate::file_names::FileName;
use crate::file_table::FileNames;
use ec_check_declarations::{Scope, copied_name};
use ec_check_expressions::Known;
use ec_check_names::{Definition, Named, Names, StructTable, Tags};
use ec_check_operands::Modes;
use ec_core::{Func, Obj};
use ec_iohw::IoTable;
use ec_space::{Name, NoMemory, Seq};
use std::alloc::Global;

/// What all external declarations of a unit know.
#[derive(Clone, Copy)]
pub struct Setting<'a> {
    /// The definitions of all units by name.
    pub definitions: &'a [Definition],
    pub ports: &'a IoTable,
    /// The unit's number.
    pub unit: u8,
}

/// What each external declaration adds to.
#[derive(Drop)]
pub struct State {
    /// The names of the unit, and the objects of the program.
    pub scope: Scope,
    pub tags: Tags,
    pub structs: StructTable,
    pub functions: Seq<Func>,
    /// The declarations at file scope, of all units.
    pub declared: FileNames,
    pub modes: Modes,
    /// Whether all that was declared so far has a meaning.
    pub whole: bool,
}

fn default_modes() -> Modes
    ensures { result ≡ default_modes }
{
    Modes {
        fract: false,
        accum: false,
    }
}

/// What expressions know at file scope.
pub fn known_of<'a>(ports: &'a IoTable, state: &'a State) -> Known<'a>
    requires io { ValidIo ports.now }
    requires sound { IsSoundState (plain_state state.now) }
    ensures value { plain_known result ≡ known_of ports.now (plain_state state.now) }
    ensures structs { result.structs.now ≡ state.now.structs }
    ensures sound { IsSound (plain_known result) }
    ensures named { NamesObjects (plain_known result) }
{
    Known {
        names: &state.scope.names,
        tags: &state.tags,
        structs: state.structs.list(),
        ports,
        modes: state.modes,
    }
}

impl State {
    /// Nothing is declared.
    pub fn new(alloc: Global) -> State
        ensures state { plain_state result ≡ nothing_declared }
        ensures sound { IsSoundState (plain_state result) }
    {
        State {
            scope: Scope {
                names: Names::new(alloc),
                objects: Seq::new(alloc),
            },
            tags: Tags::new(alloc),
            structs: StructTable::new(alloc),
            functions: Seq::new(alloc),
            declared: FileNames::new(alloc),
            modes: default_modes(),
            whole: true,
        }
    }

    /// Begins a unit, which knows no name and no tag.
    pub fn begin_unit(&mut self, alloc: Global)
        requires { IsSoundState (plain_state self.old) }
        ensures state { plain_state self.new ≡ in_unit (plain_state self.old) }
        ensures sound { IsSoundState (plain_state self.new) }
    {
        self.scope.names = Names::new(alloc);
        self.tags = Tags::new(alloc);
        self.modes = default_modes();
    }

    /// Not all that is declared has a meaning.
    pub fn break_off(&mut self)
        ensures { plain_state self.new ≡ broken (plain_state self.old) }
    {
        self.whole = false;
    }

    /// Declares a name at file scope.
    pub fn declare(
        &mut self,
        alloc: Global,
        name: &Name,
        what: Named,
        d: FileName,
    ) -> Result<(), NoMemory>
        requires sound { IsSoundState (plain_state self.old) }
        requires named { IsNamedObject (length (plain_state self.old).structs) (plain_named what) }
        ensures state { OnOk result (plain_state self.new
            ≡ with_name name.now.items (plain_named what) (plain_file_name d) (plain_state self.old)) }
        ensures sound { OnOk result (IsSoundState (plain_state self.new)) }
    {
        let Ok(name) = copied_name(alloc, name) else {
            drop((what, d));
            return Err(NoMemory);
        };
        let named = self.scope.names.declare_outside(name, what);
        self.declared.push(alloc, d)?;
        named
    }

    /// One object more of the program, if it is known, and a number of 16 bits is left for it.
    pub fn add_object(&mut self, object: Option<Obj>) -> Result<(), NoMemory>
        requires { IsSoundState (plain_state self.old) }
        ensures state { OnOk result (plain_state self.new
            ≡ with_object (option_map plain_object object) (plain_state self.old)) }
        ensures sound { OnOk result (IsSoundState (plain_state self.new)) }
    {
        let Some(object) = object else {
            self.whole = false;
            return Ok(());
        };
        if self.scope.objects.len() < 65_536 {
            self.scope.objects.push(object)
        } else {
            drop(object);
            self.whole = false;
            Ok(())
        }
    }
}
