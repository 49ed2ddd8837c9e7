//! What is known at a place of a unit.
use ec_check_names::{Names, Tags};
use ec_check_operands::Modes;
use ec_core::StructDef;
use ec_iohw::IoTable;
use ec_space::Seq;

/// What is known at a place of a unit.
#[derive(Clone, Copy)]
pub struct Known<'a> {
    pub names: &'a Names,
    pub tags: &'a Tags,
    /// The structs of the program so far.
    pub structs: &'a Seq<StructDef>,
    pub ports: &'a IoTable,
    pub modes: Modes,
}
