//! Pieces of code for numbers of several bytes, beside those of `ec_asm`: a constant put to its place, a test whether a
//! number is 0, the bytes that a wider type has above a number, and its complement and negation; and pieces for accesses to
//! ports and cells, jumps, signs and operands that are exchanged, with the places of temporaries.
//!
//! `specs/Values.antt` and `specs/Complements.antt` have the former pieces, `specs/Laws.antt` and
//! `specs/ComplementLaws.antt` what they do; `specs/Ports.antt`, `specs/Signs.antt`, `specs/Operators.antt` and
//! `specs/Homes.antt` have the latter. R0, R1 and R30 are work registers.
#![tactic(auto)]

mod cells;
mod complements;
mod homes;
mod jumps;
pub mod laws;
mod operators;
mod ports;
mod signs;
mod values;

pub use cells::{CellAccess, load_cell, read_cell_port, store_cell, write_cell_port};
pub use complements::{complement, negate};
pub use homes::home_of_place;
pub use jumps::jump;
pub use operators::combine_before;
pub use ports::{PortAccess, read_port, write_port};
pub use signs::{cross_signs, negate_if, set_registers};
pub use values::{constant, extend, test};
