//! The lowering of a program to operations: single operations appended to others, those of places, ports, calls and loops,
//! and then those of expressions, statements and whole programs.
//!
//! `lower` gives the operations of a program. What these are stands in `specs/Code.antt` of `ec_lower_code`.
//! `read_groups` tells of a table that the numbers of its pairs and the bases of its choices are bytes, which laws ask for.
#![tactic(auto)]

mod branches;
mod calls;
mod copies;
mod dynamics;
mod emit;
mod ends;
mod expressions;
mod extents;
mod loops;
mod offsets;
mod places;
mod port_operations;
mod ports;
mod program;
mod statements;
mod updates;

pub use ports::read_groups;
pub use program::{lower, operations};
