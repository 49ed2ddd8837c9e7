//! A law: the operations of a program, counted by shapes, are within its weight by shapes.
//!
//! `specs/Laws.antt` has the statement. The function proves it, and does nothing.
#![tactic(auto)]

ghost use Rattle.ec_lower_shapes.specs.Laws.{LoweredCountsByShapes};

/// The operations of a valid program count by shapes at most what its parts do, with the rows of the program and of its
/// objects.
pub fn lowered_counts_by_shapes()
    ensures { LoweredCountsByShapes }
{}
