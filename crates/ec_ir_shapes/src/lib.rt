//! What operations may cost where those of one shape share their code.
//!
//! `specs/Costs.antt` defines it. The function is its law: it proves it, and does nothing.
#![tactic(auto)]

ghost use Rattle.ec_ir_shapes.specs.Costs.{CodesAreRows};

/// What the uses of a shape count grows with them, and is never more for some uses together than for each by itself.
pub fn codes_are_rows()
    ensures { CodesAreRows }
{}
