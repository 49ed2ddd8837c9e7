//! A law: of the ports of a map a program depends on their names and widths, on the names of the groups, and on the names
//! of the dynamic groups and the groups of their choices, alone.
//!
//! Each lemma of `proofs/` says it of one definition of the checker, and follows that clause by clause.
#![tactic(auto)]

ghost use Rattle.ec_check_ports.specs.Ports.{ProgramsGoByNames};

/// Units have one program, or none, by two tables whose ports have the same names and widths in one order, whose groups
/// have the same names, and whose dynamic groups have the same names and choose from the same groups in one order. So the
/// room of a table's lists counts for nothing.
pub fn programs_go_by_names()
    ensures { ProgramsGoByNames }
{}
