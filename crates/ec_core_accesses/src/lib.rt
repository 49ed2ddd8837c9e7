//! The laws of what a run accesses. Whatever a program reads or writes at a port is a byte of a port of its table, or of
//! a pair of one of its groups (ISO/IEC TR 18037:2008, 6). Whatever object it reads or writes is live at that moment
//! (ISO/IEC 9899:1999, 6.2.4), and its home is in the space of the access (ISO/IEC TR 18037:2008, 5.1). Each function
//! proves one, and does nothing.
//!
//! `specs/Ports.antt` tells which bytes of ports these are, and `specs/Objects.antt` which accesses of objects.
#![tactic(auto)]

ghost use Rattle.ec_core_accesses.specs.Objects.{AccessesAreLive};
ghost use Rattle.ec_core_accesses.specs.Ports.{RunsAccessPorts, SourcesAccessPorts, PortBytesPass};

/// Each byte that a run reads or writes at a port is one of the table, also where the run meets an undefined point.
pub fn runs_access_ports()
    ensures { RunsAccessPorts }
{}

/// So is each that a program shows.
pub fn sources_access_ports()
    ensures { SourcesAccessPorts }
{}

/// What holds of the bytes of all ports of a table, and of the ports of the pairs of all its groups, holds of each
/// address that is a byte of the table.
pub fn port_bytes_pass()
    ensures { PortBytesPass }
{}

/// In every state: where a leaf is read, written or initialised, its object is live in that very state, its home is in
/// the space of the access, and the event of the access is all that is added. Where it is reached through a pointer, it
/// is the instance that the pointer points into.
pub fn accesses_are_live()
    ensures { AccessesAreLive }
{}
