//! Ports, their groups and the operations of `<iohw.h>` (ISO/IEC TR 18037:2008, 6).
#![tactic(auto)]

mod operations;
mod table;

pub use operations::IoOp;
pub use table::{Choice, Designator, Dynamic, IoTable, Pair, Port, PortGroup};
