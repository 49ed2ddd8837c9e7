//! The laws of the lowering: each function proves one, and does nothing.
ghost use Rattle.ec_lower_code.specs.Correct.{LoweredFollows, LoweredIsMadeOf, OperationsStayOnPorts};

/// The operations of a program reach all that it shows, within its work, and stay within it.
pub fn lowered_follows()
    ensures { LoweredFollows }
{}

/// The operations of a program keep their rules: each label stands once, temporaries have the places that the
/// program's expressions need, functions call what the program's call, and the words are within the program's weight.
pub fn lowered_is_made_of_its_program()
    ensures { LoweredIsMadeOf }
{}

/// The operations of a program that read and write ports have all bytes of these at 0xFF or below.
pub fn operations_stay_on_ports()
    ensures { OperationsStayOnPorts }
{}
