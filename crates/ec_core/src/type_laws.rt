//! The laws of types: each function proves one, and does nothing.
ghost use Rattle.ec_core.specs.TypeLaws.{LeavesFillTheirTypes, StructsAreLaidOut, UsualConversions};

/// Operands that were converted to the types beside one another have the types that their operator asks for
/// (ISO/IEC 9899:1999, 6.3.1.8; ISO/IEC TR 18037:2008, 4.1.4).
pub fn usual_conversions()
    ensures { UsualConversions }
{}

/// A struct has the layout of its members. One more struct behind others leaves their layouts as they are.
pub fn structs_are_laid_out()
    ensures { StructsAreLaidOut }
{}

/// The leaves of a type fill its bytes in order, so that each is found by its offset and no two share a byte.
pub fn leaves_fill_their_types()
    ensures { LeavesFillTheirTypes }
{}
