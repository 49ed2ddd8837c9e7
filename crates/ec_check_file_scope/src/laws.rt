//! The laws of declarations at file scope: each function proves one, and does nothing.
ghost use Rattle.ec_check_file_scope.specs.Laws.{ConflictsAreTold, HomesAreDeclared};

use ec_core::types_are_told;

/// A declaration at file scope is told to conflict with earlier ones (rule 6) exactly where with one of these it declares
/// one name with two types, spaces, registers or linkages, or defines it twice; functions with different numbers of
/// parameters have two types, also where a parameter breaks a rule.
pub fn conflicts_are_told()
    ensures { ConflictsAreTold }
{
    types_are_told();
}

/// An object that is declared in a named space is in those spaces alone that enclose it, and one that is declared in none
/// has its home in data. So a pointer to an object that is declared `__farflash` is never one into `__flash`, wherever the
/// object stands.
pub fn homes_are_declared()
    ensures { HomesAreDeclared }
{}
