//! Small parts of the check of units: a `main` of another form than `int main(void)` (ISO/IEC 9899:1999, 5.1.2.2.1), and
//! what is told of a fault.
ghost use Rattle.std.specs.Prelude.{◌≡◌, option_map};
ghost use Rattle.ec_core.specs.Operators.{same_type};
ghost use Rattle.ec_core.specs.Plain.{plain_type};
ghost use Rattle.ec_core.specs.Typing.{int};
ghost use Rattle.ec_check_declarations.specs.Mains.{is_other_result, is_static, is_other_form};

use ec_check_names::StorageWord;
use ec_check_operands::Fault;
use ec_core::CType;

/// What is told of a fault: its unit, by number from 0, the index of the token where it is told, and its rule, from 1 to
/// 40.
#[derive(Clone, Copy)]
pub struct UnitFault {
    pub unit: u8,
    pub token: u32,
    pub rule: u8,
}

/// What is told of a fault of a unit.
pub fn told_of(unit: u8, fault: Fault) -> UnitFault
    ensures { result ≡ record { unit = unit; token = fault.at; rule = fault.rule } }
{
    UnitFault {
        unit,
        token: fault.at,
        rule: fault.rule,
    }
}

fn is_int(ty: &CType) -> bool
    ensures { result ≡ same_type (plain_type ty.now) int }
{
    matches!(
        ty,
        CType::Int {
            signed: true,
            bytes: 2
        }
    )
}

fn is_other_result(ty: &Option<CType>) -> bool
    ensures { result ≡ is_other_result (option_map plain_type ty.now) }
{
    match ty {
        None => false,
        Some(ty) => !is_int(ty),
    }
}

fn is_static(word: Option<StorageWord>) -> bool
    ensures { result ≡ is_static word }
{
    match word {
        None | Some(StorageWord::Extern) => false,
        Some(StorageWord::Static) => true,
    }
}

/// Whether a function is of another form than `int main(void)` without `static`: by its storage word, its result, if that
/// breaks no rule, and whether it has parameters.
pub fn is_other_form(word: Option<StorageWord>, returns: &Option<CType>, params: bool) -> bool
    ensures { result ≡ is_other_form word (option_map plain_type returns.now) params }
{
    is_other_result(returns) || params || is_static(word)
}
