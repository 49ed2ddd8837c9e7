//! The code of routines.
ghost use Rattle.std.specs.Prelude.{◌≡◌, ◌≤◌, ◌<◌, ◌++◌, suc, OnOk, OnErr};
ghost use Rattle.ec_runs.specs.Behaviours.{BeginWith};
ghost use Rattle.ec_core.specs.Layout.{scalar_size};
ghost use Rattle.ec_core.specs.Plain.{plain_type};
ghost use Rattle.ec_select_fixed.specs.Types.{AreFixedOperands, IsFixedOperand, AreFixedConverted};
ghost use Rattle.ec_routines.specs.Routines.{routine_code};
ghost use Rattle.ec_select_routines.specs.Codes.{binary_body, unary_body, conversion_body, quotient_body};

use crate::places::{answer_place, first_place, second_place, work_place};
use ec_asm::{AsmItem, copy};
use ec_core::{BinOp, CType, UnOp};
use ec_fx::Mode;
use ec_isa::Instr;
use ec_select_fixed::{Places, fixed_binary, fixed_conversion, fixed_unary};
use ec_select_quotients::{Division, quotient};
use ec_space::{NoMemory, Seq};

/// Appends the routine, with a label, of a binary operator on operands of which one is fixed-point at least. Where
/// memory runs out, a part of it is appended.
pub fn binary_routine(
    out: &mut Seq<AsmItem>,
    label: u64,
    op: BinOp,
    ty: &CType,
    aty: &CType,
    bty: &CType,
    mode: Mode,
) -> Result<(), NoMemory>
    requires types { AreFixedOperands op (plain_type ty.now) (plain_type aty.now) (plain_type bty.now) }
    requires result_bytes { scalar_size (plain_type ty.now) ≤ 8 }
    requires left_bytes { scalar_size (plain_type aty.now) ≤ 8 }
    requires right_bytes { scalar_size (plain_type bty.now) ≤ 8 }
    ensures ok { OnOk result (out.new.items ≡ out.old.items ++ routine_code label
        (binary_body op (plain_type ty.now) (plain_type aty.now) (plain_type bty.now) mode)) }
    ensures err { OnErr result (BeginWith out.old.items out.new.items) }
{
    out.push(AsmItem::Label(label))?;
    let places = Places {
        left: first_place(),
        right: second_place(),
        to: answer_place(),
        work: work_place(),
    };
    fixed_binary(out, op, ty, aty, bty, mode, places)?;
    out.push(AsmItem::Plain(Instr::Ret))
}

/// Appends that of a unary operator on a fixed-point operand.
pub fn unary_routine(
    out: &mut Seq<AsmItem>,
    label: u64,
    op: UnOp,
    ty: &CType,
    mode: Mode,
) -> Result<(), NoMemory>
    requires types { IsFixedOperand op (plain_type ty.now) }
    requires bytes { scalar_size (plain_type ty.now) ≤ 8 }
    ensures ok { OnOk result (out.new.items ≡ out.old.items
        ++ routine_code label (unary_body op (plain_type ty.now) mode)) }
    ensures err { OnErr result (BeginWith out.old.items out.new.items) }
{
    out.push(AsmItem::Label(label))?;
    fixed_unary(
        out,
        op,
        ty,
        mode,
        first_place(),
        answer_place(),
        work_place(),
    )?;
    out.push(AsmItem::Plain(Instr::Ret))
}

/// Appends that of a conversion from or to a fixed-point type.
pub fn conversion_routine(
    out: &mut Seq<AsmItem>,
    label: u64,
    ty: &CType,
    aty: &CType,
    mode: Mode,
) -> Result<(), NoMemory>
    requires types { AreFixedConverted (plain_type ty.now) (plain_type aty.now) }
    requires result_bytes { scalar_size (plain_type ty.now) ≤ 8 }
    requires from_bytes { scalar_size (plain_type aty.now) ≤ 8 }
    ensures ok { OnOk result (out.new.items ≡ out.old.items
        ++ routine_code label (conversion_body (plain_type ty.now) (plain_type aty.now) mode)) }
    ensures err { OnErr result (BeginWith out.old.items out.new.items) }
{
    out.push(AsmItem::Label(label))?;
    fixed_conversion(
        out,
        ty,
        aty,
        mode,
        first_place(),
        answer_place(),
        work_place(),
    )?;
    out.push(AsmItem::Plain(Instr::Ret))
}

/// Appends that of a quotient or a remainder of integers of `top + 1` bytes.
pub fn quotient_routine(
    out: &mut Seq<AsmItem>,
    label: u64,
    of: Division,
    top: u8,
) -> Result<(), NoMemory>
    requires { top < 4 }
    ensures ok { OnOk result (out.new.items ≡ out.old.items
        ++ routine_code label (quotient_body of.remainder of.signed top)) }
    ensures err { OnErr result (BeginWith out.old.items out.new.items) }
{
    out.push(AsmItem::Label(label))?;
    copy(out, first_place(), answer_place(), top + 1)?;
    quotient(out, of, answer_place(), second_place(), top)?;
    out.push(AsmItem::Plain(Instr::Ret))
}
