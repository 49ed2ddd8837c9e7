//! Names, calls, sizes and constants.
ghost use Rattle.std.specs.Prelude.{◌≡◌, map, length, option_map};
ghost use Rattle.ec_core.specs.Layout.{AreStructs, IsObjectType};
ghost use Rattle.ec_core.specs.Plain.{call as call_of, plain_type, plain_struct, plain_exprs, plain_node};
ghost use Rattle.ec_check_operands.specs.Faults.{all_judged};
ghost use Rattle.ec_check_operands.specs.Operands.{plain_operand};
ghost use Rattle.ec_check_forms.specs.Calls.{is_undefined, is_undeclared, is_function, name_rules, function_rules};
ghost use Rattle.ec_check_forms.specs.Calls.{callee_rules, call_rules, called, size_value, whole_constant, fixed_constant};

use ec_check_operands::{Faults, Modes, Operand, made, valued};
use ec_core::{CType, Expr, Node, StructDef, size_of};
use ec_fx::FxKind;
use ec_space::Seq;

/// What a name means that is used where no call is.
#[derive(Clone, Copy)]
pub enum Meant {
    /// Nothing is declared by the name.
    Undeclared,
    /// An object that no unit defines.
    Undefined,
    Object,
    Function,
}

/// Judges the use of a name where no call is, which is told at the name.
pub fn judge_name(faults: &mut Faults, what: Meant, at: u32)
    ensures { faults.new.least ≡ all_judged faults.old.least (name_rules what at) }
{
    match what {
        Meant::Undeclared => faults.judge(20, true, at),
        Meant::Undefined => faults.judge(19, true, at),
        Meant::Object => {}
        Meant::Function => faults.judge(21, true, at),
    }
}

/// Judges the name of a function that is called, which is told there: whether a unit defines it.
pub fn judge_function(faults: &mut Faults, defined: bool, at: u32)
    ensures { faults.new.least ≡ all_judged faults.old.least (function_rules defined at) }
{
    faults.judge(19, !defined, at);
}

/// Judges what is called, which is told at its first token where it is not the name of a function.
pub fn judge_callee(faults: &mut Faults, function: bool, at: u32)
    ensures { faults.new.least ≡ all_judged faults.old.least (callee_rules function at) }
{
    faults.judge(21, !function, at);
}

/// Judges the number of arguments of a call, which is told at `(`.
pub fn judge_call(faults: &mut Faults, params: usize, args: usize, at: u32)
    ensures { faults.new.least ≡ all_judged faults.old.least (call_rules params args at) }
{
    faults.judge(22, params != args, at);
}

fn call_node(function: u16, args: Seq<Expr>) -> Node
    ensures { plain_node result ≡ call_of function (plain_exprs args.items) }
{
    Node::Call(function, args)
}

/// What a call makes of arguments that were brought to the types of the parameters, or None where one has no type.
pub fn call(modes: Modes, function: u16, returns: CType, args: Option<Seq<Expr>>) -> Option<Operand>
    ensures { option_map plain_operand result
        ≡ called modes function (plain_type returns) (option_map (λ es. plain_exprs es.items) args) }
{
    match args {
        None => None,
        Some(args) => valued(Some(made(modes, returns, call_node(function, args)))),
    }
}

/// The value of `sizeof` of a type.
pub fn size_value(modes: Modes, structs: &Seq<StructDef>, ty: &CType) -> Operand
    requires structs { AreStructs (map plain_struct structs.now.items) }
    requires object { IsObjectType (length structs.now.items) (plain_type ty.now) }
    ensures { plain_operand result ≡ size_value modes (map plain_struct structs.now.items) (plain_type ty.now) }
{
    let bytes = size_of(structs, ty);
    let unsigned_int = CType::Int {
        signed: false,
        bytes: 2,
    };
    Operand::Value {
        value: made(modes, unsigned_int, Node::Number(bytes as i128)),
        null: false,
    }
}

/// The value of an integer or character constant.
pub fn whole_constant(modes: Modes, signed: bool, bytes: u8, n: u32) -> Operand
    ensures { plain_operand result ≡ whole_constant modes signed bytes n }
{
    Operand::Value {
        value: made(modes, CType::Int { signed, bytes }, Node::Number(n as i128)),
        null: n == 0,
    }
}

/// The value of a fixed-point constant, by the number of its format.
pub fn fixed_constant(modes: Modes, kind: FxKind, n: i128) -> Operand
    ensures { plain_operand result ≡ fixed_constant modes kind n }
{
    Operand::Value {
        value: made(modes, CType::Fx { kind, sat: false }, Node::Number(n)),
        null: false,
    }
}
