//! What expressions, statements and functions do.
ghost use Rattle.std.specs.Prelude.{◌≡◌, ◌==◌, ◌+◌, ◌<◌, ⊤, pos};
ghost use Rattle.std.specs.Prelude.{[], ◌∷◌, ◌++◌, map, option_map, unwrap_or, OnOk};
ghost use Rattle.std.specs.Option.{option_copied};
ghost use Rattle.ec_core.specs.declared.values.Undefined.TheVariants.{Invalid};
ghost use Rattle.ec_core.specs.declared.values.Value.TheVariants.{Number as TheNumber};
ghost use Rattle.ec_core.specs.Accesses.{pointer_to, referent_of, member_offset, begun, initialised, operand_of};
ghost use Rattle.ec_core.specs.Accesses.{frame_ended};
ghost use Rattle.ec_core.specs.Expressions.{pointed_to, object_place, updated_place, compound_update, step_update};
ghost use Rattle.ec_core.specs.Integers.{truth};
ghost use Rattle.ec_core.specs.Layout.{IsScalar};
ghost use Rattle.ec_core.specs.Operators.{step_operator, binary_result, conversion_result, truth_result};
ghost use Rattle.ec_core.specs.Plain.{void, load, address_of, unary, binary, convert, assign, compound, step};
ghost use Rattle.ec_core.specs.Plain.{logical_not, logical_and, logical_or, conditional, comma, call, io, block};
ghost use Rattle.ec_core.specs.Plain.{declare, branch, for_loop, a_stmt, plain_type, plain_node, plain_place};
ghost use Rattle.ec_core.specs.Plain.{plain_kind};
ghost use Rattle.ec_core.specs.Plain.{plain_expr, plain_exprs, plain_stmt, plain_stmts, plain_function, plain_program};
ghost use Rattle.ec_core.specs.Pointers.{moved};
ghost use Rattle.ec_core.specs.PortAccesses.{no_value};
ghost use Rattle.ec_core.specs.PortTable.{plain_table};
ghost use Rattle.ec_core.specs.State.{got, given, worked};
ghost use Rattle.ec_core.specs.Statements.{at_end, parameters_written, call_result};
ghost use Rattle.ec_core.specs.Statements.{calls_within};
ghost use Rattle.ec_core.specs.Typing.{int, place_type, type_of_expr, HaveBinaryTypes, HaveCompoundTypes};
ghost use Rattle.ec_core.specs.Typing.{AreConvertible};
ghost use Rattle.ec_core.specs.ValueTypes.{IsTypedState};
ghost use Rattle.ec_core.specs.Words.{node_words, loop_words, jump_words, function_words};
ghost use Rattle.ec_interp.specs.declared.state.RunError.TheVariants.{Met};
ghost use Rattle.ec_interp.specs.Does.{DoesExpr, DoesNode, DoesModeless, DoesTypeless, DoesCondition, DoesPlace};
ghost use Rattle.ec_interp.specs.Does.{DoesOption, DoesExprs, DoesTest, DoesOptional, DoesReturn, DoesLeaves, DoesStmt};
ghost use Rattle.ec_interp.specs.Does.{DoesKind, DoesStmts, DoesFirst, DoesFirstAndLoop, DoesTested, DoesTurns};
ghost use Rattle.ec_interp.specs.Does.{DoesNext, DoesCall, DoesEntered, ShowsWhere, plain_other};
ghost use Rattle.ec_interp.specs.Outcomes.{ShowsRun};
ghost use Rattle.ec_interp.specs.Shows.{Shows, ShowsAs, Tells};
ghost use Rattle.ec_interp.specs.Suits.{IsGiven, IsAnswered, IsOperand, AreArgumentsOf};
ghost use Rattle.ec_interp.specs.Updates.{seen_update};
ghost use Rattle.ec_interp.specs.Loops.{block_items};
ghost use Rattle.ec_interp.specs.Views.{seen, seen_exit, plain_optional, setting_of, HasLayouts};
ghost use Rattle.ec_interp.specs.Weights.{stmt_weight, bodies};

use crate::accesses::{initialise, read, write};
use crate::exits::{early_exit, loop_exit};
use crate::layouts::{member_offset, place_type};
use crate::objects::{begin, end_declared, end_first, end_frame, pointer_to};
use crate::operators::{
    Operand, binary_value, compound_value, conversion, moved, referent, truth, unary_value,
};
use crate::ports::{bind_group, no_value, operate, operate_dynamic, operate_group};
use crate::state::{Context, Exit, RunError, State, at, function, placed};
use crate::values::updated_value;
use crate::words::{leaf_words, node_words, return_of};
use ec_core::{
    BinOp, CType, Expr, Func, Node, ObjectPointer, PlaceExpr, Stmt, StmtKind, UnOp, Undefined,
    Value,
};
use ec_fx::Mode;
use ec_iohw::IoOp;
use ec_space::{NoMemory, Seq};

// ---- values

fn truth_number(holds: bool) -> Value
    ensures { result ≡ TheNumber (truth holds) }
{
    Value::Number(if holds { 1 } else { 0 })
}

/// Where a dereferenced pointer points to.
fn pointed_to(x: Value, s: &State) -> Result<Option<ObjectPointer>, RunError>
    ensures shows { Shows result (seen s.now) (pointed_to x (seen s.now)) }
    ensures answered { IsAnswered result }
{
    match x {
        Value::Number(_) => Err(RunError::Undefined(Undefined::Invalid)),
        Value::Pointer(p) => Ok(p),
    }
}

/// The place of a member of what lies at a pointer's target.
fn member_place(
    f: &Context,
    s: &State,
    p: &PlaceExpr,
    i: u16,
    to: Option<ObjectPointer>,
) -> Result<Option<ObjectPointer>, RunError>
    requires { HasLayouts f.now.program.now }
    ensures shows { Shows result (seen s.now)
        (given (moved to (referent_of (plain_program f.now.program.now) to (seen s.now))
        (pos (member_offset (plain_program f.now.program.now)
        (unwrap_or (place_type (plain_program f.now.program.now) (plain_place p.now)) void) i))) (seen s.now)) }
    ensures answered { IsGiven f.now → IsAnswered result }
{
    let of = referent(f, s, to)?;
    let offset = member_offset(f, place_type(f.program, p), i)?;
    moved(to, of, offset as i128)
}

/// The place of an object, which is that of its newest instance.
fn object_place(s: &State, o: u16) -> Result<Option<ObjectPointer>, RunError>
    ensures shows { Shows result (seen s.now) (object_place (pointer_to o (seen s.now)) (seen s.now)) }
    ensures answered { IsAnswered result }
{
    match pointer_to(s, o) {
        None => Err(RunError::Undefined(Undefined::Invalid)),
        Some(p) => Ok(Some(p)),
    }
}

/// What the value of an expression tells as a condition.
fn truth_of(f: &Context, s: &State, e: &Expr, x: Value) -> Result<bool, RunError>
    requires { HasLayouts f.now.program.now }
    ensures tells { Tells result (truth_result (operand_of (plain_program f.now.program.now)
        (type_of_expr (plain_expr e.now)) x (seen s.now))) }
    ensures answered { IsGiven f.now → IsAnswered result }
{
    truth(f, s, x)
}

/// The value of a binary operator, from those of its operands.
fn binary_of(
    f: &Context,
    s: &State,
    op: BinOp,
    ty: &CType,
    mode: Mode,
    a: &Expr,
    x: Value,
    b: &Expr,
    y: Value,
) -> Result<Value, RunError>
    requires { HasLayouts f.now.program.now }
    ensures tells { let program = plain_program f.now.program.now in
        Tells result (binary_result op (plain_type ty.now) mode
        (operand_of program (type_of_expr (plain_expr a.now)) x (seen s.now))
        (operand_of program (type_of_expr (plain_expr b.now)) y (seen s.now))) }
    ensures answered { IsGiven f.now → IsOperand f.now (type_of_expr (plain_expr a.now)) x
        → IsOperand f.now (type_of_expr (plain_expr b.now)) y
        → HaveBinaryTypes op (plain_type ty.now) (type_of_expr (plain_expr a.now)) (type_of_expr (plain_expr b.now))
        → IsAnswered result }
{
    let left = Operand {
        ty: &a.ty,
        value: x,
    };
    let right = Operand {
        ty: &b.ty,
        value: y,
    };
    binary_value(f, s, op, ty, mode, &left, &right)
}

/// The value of an expression in a type.
fn converted(
    f: &Context,
    s: &State,
    ty: &CType,
    mode: Mode,
    a: &Expr,
    x: Value,
) -> Result<Value, RunError>
    requires { HasLayouts f.now.program.now }
    ensures tells { Tells result (conversion_result (plain_type ty.now) mode
        (operand_of (plain_program f.now.program.now) (type_of_expr (plain_expr a.now)) x (seen s.now))) }
    ensures answered { IsGiven f.now → IsOperand f.now (type_of_expr (plain_expr a.now)) x
        → IsScalar (plain_type ty.now) → AreConvertible (plain_type ty.now) (type_of_expr (plain_expr a.now))
        → IsAnswered result }
{
    let operand = Operand {
        ty: &a.ty,
        value: x,
    };
    conversion(f, s, ty, mode, &operand)
}

// ---- updates

/// A compound assignment or a step.
#[derive(Clone, Copy)]
struct Update<'a> {
    op: BinOp,
    operation_mode: Mode,
    write_mode: Mode,
    ty: &'a CType,
    place: &'a PlaceExpr,
    /// Whether its own value is the new one.
    new: bool,
}

/// An update, at its place, from its old value and the right side.
fn update_place(
    f: &Context,
    s: &mut State,
    u: &Update,
    to: Option<ObjectPointer>,
    old: Value,
    right: &Operand,
) -> Result<Value, RunError>
    requires { HasLayouts f.now.program.now }
    ensures shows { let w = setting_of f.now.program.now f.now.io.now f.now.inputs.now in Shows result (seen s.new)
        (updated_place w (seen_update u.now) to old (plain_type right.now.ty.now) right.now.value (seen s.old)) }
    ensures answered { IsGiven f.now → IsOperand f.now (plain_type u.now.ty.now) old
        → IsOperand f.now (plain_type right.now.ty.now) right.now.value
        → HaveCompoundTypes u.now.op (plain_type u.now.ty.now) (plain_type right.now.ty.now) → IsAnswered result }
{
    let left = Operand {
        ty: u.ty,
        value: old,
    };
    let v = compound_value(f, s, u.op, u.operation_mode, u.write_mode, &left, right)?;
    write(f, s, u.ty, u.place, to, v)?;
    Ok(updated_value(u.new, v, old))
}

/// A compound assignment, from the old value of its place and the value of its right side.
fn compounded(
    f: &Context,
    s: &mut State,
    op: BinOp,
    operation_mode: Mode,
    ty: &CType,
    mode: Mode,
    p: &PlaceExpr,
    to: Option<ObjectPointer>,
    old: Value,
    a: &Expr,
    x: Value,
) -> Result<Value, RunError>
    requires { HasLayouts f.now.program.now }
    ensures shows { let w = setting_of f.now.program.now f.now.io.now f.now.inputs.now in Shows result (seen s.new)
        (updated_place w (compound_update op operation_mode (plain_type ty.now) mode (plain_place p.now)) to old
        (type_of_expr (plain_expr a.now)) x (seen s.old)) }
    ensures answered { IsGiven f.now → IsOperand f.now (plain_type ty.now) old
        → IsOperand f.now (type_of_expr (plain_expr a.now)) x
        → HaveCompoundTypes op (plain_type ty.now) (type_of_expr (plain_expr a.now)) → IsAnswered result }
{
    let update = Update {
        op,
        operation_mode,
        write_mode: mode,
        ty,
        place: p,
        new: true,
    };
    let right = Operand {
        ty: &a.ty,
        value: x,
    };
    update_place(f, s, &update, to, old, &right)
}

fn step_operator(up: bool) -> BinOp
    ensures { result ≡ step_operator up }
{
    if up { BinOp::Add } else { BinOp::Sub }
}

/// A step, from the old value of its place.
fn stepped(
    f: &Context,
    s: &mut State,
    ty: &CType,
    mode: Mode,
    up: bool,
    prefix: bool,
    p: &PlaceExpr,
    to: Option<ObjectPointer>,
    old: Value,
) -> Result<Value, RunError>
    requires { HasLayouts f.now.program.now }
    ensures shows { let w = setting_of f.now.program.now f.now.io.now f.now.inputs.now in Shows result (seen s.new)
        (updated_place w (step_update up (plain_type ty.now) mode prefix (plain_place p.now)) to old int
        (TheNumber (pos 1)) (seen s.old)) }
    ensures answered { IsGiven f.now → IsOperand f.now (plain_type ty.now) old → IsScalar (plain_type ty.now)
        → IsAnswered result }
{
    let update = Update {
        op: step_operator(up),
        operation_mode: mode,
        write_mode: mode,
        ty,
        place: p,
        new: prefix,
    };
    let int = CType::Int {
        signed: true,
        bytes: 2,
    };
    let one = Operand {
        ty: &int,
        value: Value::Number(1),
    };
    update_place(f, s, &update, to, old, &one)
}

// ---- expressions

/// The work of an expression's own node.
fn begin_node(f: &Context, s: &mut State, e: &Expr) -> Result<(), NoMemory>
    ensures { OnOk result (seen s.new ≡ worked (node_words (plain_table f.now.io.now) (plain_type e.now.ty)
        (plain_node e.now.node)) (seen s.old)) }
{
    let words = node_words(f.io, &e.ty, &e.node)?;
    s.work_more(words)
}

#[cycle(run)]
fn value_of(f: &Context, depth: usize, s: &mut State, e: &Expr) -> Result<Value, RunError>
    requires { HasLayouts f.now.program.now }
    ensures { DoesExpr f.now depth (plain_expr e.now) result (seen s.old) (seen s.new) }
{
    begin_node(f, s, e)?;
    node_value(f, depth, s, &e.ty, e.mode, &e.node)
}

#[cycle(run)]
fn node_value(
    f: &Context,
    depth: usize,
    s: &mut State,
    ty: &CType,
    mode: Mode,
    node: &Node,
) -> Result<Value, RunError>
    requires { HasLayouts f.now.program.now }
    ensures { DoesNode f.now depth (plain_type ty.now) mode (plain_node node.now) result (seen s.old) (seen s.new) }
{
    match node {
        Node::Number(n) => Ok(Value::Number(*n)),
        Node::Null => Ok(Value::Pointer(None)),
        Node::Load(p) => load(f, depth, s, ty, p),
        Node::AddressOf(p) => address_of(f, depth, s, p),
        Node::Unary(op, a) => unary(f, depth, s, *op, ty, mode, a),
        Node::Binary(op, a, b) => binary(f, depth, s, *op, ty, mode, a, b),
        Node::Convert(a) => convert(f, depth, s, ty, mode, a),
        Node::Assign(p, a) => assign(f, depth, s, ty, p, a),
        Node::Compound(op, operation_mode, p, a) => {
            compound(f, depth, s, *op, *operation_mode, ty, mode, p, a)
        }
        Node::Step { up, prefix, place } => step(f, depth, s, ty, mode, *up, *prefix, place),
        Node::Not(a) => logical_not(f, depth, s, a),
        Node::And(a, b) => logical_and(f, depth, s, a, b),
        Node::Or(a, b) => logical_or(f, depth, s, a, b),
        Node::Cond(c, a, b) => conditional(f, depth, s, c, a, b),
        Node::Comma(a, b) => comma(f, depth, s, a, b),
        Node::Call(g, args) => call_with(f, depth, s, *g, args.as_slice()),
        Node::Io {
            op,
            port,
            index,
            value,
        } => match index {
            None => match value {
                None => port_operation(f, depth, s, *op, *port, None, None),
                Some(v) => port_operation(f, depth, s, *op, *port, None, Some(v)),
            },
            Some(i) => match value {
                None => port_operation(f, depth, s, *op, *port, Some(i), None),
                Some(v) => port_operation(f, depth, s, *op, *port, Some(i), Some(v)),
            },
        },
        Node::Group { acquire, group } => operate_group(f, s, *acquire, *group),
        Node::Bind { dynamic, choice } => bind_group(s, *dynamic, *choice),
        Node::DynGroup { acquire, dynamic } => operate_dynamic(f, s, *acquire, *dynamic),
    }
}

#[cycle(run)]
fn load(
    f: &Context,
    depth: usize,
    s: &mut State,
    ty: &CType,
    p: &PlaceExpr,
) -> Result<Value, RunError>
    requires { HasLayouts f.now.program.now }
    ensures { DoesModeless f.now depth (plain_type ty.now) (load (plain_place p.now)) result (seen s.old) (seen s.new) }
{
    let to = place_of(f, depth, s, p)?;
    read(f, s, ty, p, to)
}

#[cycle(run)]
fn address_of(f: &Context, depth: usize, s: &mut State, p: &PlaceExpr) -> Result<Value, RunError>
    requires { HasLayouts f.now.program.now }
    ensures { DoesTypeless f.now depth (address_of (plain_place p.now)) result (seen s.old) (seen s.new) }
{
    let to = place_of(f, depth, s, p)?;
    Ok(Value::Pointer(to))
}

#[cycle(run)]
fn unary(
    f: &Context,
    depth: usize,
    s: &mut State,
    op: UnOp,
    ty: &CType,
    mode: Mode,
    a: &Expr,
) -> Result<Value, RunError>
    requires { HasLayouts f.now.program.now }
    ensures { DoesNode f.now depth (plain_type ty.now) mode (unary op (plain_expr a.now)) result (seen s.old)
        (seen s.new) }
{
    let x = value_of(f, depth, s, a)?;
    unary_value(op, ty, mode, x)
}

/// Both operands, the left one first, then the operation.
#[cycle(run)]
fn binary(
    f: &Context,
    depth: usize,
    s: &mut State,
    op: BinOp,
    ty: &CType,
    mode: Mode,
    a: &Expr,
    b: &Expr,
) -> Result<Value, RunError>
    requires { HasLayouts f.now.program.now }
    ensures { DoesNode f.now depth (plain_type ty.now) mode (binary op (plain_expr a.now) (plain_expr b.now)) result
        (seen s.old) (seen s.new) }
{
    let x = value_of(f, depth, s, a)?;
    let y = value_of(f, depth, s, b)?;
    binary_of(f, s, op, ty, mode, a, x, b, y)
}

#[cycle(run)]
fn convert(
    f: &Context,
    depth: usize,
    s: &mut State,
    ty: &CType,
    mode: Mode,
    a: &Expr,
) -> Result<Value, RunError>
    requires { HasLayouts f.now.program.now }
    ensures { DoesNode f.now depth (plain_type ty.now) mode (convert (plain_expr a.now)) result (seen s.old)
        (seen s.new) }
{
    let x = value_of(f, depth, s, a)?;
    converted(f, s, ty, mode, a, x)
}

/// The place, then the right side, then the write.
#[cycle(run)]
fn assign(
    f: &Context,
    depth: usize,
    s: &mut State,
    ty: &CType,
    p: &PlaceExpr,
    a: &Expr,
) -> Result<Value, RunError>
    requires { HasLayouts f.now.program.now }
    ensures { DoesModeless f.now depth (plain_type ty.now) (assign (plain_place p.now) (plain_expr a.now)) result
        (seen s.old) (seen s.new) }
{
    let to = place_of(f, depth, s, p)?;
    let x = value_of(f, depth, s, a)?;
    write(f, s, ty, p, to, x)
}

/// The place, then its old value, then the right side, then the write.
#[cycle(run)]
fn compound(
    f: &Context,
    depth: usize,
    s: &mut State,
    op: BinOp,
    operation_mode: Mode,
    ty: &CType,
    mode: Mode,
    p: &PlaceExpr,
    a: &Expr,
) -> Result<Value, RunError>
    requires { HasLayouts f.now.program.now }
    ensures { DoesNode f.now depth (plain_type ty.now) mode
        (compound op operation_mode (plain_place p.now) (plain_expr a.now)) result (seen s.old) (seen s.new) }
{
    let to = place_of(f, depth, s, p)?;
    let old = read(f, s, ty, p, to)?;
    let x = value_of(f, depth, s, a)?;
    compounded(f, s, op, operation_mode, ty, mode, p, to, old, a, x)
}

/// The place, then its old value, then the write of the next one.
#[cycle(run)]
fn step(
    f: &Context,
    depth: usize,
    s: &mut State,
    ty: &CType,
    mode: Mode,
    up: bool,
    prefix: bool,
    p: &PlaceExpr,
) -> Result<Value, RunError>
    requires { HasLayouts f.now.program.now }
    ensures { DoesNode f.now depth (plain_type ty.now) mode (step up prefix (plain_place p.now)) result (seen s.old)
        (seen s.new) }
{
    let to = place_of(f, depth, s, p)?;
    let old = read(f, s, ty, p, to)?;
    stepped(f, s, ty, mode, up, prefix, p, to, old)
}

/// What an expression tells as a condition.
#[cycle(run)]
fn condition(f: &Context, depth: usize, s: &mut State, e: &Expr) -> Result<bool, RunError>
    requires { HasLayouts f.now.program.now }
    ensures { DoesCondition f.now depth (plain_expr e.now) result (seen s.old) (seen s.new) }
{
    let x = value_of(f, depth, s, e)?;
    truth_of(f, s, e, x)
}

#[cycle(run)]
fn logical_not(f: &Context, depth: usize, s: &mut State, a: &Expr) -> Result<Value, RunError>
    requires { HasLayouts f.now.program.now }
    ensures { DoesTypeless f.now depth (logical_not (plain_expr a.now)) result (seen s.old) (seen s.new) }
{
    let holds = condition(f, depth, s, a)?;
    Ok(truth_number(!holds))
}

/// The second operand is evaluated only where the first holds.
#[cycle(run)]
fn logical_and(
    f: &Context,
    depth: usize,
    s: &mut State,
    a: &Expr,
    b: &Expr,
) -> Result<Value, RunError>
    requires { HasLayouts f.now.program.now }
    ensures { DoesTypeless f.now depth (logical_and (plain_expr a.now) (plain_expr b.now)) result (seen s.old)
        (seen s.new) }
{
    if !condition(f, depth, s, a)? {
        return Ok(truth_number(false));
    }
    let holds = condition(f, depth, s, b)?;
    Ok(truth_number(holds))
}

/// The second operand is evaluated only where the first does not hold.
#[cycle(run)]
fn logical_or(
    f: &Context,
    depth: usize,
    s: &mut State,
    a: &Expr,
    b: &Expr,
) -> Result<Value, RunError>
    requires { HasLayouts f.now.program.now }
    ensures { DoesTypeless f.now depth (logical_or (plain_expr a.now) (plain_expr b.now)) result (seen s.old)
        (seen s.new) }
{
    if condition(f, depth, s, a)? {
        return Ok(truth_number(true));
    }
    let holds = condition(f, depth, s, b)?;
    Ok(truth_number(holds))
}

/// One of two operands, as a third one decides.
#[cycle(run)]
fn conditional(
    f: &Context,
    depth: usize,
    s: &mut State,
    c: &Expr,
    a: &Expr,
    b: &Expr,
) -> Result<Value, RunError>
    requires { HasLayouts f.now.program.now }
    ensures { DoesTypeless f.now depth (conditional (plain_expr c.now) (plain_expr a.now) (plain_expr b.now)) result
        (seen s.old) (seen s.new) }
{
    if condition(f, depth, s, c)? {
        return value_of(f, depth, s, a);
    }
    value_of(f, depth, s, b)
}

#[cycle(run)]
fn comma(f: &Context, depth: usize, s: &mut State, a: &Expr, b: &Expr) -> Result<Value, RunError>
    requires { HasLayouts f.now.program.now }
    ensures { DoesTypeless f.now depth (comma (plain_expr a.now) (plain_expr b.now)) result (seen s.old) (seen s.new) }
{
    value_of(f, depth, s, a)?;
    value_of(f, depth, s, b)
}

/// The arguments, then the call.
#[cycle(run)]
fn call_with(
    f: &Context,
    depth: usize,
    s: &mut State,
    g: u16,
    args: &[Expr],
) -> Result<Value, RunError>
    requires { HasLayouts f.now.program.now }
    ensures { DoesTypeless f.now depth (call g (plain_exprs args.now)) result (seen s.old) (seen s.new) }
{
    let xs = values_of(f, depth, s, args)?;
    call_function(f, depth, s, g, xs.as_slice())
}

#[cycle(run)]
fn place_of(
    f: &Context,
    depth: usize,
    s: &mut State,
    p: &PlaceExpr,
) -> Result<Option<ObjectPointer>, RunError>
    requires { HasLayouts f.now.program.now }
    ensures { DoesPlace f.now depth (plain_place p.now) result (seen s.old) (seen s.new) }
{
    match p {
        PlaceExpr::Object(o) => object_place(s, *o),
        PlaceExpr::Deref(e) => {
            let x = value_of(f, depth, s, e)?;
            pointed_to(x, s)
        }
        PlaceExpr::Member(q, i) => {
            s.work_more(30)?;
            let to = place_of(f, depth, s, q)?;
            member_place(f, s, q, *i, to)
        }
    }
}

/// The index and the operand, then the operation.
#[cycle(run)]
fn port_operation(
    f: &Context,
    depth: usize,
    s: &mut State,
    op: IoOp,
    port: u16,
    index: Option<&Expr>,
    value: Option<&Expr>,
) -> Result<Value, RunError>
    requires { HasLayouts f.now.program.now }
    ensures { DoesTypeless f.now depth
        (io op port (plain_optional (option_copied index.entry)) (plain_optional (option_copied value.entry))) result
        (seen s.old) (seen s.new) }
{
    let i = option_value(f, depth, s, index)?;
    let v = option_value(f, depth, s, value)?;
    operate(f, s, op, port, i, v)
}

#[cycle(run)]
fn option_value(
    f: &Context,
    depth: usize,
    s: &mut State,
    e: Option<&Expr>,
) -> Result<Value, RunError>
    requires { HasLayouts f.now.program.now }
    ensures { DoesOption f.now depth (plain_optional (option_copied e.entry)) result (seen s.old) (seen s.new) }
{
    match e {
        None => Ok(no_value()),
        Some(e) => value_of(f, depth, s, e),
    }
}

/// The values of arguments, in order.
#[cycle(run)]
fn values_of(f: &Context, depth: usize, s: &mut State, es: &[Expr]) -> Result<Seq<Value>, RunError>
    requires { HasLayouts f.now.program.now }
    ensures { DoesExprs f.now depth (plain_exprs es.now) result (seen s.old) (seen s.new) }
{
    let mut xs = Seq::new(f.alloc);
    for e in es {
        let x = value_of(f, depth, s, e)?;
        push_value(&mut xs, x)?;
    }
    Ok(xs)
}

fn push_value(xs: &mut Seq<Value>, x: Value) -> Result<(), NoMemory>
    ensures { OnOk result (xs.new.items ≡ xs.old.items ++ x ∷ []) }
{
    xs.push(x)
}

// ---- statements

/// Whether a condition holds, as where there is none.
#[cycle(run)]
fn test_of(f: &Context, depth: usize, s: &mut State, c: Option<&Expr>) -> Result<bool, RunError>
    requires { HasLayouts f.now.program.now }
    ensures { DoesTest f.now depth (option_map plain_expr (option_copied c.entry)) result (seen s.old) (seen s.new) }
{
    match c {
        None => Ok(true),
        Some(e) => condition(f, depth, s, e),
    }
}

/// An expression for its effects.
#[cycle(run)]
fn evaluated(f: &Context, depth: usize, s: &mut State, e: Option<&Expr>) -> Result<Exit, RunError>
    requires { HasLayouts f.now.program.now }
    ensures { DoesOptional f.now depth (option_map plain_expr (option_copied e.entry)) result (seen s.old)
        (seen s.new) }
{
    match e {
        None => Ok(Exit::AtEnd),
        Some(e) => {
            value_of(f, depth, s, e)?;
            Ok(Exit::AtEnd)
        }
    }
}

#[cycle(run)]
fn returned(f: &Context, depth: usize, s: &mut State, e: &Option<Expr>) -> Result<Exit, RunError>
    requires { HasLayouts f.now.program.now }
    ensures { DoesReturn f.now depth (option_map plain_expr e.now) result (seen s.old) (seen s.new) }
{
    s.work_more(return_of(e))?;
    match e {
        None => Ok(Exit::ByReturn(None)),
        Some(e) => {
            let x = value_of(f, depth, s, e)?;
            Ok(Exit::ByReturn(Some(x)))
        }
    }
}

/// The leaves of an object get the values of these expressions, one after the other.
#[cycle(run)]
fn initialising(
    f: &Context,
    depth: usize,
    s: &mut State,
    o: u16,
    values: &[Expr],
) -> Result<Exit, RunError>
    requires { HasLayouts f.now.program.now }
    ensures { DoesLeaves f.now depth o (plain_exprs values.now) result (seen s.old) (seen s.new) }
{
    for (k, e) in values.iter().enumerate() {
        s.work_more(leaf_words(e))?;
        let x = value_of(f, depth, s, e)?;
        initialise(f, s, o, k, x)?;
    }
    Ok(Exit::AtEnd)
}

/// A jump is work.
fn jump(s: &mut State, exit: Exit) -> Result<Exit, RunError>
    ensures { ShowsWhere seen_exit ⊤ result (seen s.new) (got (seen_exit exit) (worked jump_words (seen s.old))) }
{
    s.work_more(10)?;
    Ok(exit)
}

/// A statement. What its own parts meet is met at it, and what a statement in it or a called function meets there.
#[cycle(run)]
fn effect_of(f: &Context, depth: usize, s: &mut State, a: &Stmt) -> Result<Exit, RunError>
    requires { HasLayouts f.now.program.now }
    ensures { DoesStmt f.now depth (plain_stmt a.now) result (seen s.old) (seen s.new) }
{
    match kind_effect(f, depth, s, &a.kind) {
        Ok(exit) => Ok(exit),
        Err(e) => Err(placed(a.unit, a.at, e)),
    }
}

#[cycle(run)]
fn kind_effect(f: &Context, depth: usize, s: &mut State, kind: &StmtKind) -> Result<Exit, RunError>
    requires { HasLayouts f.now.program.now }
    ensures { DoesKind f.now depth (plain_kind kind.now) result (seen s.old) (seen s.new) }
{
    match kind {
        StmtKind::Empty => Ok(Exit::AtEnd),
        StmtKind::Do1(e) => evaluated(f, depth, s, Some(e)),
        StmtKind::Block(all) => block(f, depth, s, all.as_slice()),
        StmtKind::Local(o, values) => declare(f, depth, s, *o, values.as_slice()),
        StmtKind::If(c, a, b) => match b {
            None => branch(f, depth, s, c, a, None),
            Some(b) => branch(f, depth, s, c, a, Some(b)),
        },
        StmtKind::While(c, body) => tested_loop(f, depth, s, Some(c), None, body),
        StmtKind::DoWhile(body, c) => turning_loop(f, depth, s, Some(c), None, body),
        StmtKind::For(first, c, last, body) => match first {
            None => tested_loop(f, depth, s, c.as_ref(), last.as_ref(), body),
            Some(first) => for_loop(f, depth, s, first, c.as_ref(), last.as_ref(), body),
        },
        StmtKind::Break => jump(s, Exit::ByBreak),
        StmtKind::Continue => jump(s, Exit::ByContinue),
        StmtKind::Return(e) => returned(f, depth, s, e),
    }
}

/// The statements of a block, and then the end of what it declares.
#[cycle(run)]
fn block(f: &Context, depth: usize, s: &mut State, all: &[Stmt]) -> Result<Exit, RunError>
    requires { HasLayouts f.now.program.now }
    ensures { DoesKind f.now depth (block (plain_stmts all.now)) result (seen s.old) (seen s.new) }
{
    let exit = effects_of(f, depth, s, all)?;
    end_declared(s, all);
    Ok(exit)
}

/// A new instance of an object, and the values of its leaves.
#[cycle(run)]
fn declare(
    f: &Context,
    depth: usize,
    s: &mut State,
    o: u16,
    values: &[Expr],
) -> Result<Exit, RunError>
    requires { HasLayouts f.now.program.now }
    ensures { DoesKind f.now depth (declare o (plain_exprs values.now)) result (seen s.old) (seen s.new) }
{
    begin(f, s, o)?;
    initialising(f, depth, s, o, values)
}

/// One of two statements, of which the second need not be there.
#[cycle(run)]
fn branch(
    f: &Context,
    depth: usize,
    s: &mut State,
    c: &Expr,
    a: &Stmt,
    b: Option<&Stmt>,
) -> Result<Exit, RunError>
    requires { HasLayouts f.now.program.now }
    ensures { DoesKind f.now depth (branch (plain_expr c.now) (plain_stmt a.now) (plain_other (option_copied b.entry)))
        result (seen s.old) (seen s.new) }
{
    s.work_more(40)?;
    if condition(f, depth, s, c)? {
        return effect_of(f, depth, s, a);
    }
    match b {
        None => Ok(Exit::AtEnd),
        Some(b) => effect_of(f, depth, s, b),
    }
}

/// The statements of a block.
fn block_of(a: &Stmt) -> Option<&[Stmt]>
    ensures { option_map plain_stmts (option_copied result) ≡ block_items (plain_stmt a.now) }
{
    match &a.kind {
        StmtKind::Block(all) => Some(all.as_slice()),
        _ => None,
    }
}

/// The first part of a `for`, which the objects of a block outlive.
#[cycle(run)]
fn first_effect(f: &Context, depth: usize, s: &mut State, first: &Stmt) -> Result<Exit, RunError>
    requires { HasLayouts f.now.program.now }
    ensures { DoesFirst f.now depth (plain_stmt first.now) result (seen s.old) (seen s.new) }
{
    match block_of(first) {
        Some(all) => effects_of(f, depth, s, all),
        None => effect_of(f, depth, s, first),
    }
}

/// The first part of a `for`, and where it is left at its end, the loop.
#[cycle(run)]
fn first_and_loop(
    f: &Context,
    depth: usize,
    s: &mut State,
    first: &Stmt,
    c: Option<&Expr>,
    last: Option<&Expr>,
    body: &Stmt,
) -> Result<Exit, RunError>
    requires { HasLayouts f.now.program.now }
    ensures { DoesFirstAndLoop f.now depth (plain_stmt first.now) (option_map plain_expr (option_copied c.entry))
        (option_map plain_expr (option_copied last.entry)) (plain_stmt body.now) result (seen s.old) (seen s.new) }
{
    let left = first_effect(f, depth, s, first)?;
    match early_exit(left) {
        Some(exit) => Ok(exit),
        None => tested_loop(f, depth, s, c, last, body),
    }
}

/// A `for` with a first part, whose objects live to the end of the loop.
#[cycle(run)]
fn for_loop(
    f: &Context,
    depth: usize,
    s: &mut State,
    first: &Stmt,
    c: Option<&Expr>,
    last: Option<&Expr>,
    body: &Stmt,
) -> Result<Exit, RunError>
    requires { HasLayouts f.now.program.now }
    ensures { DoesKind f.now depth (for_loop (a_stmt (plain_stmt first.now))
        (option_map plain_expr (option_copied c.entry)) (option_map plain_expr (option_copied last.entry))
        (plain_stmt body.now)) result (seen s.old) (seen s.new) }
{
    let exit = first_and_loop(f, depth, s, first, c, last, body)?;
    end_first(s, first);
    Ok(exit)
}

/// Statements in order, up to one that is not left at its end.
#[cycle(run)]
fn effects_of(f: &Context, depth: usize, s: &mut State, all: &[Stmt]) -> Result<Exit, RunError>
    requires { HasLayouts f.now.program.now }
    ensures { DoesStmts f.now depth (plain_stmts all.now) result (seen s.old) (seen s.new) }
{
    for a in all {
        let left = effect_of(f, depth, s, a)?;
        if let Some(exit) = early_exit(left) {
            return Ok(exit);
        }
    }
    Ok(Exit::AtEnd)
}

/// A test that does not hold ends a loop, and is work.
fn end_loop(s: &mut State) -> Result<Exit, RunError>
    ensures { ShowsWhere seen_exit ⊤ result (seen s.new) (got at_end (worked loop_words (seen s.old))) }
{
    s.work_more(60)?;
    Ok(Exit::AtEnd)
}

/// A loop that begins with its test.
#[cycle(run)]
fn tested_loop(
    f: &Context,
    depth: usize,
    s: &mut State,
    c: Option<&Expr>,
    last: Option<&Expr>,
    body: &Stmt,
) -> Result<Exit, RunError>
    requires { HasLayouts f.now.program.now }
    ensures { DoesTested f.now depth (option_map plain_expr (option_copied c.entry))
        (option_map plain_expr (option_copied last.entry)) (plain_stmt body.now) result (seen s.old) (seen s.new) }
{
    if test_of(f, depth, s, c)? {
        return turning_loop(f, depth, s, c, last, body);
    }
    end_loop(s)
}

/// A loop that begins with its body, for at most so many turns: the body, the last part, and the test
/// whether there is another turn.
#[cycle(run)]
fn turning_loop(
    f: &Context,
    depth: usize,
    s: &mut State,
    c: Option<&Expr>,
    last: Option<&Expr>,
    body: &Stmt,
) -> Result<Exit, RunError>
    requires { HasLayouts f.now.program.now }
    ensures { DoesTurns f.now depth (option_map plain_expr (option_copied c.entry))
        (option_map plain_expr (option_copied last.entry)) (plain_stmt body.now) result (seen s.old) (seen s.new) }
{
    let mut left = f.turns;
    while left > 0 {
        s.work_more(60)?;
        let x = effect_of(f, depth, s, body)?;
        if let Some(exit) = loop_exit(x) {
            return Ok(exit);
        }
        if !goes_on(f, depth, s, c, last)? {
            return end_loop(s);
        }
        left -= 1;
    }
    Err(RunError::OutOfTurns)
}

/// The last part of a loop, and then whether there is another turn.
#[cycle(run)]
fn goes_on(
    f: &Context,
    depth: usize,
    s: &mut State,
    c: Option<&Expr>,
    last: Option<&Expr>,
) -> Result<bool, RunError>
    requires { HasLayouts f.now.program.now }
    ensures { DoesNext f.now depth (option_map plain_expr (option_copied c.entry))
        (option_map plain_expr (option_copied last.entry)) result (seen s.old) (seen s.new) }
{
    evaluated(f, depth, s, last)?;
    test_of(f, depth, s, c)
}

// ---- functions

fn bind_one(f: &Context, s: &mut State, o: u16, x: Value) -> Result<Value, RunError>
    requires { HasLayouts f.now.program.now }
    ensures shows { Shows result (seen s.new)
        (initialised (plain_program f.now.program.now) o 0 x (begun (plain_program f.now.program.now) o (seen s.old))) }
    ensures answered { IsGiven f.now → IsAnswered result }
{
    begin(f, s, o)?;
    initialise(f, s, o, 0, x)
}

/// The parameters are new objects with the arguments as their values.
fn bind(f: &Context, s: &mut State, params: &[u16], xs: &[Value]) -> Result<(), RunError>
    requires { HasLayouts f.now.program.now }
    ensures shows { let w = setting_of f.now.program.now f.now.io.now f.now.inputs.now in ShowsAs (λ _. no_value) result
        (seen s.new) (parameters_written w params.now xs.now (seen s.old)) }
    ensures answered { IsGiven f.now → IsAnswered result }
{
    for (i, o) in params.iter().enumerate() {
        let Some(x) = at(xs, i) else {
            return Err(RunError::Undefined(Undefined::Invalid));
        };
        bind_one(f, s, *o, *x)?;
    }
    Ok(())
}

/// A call is work, and then its parameters are bound.
fn begin_call(f: &Context, s: &mut State, params: &[u16], xs: &[Value]) -> Result<(), RunError>
    requires { HasLayouts f.now.program.now }
    ensures { let w = setting_of f.now.program.now f.now.io.now f.now.inputs.now in
        ShowsWhere (λ _. no_value) (IsGiven f.now) result (seen s.new)
        (parameters_written w params.now xs.now (worked function_words (seen s.old))) }
{
    s.work_more(40)?;
    bind(f, s, params, xs)
}

/// What a function gives that was left so.
fn call_result(ty: &CType, main: bool, exit: Exit, s: &State) -> Result<Value, RunError>
    ensures shows { Shows result (seen s.now) (call_result (plain_type ty.now) main (seen_exit exit) (seen s.now)) }
    ensures answered { IsAnswered result }
{
    match exit {
        Exit::ByReturn(Some(x)) => Ok(x),
        _ => match ty {
            CType::Void => Ok(no_value()),
            _ => {
                if main {
                    Ok(Value::Number(0))
                } else {
                    Err(RunError::Undefined(Undefined::NoResult))
                }
            }
        },
    }
}

/// The end of a function's objects, and its result.
fn end_call(
    f: &Context,
    s: &mut State,
    g: u16,
    called: &Func,
    exit: Exit,
) -> Result<Value, RunError>
    ensures { ShowsWhere (λ x. x) ⊤ result (seen s.new)
        (call_result (plain_type called.now.result) (g == (plain_program f.now.program.now).main) (seen_exit exit)
        (frame_ended (plain_program f.now.program.now) g (seen s.old))) }
{
    end_frame(f.program, s, g);
    call_result(&called.result, g == f.program.main, exit, s)
}

/// A call that no valid program makes, and so at no statement.
fn no_function() -> RunError
    ensures { result ≡ Met Invalid 0 0 }
{
    RunError::Met {
        point: Undefined::Invalid,
        unit: 0,
        at: 0,
    }
}

/// A call of the function with a number, where calls nest at most `depth` deep.
pub fn call(
    f: &Context,
    depth: usize,
    s: &mut State,
    g: u16,
    xs: &[Value],
) -> Result<Value, RunError>
    requires { HasLayouts f.now.program.now }
    ensures shows { let w = setting_of f.now.program.now f.now.io.now f.now.inputs.now in
        ShowsRun w f.now.turns result (seen s.new) (calls_within w f.now.turns depth g xs.now (seen s.old)) }
    ensures answered { IsGiven f.now → IsTypedState (plain_program f.now.program.now) (seen s.old)
        → AreArgumentsOf f.now g xs.now → IsAnswered result }
{
    call_function(f, depth, s, g, xs)
}

#[cycle(run)]
fn call_function(
    f: &Context,
    depth: usize,
    s: &mut State,
    g: u16,
    xs: &[Value],
) -> Result<Value, RunError>
    requires { HasLayouts f.now.program.now }
    ensures { DoesCall f.now depth g xs.now result (seen s.old) (seen s.new) }
{
    if depth == 0 {
        return Err(no_function());
    }
    match function(f.program, g) {
        None => Err(no_function()),
        Some(called) => enter(f, depth - 1, s, g, called, xs),
    }
}

/// The parameters of a function, its body, the end of its objects, its result. Where that is missing, or a parameter has
/// no argument, it is met at the body.
#[cycle(run)]
fn enter(
    f: &Context,
    depth: usize,
    s: &mut State,
    g: u16,
    called: &Func,
    xs: &[Value],
) -> Result<Value, RunError>
    requires layouts { HasLayouts f.now.program.now }
    requires small { stmt_weight (plain_stmt called.now.body)
        + 2 < bodies (map plain_function f.now.program.now.funcs.items) }
    ensures { DoesEntered f.now depth g (plain_function called.now) xs.now result (seen s.old) (seen s.new) }
{
    let body = &called.body;
    if let Err(e) = begin_call(f, s, called.params.as_slice(), xs) {
        return Err(placed(body.unit, body.at, e));
    }
    let exit = effect_of(f, depth, s, body)?;
    match end_call(f, s, g, called, exit) {
        Ok(x) => Ok(x),
        Err(e) => Err(placed(body.unit, body.at, e)),
    }
}
