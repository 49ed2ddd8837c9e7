//! Whether a loop is counted, and its turns.
ghost use Rattle.std.specs.Prelude.{◌≡◌, ◌≤◌, if◌then◌else◌, Some, None, map, option_map, slice_get, option_and_then};
ghost use Rattle.ec_core.specs.Plain.{plain_type, plain_expr, plain_exprs, plain_stmt, plain_stmts, plain_storage};
ghost use Rattle.ec_core.specs.Plain.{a_stmt, plain_object, plain_program};
ghost use Rattle.ec_core.specs.Operators.{same_type};
ghost use Rattle.ec_core.specs.Typing.{int};
ghost use Rattle.ec_core_steps.specs.Boxed.{boxed_stmt};
ghost use Rattle.ec_core_steps.specs.Counted.{distance, steps_in, turns, last_tested, is_int, leads_to, signed_step};
ghost use Rattle.ec_core_steps.specs.Counted.{int_constant, loaded, joined, operands_of, condition_of, update_by, own_update};
ghost use Rattle.ec_core_steps.specs.Counted.{update_of, assigned, initialiser, declared_with, declared_alone, declared_among, start_of};
ghost use Rattle.ec_core_steps.specs.Counted.{is_local_of, is_int_local, turns_by, is_counter, turns_of};

use crate::touches::{Touch, in_optional, in_stmt, in_stmts};
use ec_check_constants::{constant, is_constant};
use ec_core::{BinOp, CType, Expr, Node, PlaceExpr, Program, Stmt, StmtKind, Storage};

/// An operator, the object that it begins with and the constant that it ends with.
#[derive(Clone, Copy)]
pub struct Operands {
    pub op: BinOp,
    pub object: u16,
    pub value: i16,
}

/// What is added to an object, from -32,767 to 32,767 and not 0.
#[derive(Clone, Copy)]
pub struct Update {
    pub object: u16,
    pub by: i16,
}

/// A function of a program, with its place among them.
#[derive(Clone, Copy)]
pub(crate) struct Within<'a> {
    pub(crate) program: &'a Program,
    pub(crate) function: u16,
    pub(crate) body: &'a Stmt,
}

// ---- numbers

/// How far a value is from the first one that is not in order with a bound.
fn distance(op: BinOp, v: i16, bound: i16) -> i32
    ensures { result ≡ distance op v bound }
{
    match op {
        BinOp::Lt => bound as i32 - v as i32,
        BinOp::Le => bound as i32 - v as i32 + 1,
        BinOp::Gt => v as i32 - bound as i32,
        BinOp::Ge => v as i32 - bound as i32 + 1,
        _ => 0,
    }
}

/// How many steps of this size there are in a distance.
fn steps_in(distance: i32, by: u32) -> u32
    requires some { 1 ≤ by }
    requires near { by ≤ 32_768 }
    ensures { result ≡ steps_in distance by }
{
    if 0 < distance {
        (distance.unsigned_abs() + by - 1) / by
    } else {
        0
    }
}

/// The last value that is tested, at most or at least.
fn last_tested(op: BinOp, bound: i16, by: i16) -> i32
    ensures { result ≡ last_tested op bound by }
{
    match op {
        BinOp::Lt => bound as i32 - 1 + by as i32,
        BinOp::Le => bound as i32 + by as i32,
        BinOp::Gt => bound as i32 + 1 + by as i32,
        BinOp::Ge => bound as i32 + by as i32,
        _ => 0,
    }
}

fn is_int(n: i32) -> bool
    ensures { result ≡ is_int n }
{
    -32_768 <= n && n <= 32_767
}

/// Whether steps lead towards what ends the loop.
fn leads_to(op: BinOp, by: i16) -> bool
    ensures { result ≡ leads_to op by }
{
    match op {
        BinOp::Lt | BinOp::Le => 0 < by,
        BinOp::Gt | BinOp::Ge => by < 0,
        _ => false,
    }
}

/// What is added by an operator and a constant from 1 to 32,767.
fn signed_step(op: BinOp, n: i16) -> Option<i16>
    ensures { result ≡ signed_step op n }
{
    match op {
        BinOp::Add => { if 1 <= n { Some(n) } else { None } }
        BinOp::Sub => { if 1 <= n { Some(-n) } else { None } }
        _ => None,
    }
}

// ---- the parts of a loop

fn is_int_type(ty: &CType) -> bool
    ensures { result ≡ same_type (plain_type ty.now) int }
{
    let int = CType::Int {
        signed: true,
        bytes: 2,
    };
    ty.is_same(&int)
}

/// A number, where it is an int.
fn narrowed(n: i128) -> Option<i16>
    ensures { result ≡ if is_int n then Some n else None }
{
    if -32_768 <= n && n <= 32_767 {
        Some(n as i16)
    } else {
        None
    }
}

/// The value of a constant expression of type int.
fn int_constant(e: &Expr) -> Option<i16>
    ensures { result ≡ int_constant (plain_expr e.now) }
{
    if is_int_type(&e.ty) && is_constant(e) {
        match constant(e) {
            Ok(n) => narrowed(n),
            Err(_) => None,
        }
    } else {
        None
    }
}

/// The object whose value an expression is.
fn loaded(e: &Expr) -> Option<u16>
    ensures { result ≡ loaded (plain_expr e.now) }
{
    match &e.node {
        Node::Load(PlaceExpr::Object(object)) => Some(*object),
        _ => None,
    }
}

fn joined(op: BinOp, a: &Expr, b: &Expr) -> Option<Operands>
    ensures { result ≡ joined op (plain_expr a.now) (plain_expr b.now) }
{
    let object = loaded(a)?;
    let value = int_constant(b)?;
    Some(Operands { op, object, value })
}

/// An operation on an object and a constant.
fn operands_of(e: &Expr) -> Option<Operands>
    ensures { result ≡ operands_of (plain_expr e.now) }
{
    match &e.node {
        Node::Binary(op, a, b) => joined(*op, a, b),
        _ => None,
    }
}

/// `i < B`, and so with each other operator.
fn condition_of(e: &Option<Expr>) -> Option<Operands>
    ensures { result ≡ condition_of (option_map plain_expr e.now) }
{
    match e {
        Some(e) => operands_of(e),
        None => None,
    }
}

fn update_by(object: u16, op: BinOp, n: i16) -> Option<Update>
    ensures { result ≡ update_by object op n }
{
    let by = signed_step(op, n)?;
    Some(Update { object, by })
}

fn own_update(object: u16, x: Operands) -> Option<Update>
    ensures { result ≡ own_update object x }
{
    if x.object == object {
        update_by(object, x.op, x.value)
    } else {
        None
    }
}

/// `i = i + C`, `i += C`, `i++`, `++i`, and the same with minus.
fn update_of(e: &Option<Expr>) -> Option<Update>
    ensures { result ≡ update_of (option_map plain_expr e.now) }
{
    match e {
        None => None,
        Some(e) => match &e.node {
            Node::Assign(PlaceExpr::Object(object), e) => {
                let x = operands_of(e)?;
                own_update(*object, x)
            }
            Node::Compound(op, _, PlaceExpr::Object(object), e) => {
                let n = int_constant(e)?;
                update_by(*object, *op, n)
            }
            Node::Step {
                up,
                place: PlaceExpr::Object(object),
                ..
            } => update_by(*object, if *up { BinOp::Add } else { BinOp::Sub }, 1),
            _ => None,
        },
    }
}

/// The value of the constant that an expression assigns to the object.
fn assigned_value(object: u16, e: &Expr) -> Option<i16>
    ensures { result ≡ option_and_then int_constant (assigned object (plain_expr e.now)) }
{
    match &e.node {
        Node::Assign(PlaceExpr::Object(named), value) => {
            if *named == object {
                int_constant(value)
            } else {
                None
            }
        }
        _ => None,
    }
}

/// The value of the constant that a declaration gives the object.
fn initial_value(object: u16, declared: u16, values: &[Expr]) -> Option<i16>
    ensures { result ≡ option_and_then int_constant (initialiser object declared (plain_exprs values.now)) }
{
    match values {
        [value] if declared == object => int_constant(value),
        _ => None,
    }
}

fn declared_value(object: u16, stmt: &Stmt) -> Option<i16>
    ensures { result ≡ option_and_then int_constant (declared_with object (plain_stmt stmt.now)) }
{
    match &stmt.kind {
        StmtKind::Local(declared, values) => initial_value(object, *declared, values.as_slice()),
        _ => None,
    }
}

/// What a statement gives the object by its declaration, where the others that follow do not change it.
fn declared_alone(object: u16, stmt: &Stmt, others: &[Stmt]) -> Option<i16>
    ensures { result ≡ option_and_then int_constant (declared_alone object (plain_stmt stmt.now) (plain_stmts others.now)) }
{
    if in_stmts(Touch::Change, object, others) {
        None
    } else {
        declared_value(object, stmt)
    }
}

/// What the only one of some statements that changes the object gives it, by its declaration.
#[tactic(auto, using(crate::proofs::Declared::declared_here, crate::proofs::Declared::declared_later))]
fn declared_among(object: u16, stmts: &[Stmt]) -> Option<i16>
    ensures { result ≡ option_and_then int_constant (declared_among object (plain_stmts stmts.now)) }
{
    for place in 0..stmts.len() {
        let stmt = &stmts[place];
        if in_stmt(Touch::Change, object, stmt) {
            return declared_alone(object, stmt, &stmts[place + 1..]);
        }
    }
    None
}

/// What a statement gives the object, as the first part of a loop.
fn started_by(object: u16, stmt: &Stmt) -> Option<i16>
    ensures { result ≡ option_and_then int_constant (start_of object (a_stmt (plain_stmt stmt.now))) }
{
    match &stmt.kind {
        StmtKind::Do1(e) => assigned_value(object, e),
        StmtKind::Local(declared, values) => initial_value(object, *declared, values.as_slice()),
        StmtKind::Block(stmts) => declared_among(object, stmts.as_slice()),
        _ => None,
    }
}

/// What the first part of a loop gives the object.
fn start_of(object: u16, first: &Option<Box<Stmt>>) -> Option<i16>
    ensures { result ≡ option_and_then int_constant (start_of object (boxed_stmt first.now)) }
{
    match first {
        Some(stmt) => started_by(object, stmt),
        None => None,
    }
}

// ---- loops

fn is_local_of(function: u16, storage: &Storage) -> bool
    ensures { result ≡ is_local_of function (plain_storage storage.now) }
{
    match storage {
        Storage::Local(owner) => *owner == function,
        Storage::Static(_) | Storage::Param(_) | Storage::Register(_) => false,
    }
}

fn is_int_local(within: &Within, object: u16) -> bool
    ensures { result ≡ is_int_local within.now.function (slice_get (map plain_object within.now.program.now.objs.items) object) }
{
    match within.program.objs.as_slice().get(object as usize) {
        Some(x) => is_int_type(&x.ty) && is_local_of(within.function, &x.storage),
        None => false,
    }
}

/// Whether an object counts the turns of a loop, by its type and by what touches it.
fn is_counter(within: &Within, object: u16, condition: &Option<Expr>, body: &Stmt) -> bool
    ensures { result ≡ is_counter (plain_program within.now.program.now) within.now.function (plain_stmt within.now.body.now) object
        (option_map plain_expr condition.now) (plain_stmt body.now) }
{
    is_int_local(within, object)
        && !in_stmt(Touch::Address, object, within.body)
        && !in_optional(Touch::Change, object, condition)
        && !in_stmt(Touch::Change, object, body)
}

fn turns_by(condition: Operands, update: Update, first: i16) -> Option<u32>
    ensures { result ≡ turns_by condition update first }
{
    if update.object == condition.object
        && leads_to(condition.op, update.by)
        && is_int(first as i32)
        && is_int(last_tested(condition.op, condition.value, update.by))
    {
        let distance = distance(condition.op, first, condition.value);
        Some(steps_in(distance, update.by.unsigned_abs() as u32))
    } else {
        None
    }
}

/// The turns of a `for` loop of a function, where it is counted: at most 65,535.
pub(crate) fn turns_of(
    within: &Within,
    first: &Option<Box<Stmt>>,
    condition: &Option<Expr>,
    last: &Option<Expr>,
    body: &Stmt,
) -> Option<u32>
    ensures { result ≡ turns_of (plain_program within.now.program.now) within.now.function (plain_stmt within.now.body.now)
        (boxed_stmt first.now) (option_map plain_expr condition.now) (option_map plain_expr last.now) (plain_stmt body.now) }
{
    let operands = condition_of(condition)?;
    let update = update_of(last)?;
    let start = start_of(operands.object, first)?;
    if is_counter(within, operands.object, condition, body) {
        turns_by(operands, update, start)
    } else {
        None
    }
}
