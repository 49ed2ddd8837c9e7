//! The operations of expressions.
ghost use Rattle.std.specs.Prelude.{◌≡◌, ◌+◌, slice_get, OnOk, IfOk};
ghost use Rattle.std.specs.Option.{option_copied};
ghost use Rattle.ec_core.specs.Plain.{plain_type, plain_expr, plain_exprs, plain_node, plain_place, plain_program};
ghost use Rattle.ec_core.specs.Plain.{logical_or, conditional};
ghost use Rattle.ec_core.specs.PortTable.{plain_table};
ghost use Rattle.ec_lower.specs.Branches.{plain_branch};
ghost use Rattle.ec_lower.specs.Emits.{Emits, IsLaidOut, plain_operand};
ghost use Rattle.ec_lower.specs.Sites.{plain_site};
ghost use Rattle.ec_lower_code.specs.Code.{temp, place_behind, access_code, expr_labels, node_labels, option_labels};
ghost use Rattle.ec_lower_code.specs.Code.{place_labels, site, value_place, place_code};
ghost use Rattle.ec_lower_code.specs.Code.{exprs_labels, expr_code, node_code, option_code, args_code};
ghost use Rattle.ec_lower_code.specs.Code.{stepping_code, unread_code, branch_code};

use crate::branches::{
    Branch, opposite, other_label, put_and_end, put_branch, put_or_end, zero_label,
};
use crate::calls::store_call;
use crate::dynamics::lower_dynamic;
use crate::emit::{
    above, behind, put, put_binary, put_conversion, put_null, put_number, put_turn, put_unary,
    result_temp, temp, truth,
};
use crate::offsets::offset_of;
use crate::places::{
    Site, pointed, put_address, put_assigned, put_load, put_member, put_settled, value_place,
};
use crate::port_operations::place_behind;
use crate::ports::{put_access, put_group};
use crate::updates::{change, step};
use ec_core::{CType, Expr, Node, PlaceExpr, Program};
use ec_fx::Mode;
use ec_iohw::{IoOp, IoTable};
use ec_ir::{Ir, Temp};
use ec_space::{NoMemory, Seq};
use std::alloc::Global;

/// Appends the operations of an expression, whose value goes to the place `t`, with labels from `l` on. Answers the
/// first label that is free.
#[cycle(lower)]
pub fn lower_expr(
    code: &mut Seq<Ir>,
    alloc: Global,
    program: &Program,
    io: &IoTable,
    e: &Expr,
    l: u64,
    t: u16,
) -> Result<u64, NoMemory>
    requires { IsLaidOut (plain_program program.now) }
    ensures next { IfOk result (λ m. m ≡ l + expr_labels (plain_expr e.now)) }
    ensures code { OnOk result (Emits code.old.items code.new.items
        (expr_code (plain_program program.now) (plain_table io.now) (plain_expr e.now) l t)) }
{
    match &e.node {
        Node::Number(n) => {
            put_number(code, n, &e.ty, t)?;
            Ok(l)
        }
        Node::Null => {
            put_null(code, &e.ty, t)?;
            Ok(l)
        }
        Node::Load(p) => {
            let (m, site) = lower_place(code, alloc, program, io, p, l, t)?;
            put_load(code, &e.ty, site, t)?;
            Ok(m)
        }
        Node::AddressOf(p) => {
            let (m, site) = lower_place(code, alloc, program, io, p, l, t)?;
            put_address(code, site, &e.ty, t)?;
            Ok(m)
        }
        Node::Unary(op, a) => {
            let m = lower_expr(code, alloc, program, io, a, l, t)?;
            put_unary(code, alloc, *op, &e.ty, e.mode, t)?;
            Ok(m)
        }
        Node::Binary(op, a, b) => {
            let k = lower_expr(code, alloc, program, io, a, l, t)?;
            let u = above(t)?;
            let m = lower_expr(code, alloc, program, io, b, k, u)?;
            put_binary(code, alloc, *op, &e.ty, e.mode, t, t, &a.ty, u, &b.ty)?;
            Ok(m)
        }
        Node::Convert(a) => {
            let m = lower_expr(code, alloc, program, io, a, l, t)?;
            put_conversion(code, alloc, t, &e.ty, e.mode, &a.ty)?;
            Ok(m)
        }
        Node::Comma(a, b) => {
            let k = lower_unread(code, alloc, program, io, a, l, t)?;
            lower_expr(code, alloc, program, io, b, k, t)
        }
        node => lower_effect(code, alloc, program, io, &e.ty, e.mode, node, l, t),
    }
}

/// Those of an expression whose value nobody reads: a postfix step does what the prefix one does.
#[cycle(lower)]
pub fn lower_unread(
    code: &mut Seq<Ir>,
    alloc: Global,
    program: &Program,
    io: &IoTable,
    e: &Expr,
    l: u64,
    t: u16,
) -> Result<u64, NoMemory>
    requires { IsLaidOut (plain_program program.now) }
    ensures next { IfOk result (λ m. m ≡ l + expr_labels (plain_expr e.now)) }
    ensures code { OnOk result (Emits code.old.items code.new.items
        (unread_code (plain_program program.now) (plain_table io.now) (plain_expr e.now) l t)) }
{
    match &e.node {
        Node::Step { up, place, .. } => {
            let (m, site) = lower_place(code, alloc, program, io, place, l, t)?;
            put_step(code, alloc, *up, true, &e.ty, e.mode, site, t)?;
            Ok(m)
        }
        Node::Comma(a, b) => {
            let k = lower_unread(code, alloc, program, io, a, l, t)?;
            lower_unread(code, alloc, program, io, b, k, t)
        }
        _ => lower_expr(code, alloc, program, io, e, l, t),
    }
}

/// Those of a node with an effect or a choice.
#[cycle(lower)]
fn lower_effect(
    code: &mut Seq<Ir>,
    alloc: Global,
    program: &Program,
    io: &IoTable,
    ty: &CType,
    mode: Mode,
    node: &Node,
    l: u64,
    t: u16,
) -> Result<u64, NoMemory>
    requires { IsLaidOut (plain_program program.now) }
    ensures next { IfOk result (λ m. m ≡ l + node_labels (plain_node node.now)) }
    ensures code { OnOk result (Emits code.old.items code.new.items
        (node_code (plain_program program.now) (plain_table io.now) (plain_type ty.now) mode
        (plain_node node.now) l t)) }
{
    match node {
        Node::Assign(p, a) => {
            let (k, site) = lower_place(code, alloc, program, io, p, l, t)?;
            let u = value_place(site, t)?;
            let m = lower_expr(code, alloc, program, io, a, k, u)?;
            put_assigned(code, ty, site, t, u)?;
            Ok(m)
        }
        Node::Compound(op, own, p, a) => {
            let (k, site) = lower_place(code, alloc, program, io, p, l, t)?;
            let u = value_place(site, t)?;
            put_load(code, ty, site, u)?;
            let up = above(u)?;
            let m = lower_expr(code, alloc, program, io, a, k, up)?;
            change(code, alloc, *op, *own, mode, ty, site, u, &a.ty)?;
            put_settled(code, site, ty, t)?;
            Ok(m)
        }
        Node::Step { up, prefix, place } => {
            let (m, site) = lower_place(code, alloc, program, io, place, l, t)?;
            put_step(code, alloc, *up, *prefix, ty, mode, site, t)?;
            Ok(m)
        }
        Node::Call(f, args) => {
            let m = lower_args(code, alloc, program, io, args.as_slice(), l, t)?;
            store_call(code, program, *f, args.as_slice(), t)?;
            put(code, Ir::Call(*f, result_temp(t, ty)))?;
            Ok(m)
        }
        node => lower_choice(code, alloc, program, io, ty, mode, node, l, t),
    }
}

/// Those of a step of a place, whose pointer, where there is one, stands at `t`.
fn put_step(
    code: &mut Seq<Ir>,
    alloc: Global,
    up: bool,
    prefix: bool,
    ty: &CType,
    mode: Mode,
    site: Site,
    t: u16,
) -> Result<(), NoMemory>
    ensures { OnOk result (Emits code.old.items code.new.items
        (stepping_code up prefix mode (plain_type ty.now) (plain_site site) t)) }
{
    let v = value_place(site, t)?;
    put_load(code, ty, site, v)?;
    let at = above(v)?;
    put(code, Ir::Const(Temp { at, bytes: 2 }, 1))?;
    step(code, alloc, prefix, up, mode, ty, site, v)?;
    put_settled(code, site, ty, t)
}

/// Those of the pointer to a place, where there is one; and where the place is, when that stands at `t`.
#[cycle(lower)]
fn lower_place(
    code: &mut Seq<Ir>,
    alloc: Global,
    program: &Program,
    io: &IoTable,
    p: &PlaceExpr,
    l: u64,
    t: u16,
) -> Result<(u64, Site), NoMemory>
    requires { IsLaidOut (plain_program program.now) }
    ensures next { IfOk result (λ x. x.0 ≡ l + place_labels (plain_place p.now)) }
    ensures site { IfOk result (λ x. plain_site x.1 ≡ site (plain_program program.now) (plain_place p.now) t) }
    ensures code { OnOk result (Emits code.old.items code.new.items
        (place_code (plain_program program.now) (plain_table io.now) (plain_place p.now) l t)) }
{
    match p {
        PlaceExpr::Object(o) => Ok((l, Site::Named(*o, 0))),
        PlaceExpr::Deref(e) => {
            let m = lower_expr(code, alloc, program, io, e, l, t)?;
            Ok((m, pointed(&e.ty, t)))
        }
        PlaceExpr::Member(q, i) => {
            let (m, site) = lower_place(code, alloc, program, io, q, l, t)?;
            let k = offset_of(program, q, *i)?;
            let site = put_member(code, k, site)?;
            Ok((m, site))
        }
    }
}

/// Those of a truth value or a choice.
#[cycle(lower)]
fn lower_choice(
    code: &mut Seq<Ir>,
    alloc: Global,
    program: &Program,
    io: &IoTable,
    ty: &CType,
    mode: Mode,
    node: &Node,
    l: u64,
    t: u16,
) -> Result<u64, NoMemory>
    requires { IsLaidOut (plain_program program.now) }
    ensures next { IfOk result (λ m. m ≡ l + node_labels (plain_node node.now)) }
    ensures code { OnOk result (Emits code.old.items code.new.items
        (node_code (plain_program program.now) (plain_table io.now) (plain_type ty.now) mode
        (plain_node node.now) l t)) }
{
    match node {
        Node::Not(a) => {
            let k = behind(l, 2)?;
            let m = lower_branch(code, alloc, program, io, a, k, t, Branch::WhereZero(l))?;
            truth(code, false, ty, l, t)?;
            Ok(m)
        }
        Node::And(a, b) => {
            let k = behind(l, 2)?;
            let to = Branch::WhereZero(l);
            let k = lower_branch(code, alloc, program, io, a, k, t, to)?;
            let m = lower_branch(code, alloc, program, io, b, k, t, to)?;
            truth(code, true, ty, l, t)?;
            Ok(m)
        }
        Node::Or(a, b) => lower_or(code, alloc, program, io, ty, mode, a, b, l, t),
        Node::Cond(c, a, b) => lower_cond(code, alloc, program, io, ty, mode, c, a, b, l, t),
        node => lower_port(code, alloc, program, io, ty, mode, node, l, t),
    }
}

/// Those of a condition, which leads somewhere; what is worked out stands at `t`.
#[cycle(lower)]
pub fn lower_branch(
    code: &mut Seq<Ir>,
    alloc: Global,
    program: &Program,
    io: &IoTable,
    e: &Expr,
    l: u64,
    t: u16,
    to: Branch,
) -> Result<u64, NoMemory>
    requires { IsLaidOut (plain_program program.now) }
    ensures next { IfOk result (λ m. m ≡ l + expr_labels (plain_expr e.now)) }
    ensures code { OnOk result (Emits code.old.items code.new.items
        (branch_code (plain_program program.now) (plain_table io.now) (plain_expr e.now) l t (plain_branch to))) }
{
    match &e.node {
        Node::Not(a) => {
            let k = behind(l, 2)?;
            lower_branch(code, alloc, program, io, a, k, t, opposite(to, l))
        }
        Node::And(a, b) => {
            let k = behind(l, 2)?;
            let first = Branch::WhereZero(zero_label(to, l));
            let k = lower_branch(code, alloc, program, io, a, k, t, first)?;
            let m = lower_branch(code, alloc, program, io, b, k, t, to)?;
            put_and_end(code, to, l)?;
            Ok(m)
        }
        Node::Or(a, b) => {
            let k = behind(l, 4)?;
            let first = Branch::WhereNot(other_label(to, l), l + 1);
            let k = lower_branch(code, alloc, program, io, a, k, t, first)?;
            let m = lower_branch(code, alloc, program, io, b, k, t, to)?;
            put_or_end(code, to, l)?;
            Ok(m)
        }
        _ => {
            let m = lower_expr(code, alloc, program, io, e, l, t)?;
            put_branch(code, to, temp(t, &e.ty))?;
            Ok(m)
        }
    }
}

/// Those of an operation on a port, a group or a dynamic group. There is no other form.
#[cycle(lower)]
fn lower_port(
    code: &mut Seq<Ir>,
    alloc: Global,
    program: &Program,
    io: &IoTable,
    ty: &CType,
    mode: Mode,
    node: &Node,
    l: u64,
    t: u16,
) -> Result<u64, NoMemory>
    requires { IsLaidOut (plain_program program.now) }
    ensures next { IfOk result (λ m. m ≡ l + node_labels (plain_node node.now)) }
    ensures code { OnOk result (Emits code.old.items code.new.items
        (node_code (plain_program program.now) (plain_table io.now) (plain_type ty.now) mode
        (plain_node node.now) l t)) }
{
    match node {
        Node::Io {
            op,
            port,
            index,
            value,
        } => match index {
            None => match value {
                None => lower_io(code, alloc, program, io, *op, mode, *port, None, None, l, t),
                Some(v) => lower_io(
                    code,
                    alloc,
                    program,
                    io,
                    *op,
                    mode,
                    *port,
                    None,
                    Some(v),
                    l,
                    t,
                ),
            },
            Some(i) => match value {
                None => lower_io(
                    code,
                    alloc,
                    program,
                    io,
                    *op,
                    mode,
                    *port,
                    Some(i),
                    None,
                    l,
                    t,
                ),
                Some(v) => lower_io(
                    code,
                    alloc,
                    program,
                    io,
                    *op,
                    mode,
                    *port,
                    Some(i),
                    Some(v),
                    l,
                    t,
                ),
            },
        },
        Node::Group { acquire, group } => {
            put_group(code, io, *acquire, *group, t)?;
            Ok(l)
        }
        _ => lower_dynamic(code, alloc, io, mode, node, l, t),
    }
}

/// Those of an operation on a port: its operands, then the access.
#[cycle(lower)]
fn lower_io(
    code: &mut Seq<Ir>,
    alloc: Global,
    program: &Program,
    io: &IoTable,
    op: IoOp,
    mode: Mode,
    port: u16,
    index: Option<&Expr>,
    value: Option<&Expr>,
    l: u64,
    t: u16,
) -> Result<u64, NoMemory>
    requires { IsLaidOut (plain_program program.now) }
    ensures next { IfOk result (λ m. m ≡ l + (option_labels (plain_operand (option_copied index.entry))
        + option_labels (plain_operand (option_copied value.entry)))) }
    ensures code { OnOk result (Emits code.old.items code.new.items (λ rest.
        let i = plain_operand (option_copied index.entry) in let v = plain_operand (option_copied value.entry) in
        option_code (plain_program program.now) (plain_table io.now) i l t
        (option_code (plain_program program.now) (plain_table io.now) v (l + option_labels i) (place_behind i t)
        (access_code op mode (slice_get (plain_table io.now).ports port) i t rest)))) }
{
    let k = lower_operand(code, alloc, program, io, index, l, t)?;
    let u = place_behind(index, t)?;
    let m = lower_operand(code, alloc, program, io, value, k, u)?;
    put_access(code, alloc, io, op, mode, port, index, t)?;
    Ok(m)
}

/// Those of an operand that may be absent.
#[cycle(lower)]
fn lower_operand(
    code: &mut Seq<Ir>,
    alloc: Global,
    program: &Program,
    io: &IoTable,
    e: Option<&Expr>,
    l: u64,
    t: u16,
) -> Result<u64, NoMemory>
    requires { IsLaidOut (plain_program program.now) }
    ensures next { IfOk result (λ m. m ≡ l + option_labels (plain_operand (option_copied e.entry))) }
    ensures code { OnOk result (Emits code.old.items code.new.items (option_code (plain_program program.now)
        (plain_table io.now) (plain_operand (option_copied e.entry)) l t)) }
{
    match e {
        None => Ok(l),
        Some(e) => lower_expr(code, alloc, program, io, e, l, t),
    }
}

/// Those of `||`.
#[cycle(lower)]
fn lower_or(
    code: &mut Seq<Ir>,
    alloc: Global,
    program: &Program,
    io: &IoTable,
    ty: &CType,
    mode: Mode,
    a: &Expr,
    b: &Expr,
    l: u64,
    t: u16,
) -> Result<u64, NoMemory>
    requires { IsLaidOut (plain_program program.now) }
    ensures next { IfOk result (λ m. m ≡ l + 4 + expr_labels (plain_expr a.now) + expr_labels (plain_expr b.now)) }
    ensures code { OnOk result (Emits code.old.items code.new.items (node_code (plain_program program.now)
        (plain_table io.now)
        (plain_type ty.now) mode (logical_or (plain_expr a.now) (plain_expr b.now)) l t)) }
{
    let k = behind(l, 4)?;
    let first = Branch::WhereNot(l + 3, l + 2);
    let k = lower_branch(code, alloc, program, io, a, k, t, first)?;
    let m = lower_branch(code, alloc, program, io, b, k, t, Branch::WhereZero(l))?;
    put(code, Ir::Label(l + 3))?;
    truth(code, true, ty, l, t)?;
    Ok(m)
}

/// Those of `?:`.
#[cycle(lower)]
fn lower_cond(
    code: &mut Seq<Ir>,
    alloc: Global,
    program: &Program,
    io: &IoTable,
    ty: &CType,
    mode: Mode,
    c: &Expr,
    a: &Expr,
    b: &Expr,
    l: u64,
    t: u16,
) -> Result<u64, NoMemory>
    requires { IsLaidOut (plain_program program.now) }
    ensures next { IfOk result (λ m. m ≡ l + 2 + expr_labels (plain_expr c.now) + expr_labels (plain_expr a.now)
        + expr_labels (plain_expr b.now)) }
    ensures code { OnOk result (Emits code.old.items code.new.items (node_code (plain_program program.now)
        (plain_table io.now)
        (plain_type ty.now) mode (conditional (plain_expr c.now) (plain_expr a.now) (plain_expr b.now)) l t)) }
{
    let k = behind(l, 2)?;
    let k = lower_branch(code, alloc, program, io, c, k, t, Branch::WhereZero(l))?;
    let k = lower_expr(code, alloc, program, io, a, k, t)?;
    put_turn(code, l + 1, l)?;
    let m = lower_expr(code, alloc, program, io, b, k, t)?;
    put(code, Ir::Label(l + 1))?;
    Ok(m)
}

/// Those of arguments, whose values go to the places from `t` on.
#[cycle(lower)]
fn lower_args(
    code: &mut Seq<Ir>,
    alloc: Global,
    program: &Program,
    io: &IoTable,
    args: &[Expr],
    l: u64,
    t: u16,
) -> Result<u64, NoMemory>
    requires { IsLaidOut (plain_program program.now) }
    ensures next { IfOk result (λ m. m ≡ l + exprs_labels (plain_exprs args.now)) }
    ensures code { OnOk result (Emits code.old.items code.new.items
        (args_code (plain_program program.now) (plain_table io.now) (plain_exprs args.now) l t)) }
{
    let mut k = l;
    let mut u = t;
    for e in args {
        k = lower_expr(code, alloc, program, io, e, k, u)?;
        u = above(u)?;
    }
    Ok(k)
}
