//! The operations of statements.
ghost use Rattle.std.specs.Prelude.{◌≡◌, ◌+◌, map, ◌∷◌, Some, None, option_map, OnOk, IfOk};
ghost use Rattle.std.specs.Option.{option_copied};
ghost use Rattle.ec_core.specs.Plain.{branch, for_loop, return_value, no_stmt, a_stmt, plain_expr, plain_exprs, plain_stmt, plain_stmts};
ghost use Rattle.ec_core.specs.Plain.{plain_program};
ghost use Rattle.ec_core.specs.PortTable.{plain_table};
ghost use Rattle.ec_ir.specs.Operations.{label};
ghost use Rattle.ec_lower.specs.Emits.{Emits, IsLaidOut};
ghost use Rattle.ec_lower_code.specs.Code.{expr_labels, exprs_labels, optional_labels, stmt_labels};
ghost use Rattle.ec_lower_code.specs.Code.{stmts_labels, kind_labels, leaves_of_object, init_code, test_code, last_code};
ghost use Rattle.ec_lower_code.specs.Code.{entry_code, loop_code, stmt_code, kind_code, stmts_code, temp};
ghost use Rattle.ec_core.specs.Layout.{plain_leaf};

use crate::branches::Branch;
use crate::calls::put_return;
use crate::emit::{behind, put, put_object_store, put_turn};
use crate::expressions::{lower_branch, lower_expr, lower_unread};
use crate::extents::optional_labels;
use crate::loops::continue_label;
use ec_core::{Expr, Leaf, Program, Stmt, StmtKind, leaves};
use ec_iohw::IoTable;
use ec_ir::Ir;
use ec_space::{NoMemory, Seq};
use std::alloc::Global;

// ---- parts without statements

/// The scalar parts of an object.
fn leaves_of_object(alloc: Global, program: &Program, o: u16) -> Result<Seq<Leaf>, NoMemory>
    requires { IsLaidOut (plain_program program.now) }
    ensures { IfOk result (λ leaves. map plain_leaf leaves.items
        ≡ leaves_of_object (plain_program program.now) o) }
{
    match program.objs.get(o as usize) {
        None => Ok(Seq::new(alloc)),
        Some(object) => leaves(alloc, &program.structs, &object.ty),
    }
}

/// Those of the values of an object's leaves. There are no more values than leaves.
fn lower_values(
    code: &mut Seq<Ir>,
    alloc: Global,
    program: &Program,
    io: &IoTable,
    leaves: &Seq<Leaf>,
    o: u16,
    values: &[Expr],
    l: u64,
) -> Result<u64, NoMemory>
    requires { IsLaidOut (plain_program program.now) }
    ensures next { IfOk result (λ m. m ≡ l + exprs_labels (plain_exprs values.now)) }
    ensures code { OnOk result (Emits code.old.items code.new.items
        (init_code (plain_program program.now) (plain_table io.now) (map plain_leaf leaves.now.items) o
        (plain_exprs values.now) l)) }
{
    let mut k = l;
    for (i, e) in values.iter().enumerate() {
        match leaves.get(i) {
            None => return Err(NoMemory),
            Some(leaf) => {
                k = lower_expr(code, alloc, program, io, e, k, 0)?;
                put_object_store(code, o, leaf.at, &e.ty, 0)?;
            }
        }
    }
    Ok(k)
}

/// Those of a declaration.
fn lower_local(
    code: &mut Seq<Ir>,
    alloc: Global,
    program: &Program,
    io: &IoTable,
    o: u16,
    values: &[Expr],
    l: u64,
) -> Result<u64, NoMemory>
    requires { IsLaidOut (plain_program program.now) }
    ensures next { IfOk result (λ m. m ≡ l + exprs_labels (plain_exprs values.now)) }
    ensures code { OnOk result (Emits code.old.items code.new.items (init_code (plain_program program.now)
        (plain_table io.now)
        (leaves_of_object (plain_program program.now) o) o (plain_exprs values.now) l)) }
{
    let leaves = leaves_of_object(alloc, program, o)?;
    lower_values(code, alloc, program, io, &leaves, o, values, l)
}

/// Those of a return.
fn lower_return(
    code: &mut Seq<Ir>,
    alloc: Global,
    program: &Program,
    io: &IoTable,
    e: Option<&Expr>,
    l: u64,
    out: u64,
    on: u64,
) -> Result<u64, NoMemory>
    requires { IsLaidOut (plain_program program.now) }
    ensures next { IfOk result (λ m. m ≡ l + optional_labels (option_map plain_expr (option_copied e.entry))) }
    ensures code { OnOk result (Emits code.old.items code.new.items (kind_code (plain_program program.now)
        (plain_table io.now)
        (return_value (option_map plain_expr (option_copied e.entry))) l out on)) }
{
    match e {
        None => {
            put(code, Ir::Return(None))?;
            Ok(l)
        }
        Some(e) => {
            let m = lower_expr(code, alloc, program, io, e, l, 0)?;
            put_return(code, &e.ty)?;
            Ok(m)
        }
    }
}

/// Those of the test of a loop with the labels `l`, for the test, to `l + 4`: they lead to the body where it holds.
fn lower_test(
    code: &mut Seq<Ir>,
    alloc: Global,
    program: &Program,
    io: &IoTable,
    c: Option<&Expr>,
    l: u64,
) -> Result<(), NoMemory>
    requires { IsLaidOut (plain_program program.now) }
    ensures { OnOk result (Emits code.old.items code.new.items
        (test_code (plain_program program.now) (plain_table io.now) (option_map plain_expr
        (option_copied c.entry)) l)) }
{
    let k = behind(l, 5)?;
    match c {
        None => put_turn(code, l + 3, l + 1),
        Some(c) => {
            let to = Branch::WhereNot(l + 3, l + 4);
            lower_branch(code, alloc, program, io, c, k, 0, to)?;
            put(code, Ir::Label(l + 1))
        }
    }
}

/// Those of the last part of a `for`.
fn lower_last(
    code: &mut Seq<Ir>,
    alloc: Global,
    program: &Program,
    io: &IoTable,
    last: Option<&Expr>,
    l: u64,
) -> Result<(), NoMemory>
    requires { IsLaidOut (plain_program program.now) }
    ensures { OnOk result (Emits code.old.items code.new.items
        (last_code (plain_program program.now) (plain_table io.now) (option_map plain_expr
        (option_copied last.entry)) l)) }
{
    match last {
        None => Ok(()),
        Some(e) => {
            lower_unread(code, alloc, program, io, e, l, 0)?;
            Ok(())
        }
    }
}

/// Those of a loop before its turns: one with a condition begins with its test, at the label `l`.
fn begin_loop(code: &mut Seq<Ir>, c: Option<&Expr>, l: u64) -> Result<(), NoMemory>
    ensures { OnOk result (Emits code.old.items code.new.items
        (entry_code (option_map plain_expr (option_copied c.entry)) l)) }
{
    match c {
        None => Ok(()),
        Some(_) => put(code, Ir::Jump(l)),
    }
}

/// Those of a loop behind its body; the labels of the last part begin at `k`.
fn end_loop(
    code: &mut Seq<Ir>,
    alloc: Global,
    program: &Program,
    io: &IoTable,
    c: Option<&Expr>,
    last: Option<&Expr>,
    l: u64,
    k: u64,
) -> Result<(), NoMemory>
    requires { IsLaidOut (plain_program program.now) }
    ensures { OnOk result (Emits code.old.items code.new.items (λ rest. let program = plain_program program.now in
        let table = plain_table io.now in
        label (l + 2) ∷ last_code program table (option_map plain_expr (option_copied last.entry)) k
        (label l ∷ test_code program table (option_map plain_expr (option_copied c.entry)) l rest))) }
{
    let on = continue_label(l)?;
    put(code, Ir::Label(on))?;
    lower_last(code, alloc, program, io, last, k)?;
    put(code, Ir::Label(l))?;
    lower_test(code, alloc, program, io, c, l)
}

// ---- statements

/// Appends the operations of a statement, with labels from `l` on; a `break` goes to the label `out` and a `continue` to
/// the label `on`. Answers the first label that is free.
#[cycle(lower)]
pub fn lower_stmt(
    code: &mut Seq<Ir>,
    alloc: Global,
    program: &Program,
    io: &IoTable,
    s: &Stmt,
    l: u64,
    out: u64,
    on: u64,
) -> Result<u64, NoMemory>
    requires { IsLaidOut (plain_program program.now) }
    ensures next { IfOk result (λ m. m ≡ l + stmt_labels (plain_stmt s.now)) }
    ensures code { OnOk result (Emits code.old.items code.new.items
        (stmt_code (plain_program program.now) (plain_table io.now) (plain_stmt s.now) l out on)) }
{
    match &s.kind {
        StmtKind::Empty => Ok(l),
        StmtKind::Do1(e) => lower_unread(code, alloc, program, io, e, l, 0),
        StmtKind::Block(ss) => lower_stmts(code, alloc, program, io, ss.as_slice(), l, out, on),
        StmtKind::Local(o, values) => lower_local(
            code,
            alloc,
            program,
            io,
            *o,
            values.as_slice(),
            l,
        ),
        StmtKind::If(c, a, b) => match b {
            None => lower_if(code, alloc, program, io, c, a, l, out, on),
            Some(b) => lower_if_else(code, alloc, program, io, c, a, b, l, out, on),
        },
        StmtKind::While(c, body) => lower_loop(code, alloc, program, io, Some(c), None, body, l),
        StmtKind::DoWhile(body, c) => lower_turns(code, alloc, program, io, Some(c), None, body, l),
        StmtKind::For(first, c, last, body) => match first {
            None => lower_loop(code, alloc, program, io, c.as_ref(), last.as_ref(), body, l),
            Some(first) => lower_for(
                code,
                alloc,
                program,
                io,
                first,
                c.as_ref(),
                last.as_ref(),
                body,
                l,
                out,
                on,
            ),
        },
        StmtKind::Break => {
            put(code, Ir::Jump(out))?;
            Ok(l)
        }
        StmtKind::Continue => {
            put(code, Ir::Jump(on))?;
            Ok(l)
        }
        StmtKind::Return(e) => lower_return(code, alloc, program, io, e.as_ref(), l, out, on),
    }
}

/// Those of the statements of a block.
#[cycle(lower)]
fn lower_stmts(
    code: &mut Seq<Ir>,
    alloc: Global,
    program: &Program,
    io: &IoTable,
    ss: &[Stmt],
    l: u64,
    out: u64,
    on: u64,
) -> Result<u64, NoMemory>
    requires { IsLaidOut (plain_program program.now) }
    ensures next { IfOk result (λ m. m ≡ l + stmts_labels (plain_stmts ss.now)) }
    ensures code { OnOk result (Emits code.old.items code.new.items
        (stmts_code (plain_program program.now) (plain_table io.now) (plain_stmts ss.now) l out on)) }
{
    let mut k = l;
    for s in ss {
        k = lower_stmt(code, alloc, program, io, s, k, out, on)?;
    }
    Ok(k)
}

/// Those of an `if` without `else`.
#[cycle(lower)]
fn lower_if(
    code: &mut Seq<Ir>,
    alloc: Global,
    program: &Program,
    io: &IoTable,
    c: &Expr,
    a: &Stmt,
    l: u64,
    out: u64,
    on: u64,
) -> Result<u64, NoMemory>
    requires { IsLaidOut (plain_program program.now) }
    ensures next { IfOk result (λ m. m ≡ l + kind_labels (branch (plain_expr c.now) (plain_stmt a.now) no_stmt)) }
    ensures code { OnOk result (Emits code.old.items code.new.items (kind_code (plain_program program.now)
        (plain_table io.now)
        (branch (plain_expr c.now) (plain_stmt a.now) no_stmt) l out on)) }
{
    let k = behind(l, 2)?;
    let k = lower_branch(code, alloc, program, io, c, k, 0, Branch::WhereZero(l))?;
    let m = lower_stmt(code, alloc, program, io, a, k, out, on)?;
    put(code, Ir::Label(l))?;
    Ok(m)
}

/// Those of an `if` with an `else`.
#[cycle(lower)]
fn lower_if_else(
    code: &mut Seq<Ir>,
    alloc: Global,
    program: &Program,
    io: &IoTable,
    c: &Expr,
    a: &Stmt,
    b: &Stmt,
    l: u64,
    out: u64,
    on: u64,
) -> Result<u64, NoMemory>
    requires { IsLaidOut (plain_program program.now) }
    ensures next { IfOk result (λ m. m ≡ l
        + kind_labels (branch (plain_expr c.now) (plain_stmt a.now) (a_stmt (plain_stmt b.now)))) }
    ensures code { OnOk result (Emits code.old.items code.new.items (kind_code (plain_program program.now)
        (plain_table io.now)
        (branch (plain_expr c.now) (plain_stmt a.now) (a_stmt (plain_stmt b.now))) l out on)) }
{
    let k = behind(l, 2)?;
    let k = lower_branch(code, alloc, program, io, c, k, 0, Branch::WhereZero(l))?;
    let k = lower_stmt(code, alloc, program, io, a, k, out, on)?;
    put_turn(code, l + 1, l)?;
    let m = lower_stmt(code, alloc, program, io, b, k, out, on)?;
    put(code, Ir::Label(l + 1))?;
    Ok(m)
}

/// Those of a loop that begins with its test, where it has one.
#[cycle(lower)]
fn lower_loop(
    code: &mut Seq<Ir>,
    alloc: Global,
    program: &Program,
    io: &IoTable,
    c: Option<&Expr>,
    last: Option<&Expr>,
    body: &Stmt,
    l: u64,
) -> Result<u64, NoMemory>
    requires { IsLaidOut (plain_program program.now) }
    ensures next { IfOk result (λ m. m ≡ l + 5 + optional_labels (option_map plain_expr (option_copied c.entry))
        + optional_labels (option_map plain_expr (option_copied last.entry)) + stmt_labels (plain_stmt body.now)) }
    ensures code { OnOk result (Emits code.old.items code.new.items (λ rest. let program = plain_program program.now in
        let table = plain_table io.now in
        let c = option_map plain_expr (option_copied c.entry) in
        let last = option_map plain_expr (option_copied last.entry) in
        entry_code c l (loop_code program table c last l (stmt_code program table (plain_stmt body.now)
        (l + 5 + optional_labels c + optional_labels last) (l + 1) (l + 2)) rest))) }
{
    begin_loop(code, c, l)?;
    lower_turns(code, alloc, program, io, c, last, body, l)
}

/// Those of a loop from its body on.
#[cycle(lower)]
fn lower_turns(
    code: &mut Seq<Ir>,
    alloc: Global,
    program: &Program,
    io: &IoTable,
    c: Option<&Expr>,
    last: Option<&Expr>,
    body: &Stmt,
    l: u64,
) -> Result<u64, NoMemory>
    requires { IsLaidOut (plain_program program.now) }
    ensures next { IfOk result (λ m. m ≡ l + 5 + optional_labels (option_map plain_expr (option_copied c.entry))
        + optional_labels (option_map plain_expr (option_copied last.entry)) + stmt_labels (plain_stmt body.now)) }
    ensures code { OnOk result (Emits code.old.items code.new.items (let program = plain_program program.now in
        let table = plain_table io.now in
        let c = option_map plain_expr (option_copied c.entry) in
        let last = option_map plain_expr (option_copied last.entry) in
        loop_code program table c last l (stmt_code program table (plain_stmt body.now)
        (l + 5 + optional_labels c + optional_labels last) (l + 1) (l + 2)))) }
{
    let own = behind(l, 5)?;
    let test = optional_labels(c)?;
    let k = behind(own, test)?;
    let count = optional_labels(last)?;
    let first = behind(k, count)?;
    let on = continue_label(l)?;
    put(code, Ir::Label(l + 3))?;
    let m = lower_stmt(code, alloc, program, io, body, first, l + 1, on)?;
    end_loop(code, alloc, program, io, c, last, l, k)?;
    Ok(m)
}

/// Those of a `for` with a first part.
#[cycle(lower)]
fn lower_for(
    code: &mut Seq<Ir>,
    alloc: Global,
    program: &Program,
    io: &IoTable,
    first: &Stmt,
    c: Option<&Expr>,
    last: Option<&Expr>,
    body: &Stmt,
    l: u64,
    out: u64,
    on: u64,
) -> Result<u64, NoMemory>
    requires { IsLaidOut (plain_program program.now) }
    ensures next { IfOk result (λ m. m ≡ l + kind_labels (for_loop (a_stmt (plain_stmt first.now))
        (option_map plain_expr (option_copied c.entry)) (option_map plain_expr (option_copied last.entry))
        (plain_stmt body.now))) }
    ensures code { OnOk result (Emits code.old.items code.new.items (kind_code (plain_program program.now)
        (plain_table io.now)
        (for_loop (a_stmt (plain_stmt first.now)) (option_map plain_expr (option_copied c.entry))
        (option_map plain_expr (option_copied last.entry)) (plain_stmt body.now)) l out on)) }
{
    let k = lower_stmt(code, alloc, program, io, first, l, out, on)?;
    lower_loop(code, alloc, program, io, c, last, body, k)
}
