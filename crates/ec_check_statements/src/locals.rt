//! Declarations in blocks (ISO/IEC 9899:1999, 6.7 and 6.8.2).
ghost use Rattle.std.specs.Prelude.{◌≡◌, IfOk, OnOk, IfSome, List, ◌∷◌, Some, true, map, length, option_map};
ghost use Rattle.ec_core.specs.Layout.{IsObjectType};
ghost use Rattle.ec_core.specs.Plain.{plain_type, plain_expr, plain_exprs, plain_stmt, statement, declare};
ghost use Rattle.ec_check_operands.specs.Faults.{all_judged};
ghost use Rattle.ec_grammar.specs.Views.{view_option, view_start, view_declarator, view_init_declarator};
ghost use Rattle.ec_grammar.specs.Views.{view_next_init_declarator, view_declaration, view_specs};
ghost use Rattle.ec_check_names.specs.Names.{plain_names};
ghost use Rattle.ec_check_names.specs.Specifiers.{specified, specs_rules, storages_of};
ghost use Rattle.ec_check_operands.specs.Operands.{with_both};
ghost use Rattle.ec_check_expressions.specs.Callees.{exprs_of};
ghost use Rattle.ec_check_declarations.specs.Declarators.{plain_declared_object};
ghost use Rattle.ec_check_declarations.specs.Scopes.{IsSoundContext, plain_context, plain_scope};
ghost use Rattle.ec_check_declarations.specs.Sites.{Site, on, told, Walked};
ghost use Rattle.ec_check_statements.specs.Around.{plain_around};
ghost use Rattle.ec_check_statements.specs.Locals.{first_declarator, with_local, initial_values, initial_sites, plain_local};
ghost use Rattle.ec_check_statements.specs.Locals.{local_declared, local_made, started, local_statement, local_name_rules};
ghost use Rattle.ec_check_statements.specs.Locals.{declarator_sites};
ghost use Rattle.ec_check_statements.specs.Locals.{started_sites, local_sites, with_locals, locals_before, locals_sites};
ghost use Rattle.ec_check_statements.specs.Locals.{after_declaration, declaration_before, storage_rules, declaration_sites};
ghost use Rattle.ec_check_statements.specs.Walks.{plain_kept, before, followed, WalkedThrough, WalkedOn};

use crate::around::Around;
use crate::kept::{Stmts, keep};
use crate::parts::known_in;
use ec_check_declarations::{Context, ObjectDeclared, Scope, declared_object};
use ec_check_initialisers::{Values, local_values};
use ec_check_names::{Names, Specified, is_function, judge_specs, storages_of};
use ec_check_operands::Faults;
use ec_core::{CType, Expr, Stmt, StmtKind, Storage};
use ec_grammar::{Declaration, Declarator, InitDeclarator, NextInitDeclarator, Start};
use ec_space::{NoMemory, Seq};
use std::alloc::Global;

// ---- initialisers

fn listed<T: Drop>(alloc: Global, es: Vec<T>) -> Result<Seq<T>, NoMemory>
    ensures { IfOk result (λ all. all.items ≡ es.items) }
{
    let mut all = Seq::new(alloc);
    for e in es {
        all.push(e)?;
    }
    Ok(all)
}

#[tactic(auto, using(crate::proofs::Lists::exprs_are))]
fn listed_values(alloc: Global, es: Values) -> Result<Option<Seq<Expr>>, NoMemory>
    ensures { IfOk result (λ all. option_map (λ s. plain_exprs s.items) all
        ≡ option_map exprs_of (option_map (λ v. map plain_expr v.items) es)) }
{
    let Some(es) = es else {
        return Ok(None);
    };
    let es = listed(alloc, es)?;
    Ok(Some(es))
}

/// The values of all leaves of an object of a type, or no values where there is no initialiser.
#[tactic(auto, unfolding(crate::specs::Locals::initial_values, crate::specs::Locals::initial_sites))]
fn initial_values(
    alloc: Global,
    context: &Context,
    names: &Names,
    faults: &mut Faults,
    start: &Option<Start>,
    ty: &Option<CType>,
) -> Result<Option<Seq<Expr>>, NoMemory>
    requires sound { IsSoundContext (plain_context context.now) }
    requires object { IfSome (option_map plain_type ty.now) (IsObjectType (length context.now.structs.now.items)) }
    ensures { let c = plain_context context.now in let n = plain_names names.now in
        let i = view_option view_start start.now in let t = option_map plain_type ty.now in
        IfOk result (λ es. Walked faults.old.least faults.new.least (initial_sites c n i t)
        (option_map (λ es. plain_exprs es.items) es) (initial_values c n i t)) }
{
    let Some(start) = start else {
        return Ok(Some(Seq::new(alloc)));
    };
    let known = known_in(context, names);
    let es = local_values(alloc, &known, faults, &start.value, ty)?;
    listed_values(alloc, es)
}

// ---- one declarator

fn first_declarator(d: &Declarator) -> u32
    ensures { result ≡ first_declarator (view_declarator d.now) }
{
    match d.stars.as_slice() {
        [] => d.name.spot.index,
        [star, ..] => star.spot.index,
    }
}

/// An object that is declared in a block.
#[derive(Drop)]
pub(crate) struct LocalObject {
    /// None where the declarator breaks a rule of types or sizes.
    pub ty: Option<CType>,
    /// Its place in the program's list, or None where its type is not known.
    pub number: Option<u16>,
}

fn judge_name(faults: &mut Faults, around: &Around, scope: &Scope, d: &Declarator)
    ensures { faults.new.least ≡ all_judged faults.old.least
        (local_name_rules (plain_around around.now) (view_declarator d.now) (plain_scope scope.now).names) }
{
    let again = scope.is_declared_since(around.first, &d.name.name);
    faults.judge(5, again, d.name.spot.index);
    faults.judge(16, is_function(&d.shape), d.name.spot.index);
}

/// What a declarator says of its object, and the rules before the initialiser.
#[tactic(auto, unfolding(crate::specs::Locals::declarator_sites, crate::specs::Locals::local_declared))]
fn declared(
    alloc: Global,
    context: &Context,
    around: &Around,
    scope: &Scope,
    faults: &mut Faults,
    said: Specified,
    d: &InitDeclarator,
) -> Result<ObjectDeclared, NoMemory>
    requires { IsSoundContext (plain_context context.now) }
    ensures walked { let c = plain_context context.now in let r = plain_around around.now in
        let s = plain_scope scope.now in let t = view_init_declarator d.now in
        IfOk result (λ o. Walked faults.old.least faults.new.least (declarator_sites c r said t s)
        (plain_declared_object o) (local_declared c s.names said t)) }
    ensures object { IfOk result (λ o. IfSome (option_map plain_type o.ty)
        (IsObjectType (length context.now.structs.now.items))) }
{
    let known = known_in(context, &scope.names);
    let o = declared_object(alloc, &known, faults, false, said, &d.declarator, &d.start)?;
    judge_name(faults, around, scope, &d.declarator);
    Ok(o)
}

/// Declares the object of a declarator.
fn declare(
    alloc: Global,
    context: &Context,
    around: &Around,
    scope: &mut Scope,
    faults: &mut Faults,
    said: Specified,
    d: &InitDeclarator,
) -> Result<LocalObject, NoMemory>
    requires { IsSoundContext (plain_context context.now) }
    ensures walked { let c = plain_context context.now in let r = plain_around around.now in
        let s = plain_scope scope.old in let t = view_init_declarator d.now in
        IfOk result (λ o. WalkedThrough faults.old.least faults.new.least (declarator_sites c r said t s)
        (plain_local o) (local_made c said t s) (plain_scope scope.new) (with_local c r said t s)) }
    ensures object { IfOk result (λ o. IfSome (option_map plain_type o.ty)
        (IsObjectType (length context.now.structs.now.items))) }
{
    let o = declared(alloc, context, around, scope, faults, said, d)?;
    let name = &d.declarator.name.name;
    let storage = Storage::Local(around.function);
    let number = scope.declare_inner(alloc, around.unit, name, &o.ty, o.konst, storage)?;
    Ok(LocalObject { ty: o.ty, number })
}

fn with_values(unit: u8, at: u32, number: Option<u16>, values: Option<Seq<Expr>>) -> Option<Stmt>
    ensures { option_map plain_stmt result ≡ with_both number (option_map (λ es. plain_exprs es.items) values)
        (λ n values. Some (statement unit at (declare n values))) }
{
    let Some(number) = number else {
        return None;
    };
    let Some(values) = values else {
        return None;
    };
    Some(Stmt {
        unit,
        at,
        kind: StmtKind::Local(number, values),
    })
}

/// The statement of a declarator whose object was declared.
#[tactic(auto, unfolding(crate::specs::Locals::started, crate::specs::Locals::started_sites))]
fn started(
    alloc: Global,
    context: &Context,
    around: &Around,
    names: &Names,
    faults: &mut Faults,
    d: &InitDeclarator,
    o: &LocalObject,
) -> Result<Option<Stmt>, NoMemory>
    requires sound { IsSoundContext (plain_context context.now) }
    requires object { IfSome (option_map plain_type o.now.ty) (IsObjectType (length context.now.structs.now.items)) }
    ensures { let c = plain_context context.now in let r = plain_around around.now in let n = plain_names names.now in
        let t = view_init_declarator d.now in let p = plain_local o.now in
        IfOk result (λ x. Walked faults.old.least faults.new.least (started_sites c t p n)
        (option_map plain_stmt x) (started c r t p n)) }
{
    let values = initial_values(alloc, context, names, faults, &d.start, &o.ty)?;
    let at = first_declarator(&d.declarator);
    Ok(with_values(around.unit, at, o.number, values))
}

/// The statement of a declarator.
pub(crate) fn local(
    alloc: Global,
    context: &Context,
    around: &Around,
    scope: &mut Scope,
    faults: &mut Faults,
    said: Specified,
    d: &InitDeclarator,
) -> Result<Option<Stmt>, NoMemory>
    requires { IsSoundContext (plain_context context.now) }
    ensures { let c = plain_context context.now in let r = plain_around around.now in
        let s = plain_scope scope.old in let t = view_init_declarator d.now in
        IfOk result (λ x. WalkedThrough faults.old.least faults.new.least (local_sites c r said t s)
        (option_map plain_stmt x) (local_statement c r said t s) (plain_scope scope.new) (with_local c r said t s)) }
{
    let o = declare(alloc, context, around, scope, faults, said, d)?;
    let x = started(alloc, context, around, &scope.names, faults, d, &o);
    drop(o);
    x
}

// ---- all declarators

/// Puts the statement of a declarator behind others.
fn keep_local(
    alloc: Global,
    context: &Context,
    around: &Around,
    scope: &mut Scope,
    faults: &mut Faults,
    said: Specified,
    d: &InitDeclarator,
    stmts: &mut Stmts,
) -> Result<(), NoMemory>
    requires { IsSoundContext (plain_context context.now) }
    ensures { let c = plain_context context.now in let r = plain_around around.now in
        let s = plain_scope scope.old in let t = view_init_declarator d.now in
        OnOk result (WalkedOn faults.old.least faults.new.least (local_sites c r said t s)
        (plain_kept stmts.old) (plain_kept stmts.new) (followed (local_statement c r said t s))
        (plain_scope scope.new) (with_local c r said t s)) }
{
    let x = local(alloc, context, around, scope, faults, said, d)?;
    keep(stmts, x)
}

fn keep_locals(
    alloc: Global,
    context: &Context,
    around: &Around,
    scope: &mut Scope,
    faults: &mut Faults,
    said: Specified,
    more: &[NextInitDeclarator],
    stmts: &mut Stmts,
) -> Result<(), NoMemory>
    requires { IsSoundContext (plain_context context.now) }
    ensures { let c = plain_context context.now in let r = plain_around around.now in
        let s = plain_scope scope.old in let ts = map view_next_init_declarator more.now in
        OnOk result (WalkedOn faults.old.least faults.new.least (locals_sites c r said ts s)
        (plain_kept stmts.old) (plain_kept stmts.new) (locals_before c r said ts s)
        (plain_scope scope.new) (with_locals c r said ts s)) }
{
    for d in more {
        keep_local(
            alloc,
            context,
            around,
            scope,
            faults,
            said,
            &d.declarator,
            stmts,
        )?;
    }
    Ok(())
}

fn judge_storage(faults: &mut Faults, word: Option<ec_check_names::Storage>)
    ensures { faults.new.least ≡ all_judged faults.old.least (storage_rules word) }
{
    if let Some(word) = word {
        faults.judge(16, true, word.at);
    }
}

/// The specifiers of a declaration in a block.
pub(crate) fn judge_specifiers(faults: &mut Faults, context: &Context, d: &Declaration) -> Specified
    ensures value { result ≡ specified (plain_context context.now).tags (view_specs d.now.specs) }
    ensures noted { let ss = view_specs d.now.specs in (rest : List Site) → told faults.new.least rest
        ≡ told faults.old.least
        (on (specs_rules (plain_context context.now).tags true ss (storage_rules (storages_of ss).first)) ∷ rest) }
{
    let said = judge_specs(faults, context.tags, true, &d.specs);
    judge_storage(faults, storages_of(&d.specs).first);
    said
}

/// Puts the statements of a declaration behind others. Judges the rules of its specifiers and declarators; rule 16 at a
/// storage word, and at the name of a function; rule 5 at a name that the innermost block has declared before; and the
/// rules of initialisers.
pub(crate) fn keep_declaration(
    alloc: Global,
    context: &Context,
    around: &Around,
    scope: &mut Scope,
    faults: &mut Faults,
    d: &Declaration,
    stmts: &mut Stmts,
) -> Result<(), NoMemory>
    requires { IsSoundContext (plain_context context.now) }
    ensures { let c = plain_context context.now in let r = plain_around around.now in
        let s = plain_scope scope.old in let t = view_declaration d.now in
        OnOk result (WalkedOn faults.old.least faults.new.least (declaration_sites c r t s)
        (plain_kept stmts.old) (plain_kept stmts.new) (declaration_before c r t s)
        (plain_scope scope.new) (after_declaration c r t s)) }
{
    let said = judge_specifiers(faults, context, d);
    keep_local(alloc, context, around, scope, faults, said, &d.first, stmts)?;
    keep_locals(alloc, context, around, scope, faults, said, &d.more, stmts)
}
