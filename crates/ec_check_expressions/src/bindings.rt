//! What `iogroup_map` binds, by its arguments (ISO/IEC TR 18037:2008, 6.2).
ghost use Rattle.std.specs.Prelude.{◌≡◌, option_map};
ghost use Rattle.std.specs.Option.{option_copied};
ghost use Rattle.ec_grammar.specs.Views.{view_assignment, view_conditional, view_binary, view_cast, view_unary};
ghost use Rattle.ec_grammar.specs.Views.{view_postfix, view_primary, view_identifier, views_further};
ghost use Rattle.ec_iohw.specs.Valid.{ValidIo};
ghost use Rattle.ec_check_expressions.specs.Bindings.{bare_in_primary, bare_in_postfix, bare_in_unary, bare_in_cast, bare_in_binary};
ghost use Rattle.ec_check_expressions.specs.Bindings.{bare_in_conditional, bare_name, bound_by, binding_of};

use ec_check_forms::{Binding, binding_named};
use ec_grammar::{
    Argument, Assignment, Binary, Cast, Conditional, Identifier, Postfix, Primary, Unary,
};
use ec_iohw::IoTable;

// ---- a bare name

fn bare_in_primary(e: &Primary) -> Option<&Identifier>
    ensures { option_map view_identifier (option_copied result) ≡ bare_in_primary (view_primary e.now) }
{
    match e {
        Primary::Name(n) => Some(n),
        Primary::Constant(_, _)
        | Primary::Parenthesised(_, _, _)
        | Primary::Operation(_, _, _, _, _, _) => None,
    }
}

fn bare_in_postfix(e: &Postfix) -> Option<&Identifier>
    ensures { option_map view_identifier (option_copied result) ≡ bare_in_postfix (view_postfix e.now) }
{
    match e {
        Postfix::Primary(p) => bare_in_primary(p),
        Postfix::Index(_, _, _, _)
        | Postfix::Call(_, _, _, _)
        | Postfix::Member(_, _, _, _)
        | Postfix::Stepped(_, _, _) => None,
    }
}

fn bare_in_unary(e: &Unary) -> Option<&Identifier>
    ensures { option_map view_identifier (option_copied result) ≡ bare_in_unary (view_unary e.now) }
{
    match e {
        Unary::Postfix(p) => bare_in_postfix(p),
        Unary::Step(_, _, _) | Unary::Prefix(_, _, _) | Unary::Size(_, _, _, _) => None,
    }
}

fn bare_in_cast(e: &Cast) -> Option<&Identifier>
    ensures { option_map view_identifier (option_copied result) ≡ bare_in_cast (view_cast e.now) }
{
    match e {
        Cast::Uncast(u) => bare_in_unary(u),
        Cast::Convert(_, _, _, _) => None,
    }
}

fn bare_in_binary(e: &Binary) -> Option<&Identifier>
    ensures { option_map view_identifier (option_copied result) ≡ bare_in_binary (view_binary e.now) }
{
    match e {
        Binary::Operand(c) => bare_in_cast(c),
        Binary::Join(_, _, _, _) => None,
    }
}

fn bare_in_conditional(e: &Conditional) -> Option<&Identifier>
    ensures { option_map view_identifier (option_copied result) ≡ bare_in_conditional (view_conditional e.now) }
{
    match e {
        Conditional::Plain(b) => bare_in_binary(b),
        Conditional::Choose(_, _, _, _, _) => None,
    }
}

fn bare_name(e: &Assignment) -> Option<&Identifier>
    ensures { option_map view_identifier (option_copied result) ≡ bare_name (view_assignment e.now) }
{
    match e {
        Assignment::Value(c) => bare_in_conditional(c),
        Assignment::Assign(_, _, _, _) => None,
    }
}

// ---- the binding

fn bound_by(io: &IoTable, dynamic: &Identifier, group: Option<&Identifier>) -> Option<Binding>
    requires { ValidIo io.now }
    ensures { result ≡ bound_by io.now dynamic.now.name.items (option_map view_identifier (option_copied group.entry)) }
{
    let group = group?;
    binding_named(io, &dynamic.name, &group.name)
}

/// What is bound where the name of a dynamic group and then these are the arguments of `iogroup_map`.
pub(crate) fn binding_of(io: &IoTable, dynamic: &Identifier, more: &[Argument]) -> Option<Binding>
    requires { ValidIo io.now }
    ensures { result ≡ binding_of io.now dynamic.now.name.items (views_further more.now) }
{
    let [argument] = more else {
        return None;
    };
    bound_by(io, dynamic, bare_name(&argument.value))
}
