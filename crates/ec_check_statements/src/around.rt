//! What stands around a statement, and the overflow states that pragmas set (ISO/IEC TR 18037:2008, 4.1.3).
ghost use Rattle.std.specs.Prelude.{◌≡◌};
ghost use Rattle.ec_check_names.specs.Names.{plain_names};
ghost use Rattle.ec_check_declarations.specs.Scopes.{IsSoundContext, plain_context};
ghost use Rattle.ec_check_statements.specs.Around.{plain_around, looping, within, is_saturating, with_pragma, with_pragmas};
ghost use Rattle.ec_check_statements.specs.Around.{under};

use ec_check_declarations::Context;
use ec_check_names::Names;
use ec_check_operands::Modes;
use ec_core::CType;
use ec_grammar::{Pragma, PragmaKind, PragmaState};

/// What stands around a statement.
#[derive(Clone, Copy)]
pub struct Around<'a> {
    /// The place of the function in the program's list.
    pub function: u16,
    /// The place of its unit, from 0.
    pub unit: u8,
    /// Whether a loop stands around.
    pub in_loop: bool,
    /// The type of the function's result, or None where its declaration breaks a rule.
    pub result: &'a Option<CType>,
    /// How many names of blocks there were where the innermost block began.
    pub first: usize,
}

impl<'a> Around<'a> {
    /// In the body of a loop.
    pub fn looping(&self) -> Around<'a>
        ensures { plain_around result ≡ looping (plain_around self.now) }
    {
        Around {
            function: self.function,
            unit: self.unit,
            in_loop: true,
            result: self.result,
            first: self.first,
        }
    }

    /// In a block that begins where these names are known.
    pub fn within(&self, names: &Names) -> Around<'a>
        ensures { plain_around result ≡ within (plain_around self.now) (plain_names names.now) }
    {
        Around {
            function: self.function,
            unit: self.unit,
            in_loop: self.in_loop,
            result: self.result,
            first: names.names_inside(),
        }
    }
}

// ---- pragmas

fn is_saturating(state: PragmaState) -> bool
    ensures { result ≡ is_saturating state }
{
    match state {
        PragmaState::Sat => true,
        PragmaState::On | PragmaState::Off | PragmaState::Default => false,
    }
}

/// The overflow states behind a pragma, which hold to the next one, and to the end of the block or unit.
pub fn with_pragma(modes: Modes, pragma: Pragma) -> Modes
    ensures { result ≡ with_pragma pragma modes }
{
    let saturates = is_saturating(pragma.state);
    match pragma.which {
        PragmaKind::Precision => modes,
        PragmaKind::Fract => Modes {
            fract: saturates,
            accum: modes.accum,
        },
        PragmaKind::Accum => Modes {
            fract: modes.fract,
            accum: saturates,
        },
    }
}

fn with_pragmas(pragmas: &[Pragma], modes: Modes) -> Modes
    ensures { result ≡ with_pragmas pragmas.now modes }
{
    let mut states = modes;
    for pragma in pragmas {
        states = with_pragma(states, *pragma);
    }
    states
}

/// What is known in a block that these pragmas begin.
pub fn under<'a>(pragmas: &[Pragma], context: &Context<'a>) -> Context<'a>
    requires { IsSoundContext (plain_context context.now) }
    ensures context { plain_context result ≡ under pragmas.now (plain_context context.now) }
    ensures sound { IsSoundContext (plain_context result) }
{
    Context {
        tags: context.tags,
        structs: context.structs,
        ports: context.ports,
        modes: with_pragmas(pragmas, context.modes),
    }
}
