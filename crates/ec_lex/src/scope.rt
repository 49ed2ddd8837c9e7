//! What a text has made known up to a place.
ghost use Rattle.std.specs.Prelude.{◌≡◌, option_map, map, IfOk};
ghost use Rattle.ec_grammar.specs.Tokens.{view_kind};
ghost use Rattle.ec_lex.specs.Words.{look_up, known_word, meaning};
ghost use Rattle.ec_lex.specs.Text.{nothing_known};
ghost use Rattle.ec_lex.specs.Views.{view_constant, view_define, view_scope};

use crate::constants::Constant;
use crate::words::{io_word, is_reserved, plain_word, stdfix_word, stdint_word};
use ec_grammar::TokenKind;
use ec_space::{Name, NoMemory, Seq};
use std::alloc::Global;

/// A name that stands for a constant.
#[derive(Drop)]
pub struct Define {
    pub name: Name,
    pub constant: Constant,
}

/// The headers and the defined names, and whether only white space stands before the place on its line.
#[derive(Drop)]
pub struct Scope {
    pub line_start: bool,
    pub stdint: bool,
    pub stdfix: bool,
    pub iohw: bool,
    pub defines: Seq<Define>,
}

/// The bytes as a name of their own.
pub fn name_of(alloc: Global, bytes: &[u8]) -> Result<Name, NoMemory>
    ensures { IfOk result (λ name. name.items ≡ bytes.now) }
{
    let mut name = Seq::new(alloc);
    name.extend_from_slice(bytes)?;
    Ok(name)
}

fn find_define(defines: &[Define], name: &[u8]) -> Option<Constant>
    ensures { option_map view_constant result ≡ look_up name.now (map view_define defines.now) }
{
    for define in defines {
        if name == define.name.as_slice() {
            return Some(define.constant);
        }
    }
    None
}

impl Scope {
    /// What is known at the start of a text.
    pub fn new(alloc: Global) -> Scope
        ensures { view_scope result ≡ nothing_known }
    {
        Scope {
            line_start: true,
            stdint: false,
            stdfix: false,
            iohw: false,
            defines: Seq::new(alloc),
        }
    }

    /// The constant that the name stands for.
    pub fn defined(&self, name: &[u8]) -> Option<Constant>
        ensures { option_map view_constant result ≡ look_up name.now (view_scope self.now).defines }
    {
        find_define(self.defines.as_slice(), name)
    }

    /// The word that the name is.
    pub fn known_word(&self, name: &[u8]) -> Option<TokenKind>
        ensures { option_map view_kind result ≡ known_word (view_scope self.now) name.now }
    {
        if let Some(kind) = plain_word(name) {
            return Some(kind);
        }
        if self.stdint {
            if let Some(kind) = stdint_word(name) {
                return Some(kind);
            }
        }
        if self.stdfix {
            if let Some(kind) = stdfix_word(name) {
                return Some(kind);
            }
        }
        if self.iohw { io_word(name) } else { None }
    }

    /// The token of an identifier.
    pub fn meaning(&self, alloc: Global, name: &[u8]) -> Result<TokenKind, NoMemory>
        ensures { IfOk result (λ kind. view_kind kind ≡ meaning (view_scope self.now) name.now) }
    {
        if let Some(constant) = self.defined(name) {
            return Ok(constant.token());
        }
        if let Some(kind) = self.known_word(name) {
            return Ok(kind);
        }
        if is_reserved(name) {
            return Ok(TokenKind::Reserved);
        }
        let name = name_of(alloc, name)?;
        Ok(TokenKind::Name(name))
    }
}
