//! The tokens of a source text, by longest match.
#![tactic(auto)]

mod bytes;
mod constants;
mod directives;
mod lexing;
mod pieces;
mod scope;
mod stop;
mod words;

pub use ec_grammar::{
    GroupOp, IoOp, PragmaKind, PragmaState, PunctKind, Token, TokenKind, WordKind,
};
pub use lexing::lex;
pub use stop::LexStop;
