//! Why a list of tokens has no tree.
use thiserror::Error;

/// Why a list of tokens has no tree, with the index of the first token that cannot be gone on with.
#[derive(Clone, Copy, Debug, PartialEq, Eq, Error)]
pub enum ParseStop {
    /// No tree begins with the tokens before this one and this one.
    #[error("token {0}: unexpected")]
    Syntax(u32),
    /// At this token a limit of nesting is passed.
    #[error("token {0}: nested too deep")]
    TooDeep(u32),
    #[error("no memory")]
    NoMemory,
}
