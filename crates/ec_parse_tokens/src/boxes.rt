//! Trees on the heap.
ghost use Rattle.std.specs.Prelude.{◌≡◌, [], ◌∷◌, ◌++◌, IfOk, IfErr};
ghost use Rattle.ec_parse_tokens.specs.declared.stop.ReadError.TheVariants.{NoMemory as OutOfMemory};

use crate::stop::ReadError;
use crate::tokens::Source;

/// The value in a box of its own, unless memory runs out.
pub fn boxed<T: Drop>(source: Source, value: T) -> Result<Box<T>, ReadError>
    ensures kept { IfOk result (λ b. b.value ≡ value) }
    ensures memory { IfErr result (λ e. e ≡ OutOfMemory) }
{
    let value = Box::new(source.alloc, value)?;
    Ok(value)
}

/// One more value at the end, out of its box, unless memory runs out.
pub fn add<T: Drop>(all: &mut Vec<T>, value: Box<T>) -> Result<(), ReadError>
    ensures items { IfOk result (λ _. all.new.items ≡ all.old.items ++ value.value ∷ []) }
    ensures memory { IfErr result (λ e. e ≡ OutOfMemory) }
{
    all.push(Box::into_inner(value))?;
    Ok(())
}
