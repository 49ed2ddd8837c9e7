//! From texts to the bytes of units.
ghost use Rattle.std.specs.Prelude.{◌<◌, ◌^◌, All, IfOk, length};

use ec_space::{NoMemory, Seq};
use std::alloc::Global;

/// The bytes of a text. One of 100,000 bytes or more is no test.
fn bytes_of(alloc: Global, text: &str) -> Result<Seq<u8>, NoMemory>
    ensures { IfOk result (λ bytes. length bytes.items < 2 ^ 32) }
{
    let mut bytes = Seq::new(alloc);
    bytes.extend_from_slice(text.as_bytes())?;
    if bytes.len() < 100_000 {
        Ok(bytes)
    } else {
        Err(NoMemory)
    }
}

/// The bytes of each text.
pub fn sources_of(alloc: Global, texts: &[&str]) -> Result<Seq<Seq<u8>>, NoMemory>
    ensures { IfOk result (λ sources. All (λ s. length s.items < 2 ^ 32) sources.items) }
{
    let mut sources = Seq::new(alloc);
    for text in texts {
        let bytes = bytes_of(alloc, *text)?;
        sources.push(bytes)?;
    }
    Ok(sources)
}
