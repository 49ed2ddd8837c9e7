//! What the regions need.
ghost use Rattle.std.specs.Prelude.{◌≡◌};
ghost use Rattle.ec_locate.specs.Needs.{told, shortage_of, or_else, first_shortage};

use crate::stop::RegionName;
use ec_map::{Map, Region};

/// The bytes that each region has to have.
#[derive(Clone, Copy)]
pub struct Needs {
    pub tables: u64,
    pub far: u64,
    pub vars: u64,
    pub stack: u64,
    pub code: u64,
}

/// A region that is too small.
#[derive(Clone, Copy)]
pub struct Shortage {
    pub region: RegionName,
    /// The bytes that it has to have, 4,294,967,295 where they are more.
    pub needed: u32,
    pub available: u32,
}

fn told(needed: u64) -> u32
    ensures { result ≡ told needed }
{
    if needed <= 4_294_967_295 {
        needed as u32
    } else {
        4_294_967_295
    }
}

fn shortage_of(name: RegionName, region: Region, needed: u64) -> Option<Shortage>
    ensures { result ≡ shortage_of name region needed }
{
    if u64::from(region.size) < needed {
        Some(Shortage {
            region: name,
            needed: told(needed),
            available: region.size,
        })
    } else {
        None
    }
}

fn or_else(first: Option<Shortage>, next: Option<Shortage>) -> Option<Shortage>
    ensures { result ≡ or_else first next }
{
    match first {
        Some(shortage) => Some(shortage),
        None => next,
    }
}

/// The first of tables, far, data, stack and code that is too small.
pub(crate) fn first_shortage(map: &Map, needs: Needs) -> Option<Shortage>
    ensures { result ≡ first_shortage map.now needs }
{
    let tables = shortage_of(RegionName::Tables, map.tables, needs.tables);
    let far = shortage_of(RegionName::Far, map.far, needs.far);
    let vars = shortage_of(RegionName::Data, map.vars, needs.vars);
    let stack = shortage_of(RegionName::Stack, map.stack, needs.stack);
    let code = shortage_of(RegionName::Code, map.code, needs.code);
    or_else(tables, or_else(far, or_else(vars, or_else(stack, code))))
}
