//! Reading the text of a map.
ghost use Rattle.std.specs.Prelude.{◌≡◌, ℕ, None, Some, IfOk, IsErrOf, IsSomeAnd, IsUtf8};
ghost use Rattle.toml.specs.View.{view};
ghost use Rattle.ec_map.specs.Values.{document};
ghost use Rattle.ec_map.specs.Rules.{broken};
ghost use Rattle.ec_map.specs.Maps.{IsMap, ValidMap};
ghost use Rattle.ec_map.specs.declared.read.MapStop.TheVariants.{NoMemory as OutOfMemory};

use crate::map::{Map, map_from};
use crate::rules::broken;
use ec_space::{NoMemory, Seq};
use std::alloc::Global;
use thiserror::Error;
use toml::Value;

/// Why a text is no map.
#[derive(Clone, Copy, Debug, PartialEq, Eq, Error)]
pub enum MapStop {
    /// The text is not UTF-8, or no TOML document.
    #[error("not TOML")]
    NotToml,
    /// The first rule that its table breaks, from 1 to 22.
    #[error("rule {0}")]
    MapRule(u8),
    #[error("no memory")]
    NoMemory,
}

impl From<NoMemory> for MapStop {
    ghost from_gives = { λ _ e. e ≡ OutOfMemory };

    fn from(_e: NoMemory) -> MapStop {
        MapStop::NoMemory
    }
}

/// The table that a text is read as.
fn document(alloc: Global, text: &[u8]) -> Result<Value, MapStop>
    ensures read { IfOk result (λ v. IsUtf8 text.now × (document text.now ≡ Some (view v))) }
    ensures not_toml { IsErrOf result MapStop.NotToml → IsUtf8 text.now → document text.now ≡ None }
    ensures no_rule { (k : ℕ) → ¬ IsErrOf result (MapStop.MapRule k) }
{
    match toml::table_from_slice(alloc, text) {
        Ok(table) => Ok(Value::Table(table)),
        Err(e) => Err(if e.is_memory() {
            MapStop::NoMemory
        } else {
            MapStop::NotToml
        }),
    }
}

/// The map that a table is, or the first rule that it breaks.
fn judge(alloc: Global, root: &Value) -> Result<Map, MapStop>
    ensures read { IfOk result (λ m. IsMap m (view root.now)) }
    ensures valid { IfOk result ValidMap }
    ensures toml { ¬ IsErrOf result MapStop.NotToml }
    ensures rule { (k : ℕ) → IsErrOf result (MapStop.MapRule k) → broken (view root.now) ≡ Some k }
{
    match broken(root) {
        Some(rule) => Err(MapStop::MapRule(rule)),
        None => {
            let map = map_from(alloc, root)?;
            Ok(map)
        }
    }
}

/// The map of a text, or the first rule that it breaks.
///
/// A map is a TOML document. Each rule is judged where all rules before it are kept:
///
/// 1. Its keys are among `core`, `region`, `port`, `group`, `place` and `dynamic`, and `core` and `region` are there.
/// 2. `core` is the string `small` or `large`.
/// 3. `region` is a table with the keys `code`, `tables`, `data`, `stack`, and no other but, where `core` is `large`,
///    `far`.
/// 4. Each is an array of two integers, the first address from 0 and the size from 1, both at most 131,072.
/// 5. On `small`, `code` and `tables` end by 32,768, and `data` and `stack` begin at 256 or later and end by 2,304. On
///    `large`, `code` ends by 131,072, `far` by 131,071 and `tables` by 65,535, and `data` and `stack` begin at 256 or
///    later and end by 16,640.
/// 6. `code` begins at 0 and its size is even.
/// 7. No two of `code`, `tables` and `far` share a byte, nor do `data` and `stack`.
/// 8. `port`, where present, is an array of at most 64 tables, each with `name`, `address`, `width` and no other key
///    but `count` and `group`.
/// 9. Each port's name is an identifier, and no two ports have the same.
/// 10. Each width is 1, 2 or 4; each `count`, 1 where absent, is from 1 to 220.
/// 11. Each address is an integer from 0 to 255, and for a port that is not dynamic all `width * count` bytes from it are
///     ports of the core. A port is dynamic where one of the tables of `dynamic` has its `group` as its `name`.
/// 12. `group`, where present, is an array of at most 16 tables with exactly `name`, `acquire` and `release`.
/// 13. Each group's name is an identifier, and no two groups have the same.
/// 14. `acquire` and `release` are arrays of at most 32 arrays of two integers.
/// 15. Each first integer is the address of a port of the core, each second is from 0 to 255.
/// 16. Each port's `group` is a string that names a group, or the port is dynamic.
/// 17. `place`, where present, is a table.
/// 18. Each of its values is an integer from 1 to 65,535 on `small`, and to 131,071 on `large`.
/// 19. `dynamic`, where present, is an array of at most 8 tables with exactly `name` and `choices`.
/// 20. Each of these names is an identifier, and no two names among groups and dynamic groups are the same.
/// 21. Each `choices` is an array of 1 to 8 arrays of a string, which names a group, and an integer from 0 to 255. No group
///     and no integer stands twice in one `choices`.
/// 22. For each dynamic port and each choice of its dynamic group, all `width * count` bytes from base + address are ports
///     of the core.
pub fn read_map(alloc: Global, bytes: &Seq<u8>) -> Result<Map, MapStop>
    ensures read { IfOk result (λ m. IsUtf8 bytes.now.items × IsSomeAnd (document bytes.now.items) (IsMap m)) }
    ensures valid { IfOk result ValidMap }
    ensures not_toml { IsErrOf result MapStop.NotToml → IsUtf8 bytes.now.items → document bytes.now.items ≡ None }
    ensures rule { (k : ℕ) → IsErrOf result (MapStop.MapRule k)
        → IsUtf8 bytes.now.items × IsSomeAnd (document bytes.now.items) (λ d. broken d ≡ Some k) }
{
    let root = document(alloc, bytes.as_slice())?;
    judge(alloc, &root)
}
