//! The core of a map, and where what stands on a core ends.
ghost use Rattle.std.specs.Prelude.{◌≡◌};
ghost use Rattle.toml.specs.View.{view};
ghost use Rattle.ec_map.specs.Cores.{core_named, core_at, core_of, home_end, last_place};

use crate::values::text_at;
use ec_space::{Core, Home};
use toml::Value;

/// A core by its name.
fn core_named(name: &str) -> Option<Core>
    ensures { result ≡ core_named name.now }
{
    if name == "small" {
        Some(Core::Small)
    } else if name == "large" {
        Some(Core::Large)
    } else {
        None
    }
}

/// The core that a map names, where it names one.
pub(crate) fn core_at(root: &Value) -> Option<Core>
    ensures { result ≡ core_at (view root.now) }
{
    match text_at(root, "core") {
        Some(name) => core_named(name),
        None => None,
    }
}

/// The same, and the core `small` where it names none.
pub(crate) fn core_of(root: &Value) -> Core
    ensures { result ≡ core_of (view root.now) }
{
    core_at(root).unwrap_or(Core::Small)
}

/// One past the last byte that objects of a home can have on a core. They lie in its flash or its SRAM, and the pointer
/// past the last of them is one that the bytes of a pointer denote.
pub fn home_end(home: Home, core: Core) -> u32
    ensures { result ≡ home_end home core }
{
    match (home, core) {
        (Home::Flash, Core::Small) => 32_768,
        (Home::Flash, Core::Large) => 65_535,
        (Home::Far, Core::Small) => 32_768,
        (Home::Far, Core::Large) => 131_071,
        (Home::Data, _) => core.data_size(),
    }
}

/// The greatest address at which a map can place an object.
pub(crate) fn last_place(core: Core) -> u32
    ensures { result ≡ last_place core }
{
    match core {
        Core::Small => 65_535,
        Core::Large => 131_071,
    }
}
