//! The regions that a map divides the banks into.
ghost use Rattle.std.specs.Prelude.{◌≡◌, ◌+◌, ◌<◌, ◌^◌};
ghost use Rattle.toml.specs.View.{view, items_view};
ghost use Rattle.ec_map.specs.Regions.{region_in, region_of, region_at, regions_in, regions_of, bytes_from, no_bytes};
ghost use Rattle.ec_map.specs.Regions.{far_of, lies_in, are_in_flash, are_in_sram, are_in_banks, is_code, share_no_byte, are_apart};

use crate::cores::home_end;
use crate::rules::lie_in;
use crate::values::number_of;
use ec_space::{Core, Home};
use toml::Value;

/// Bytes of a bank that follow one another.
#[derive(Clone, Copy, Debug, PartialEq, Eq)]
pub struct Region {
    /// The address of the first byte.
    pub first: u32,
    /// How many bytes: at least 1, and 0 for a region that the map does not have.
    pub size: u32,
}

/// What stands in which bytes of the banks.
#[derive(Clone, Copy, Debug, PartialEq, Eq)]
pub struct Regions {
    /// The code, in flash from address 0.
    pub code: Region,
    /// Flash objects and initial bytes, in flash.
    pub tables: Region,
    /// Far objects, in flash. The core `small` has no such region.
    pub far: Region,
    /// The region `data`, in SRAM.
    pub vars: Region,
    /// The stack, in SRAM.
    pub stack: Region,
}

/// The greatest first address and size that a map can name.
const LIMIT: u32 = 131_072;

/// A region that a map does not have.
fn no_bytes() -> Region
    ensures { result ≡ no_bytes }
{
    Region { first: 0, size: 0 }
}

/// The region of two numbers, where the size is at least 1.
fn bytes_from(first: Option<u32>, size: Option<u32>) -> Option<Region>
    ensures { result ≡ bytes_from first size }
{
    let first = first?;
    let size = size?;
    if 1 <= size {
        Some(Region { first, size })
    } else {
        None
    }
}

/// The region that an array of two numbers is.
fn region_in(values: &[Value]) -> Option<Region>
    ensures { result ≡ region_in (items_view values.now) }
{
    match values {
        [first, size] => bytes_from(number_of(first, LIMIT), number_of(size, LIMIT)),
        _ => None,
    }
}

fn region_of(value: &Value) -> Option<Region>
    ensures { result ≡ region_of (view value.now) }
{
    match value.as_array() {
        Some(values) => region_in(values.as_slice()),
        None => None,
    }
}

fn region_at(table: &Value, key: &str) -> Option<Region>
    ensures { result ≡ region_at key.now (view table.now) }
{
    match table.get(key) {
        Some(value) => region_of(value),
        None => None,
    }
}

/// The region `far`, which the core `small` does not have, and `large` may have.
fn far_of(core: Core, table: &Value) -> Option<Region>
    ensures { result ≡ far_of core (view table.now) }
{
    match core {
        Core::Small => Some(no_bytes()),
        Core::Large => match table.get("far") {
            Some(value) => region_of(value),
            None => Some(no_bytes()),
        },
    }
}

fn regions_in(core: Core, table: &Value) -> Option<Regions>
    ensures { result ≡ regions_in core (view table.now) }
{
    Some(Regions {
        code: region_at(table, "code")?,
        tables: region_at(table, "tables")?,
        far: far_of(core, table)?,
        vars: region_at(table, "data")?,
        stack: region_at(table, "stack")?,
    })
}

/// The regions of a map. None where one of them is no array of two numbers in their ranges.
pub(crate) fn regions_of(core: Core, map: &Value) -> Option<Regions>
    ensures { result ≡ regions_of core (view map.now) }
{
    match map.get("region") {
        Some(table) => regions_in(core, table),
        None => None,
    }
}

impl Region {
    ghost use Rattle.ec_map.specs.Regions.{end_of};

    /// One past the last byte.
    pub fn end(self) -> u32
        requires { end_of self < 2 ^ 32 }
        ensures { result ≡ end_of self }
    {
        self.first + self.size
    }

    fn lies_in(self, from: u32, to: u32) -> bool
        ensures { result ≡ lies_in from to self }
    {
        lie_in(self.first, self.size, from, to)
    }

    fn shares_no_byte(self, other: Region) -> bool
        ensures { result ≡ share_no_byte self other }
    {
        let end = u64::from(self.first) + u64::from(self.size);
        let other_end = u64::from(other.first) + u64::from(other.size);
        end <= u64::from(other.first) || other_end <= u64::from(self.first)
    }
}

impl Regions {
    /// Whether code, tables and far lie in the flash of a core, where tables and far end with the objects of their homes.
    fn are_in_flash(self, core: Core) -> bool
        ensures { result ≡ are_in_flash core self }
    {
        let code = self.code.lies_in(0, core.flash_size());
        let tables = self.tables.lies_in(0, home_end(Home::Flash, core));
        let far = self.far.lies_in(0, home_end(Home::Far, core));
        code && tables && far
    }

    /// Whether data and stack lie in the SRAM of a core.
    fn are_in_sram(self, core: Core) -> bool
        ensures { result ≡ are_in_sram core self }
    {
        let end = core.data_size();
        self.vars.lies_in(256, end) && self.stack.lies_in(256, end)
    }

    /// Whether the regions lie in the flash and the SRAM of a core.
    pub(crate) fn are_in_banks(self, core: Core) -> bool
        ensures { result ≡ are_in_banks core self }
    {
        self.are_in_flash(core) && self.are_in_sram(core)
    }

    /// Whether the code begins at address 0 and has whole words.
    pub(crate) fn is_code(self) -> bool
        ensures { result ≡ is_code self }
    {
        self.code.first == 0 && self.code.size % 2 == 0
    }

    /// Whether no two regions of one bank share a byte.
    pub(crate) fn are_apart(self) -> bool
        ensures { result ≡ are_apart self }
    {
        let code = self.code.shares_no_byte(self.tables) && self.code.shares_no_byte(self.far);
        let flash = code && self.tables.shares_no_byte(self.far);
        flash && self.vars.shares_no_byte(self.stack)
    }
}
