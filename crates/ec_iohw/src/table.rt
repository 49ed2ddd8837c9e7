//! The ports of a map, by name.
ghost use Rattle.std.specs.Prelude.{◌≡◌, position};
ghost use Rattle.std.specs.Str.{bytes_eq};
ghost use Rattle.ec_iohw.specs.Names.{designated};
ghost use Rattle.ec_iohw.specs.Valid.{ValidIo};

use ec_space::{Name, Seq};

/// A port, or a buffer of `count` ports of `width` bytes each that follow one another.
#[derive(Drop)]
pub struct Port {
    pub name: Name,
    /// The data address of its first byte; with a dynamic group, how far it is from the base of the group's choice.
    pub address: u8,
    /// 1, 2 or 4 bytes.
    pub width: u8,
    /// From 1 to 220.
    pub count: u8,
    /// The place of its group in the table.
    pub group: Option<u16>,
    /// The place of its dynamic group in the table.
    pub dynamic: Option<u16>,
}

/// A byte that is written to a port address.
#[derive(Clone, Copy)]
pub struct Pair {
    /// The port's data address.
    pub port: u8,
    pub byte: u8,
}

/// What is written to acquire and to release a group of ports (`iogroup_acquire`, `iogroup_release`).
#[derive(Drop)]
pub struct PortGroup {
    pub name: Name,
    pub acquire: Seq<Pair>,
    pub release: Seq<Pair>,
}

/// A group that a dynamic group can be bound to (`iogroup_map`), and the data address from which the dynamic group's ports
/// then count theirs.
#[derive(Clone, Copy, Debug, PartialEq, Eq)]
pub struct Choice {
    /// The place of the group in the table.
    pub group: u16,
    pub base: u8,
}

/// A name that stands for one of several groups, as the program binds it.
#[derive(Drop)]
pub struct Dynamic {
    pub name: Name,
    /// From 1 to 8, with different groups and different bases.
    pub choices: Seq<Choice>,
}

/// The ports and groups that a program can name.
#[derive(Drop)]
pub struct IoTable {
    pub ports: Seq<Port>,
    pub groups: Seq<PortGroup>,
    pub dynamics: Seq<Dynamic>,
}

/// What a name designates, by its place in the table.
#[derive(Clone, Copy, Debug, PartialEq, Eq)]
pub enum Designator {
    Port(u16),
    Group(u16),
    Dynamic(u16),
}

fn port_named(ports: &[Port], name: &[u8]) -> Option<usize>
    ensures { result ≡ position (λ port. bytes_eq port.name.items name.now) ports.now }
{
    ports.iter().position(|port| port.name.as_slice() == name)
}

fn group_named(groups: &[PortGroup], name: &[u8]) -> Option<usize>
    ensures { result ≡ position (λ group. bytes_eq group.name.items name.now) groups.now }
{
    groups
        .iter()
        .position(|group| group.name.as_slice() == name)
}

fn dynamic_named(dynamics: &[Dynamic], name: &[u8]) -> Option<usize>
    ensures { result ≡ position (λ dynamic. bytes_eq dynamic.name.items name.now) dynamics.now }
{
    dynamics
        .iter()
        .position(|dynamic| dynamic.name.as_slice() == name)
}

impl IoTable {
    /// What a name designates: a group or a dynamic group where `group` holds, and else a port. None where neither a group
    /// nor a dynamic group, or no port, has the name.
    pub fn designator(&self, name: &Name, group: bool) -> Option<Designator>
        requires { ValidIo self.now }
        ensures { result ≡ designated self.now name.now.items group }
    {
        if group {
            match group_named(self.groups.as_slice(), name.as_slice()) {
                Some(at) => Some(Designator::Group(at as u16)),
                None => match dynamic_named(self.dynamics.as_slice(), name.as_slice()) {
                    Some(at) => Some(Designator::Dynamic(at as u16)),
                    None => None,
                },
            }
        } else {
            match port_named(self.ports.as_slice(), name.as_slice()) {
                Some(at) => Some(Designator::Port(at as u16)),
                None => None,
            }
        }
    }
}
