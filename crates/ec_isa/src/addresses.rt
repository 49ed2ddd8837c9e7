//! What the data addresses are, and where pointers go.
ghost use Rattle.std.specs.Prelude.{◌≡◌, nat_le, not};
ghost use Rattle.ec_isa.specs.Addresses.{is_core_register as is_core_register_at, is_port as is_port_at};
ghost use Rattle.ec_isa.specs.Addresses.{has_rampz as has_rampz_of};
ghost use Rattle.ec_isa.specs.Addresses.{raised as raised_of, lowered as lowered_of};

use ec_space::Core;

/// Whether a core has the register RAMPZ, which extends Z, and the instruction ELPM, which loads from flash by both.
pub fn has_rampz(core: Core) -> bool
    ensures { result ≡ has_rampz_of core }
{
    match core {
        Core::Small => false,
        Core::Large => true,
    }
}

/// Whether a data address is that of R0 to R31, SPL, SPH, SREG or, where the core has it, RAMPZ (data memory maps of the
/// ATmega328P and the ATmega1284P).
pub fn is_core_register(core: Core, at: u16) -> bool
    ensures { result ≡ is_core_register_at core at }
{
    at < 32 || at == 0x5D || at == 0x5E || at == 0x5F || at == 0x5B && has_rampz(core)
}

/// Whether a data address is that of a port: it is below 0x0100, and that of none of the core's own registers.
pub fn is_port(core: Core, at: u16) -> bool
    ensures { result ≡ is_port_at core at }
{
    at < 256 && !is_core_register(core, at)
}

/// Whether memory keeps what is stored at a data address, as it does everywhere but at ports.
pub fn is_kept(core: Core, at: u16) -> bool
    ensures { result ≡ not (is_port_at core at) }
{
    !is_port(core, at)
}

/// Whether a data address lies past those of registers and ports, where the SRAM begins. A push or pop before it is a
/// fault, and leaves the stack pointer.
pub fn is_past_ports(at: u16) -> bool
    ensures { result ≡ nat_le 256 at }
{
    256 <= at
}

/// The next address, by modulo 65,536.
pub fn raised(at: u16) -> u16
    ensures { result ≡ raised_of at }
{
    at.wrapping_add(1)
}

/// The address before, by modulo 65,536.
pub fn lowered(at: u16) -> u16
    ensures { result ≡ lowered_of at }
{
    at.wrapping_sub(1)
}

/// The address by which a load or store with post-increment goes, and its pointer afterwards: the old pointer, and the
/// next address (Microchip AVR Instruction Set Manual, LD, ST and LPM).
pub fn post_increment(pointer: u16) -> (u16, u16)
    ensures by { result.0 ≡ pointer }
    ensures after { result.1 ≡ raised_of pointer }
{
    (pointer, raised(pointer))
}
