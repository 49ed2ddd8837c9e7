//! Values as bytes of a memory.
ghost use Rattle.std.specs.Prelude.{◌≡◌, ℕ, ◌^◌, ◌<◌, ◌≤◌, FitsSigned};
ghost use Rattle.std.specs.Int.{w8, w16, w32, w64, cast_signed, cast_unsigned};
ghost use Rattle.std.proofs.Common.{rules};
ghost use Rattle.std.proofs.lemmas.Int.{to_z-of_z, of_z-to_z};
ghost use Rattle.ec_space.specs.Bytes.{cell_bytes, cell_number};
ghost use Rattle.ec_space.specs.ByteLaws.{cell_number-cell_bytes};
ghost use Rattle.ec_space.specs.SignedBits.{cast_unsigned_fits, cast_signed_fits};

/// A type whose values a memory keeps as a fixed number of bytes, the lowest first and in two's complement.
///
/// Contracts see a value by `bits`, the unsigned number that its bits make.
pub trait Cell {
    /// How many bytes a value has, from 1 to 8.
    const SIZE: u8;

    ghost SIZE: { ℕ };

    // The numbers that are values of the type.
    ghost fits: { Self → Type 0 };

    // A value's bits as an unsigned number, and the value that has them.
    ghost bits: { Self → ℕ };

    ghost of_bits: { ℕ → Self };

    /// The value's bytes, the lowest first, and then zeros.
    fn to_bytes(self) -> [u8; 8]
        ensures fits { fits self }
        ensures bytes { result ≡ cell_bytes SIZE (bits self) };

    /// The value whose bytes are the first `SIZE` of these.
    fn from_bytes(b: [u8; 8]) -> Self
        ensures fits { fits result }
        ensures value { result ≡ of_bits (cell_number SIZE b) };

    ghost has_bytes: { 0 < SIZE };

    ghost in_eight: { SIZE ≤ 8 };

    ghost bits_fit: { (v : Self) → fits v → bits v < 256 ^ SIZE };

    ghost value_fits: { (n : ℕ) → n < 256 ^ SIZE → fits (of_bits n) };

    ghost of_bits_undoes: { (v : Self) → fits v → of_bits (bits v) ≡ v };

    ghost bits_undoes: { (n : ℕ) → n < 256 ^ SIZE → bits (of_bits n) ≡ n };

    // What `from_bytes` makes of what `to_bytes` gives.
    ghost reads_back: { (v : Self) → fits v → of_bits (cell_number SIZE (cell_bytes SIZE (bits v))) ≡ v };
}

impl Cell for u8 {
    const SIZE: u8 = 1;

    ghost SIZE = { 1 };

    ghost fits = { λ v. v < 2 ^ 8 };

    ghost bits = { λ v. v };

    ghost of_bits = { λ n. n };

    ghost has_bytes = { Prim.search rules };

    ghost in_eight = { Prim.search rules };

    ghost bits_fit = { Prim.search rules };

    ghost value_fits = { Prim.search rules };

    ghost of_bits_undoes = { Prim.search rules };

    ghost bits_undoes = { Prim.search rules };

    ghost reads_back = { λ v h. cell_number-cell_bytes 1 v (λ n. n) v h (Prim.search rules) };

    fn to_bytes(self) -> [u8; 8] {
        u64::from(self).to_le_bytes()
    }

    fn from_bytes(b: [u8; 8]) -> u8 {
        b[0]
    }
}

impl Cell for i8 {
    const SIZE: u8 = 1;

    ghost SIZE = { 1 };

    ghost fits = { FitsSigned w8 };

    ghost bits = { cast_unsigned w8 };

    ghost of_bits = { cast_signed w8 };

    ghost has_bytes = { Prim.search rules };

    ghost in_eight = { Prim.search rules };

    ghost bits_fit = { cast_unsigned_fits w8 };

    ghost value_fits = { cast_signed_fits w8 };

    ghost of_bits_undoes = { to_z-of_z w8 };

    ghost bits_undoes = { of_z-to_z w8 };

    ghost reads_back = { λ v h. cell_number-cell_bytes 1 (cast_unsigned w8 v) (cast_signed w8) v
        (cast_unsigned_fits w8 v h) (to_z-of_z w8 v h) };

    fn to_bytes(self) -> [u8; 8] {
        u64::from(self.cast_unsigned()).to_le_bytes()
    }

    fn from_bytes(b: [u8; 8]) -> i8 {
        b[0].cast_signed()
    }
}

impl Cell for u16 {
    const SIZE: u8 = 2;

    ghost SIZE = { 2 };

    ghost fits = { λ v. v < 2 ^ 16 };

    ghost bits = { λ v. v };

    ghost of_bits = { λ n. n };

    ghost has_bytes = { Prim.search rules };

    ghost in_eight = { Prim.search rules };

    ghost bits_fit = { Prim.search rules };

    ghost value_fits = { Prim.search rules };

    ghost of_bits_undoes = { Prim.search rules };

    ghost bits_undoes = { Prim.search rules };

    ghost reads_back = { λ v h. cell_number-cell_bytes 2 v (λ n. n) v h (Prim.search rules) };

    fn to_bytes(self) -> [u8; 8] {
        u64::from(self).to_le_bytes()
    }

    fn from_bytes(b: [u8; 8]) -> u16 {
        u16::from_le_bytes([b[0], b[1]])
    }
}

impl Cell for i16 {
    const SIZE: u8 = 2;

    ghost SIZE = { 2 };

    ghost fits = { FitsSigned w16 };

    ghost bits = { cast_unsigned w16 };

    ghost of_bits = { cast_signed w16 };

    ghost has_bytes = { Prim.search rules };

    ghost in_eight = { Prim.search rules };

    ghost bits_fit = { cast_unsigned_fits w16 };

    ghost value_fits = { cast_signed_fits w16 };

    ghost of_bits_undoes = { to_z-of_z w16 };

    ghost bits_undoes = { of_z-to_z w16 };

    ghost reads_back = { λ v h. cell_number-cell_bytes 2 (cast_unsigned w16 v) (cast_signed w16) v
        (cast_unsigned_fits w16 v h) (to_z-of_z w16 v h) };

    fn to_bytes(self) -> [u8; 8] {
        u64::from(self.cast_unsigned()).to_le_bytes()
    }

    fn from_bytes(b: [u8; 8]) -> i16 {
        i16::from_le_bytes([b[0], b[1]])
    }
}

impl Cell for u32 {
    const SIZE: u8 = 4;

    ghost SIZE = { 4 };

    ghost fits = { λ v. v < 2 ^ 32 };

    ghost bits = { λ v. v };

    ghost of_bits = { λ n. n };

    ghost has_bytes = { Prim.search rules };

    ghost in_eight = { Prim.search rules };

    ghost bits_fit = { Prim.search rules };

    ghost value_fits = { Prim.search rules };

    ghost of_bits_undoes = { Prim.search rules };

    ghost bits_undoes = { Prim.search rules };

    ghost reads_back = { λ v h. cell_number-cell_bytes 4 v (λ n. n) v h (Prim.search rules) };

    fn to_bytes(self) -> [u8; 8] {
        u64::from(self).to_le_bytes()
    }

    fn from_bytes(b: [u8; 8]) -> u32 {
        u32::from_le_bytes([b[0], b[1], b[2], b[3]])
    }
}

impl Cell for i32 {
    const SIZE: u8 = 4;

    ghost SIZE = { 4 };

    ghost fits = { FitsSigned w32 };

    ghost bits = { cast_unsigned w32 };

    ghost of_bits = { cast_signed w32 };

    ghost has_bytes = { Prim.search rules };

    ghost in_eight = { Prim.search rules };

    ghost bits_fit = { cast_unsigned_fits w32 };

    ghost value_fits = { cast_signed_fits w32 };

    ghost of_bits_undoes = { to_z-of_z w32 };

    ghost bits_undoes = { of_z-to_z w32 };

    ghost reads_back = { λ v h. cell_number-cell_bytes 4 (cast_unsigned w32 v) (cast_signed w32) v
        (cast_unsigned_fits w32 v h) (to_z-of_z w32 v h) };

    fn to_bytes(self) -> [u8; 8] {
        u64::from(self.cast_unsigned()).to_le_bytes()
    }

    fn from_bytes(b: [u8; 8]) -> i32 {
        i32::from_le_bytes([b[0], b[1], b[2], b[3]])
    }
}

impl Cell for u64 {
    const SIZE: u8 = 8;

    ghost SIZE = { 8 };

    ghost fits = { λ v. v < 2 ^ 64 };

    ghost bits = { λ v. v };

    ghost of_bits = { λ n. n };

    ghost has_bytes = { Prim.search rules };

    ghost in_eight = { Prim.search rules };

    ghost bits_fit = { Prim.search rules };

    ghost value_fits = { Prim.search rules };

    ghost of_bits_undoes = { Prim.search rules };

    ghost bits_undoes = { Prim.search rules };

    ghost reads_back = { λ v h. cell_number-cell_bytes 8 v (λ n. n) v h (Prim.search rules) };

    fn to_bytes(self) -> [u8; 8] {
        self.to_le_bytes()
    }

    fn from_bytes(b: [u8; 8]) -> u64 {
        u64::from_le_bytes(b)
    }
}

impl Cell for i64 {
    const SIZE: u8 = 8;

    ghost SIZE = { 8 };

    ghost fits = { FitsSigned w64 };

    ghost bits = { cast_unsigned w64 };

    ghost of_bits = { cast_signed w64 };

    ghost has_bytes = { Prim.search rules };

    ghost in_eight = { Prim.search rules };

    ghost bits_fit = { cast_unsigned_fits w64 };

    ghost value_fits = { cast_signed_fits w64 };

    ghost of_bits_undoes = { to_z-of_z w64 };

    ghost bits_undoes = { of_z-to_z w64 };

    ghost reads_back = { λ v h. cell_number-cell_bytes 8 (cast_unsigned w64 v) (cast_signed w64) v
        (cast_unsigned_fits w64 v h) (to_z-of_z w64 v h) };

    fn to_bytes(self) -> [u8; 8] {
        self.cast_unsigned().to_le_bytes()
    }

    fn from_bytes(b: [u8; 8]) -> i64 {
        i64::from_le_bytes(b)
    }
}
