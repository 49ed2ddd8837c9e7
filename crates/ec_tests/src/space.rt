//! Lists as keys, pointers as bytes, cells and memory, on values worked out by hand.
use ec_space::{
    Bank, Cell, Core, Data, FarFlash, Flash, Generic, Mem, Name, NoMemory, Place, Pointer, Seq,
    Space, SpaceId, Within,
};
use std::alloc::Global;
use std::collections::HashMap;

fn name(alloc: Global, text: &[u8]) -> Result<Name, NoMemory> {
    let mut name = Seq::new(alloc);
    name.extend_from_slice(text)?;
    Ok(name)
}

fn is_abc(name: &Name) -> bool {
    name.as_slice() == b"abc".as_slice()
        && name.len() == 3
        && name.get(2).copied() == Some(b'c')
        && name.get(3).is_none()
}

/// Whether a name is before the other, and that is `axc`.
fn is_before(name: &Name, other: &Name) -> bool {
    name < other && other.as_slice() == b"axc".as_slice()
}

fn copied(name: &Name) -> Result<Name, NoMemory> {
    match name.clone() {
        Ok(copy) => Ok(copy),
        Err(_) => Err(NoMemory),
    }
}

/// Whether lists of bytes keep what they are given, and are compared as texts are.
fn keeps_items(alloc: Global) -> Result<bool, NoMemory> {
    let mut name: Name = Seq::new(alloc);
    name.reserve(3)?;
    name.push(b'a')?;
    name.extend_from_slice(b"bc")?;
    let kept = is_abc(&name);
    name.put(1, b'x');
    let copy = copied(&name)?;
    let same = copy == name;
    name.clear();
    Ok(kept && same && name.is_empty() && is_before(&name, &copy))
}

fn put(places: &mut HashMap<Name, u32>, key: Name, place: u32) -> bool {
    places.insert(key, place).is_ok()
}

/// What stands at `down` and at `Down` behind the keys `left` and `down`.
fn looked_up(alloc: Global) -> Result<(Option<u32>, Option<u32>), NoMemory> {
    let (left, down) = (name(alloc, b"left")?, name(alloc, b"down")?);
    let (same, other) = (name(alloc, b"down")?, name(alloc, b"Down")?);
    let mut places = HashMap::new(alloc);
    if !put(&mut places, left, 4) || !put(&mut places, down, 5) {
        return Err(NoMemory);
    }
    Ok((places.get(&same).copied(), places.get(&other).copied()))
}

fn fills(alloc: Global) -> Result<bool, NoMemory> {
    let flags = Seq::filled(alloc, 3, false)?;
    Ok(flags.as_slice() == [false, false, false].as_slice())
}

#[test]
fn lists(rt: HostRuntime) {
    assert!(rt; matches!(keeps_items(rt.alloc()), Ok(true)));
    assert!(rt; matches!(looked_up(rt.alloc()), Ok((Some(5), None))));
    assert!(rt; matches!(fills(rt.alloc()), Ok(true)));
}

fn is_kept_as<T: Cell + Copy + PartialEq + Drop>(v: T, b: [u8; 8]) -> bool {
    v.to_bytes() == b && T::from_bytes(b) == v
}

fn bytes_are_laid_out() -> bool {
    is_kept_as(129u8, [0x81, 0, 0, 0, 0, 0, 0, 0])
        && is_kept_as(-127i8, [0x81, 0, 0, 0, 0, 0, 0, 0])
        && is_kept_as(32_767u16, [0xFF, 0x7F, 0, 0, 0, 0, 0, 0])
        && is_kept_as(-23_131i16, [0xA5, 0xA5, 0, 0, 0, 0, 0, 0])
}

fn wide_numbers_are_laid_out() -> bool {
    is_kept_as(100_000u32, [0xA0, 0x86, 0x01, 0, 0, 0, 0, 0])
        && is_kept_as(-2i32, [0xFE, 0xFF, 0xFF, 0xFF, 0, 0, 0, 0])
        && is_kept_as(
            0x0123_4567_89AB_CDEFu64,
            [0xEF, 0xCD, 0xAB, 0x89, 0x67, 0x45, 0x23, 0x01],
        )
        && is_kept_as(i64::MIN, [0, 0, 0, 0, 0, 0, 0, 0x80])
}

#[test]
fn lays_out_each_type(rt: HostRuntime) {
    assert!(rt; bytes_are_laid_out());
    assert!(rt; wide_numbers_are_laid_out());
}

/// A space, another one, and whether the first encloses it.
static NESTED: [(SpaceId, SpaceId, bool); 5] = [
    (SpaceId::Generic, SpaceId::Data, true),
    (SpaceId::Data, SpaceId::Generic, false),
    (SpaceId::Flash, SpaceId::Flash, true),
    (SpaceId::FarFlash, SpaceId::Flash, true),
    (SpaceId::FarFlash, SpaceId::Data, false),
];

/// Two spaces and the space of both.
static JOINED: [(SpaceId, SpaceId, Option<SpaceId>); 3] = [
    (SpaceId::Data, SpaceId::Generic, Some(SpaceId::Generic)),
    (SpaceId::Data, SpaceId::Flash, None),
    (SpaceId::Flash, SpaceId::FarFlash, Some(SpaceId::FarFlash)),
];

#[test]
fn joins_nested_spaces(rt: HostRuntime) {
    for &(outer, inner, want) in &NESTED {
        assert!(rt; outer.encloses(inner) == want);
    }
    for &(a, b, want) in &JOINED {
        assert!(rt; a.join(b) == want);
    }
}

const IN_FLASH: Pointer = Pointer::At(Place {
    bank: Bank::Flash,
    offset: 0x1234,
});

const IN_FAR_FLASH: Pointer = Pointer::At(Place {
    bank: Bank::Flash,
    offset: 0x1_0000,
});

const IN_DATA: Pointer = Pointer::At(Place {
    bank: Bank::Data,
    offset: 0x08FF,
});

fn are_pointers<S: Space>(table: &[([u8; 3], Pointer)]) -> bool {
    table.iter().all(|&(b, p)| { S::denote(b) == Some(p) && p.is_in(S::id()) && S::encode(p) == b })
}

fn are_nothing<S: Space>(table: &[[u8; 3]]) -> bool {
    table.iter().all(|b| S::denote(*b).is_none())
}

fn are_converted<I: Within<O>, O: Space>(table: &[([u8; 3], [u8; 3])]) -> bool {
    table.iter().all(|&(inner, outer)| I::embed(inner) == outer && I::project(outer) == Some(inner))
}

fn are_outside<I: Within<O>, O: Space>(table: &[[u8; 3]]) -> bool {
    table.iter().all(|b| I::project(*b).is_none())
}

fn pointers_are_bytes() -> bool {
    are_pointers::<Flash>(&[([0; 3], Pointer::Null), ([0x34, 0x12, 0x00], IN_FLASH)])
        && are_pointers::<FarFlash>(&[
            ([0; 3], Pointer::Null),
            ([0x34, 0x12, 0x00], IN_FLASH),
            ([0x00, 0x00, 0x01], IN_FAR_FLASH),
        ])
        && are_pointers::<Data>(&[([0; 3], Pointer::Null), ([0xFF, 0x08, 0x00], IN_DATA)])
        && are_pointers::<Generic>(&[
            ([0; 3], Pointer::Null),
            ([0x34, 0x12, 0x00], IN_FLASH),
            ([0x00, 0x00, 0x01], IN_FAR_FLASH),
            ([0xFF, 0x08, 0x80], IN_DATA),
        ])
}

fn bytes_are_no_pointers() -> bool {
    are_nothing::<Flash>(&[[0x34, 0x12, 0x80]])
        && are_nothing::<Data>(&[[0xFF, 0x08, 0x80], [0x00, 0x00, 0x01]])
        && are_nothing::<FarFlash>(&[[0x34, 0x12, 0x02], [0xFF, 0x08, 0x80]])
        && are_nothing::<Generic>(&[[0x00, 0x00, 0x80], [0x34, 0x12, 0x02], [0x34, 0x12, 0xFF]])
}

#[test]
fn keeps_pointers_as_bytes(rt: HostRuntime) {
    assert!(rt; pointers_are_bytes());
    assert!(rt; bytes_are_no_pointers());
}

fn pointers_are_converted() -> bool {
    are_converted::<Data, Generic>(&[([0; 3], [0; 3]), ([0xFF, 0x08, 0x00], [0xFF, 0x08, 0x80])])
        && are_converted::<Flash, Generic>(&[
            ([0; 3], [0; 3]),
            ([0x34, 0x12, 0x00], [0x34, 0x12, 0x00]),
        ])
        && are_converted::<Flash, FarFlash>(&[([0x34, 0x12, 0x00], [0x34, 0x12, 0x00])])
        && are_converted::<FarFlash, Generic>(&[([0x00, 0x00, 0x01], [0x00, 0x00, 0x01])])
        && are_converted::<Data, Data>(&[([0xFF, 0x08, 0x00], [0xFF, 0x08, 0x00])])
}

#[test]
fn converts_between_spaces(rt: HostRuntime) {
    assert!(rt; pointers_are_converted());
    assert!(rt; are_outside::<Data, Generic>(&[[0x34, 0x12, 0x00], [0x00, 0x00, 0x80]]));
    assert!(rt; are_outside::<Flash, Generic>(&[[0xFF, 0x08, 0x80]]));
    assert!(rt; are_outside::<Flash, FarFlash>(&[[0x00, 0x00, 0x01]]));
    assert!(rt; are_outside::<FarFlash, Generic>(&[[0xFF, 0x08, 0x80]]));
}

const fn in_data(offset: u32) -> Place {
    Place {
        bank: Bank::Data,
        offset,
    }
}

const fn in_flash(offset: u32) -> Place {
    Place {
        bank: Bank::Flash,
        offset,
    }
}

/// Whether new memory gives what a reset leaves at the last addresses of each bank, and nothing behind them.
fn ends_are_empty(alloc: Global) -> Result<bool, NoMemory> {
    let mem = Mem::new(alloc, Core::Small)?;
    Ok(
        mem.load::<Flash, u8>(in_flash(32_767)) == Some(0xFF)
            && mem.load::<Flash, u8>(in_flash(32_768)).is_none()
            && mem.load::<Data, u16>(in_data(0x08FE)) == Some(0)
            && mem.load::<Data, u16>(in_data(0x08FF)).is_none(),
    )
}

/// Which stores are made, of two that overlap and of three outside.
fn stores(mem: &mut Mem) -> [bool; 5] {
    [
        mem.store::<Data, i32>(in_data(0x0100), -2),
        mem.store::<Generic, u16>(in_data(0x0102), 0x1234),
        mem.store::<Generic, u8>(in_flash(0x0100), 1),
        mem.store::<Flash, u8>(in_data(0x0100), 1),
        mem.store::<Data, u64>(in_data(0x08F9), 1),
    ]
}

/// Whether loads give what was stored.
fn holds_what_is_stored(mem: &Mem) -> bool {
    mem.load::<Generic, i16>(in_data(0x0100)) == Some(-2)
        && mem.load::<Data, u32>(in_data(0x0100)) == Some(0x1234_FFFE)
        && mem.load::<Flash, i16>(in_data(0x0100)).is_none()
}

fn stored(alloc: Global) -> Result<bool, NoMemory> {
    let mut mem = Mem::new(alloc, Core::Small)?;
    let stores = stores(&mut mem);
    Ok(stores == [true, true, false, false, false] && holds_what_is_stored(&mem))
}

/// Whether what is written in windows stands in memory.
fn windows_are_written(alloc: Global) -> Result<bool, NoMemory> {
    let mut mem = Mem::new(alloc, Core::Small)?;
    mem.window_mut(Bank::Flash, 2, 2)
        .copy_from_slice(&[0x95, 0x98]);
    mem.window_mut(Bank::Data, 0x005D, 2)
        .copy_from_slice(&[0xFF, 0x08]);
    Ok(
        mem.window(Bank::Flash, 1, 4) == [0xFF, 0x95, 0x98, 0xFF].as_slice()
            && mem.load::<Data, u16>(in_data(0x005D)) == Some(0x08FF),
    )
}

#[test]
fn memory(rt: HostRuntime) {
    assert!(rt; matches!(ends_are_empty(rt.alloc()), Ok(true)));
    assert!(rt; matches!(stored(rt.alloc()), Ok(true)));
    assert!(rt; matches!(windows_are_written(rt.alloc()), Ok(true)));
}
