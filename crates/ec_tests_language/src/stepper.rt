//! A run of operations, made one by one, of programs whose leaves are ints and pointers, and whose ports have inputs. A
//! part answers nothing where an operation is none of such a program, and where memory runs out.
ghost use Rattle.std.specs.Prelude.{IfSome};
ghost use Rattle.ec_core.specs.Integers.{IsInteger};

use ec_core::{BinOp, CType, IntegerType, integer_operation};
use ec_interp::{Event, PortInput, Told};
use ec_ir::{Ir, IrProgram, Temp};
use ec_space::{Seq, SpaceId};
use std::alloc::Global;

const INT: IntegerType = IntegerType {
    signed: true,
    bytes: 2,
};

const BYTE: IntegerType = IntegerType {
    signed: false,
    bytes: 1,
};

const UNSIGNED: IntegerType = IntegerType {
    signed: false,
    bytes: 2,
};

const UNSIGNED_LONG: IntegerType = IntegerType {
    signed: false,
    bytes: 4,
};

/// A call that waits for its end: the function and the operation to go on with, where its temporaries begin, and the one
/// that gets the result.
#[derive(Clone, Copy)]
struct Caller {
    function: usize,
    at: usize,
    base: usize,
    to: Option<Temp>,
}

/// What stands in the leaf that begins at an offset of an object.
#[derive(Clone, Copy)]
struct Leaf {
    object: u16,
    offset: u32,
    value: Told,
}

/// A byte that was stored to a cell.
#[derive(Clone, Copy)]
struct Stored {
    cell: u8,
    byte: u8,
}

#[derive(Drop)]
struct Stepper<'a> {
    program: &'a IrProgram,
    inputs: &'a Seq<PortInput>,
    function: usize,
    at: usize,
    /// What stands at each place of temporaries, those of the function from `base` on.
    values: Vec<Told>,
    base: usize,
    /// The leaves that were written.
    leaves: Vec<Leaf>,
    /// What was stored to cells, the last at the end.
    cells: Vec<Stored>,
    callers: Vec<Caller>,
    events: Seq<Event>,
    /// The result of `main`, where it ended.
    result: Option<i128>,
}

fn type_of(ty: &CType) -> Option<IntegerType>
    ensures { IfSome result IsInteger }
{
    match ty {
        CType::Int { signed, bytes } if *bytes == 1 || *bytes == 2 || *bytes == 4 => {
            Some(IntegerType {
                signed: *signed,
                bytes: *bytes,
            })
        }
        _ => None,
    }
}

/// The value of an operator on two whole numbers.
fn computed(op: BinOp, t: IntegerType, a: i128, b: i128) -> Option<i128>
    requires { IsInteger t }
{
    let most = 4_294_967_295;
    if a < -2_147_483_648 || a > most || b < -2_147_483_648 || b > most {
        return None;
    }
    match integer_operation(op, t, a, b) {
        Ok(n) => Some(n),
        Err(_) => None,
    }
}

/// A byte of a number, counted from the lowest.
fn byte_of(number: u32, index: u8) -> u8 {
    let mut rest = number;
    for _ in 0..index {
        rest = rest / 256;
    }
    (rest % 256) as u8
}

impl Stepper<'_> {
    fn value(&self, t: Temp) -> Option<Told> {
        self.values
            .get(self.base.saturating_add(usize::from(t.at)))
            .copied()
    }

    /// The number of a type at a temporary.
    fn number(&self, t: Temp, ty: IntegerType) -> Option<i128>
        requires { IsInteger ty }
    {
        match self.value(t) {
            Some(Told::Number(n)) => Some(ty.wrapped(n)),
            _ => None,
        }
    }

    /// The object and the offset that a pointer at a temporary tells.
    fn pointer(&self, t: Temp) -> Option<(u16, u32)> {
        match self.value(t) {
            Some(Told::Address { object, offset }) => Some((object, offset)),
            _ => None,
        }
    }

    fn put(&mut self, t: Temp, value: Told) -> Option<()> {
        let at = self.base.saturating_add(usize::from(t.at));
        for _ in self.values.len()..at.saturating_add(1) {
            self.values.push(Told::Null).ok()?;
        }
        match self.values.get_mut(at) {
            Some(place) => {
                *place = value;
                Some(())
            }
            None => None,
        }
    }

    fn tell(&mut self, event: Event) -> Option<()> {
        self.events.push(event).ok()
    }

    /// The space of an object's declaration.
    fn space(&self, object: u16) -> Option<SpaceId> {
        match self.program.objs.get(usize::from(object)) {
            Some(o) => Some(o.space),
            None => None,
        }
    }

    /// What stands in a leaf of so many bytes: at first 0 or null.
    fn content(&self, object: u16, offset: u32, bytes: u8) -> Told {
        for leaf in &self.leaves {
            if leaf.object == object && leaf.offset == offset {
                return leaf.value;
            }
        }
        if bytes == 2 {
            Told::Number(0)
        } else {
            Told::Null
        }
    }

    fn keep(&mut self, object: u16, offset: u32, value: Told) -> Option<()> {
        for leaf in &mut self.leaves {
            if leaf.object == object && leaf.offset == offset {
                leaf.value = value;
                return Some(());
            }
        }
        let leaf = Leaf {
            object,
            offset,
            value,
        };
        self.leaves.push(leaf).ok()
    }

    fn load(&mut self, to: Temp, object: u16, offset: u32, space: SpaceId) -> Option<()> {
        let leaf = number_of(offset, to.bytes)?;
        let value = self.content(object, offset, to.bytes);
        self.tell(Event::Read {
            object,
            leaf,
            space,
            value,
        })?;
        self.put(to, value)
    }

    fn store(&mut self, object: u16, offset: u32, space: SpaceId, from: Temp) -> Option<()> {
        let leaf = number_of(offset, from.bytes)?;
        let value = match self.value(from)? {
            Told::Number(n) => Told::Number(INT.wrapped(n)),
            value => value,
        };
        self.tell(Event::Write {
            object,
            leaf,
            space,
            value,
        })?;
        self.keep(object, offset, value)
    }

    /// A pointer so many bytes further.
    fn moved(&self, a: Temp, bytes: i128) -> Option<Told> {
        let (object, offset) = self.pointer(a)?;
        match u32::try_from(i128::from(offset).saturating_add(bytes)) {
            Ok(offset) => Some(Told::Address { object, offset }),
            Err(_) => None,
        }
    }

    /// A value of two ints, or a pointer to ints that is moved.
    fn joined(&self, op: BinOp, a: Temp, aty: &CType, b: Temp, bty: &CType) -> Option<Told> {
        let y = self.number(b, type_of(bty)?)?;
        match aty.pointee() {
            Some(_) => self.moved(a, y.saturating_mul(2)),
            None => {
                let t = type_of(aty)?;
                let x = self.number(a, t)?;
                Some(Told::Number(computed(op, t, x, y)?))
            }
        }
    }

    fn converted(&self, a: Temp, aty: &CType, ty: &CType) -> Option<Told> {
        let n = self.number(a, type_of(aty)?)?;
        Some(Told::Number(type_of(ty)?.wrapped(n)))
    }

    /// How often a port address was read.
    fn reads(&self, at: u32) -> usize {
        let mut count: usize = 0;
        for event in self.events.as_slice() {
            if matches!(event, Event::In { port, .. } if *port == at) {
                count = count.saturating_add(1);
            }
        }
        count
    }

    /// The next byte that a port address gives.
    fn next_byte(&self, at: u32) -> u8 {
        for input in self.inputs.as_slice() {
            if u32::from(input.port) == at {
                return input.bytes.get(self.reads(at)).copied().unwrap_or(0);
            }
        }
        0
    }

    /// What a cell holds, where something was stored there.
    fn cell(&self, cell: u8) -> Option<u8> {
        let mut held = None;
        for stored in &self.cells {
            if stored.cell == cell {
                held = Some(stored.byte);
            }
        }
        held
    }

    fn load_cell(&mut self, to: Temp, cell: u8) -> Option<()> {
        let byte = self.cell(cell)?;
        self.put(to, Told::Number(i128::from(byte)))
    }

    fn store_cell(&mut self, cell: u8, from: Temp) -> Option<()> {
        match u8::try_from(self.number(from, BYTE)?) {
            Ok(byte) => self.cells.push(Stored { cell, byte }).ok(),
            Err(_) => None,
        }
    }

    /// The first address of a port, or of its element with an index.
    fn element(&self, first: u32, index: Option<Temp>, width: u8) -> Option<u32> {
        match index {
            None => Some(first),
            Some(t) => match u32::try_from(self.number(t, UNSIGNED)?) {
                Ok(i) => Some(first.saturating_add(i.saturating_mul(u32::from(width)))),
                Err(_) => None,
            },
        }
    }

    /// Bytes are read by rising addresses, the lowest one first.
    fn read_port(&mut self, to: Temp, first: u32, width: u8) -> Option<()> {
        let mut number: i128 = 0;
        let mut scale: i128 = 1;
        for i in 0..width {
            let port = first.saturating_add(u32::from(i));
            let byte = self.next_byte(port);
            self.tell(Event::In { port, byte })?;
            number = number.saturating_add(scale.saturating_mul(i128::from(byte)));
            scale = scale.saturating_mul(256);
        }
        self.put(to, Told::Number(number))
    }

    /// The lowest bytes of a number are written by falling addresses.
    fn write_bytes(&mut self, number: u32, first: u32, width: u8) -> Option<()> {
        for i in (0..width).rev() {
            let port = first.saturating_add(u32::from(i));
            let byte = byte_of(number, i);
            self.tell(Event::Out { port, byte })?;
        }
        Some(())
    }

    fn write_port(&mut self, from: Temp, first: u32, width: u8) -> Option<()> {
        match u32::try_from(self.number(from, UNSIGNED_LONG)?) {
            Ok(number) => self.write_bytes(number, first, width),
            Err(_) => None,
        }
    }

    fn jump(&mut self, label: u64) -> Option<()> {
        let f = self.program.funcs.get(self.function)?;
        for (at, op) in f.code.as_slice().iter().enumerate() {
            if matches!(op, Ir::Label(l) if *l == label) {
                self.at = at;
                return Some(());
            }
        }
        None
    }

    fn branch(&mut self, t: Temp, label: u64) -> Option<()> {
        if self.number(t, INT)? == 0 {
            self.jump(label)
        } else {
            Some(())
        }
    }

    fn call(&mut self, function: u16, to: Option<Temp>) -> Option<()> {
        let caller = Caller {
            function: self.function,
            at: self.at,
            base: self.base,
            to,
        };
        self.function = usize::from(function);
        self.at = 0;
        self.base = self.values.len();
        self.callers.push(caller).ok()
    }

    /// Goes on behind a call.
    fn resume(&mut self, caller: Caller, number: i128) -> Option<()> {
        self.function = caller.function;
        self.at = caller.at;
        self.base = caller.base;
        match caller.to {
            Some(t) => self.put(t, Told::Number(number)),
            None => Some(()),
        }
    }

    /// The end of a function.
    fn leave(&mut self, from: Option<Temp>) -> Option<()> {
        let n = match from {
            None => 0,
            Some(t) => self.number(t, INT)?,
        };
        match self.callers.pop() {
            Some(caller) => self.resume(caller, n),
            None => {
                self.result = Some(n);
                Some(())
            }
        }
    }

    /// What an operation on values does.
    fn compute(&mut self, op: &Ir) -> Option<()> {
        let (to, value) = match op {
            Ir::Const(t, n) => (*t, Told::Number(*n)),
            Ir::Copy(to, from) => (*to, self.value(*from)?),
            Ir::Addr(t, object, offset) => {
                let (object, offset) = (*object, *offset);
                (*t, Told::Address { object, offset })
            }
            Ir::Field { ptr, offset, .. } => (*ptr, self.moved(*ptr, i128::from(*offset))?),
            Ir::Bin {
                op,
                to,
                a,
                aty,
                b,
                bty,
                ..
            } => (*to, self.joined(*op, *a, aty, *b, bty)?),
            Ir::Conv { to, ty, a, aty, .. } => (*to, self.converted(*a, aty, ty)?),
            _ => return None,
        };
        self.put(to, value)
    }

    /// What an operation on leaves or ports does, or another one.
    fn access(&mut self, op: &Ir) -> Option<()> {
        match op {
            Ir::Load { to, ptr, space } => {
                let (object, offset) = self.pointer(*ptr)?;
                self.load(*to, object, offset, *space)
            }
            Ir::Store { ptr, space, from } => {
                let (object, offset) = self.pointer(*ptr)?;
                self.store(object, offset, *space, *from)
            }
            Ir::LoadObj(t, o, offset) => self.load(*t, *o, *offset, self.space(*o)?),
            Ir::StoreObj(o, offset, t) => self.store(*o, *offset, self.space(*o)?, *t),
            Ir::PortIn {
                to,
                address,
                index,
                width,
            } => {
                let first = self.element(u32::from(*address), *index, *width)?;
                self.read_port(*to, first, *width)
            }
            Ir::PortOut {
                from,
                address,
                index,
                width,
            } => {
                let first = self.element(u32::from(*address), *index, *width)?;
                self.write_port(*from, first, *width)
            }
            op => self.access_cell(op),
        }
    }

    /// What an operation on a cell does, or on a port whose address counts from what a cell holds, or another one.
    fn access_cell(&mut self, op: &Ir) -> Option<()> {
        match op {
            Ir::LoadCell(to, cell) => self.load_cell(*to, *cell),
            Ir::StoreCell(cell, from) => self.store_cell(*cell, *from),
            Ir::CellPort {
                read,
                temp,
                cell,
                offset,
                index,
                width,
            } => {
                let base = u32::from(self.cell(*cell)?);
                let first = self.element(base.saturating_add(u32::from(*offset)), *index, *width)?;
                if *read {
                    self.read_port(*temp, first, *width)
                } else {
                    self.write_port(*temp, first, *width)
                }
            }
            op => self.compute(op),
        }
    }

    /// What an operation does.
    fn perform(&mut self, op: &Ir) -> Option<()> {
        match op {
            Ir::Label(_) => Some(()),
            Ir::Jump(l) => self.jump(*l),
            Ir::BranchZero(t, l) => self.branch(*t, *l),
            Ir::Call(f, to) => self.call(*f, *to),
            Ir::Return(from) => self.leave(*from),
            op => self.access(op),
        }
    }

    fn step(&mut self) -> Option<()> {
        let program = self.program;
        let f = program.funcs.get(self.function)?;
        let op = f.code.get(self.at)?;
        self.at = self.at.saturating_add(1);
        self.perform(op)
    }

    /// The result of `main`, if it ends within 10,000 operations.
    fn end(&mut self) -> Option<i128> {
        for _ in 0..10_000 {
            self.step()?;
            if self.result.is_some() {
                return self.result;
            }
        }
        None
    }

    /// Whether the run shows these events, and ends with this result.
    fn shows(&mut self, events: &[Event], end: i128) -> bool {
        self.end() == Some(end) && self.events.as_slice() == events
    }
}

/// The number of the leaf of so many bytes that begins at an offset: all leaves of an object have as many bytes.
fn number_of(offset: u32, bytes: u8) -> Option<usize> {
    match bytes {
        2 => Some((offset / 2) as usize),
        3 => Some((offset / 3) as usize),
        _ => None,
    }
}

/// Whether the run of a program shows these events, and ends with this result.
pub fn shows(
    alloc: Global,
    program: &IrProgram,
    inputs: &Seq<PortInput>,
    events: &[Event],
    end: i128,
) -> bool {
    let mut stepper = Stepper {
        program,
        inputs,
        function: usize::from(program.main),
        at: 0,
        values: Vec::new(alloc),
        base: 0,
        leaves: Vec::new(alloc),
        cells: Vec::new(alloc),
        callers: Vec::new(alloc),
        events: Seq::new(alloc),
        result: None,
    };
    stepper.shows(events, end)
}
