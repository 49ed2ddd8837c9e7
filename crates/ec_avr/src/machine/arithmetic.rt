//! The steps that compute in registers. Each goes on to the next instruction.
use super::flags::*;
use super::{Access, Machine, Stepped};

impl Machine {
    ghost use Rattle.std.specs.Prelude.{◌≡◌, ◌<◌, ◌≤◌};
    ghost use Rattle.ec_avr.specs.Effects.{silent, sum_into, difference_into, compare, logic_into, complement};
    ghost use Rattle.ec_avr.specs.Effects.{count_to, shift, swap, add_to_pair, subtract_from_pair, multiply, set_flag};
    ghost use Rattle.ec_avr.specs.Effects.{set_bit};

    /// Goes on, with nothing but registers accessed.
    pub(super) fn silent(&mut self) -> Stepped
        ensures stepped { result ≡ (silent self.old).stepped }
        ensures state { self.new ≡ (silent self.old).state }
    {
        self.pass(1);
        Stepped::Ran(Access::Silent)
    }

    pub(super) fn sum_into(&mut self, d: u8, y: u8, carry: u8) -> Stepped
        requires { carry ≤ 1 }
        ensures stepped { result ≡ (sum_into d y carry self.old).stepped }
        ensures state { self.new ≡ (sum_into d y carry self.old).state }
    {
        let x = self.register(d);
        let sreg = sum_flags(self.sreg(), x, y, carry);
        self.set_register(d, byte_sum(x, y, carry));
        self.set_sreg(sreg);
        self.silent()
    }

    pub(super) fn difference_into(
        &mut self,
        d: u8,
        x: u8,
        y: u8,
        borrow: u8,
        zero_before: u8,
    ) -> Stepped
        requires borrow { borrow ≤ 1 }
        requires zero { zero_before ≤ 1 }
        ensures stepped { result ≡ (difference_into d x y borrow zero_before self.old).stepped }
        ensures state { self.new ≡ (difference_into d x y borrow zero_before self.old).state }
    {
        let sreg = difference_flags(self.sreg(), x, y, borrow, zero_before);
        self.set_register(d, byte_difference(x, y, borrow));
        self.set_sreg(sreg);
        self.silent()
    }

    pub(super) fn compare(&mut self, x: u8, y: u8, borrow: u8, zero_before: u8) -> Stepped
        requires borrow { borrow ≤ 1 }
        requires zero { zero_before ≤ 1 }
        ensures stepped { result ≡ (compare x y borrow zero_before self.old).stepped }
        ensures state { self.new ≡ (compare x y borrow zero_before self.old).state }
    {
        self.set_sreg(difference_flags(self.sreg(), x, y, borrow, zero_before));
        self.silent()
    }

    pub(super) fn logic_into(&mut self, d: u8, r: u8) -> Stepped
        ensures stepped { result ≡ (logic_into d r self.old).stepped }
        ensures state { self.new ≡ (logic_into d r self.old).state }
    {
        let sreg = logic_flags(self.sreg(), r);
        self.set_register(d, r);
        self.set_sreg(sreg);
        self.silent()
    }

    pub(super) fn complement(&mut self, d: u8) -> Stepped
        ensures stepped { result ≡ (complement d self.old).stepped }
        ensures state { self.new ≡ (complement d self.old).state }
    {
        let r = 255 - self.register(d);
        let sreg = complement_flags(self.sreg(), r);
        self.set_register(d, r);
        self.set_sreg(sreg);
        self.silent()
    }

    pub(super) fn count_to(&mut self, d: u8, r: u8, past: u8) -> Stepped
        ensures stepped { result ≡ (count_to d r past self.old).stepped }
        ensures state { self.new ≡ (count_to d r past self.old).state }
    {
        let sreg = count_flags(self.sreg(), r, past);
        self.set_register(d, r);
        self.set_sreg(sreg);
        self.silent()
    }

    pub(super) fn shift(&mut self, d: u8, top: u8) -> Stepped
        requires { top ≤ 1 }
        ensures stepped { result ≡ (shift d top self.old).stepped }
        ensures state { self.new ≡ (shift d top self.old).state }
    {
        let x = self.register(d);
        let sreg = shift_flags(self.sreg(), x, top);
        self.set_register(d, shifted(x, top));
        self.set_sreg(sreg);
        self.silent()
    }

    pub(super) fn swap(&mut self, d: u8) -> Stepped
        ensures stepped { result ≡ (swap d self.old).stepped }
        ensures state { self.new ≡ (swap d self.old).state }
    {
        let x = self.register(d);
        self.set_register(d, x % 16 * 16 + x / 16);
        self.silent()
    }

    pub(super) fn add_to_pair(&mut self, d: u8, k: u8) -> Stepped
        requires { d < 255 }
        ensures stepped { result ≡ (add_to_pair d k self.old).stepped }
        ensures state { self.new ≡ (add_to_pair d k self.old).state }
    {
        let x = self.pair(d);
        let sreg = pair_sum_flags(self.sreg(), x, k as u16);
        self.set_pair(d, pair_sum(x, k as u16));
        self.set_sreg(sreg);
        self.silent()
    }

    pub(super) fn subtract_from_pair(&mut self, d: u8, k: u8) -> Stepped
        requires { d < 255 }
        ensures stepped { result ≡ (subtract_from_pair d k self.old).stepped }
        ensures state { self.new ≡ (subtract_from_pair d k self.old).state }
    {
        let x = self.pair(d);
        let sreg = pair_difference_flags(self.sreg(), x, k as u16);
        self.set_pair(d, pair_difference(x, k as u16));
        self.set_sreg(sreg);
        self.silent()
    }

    pub(super) fn multiply(&mut self, x: u8, y: u8) -> Stepped
        ensures stepped { result ≡ (multiply x y self.old).stepped }
        ensures state { self.new ≡ (multiply x y self.old).state }
    {
        let product = x as u16 * y as u16;
        let sreg = product_flags(self.sreg(), product);
        self.set_pair(0, product);
        self.set_sreg(sreg);
        self.silent()
    }

    pub(super) fn set_flag(&mut self, number: u8, value: u8) -> Stepped
        requires flag { number < 8 }
        requires bit { value ≤ 1 }
        ensures stepped { result ≡ (set_flag number value self.old).stepped }
        ensures state { self.new ≡ (set_flag number value self.old).state }
    {
        self.set_sreg(with_bit(self.sreg(), number, value));
        self.silent()
    }

    pub(super) fn set_bit(&mut self, d: u8, b: u8, value: u8) -> Stepped
        requires eighth { b < 8 }
        requires bit { value ≤ 1 }
        ensures stepped { result ≡ (set_bit d b value self.old).stepped }
        ensures state { self.new ≡ (set_bit d b value self.old).state }
    {
        self.set_register(d, with_bit(self.register(d), b, value));
        self.silent()
    }
}
