//! What a run is stopped by.
ghost use Rattle.std.specs.Prelude.{◌≡◌, ◌+◌, ◌≤◌, Bool, ℤ};
ghost use Rattle.ec_emu_watch.specs.Hits.{is_hit};
ghost use Rattle.ec_emu_watch.specs.Points.{IsWidth};
ghost use Rattle.ec_emu_watch.specs.Sound.{IsWatchable, IsSound, point_of, function_of, rule_of};

use crate::compare::ValueRule;
use crate::point::WatchPoint;
use ec_avr::{Access, Machine};
use ec_emu::Stop;

/// A number in memory, and a function that tells its watched values as a rule has them.
///
/// A watch that `Watch::new` made is sound: its function can be called on each number of at most eight bytes, and
/// answers whether its rule holds.
#[derive(Drop)]
pub struct Watch<F: Fn(i128) -> bool, R: ValueRule> {
    point: WatchPoint,
    f: F,
    rule: R,
}

impl<F: Fn(i128) -> bool, R: ValueRule> Watch<F, R> {
    /// A watch. The function has to be callable on each number from -2^63 to 2^64 - 1, and to answer whether the rule
    /// holds of it.
    pub fn new(point: WatchPoint, f: F, rule: R) -> Watch<F, R>
        requires callable { (value : ℤ) → IsWatchable value → F.pre f value }
        requires answers { (value : ℤ) (answer : Bool) → IsWatchable value → F.post f value answer
            → answer ≡ R.holds rule value }
        ensures sound { IsSound F.pre F.post R.holds result }
        ensures point { point_of result ≡ point }
        ensures function { function_of result ≡ f }
        ensures rule { rule_of result ≡ rule }
    {
        Watch { point, f, rule }
    }

    /// The number that is watched.
    pub fn point(&self) -> WatchPoint
        ensures { result ≡ point_of self.now }
    {
        self.point
    }
}

impl<F: Fn(i128) -> bool, R: ValueRule> Stop for Watch<F, R> {
    ghost can_stop = { λ s. IsSound F.pre F.post R.holds s
        × (IsWidth (point_of s).bytes × ((point_of s).place.offset + (point_of s).bytes ≤ 65536)) };

    ghost stops = { λ s. is_hit (point_of s) (R.holds (rule_of s)) };

    fn stops(&self, access: Access, machine: &Machine) -> bool {
        if !self.point.is_written_by(access) {
            return false;
        }
        match self.point.value(machine.memory()) {
            Some(value) => (self.f)(value),
            None => false,
        }
    }
}
