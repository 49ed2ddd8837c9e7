//! A table of the needs at labels.
ghost use Rattle.std.specs.Prelude.{◌≡◌, ℕ, ◌<◌, ◌≤◌, [], length, get_or, replicate, slice_set, ◌++◌, ◌∷◌, IfOk};
ghost use Rattle.std.specs.Prelude.{OnOk, false, true};
ghost use Rattle.ec_select_operations.specs.Needs.{Need};
ghost use Rattle.ec_select_live.specs.Tables.{need_of, needs_of, IsBounded, IsTable, NeedsNoMore, TellNoMore, room};

use ec_space::NoMemory;
use std::alloc::Global;
use std::marker::Model;

/// For each label of a function the low bytes that are needed of each place of its temporaries, from 0 to 16. At a
/// label or of a place that has no entry all 16 are.
///
/// Contracts see its rows, one for each label.
#[derive(Drop)]
pub struct LabelNeeds {
    rows: Vec<Vec<u8>>,
}

impl Model for LabelNeeds {
    ghost use Rattle.std.specs.Prelude.{ℕ, List, map};

    ghost Value = { List (List ℕ) };

    ghost view = { λ t. map (λ r. r.items) t.rows.items };
}

/// So many bytes 0.
pub fn zeros(alloc: Global, n: usize) -> Result<Vec<u8>, NoMemory>
    ensures { IfOk result (λ bytes. bytes.items ≡ replicate n 0) }
{
    match vec![in alloc; 0; n] {
        Ok(bytes) => Ok(bytes),
        Err(_) => Err(NoMemory),
    }
}

fn push_row(rows: &mut Vec<Vec<u8>>, row: Vec<u8>) -> Result<(), NoMemory>
    ensures { OnOk result (rows.new.items ≡ rows.old.items ++ row ∷ []) }
{
    match rows.push(row) {
        Ok(()) => Ok(()),
        Err(_) => Err(NoMemory),
    }
}

impl LabelNeeds {
    /// A table of so many labels and places, at which nothing is needed.
    pub fn new(alloc: Global, labels: usize, slots: usize) -> Result<LabelNeeds, NoMemory>
        ensures { IfOk result (λ table. table ≡ replicate labels (replicate slots 0)) }
    {
        let mut rows = Vec::new(alloc);
        for _k in 0..labels {
            let row = zeros(alloc, slots)?;
            push_row(&mut rows, row)?;
        }
        Ok(LabelNeeds { rows })
    }

    /// The bytes of a place that are needed at a label.
    pub fn need(&self, l: u64, place: usize) -> u8
        ensures { result ≡ needs_of self.now l place }
    {
        match self.rows.get(l as usize) {
            None => 16,
            Some(row) => match row.get(place) {
                None => 16,
                Some(n) => *n,
            },
        }
    }

    /// Of a place more bytes are needed at a label.
    fn raise(&mut self, l: u64, place: usize, n: u8)
        requires more { needs_of self.old l place < n }
        requires most { n ≤ 16 }
        ensures { self.new ≡ slice_set self.old l (slice_set (get_or self.old l []) place n) }
    {
        let row = &mut self.rows[l as usize];
        row[place] = n;
    }

    /// At a label at least so much is needed. Answers whether that is more than the table told.
    pub fn join(&mut self, l: u64, need: &[u8]) -> bool
        requires { IsBounded (need_of need.now) }
        ensures kept { (slots : ℕ) → IsTable slots (needs_of self.old) → IsTable slots (needs_of self.new) }
        ensures same { result ≡ false → self.new ≡ self.old }
        ensures grown { result ≡ true → room self.new < room self.old }
        ensures joined { result ≡ false → (place : ℕ) → place < length need.now
            → need_of need.now place ≤ needs_of self.new l place }
        ensures least { (labels slots : ℕ) (other : ℕ → Need) → TellNoMore labels slots (needs_of self.old) other
            → NeedsNoMore slots (need_of need.now) (other l) → TellNoMore labels slots (needs_of self.new) other }
    {
        let mut grown = false;
        for place in 0..need.len() {
            if self.need(l, place) < need[place] {
                self.raise(l, place, need[place]);
                grown = true;
            }
        }
        grown
    }
}
