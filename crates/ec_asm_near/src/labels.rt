//! The words of labels.
ghost use Rattle.std.specs.Prelude.{◌≡◌, ◌==◌, ℕ, OnOk, IfOk, None, if◌then◌else◌};
ghost use Rattle.ec_asm_near.specs.Labels.{noted, noted_again, words_of};
ghost use Rattle.ec_asm_near.specs.Near.{word_of};

use ec_asm::{AsmItem, item_words};
use ec_space::NoMemory;
use indexmap::IndexMap;
use std::alloc::Global;

/// The words of the labels of some items.
#[derive(Drop)]
pub(crate) struct Labels {
    /// The word of each label that was noted, or None where it was noted more than once.
    pub(crate) words: IndexMap<u64, Option<u64>>,
}

impl Labels {
    fn new(alloc: Global) -> Labels
        ensures { (l : ℕ) → noted result l ≡ None }
    {
        Labels {
            words: IndexMap::new(alloc),
        }
    }

    /// Takes note of a label at a word.
    fn note(&mut self, label: u64, word: u64) -> Result<(), NoMemory>
        ensures { OnOk result ((l : ℕ) → noted self.new l
            ≡ (if label == l then noted_again (noted self.old l) word else noted self.old l)) }
    {
        let first = match self.words.get(&label) {
            Some(_) => None,
            None => Some(word),
        };
        match self.words.insert(label, first) {
            Ok(_) => Ok(()),
            Err(_) => Err(NoMemory),
        }
    }

    /// The word of a label that was noted exactly once.
    pub(crate) fn word_of(&self, label: u64) -> Option<u64>
        ensures { result ≡ words_of self.now label }
    {
        match self.words.get(&label) {
            Some(word) => *word,
            None => None,
        }
    }
}

/// The words of the labels of items that begin at word 0.
pub(crate) fn labels_of(alloc: Global, items: &[AsmItem]) -> Result<Labels, NoMemory>
    ensures { IfOk result (λ labels. words_of labels ≡ word_of items.now) }
{
    let mut labels = Labels::new(alloc);
    let mut word = 0u64;
    for item in items {
        match item {
            AsmItem::Label(label) => labels.note(*label, word)?,
            _ => word += u64::from(item_words(*item)),
        }
    }
    Ok(labels)
}
