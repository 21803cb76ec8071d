//! What one seat of the machine has seen.

ghost use Rattle.std.specs.Prelude.{◌≡◌, ◌<◌, length, slice_set, IfOk};

use book_text::Memory;
use std::alloc::Global;
use std::marker::Model;

/// A coordinate per point, each as the seat has last seen it.
#[derive(Drop)]
pub(crate) struct Sight {
    items: Vec<u64>,
}

impl Model for Sight {
    ghost use Rattle.std.specs.Prelude.{ℕ, List};

    ghost Value = { List ℕ };

    ghost view = { λ s. s.items.items };
}

impl Sight {
    /// That of a seat that has seen these words.
    pub(crate) fn new(alloc: Global, words: &[u64]) -> Result<Sight, Memory>
        ensures { IfOk result (λ s. s ≡ words.now) }
    {
        let mut items = Vec::with_capacity(alloc, words.len())?;
        items.extend_from_slice(words)?;
        Ok(Sight { items })
    }

    /// The coordinates.
    pub(crate) fn as_slice(&self) -> &[u64]
        ensures { result.now ≡ self.now }
    {
        &self.items
    }

    /// Sees this word at a point.
    pub(crate) fn put(&mut self, point: usize, word: u64)
        requires { point < length self.old }
        ensures { self.new ≡ slice_set self.old point word }
    {
        self.items[point] = word;
    }
}
