//! The rule of a table, and what each kind of step leaves.

ghost use Rattle.std.specs.Prelude.{◌≡◌};

use crate::direction::Direction;
use atomic_table::{Join, Play, Split, TableRule};
use relax_system::System;
use std::collections::LinkedList;
use std::marker::PhantomData;
use std::snapshot::Snapshot;

/// What a table is made with: its system, and the vector that its words begin with. It has no bytes.
#[derive(Drop)]
pub struct Origin {
    pub system: Snapshot<System>,
    pub start: Snapshot<Vec<u64>>,
}

/// What a seat knows. No value of it is ever made: the table's rule speaks of one for each seat.
pub struct View {
    pub system: System,
    pub start: LinkedList<u64>,
    pub seen: LinkedList<u64>,
    /// The points whose words it loaded, one after another.
    pub looked: LinkedList<u64>,
    /// The points whose words it fetched, one after another.
    pub renewed: LinkedList<u64>,
    pub loads: u64,
    pub fetches: u64,
    /// The fetches that changed a word.
    pub moves: u64,
    /// The swaps of mark words.
    pub takes: u64,
    /// Those of them that found no bit, since the last that found one.
    pub idle: u64,
    /// How many seats it is made of.
    pub parts: u64,
    /// The word that its last load or fetch found.
    pub found: u64,
    /// Whether the seat was joined to another.
    pub spent: bool,
}

/// The rule of a table of that direction. It is a fact about the words of points, and says nothing of mark words.
pub struct SideRule<D> {
    direction: PhantomData<D>,
}

impl<S, D: Direction> TableRule<S, View, Origin> for SideRule<D> {
    ghost use Rattle.std.specs.Prelude.{take, length};
    ghost use Rattle.relax_table.specs.Forms.Rule.{Keeps, opened};

    ghost holds = { λ k s. Keeps D.side k.system.value k.start.value.items (take (length k.system.value) s.words) s.views };

    ghost first = { λ k. opened k.system.value k.start.value.items };
}

/// A load.
pub(crate) struct Looks<D> {
    direction: PhantomData<D>,
}

impl<S, D: Direction> Play<S, View> for Looks<D> {
    ghost use Rattle.std.specs.Prelude.{◌≡◌};
    ghost use Rattle.relax_table.specs.Step.Kind.{Load};
    ghost use Rattle.relax_table.specs.Forms.Rule.{Stepped};

    ghost then = { λ s v x w. (w.1 ≡ v.1) × Stepped D.side Load s.word v.0 x w.0 };
}

/// A fetch of the mean of what the seat has seen.
pub(crate) struct Renews<D> {
    direction: PhantomData<D>,
}

impl<S, D: Direction> Play<S, View> for Renews<D> {
    ghost use Rattle.std.specs.Prelude.{◌≡◌};
    ghost use Rattle.relax_table.specs.Step.Kind.{Renew};
    ghost use Rattle.relax_table.specs.Forms.Rule.{Stepped};

    ghost then = { λ s v x w. (w.1 ≡ v.1) × Stepped D.side Renew s.word v.0 x w.0 };
}

/// A load that leaves the view as it is. By it a joined seat knows the bound on its moves.
pub(crate) struct Learns<D> {
    direction: PhantomData<D>,
}

impl<S, D: Direction> Play<S, View> for Learns<D> {
    ghost use Rattle.std.specs.Prelude.{◌≡◌};
    ghost use Rattle.relax_table.specs.Forms.Rule.{Learned};

    ghost then = { λ s v x w. (w.1 ≡ v.1) × Learned D.side v.0 w.0 };
}

/// A swap of a mark word with 0.
pub(crate) struct Takes;

impl<S> Play<S, View> for Takes {
    ghost use Rattle.std.specs.Prelude.{◌≡◌};
    ghost use Rattle.relax_table.specs.Forms.Rule.{taken};

    ghost then = { λ s v x w. (w.1 ≡ v.1) × (w.0 ≡ taken v.0 x) };
}

/// A `fetch_or` on a mark word, which leaves the view as it is.
pub(crate) struct Marks;

impl<S> Play<S, View> for Marks {
    ghost use Rattle.std.specs.Prelude.{◌≡◌};

    ghost then = { λ s v x w. (w.1 ≡ v.1) × (w.0 ≡ v.0) };
}

/// How a seat is split in two, and how two are joined.
pub(crate) struct Halves<D> {
    direction: PhantomData<D>,
}

impl<D: Direction> Split<View> for Halves<D> {
    ghost use Rattle.relax_table.specs.Forms.Rule.{sprout};

    ghost left = { λ v. v };

    ghost right = { sprout };
}

impl<D: Direction> Join<View> for Halves<D> {
    ghost use Rattle.relax_table.specs.Forms.Rule.{joined, gone};

    ghost both = { joined D.side };

    ghost spent = { gone };
}
