//! Points with their neighbours, and lists of either.

ghost use Rattle.std.specs.Prelude.{◌≡◌, ◌-◌, ◌^◌, ◌++◌, [], ◌∷◌, min, IfOk, OnOk, OnErr};
ghost use Rattle.relax_system.specs.System.{near_weight, total_weight};

use book_text::Memory;
use std::alloc::Global;
use std::marker::Model;

/// A neighbour of a point and the weight of the pair.
#[derive(Clone, Copy, Debug, PartialEq, Eq)]
pub struct Near {
    /// The neighbour's number in the system.
    pub point: u32,
    /// The weight of the pair, at least 1 in a valid system.
    pub weight: u64,
}

/// The neighbours of a point. A neighbour may stand in several entries.
#[derive(Drop)]
pub struct NearList {
    items: Vec<Near>,
    // the sum of the weights, or the greatest u64 where it is more
    weight: u64,
}

impl Model for NearList {
    ghost use Rattle.std.specs.Prelude.{◌≡◌, ◌-◌, ◌^◌, List, min};
    ghost use Rattle.relax_system.specs.declared.points.Near.{Near};

    ghost Value = { List Near };

    ghost use Rattle.relax_system.specs.System.{near_weight};

    ghost view = { λ l. l.items.items };

    ghost invariant = { λ l. l.weight ≡ min (near_weight l.items.items) (2 ^ 64 - 1) };
}

impl NearList {
    /// No neighbour. It takes no memory.
    pub fn new(alloc: Global) -> NearList
        ensures { result ≡ [] }
    {
        NearList {
            items: Vec::new(alloc),
            weight: 0,
        }
    }

    /// No neighbour, and room for so many: pushes up to that many take no memory.
    pub fn with_capacity(alloc: Global, capacity: usize) -> Result<NearList, Memory>
        ensures { IfOk result (λ list. list ≡ []) }
    {
        let items = Vec::with_capacity(alloc, capacity)?;
        Ok(NearList { items, weight: 0 })
    }

    /// The same list once more.
    pub(crate) fn copy(&self, alloc: Global) -> Result<NearList, Memory>
        ensures { IfOk result (λ list. list ≡ self.now) }
    {
        let mut items = Vec::with_capacity(alloc, self.items.len())?;
        items.extend_from_slice(&self.items)?;
        Ok(NearList {
            items,
            weight: self.weight,
        })
    }

    /// Appends a neighbour. On want of memory the list is as before.
    pub fn push(&mut self, item: Near) -> Result<(), Memory>
        ensures pushed { OnOk result (self.new ≡ self.old ++ item ∷ []) }
        ensures kept { OnErr result (self.new ≡ self.old) }
    {
        self.items.push(item)?;
        self.weight = self.weight.saturating_add(item.weight);
        Ok(())
    }

    /// The sum of the weights, or the greatest u64 where it is more.
    pub(crate) fn weight(&self) -> u64
        ensures { result ≡ min (near_weight self.now) (2 ^ 64 - 1) }
    {
        self.weight
    }

    /// The neighbours.
    pub fn as_slice(&self) -> &[Near]
        ensures { result.now ≡ self.now }
    {
        &self.items
    }
}

/// A point of a system: its box, its neighbours and its constants.
#[derive(Drop)]
pub struct Point {
    /// The bottom of the box.
    pub lo: u64,
    /// The top of the box.
    pub hi: u64,
    /// The neighbours, with the weights of the pairs.
    pub near: NearList,
    /// The total weight of the point's constants.
    pub anchor: u64,
    /// The sum of weight times coordinate over the point's constants.
    pub anchored: u128,
}

impl Point {
    /// The total weight, or the greatest u64 where it is more.
    pub(crate) fn total_weight(&self) -> u64
        ensures { result ≡ min (total_weight self.now) (2 ^ 64 - 1) }
    {
        self.anchor.saturating_add(self.near.weight())
    }
}

/// The points of a system.
#[derive(Drop)]
pub struct Points {
    pub(crate) items: Vec<Point>,
}

impl Model for Points {
    ghost use Rattle.std.specs.Prelude.{List};
    ghost use Rattle.relax_system.specs.declared.points.Point.{Point};

    ghost Value = { List Point };

    ghost view = { λ l. l.items.items };
}

impl Points {
    /// No point. It takes no memory.
    pub fn new(alloc: Global) -> Points
        ensures { result ≡ [] }
    {
        Points {
            items: Vec::new(alloc),
        }
    }

    /// No point, and room for so many: pushes up to that many take no memory.
    pub fn with_capacity(alloc: Global, capacity: usize) -> Result<Points, Memory>
        ensures { IfOk result (λ points. points ≡ []) }
    {
        let items = Vec::with_capacity(alloc, capacity)?;
        Ok(Points { items })
    }

    /// Appends a point. On want of memory the list is as before.
    pub fn push(&mut self, item: Point) -> Result<(), Memory>
        ensures pushed { OnOk result (self.new ≡ self.old ++ item ∷ []) }
        ensures kept { OnErr result (self.new ≡ self.old) }
    {
        Ok(self.items.push(item)?)
    }

    /// The points.
    pub fn as_slice(&self) -> &[Point]
        ensures { result.now ≡ self.now }
    {
        &self.items
    }
}
