//! Regions: rectangles, each with points of its own.

ghost use Rattle.std.specs.Prelude.{◌≡◌, ◌≤◌, ◌-◌, [], ◌∷◌, ◌++◌, length, OnOk, OnErr, IfOk};
ghost use Rattle.area_cut.specs.Regions.{IsGood, AreGood, low_end, high_end, side_of, axis_to_cut};

use crate::axis::Axis;
use book_text::Memory;
use std::alloc::Global;
use std::marker::Model;

/// The points of a region, by number.
#[derive(Drop)]
pub struct PointList {
    items: Vec<u32>,
}

impl Model for PointList {
    ghost use Rattle.std.specs.Prelude.{ℕ, List};

    ghost Value = { List ℕ };

    ghost view = { λ l. l.items.items };
}

impl PointList {
    /// No point, and room for so many.
    pub(crate) fn with_room(alloc: Global, points: usize) -> Result<PointList, Memory>
        ensures { IfOk result (λ list. list ≡ []) }
    {
        let items = Vec::with_capacity(alloc, points)?;
        Ok(PointList { items })
    }

    /// The same points once more.
    pub(crate) fn copy_of(alloc: Global, points: &[u32]) -> Result<PointList, Memory>
        ensures { IfOk result (λ list. list ≡ points.now) }
    {
        let items = Vec::from_slice(alloc, points)?;
        Ok(PointList { items })
    }

    /// Appends a point.
    pub(crate) fn push(&mut self, point: u32) -> Result<(), Memory>
        ensures { OnOk result (self.new ≡ self.old ++ point ∷ []) }
    {
        Ok(self.items.push(point)?)
    }

    /// The points, in ascending order.
    pub fn as_slice(&self) -> &[u32]
        ensures { result.now ≡ self.now }
    {
        &self.items
    }
}

/// A rectangle, from `xlo` to `xhi` and from `ylo` to `yhi`, and the points that share it.
#[derive(Drop)]
pub struct Region {
    pub xlo: u64,
    pub xhi: u64,
    pub ylo: u64,
    pub yhi: u64,
    pub points: PointList,
}

impl Region {
    /// The lower end on an axis.
    pub fn low(&self, axis: Axis) -> u64
        ensures { result ≡ low_end axis self.now }
    {
        match axis {
            Axis::X => self.xlo,
            Axis::Y => self.ylo,
        }
    }

    /// The upper end on an axis.
    pub fn high(&self, axis: Axis) -> u64
        ensures { result ≡ high_end axis self.now }
    {
        match axis {
            Axis::X => self.xhi,
            Axis::Y => self.yhi,
        }
    }

    /// The axis on which the region is cut, or none where it stays whole.
    pub(crate) fn axis_to_cut(&self) -> Option<Axis>
        requires { IsGood self.now }
        ensures { result ≡ axis_to_cut self.now }
    {
        let wide = self.xhi - self.xlo;
        let high = self.yhi - self.ylo;
        if self.points.as_slice().len() < 2 {
            return None;
        }
        if high <= wide {
            if wide == 0 { None } else { Some(Axis::X) }
        } else {
            Some(Axis::Y)
        }
    }
}

/// Regions in an order. Only `whole`, `cut` and `copy_of` make them.
#[derive(Drop)]
pub struct Regions {
    items: Vec<Region>,
}

impl Model for Regions {
    ghost use Rattle.std.specs.Prelude.{List};
    ghost use Rattle.area_cut.specs.declared.region.Region.{Region};
    ghost use Rattle.area_cut.specs.Regions.{AreGood};

    ghost Value = { List Region };

    ghost view = { λ l. l.items.items };

    ghost invariant = { λ l. AreGood l.items.items };
}

impl Regions {
    /// No region. It takes no memory.
    pub(crate) fn new(alloc: Global) -> Regions
        ensures { result ≡ [] }
    {
        Regions {
            items: Vec::new(alloc),
        }
    }

    /// Appends a region.
    pub(crate) fn push(&mut self, region: Region) -> Result<(), Memory>
        requires { IsGood region }
        ensures { OnOk result (self.new ≡ self.old ++ region ∷ []) }
    {
        Ok(self.items.push(region)?)
    }

    /// The regions. Each has ordered ends, and its points in ascending order.
    pub fn as_slice(&self) -> &[Region]
        ensures regions { result.now ≡ self.now }
        ensures good { AreGood self.now }
    {
        &self.items
    }
}
