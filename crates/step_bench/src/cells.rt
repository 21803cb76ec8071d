//! The cells of a design where its placement file has them.

ghost use Rattle.std.specs.Prelude.{◌≡◌, ◌^◌, ◌<◌, ◌≤◌, length, sum, IfOk, IsTrue};
ghost use Rattle.relax_system.specs.declared.valid.TheConstants.{MOST_COORDINATE};
ghost use Rattle.row_legal.specs.declared.rules.TheConstants.{MOST_CELL_SITES};
ghost use Rattle.row_legal.specs.Cells.{cells_of};
ghost use Rattle.row_legal.specs.Ranges.{IsNear, AreGoodCells};

use crate::watch::{Answer, NO_MEMORY};
use book_design::Design;
use book_text::MOST_MICRO;
use net_model::Network;
use relax_system::MOST_COORDINATE;
use row_legal::{MOST_CELL_SITES, MOST_CELLS, MOST_WISH, Wish};
use std::alloc::{AllocError, Global};

/// Where the cells stand: their middles on x and on y as coordinates, clamped to the core, behind which come those of the star
/// points, and their lower left corners.
#[derive(Drop)]
pub struct Cells {
    pub xs: Vec<u64>,
    pub ys: Vec<u64>,
    pub wishes: Vec<Wish>,
}

/// The cells of a design, and so many star points, each in the middle of the core.
pub fn cells_as_placed(
    alloc: Global,
    design: &Design<'_>,
    stars: usize,
) -> Result<Cells, AllocError> {
    let core = design.core();
    let mut xs = Vec::new(alloc);
    let mut ys = Vec::new(alloc);
    let mut wishes = Vec::new(alloc);
    for node in design.nodes() {
        if !node.fixed {
            xs.push(middle(node.x, node.width, core.xlo, core.xhi))?;
            ys.push(middle(node.y, node.height, core.ylo, core.yhi))?;
            wishes.push(Wish {
                x: node.x,
                y: node.y,
            })?;
        }
    }
    for _ in 0..stars {
        xs.push(between(core.xlo, core.xhi))?;
        ys.push(between(core.ylo, core.yhi))?;
    }
    Ok(Cells { xs, ys, wishes })
}

/// The coordinate of a middle, clamped between two ends.
fn middle(at: i64, size: i64, low: i64, high: i64) -> u64 {
    coordinate(at.saturating_add(size / 2).min(high).max(low))
}

/// The coordinate in the middle between two ends.
fn between(low: i64, high: i64) -> u64 {
    middle(low, high.saturating_sub(low), low, high)
}

/// A place in millionths as a coordinate, clamped to what a coordinate may be.
pub fn coordinate(at: i64) -> u64
    ensures { result ≤ MOST_COORDINATE }
{
    let shifted = at.saturating_add(MOST_MICRO as i64);
    u64::try_from(shifted).unwrap_or(0).min(MOST_COORDINATE)
}

/// The areas of the points, in sites.
pub fn areas(alloc: Global, network: &Network) -> Answer<Vec<u64>>
    ensures all { IfOk result (λ areas. length areas.items ≡ length network.now.points) }
    ensures fits { IfOk result (λ areas. sum areas.items < 2 ^ 64) }
{
    let mut areas = Vec::new(alloc);
    let mut total: u64 = 0;
    for p in 0..network.points() {
        let area = network.area(p as u32);
        if areas.push(area).is_err() {
            return Err(NO_MEMORY);
        }
        let Some(more) = total.checked_add(area) else {
            return Err("the cells are too large");
        };
        total = more;
    }
    Ok(areas)
}

/// Whether each cell has a wish, and the numbers are within what the greedy rule takes.
pub fn are_good(sites: &[u64], wishes: &[Wish]) -> bool
    ensures { IsTrue result → AreGoodCells (cells_of sites.now wishes.now) }
{
    wishes.len() == sites.len()
        && sites.len() as u64 <= MOST_CELLS
        && sites.iter().all(may_take)
        && wishes.iter().all(may_wish)
}

fn may_take(sites: &u64) -> bool
    ensures some { IsTrue result → 1 ≤ sites.now }
    ensures most { IsTrue result → sites.now ≤ MOST_CELL_SITES }
{
    1 <= *sites && *sites <= MOST_CELL_SITES
}

fn may_wish(wish: &Wish) -> bool
    ensures x { IsTrue result → IsNear wish.now.x }
    ensures y { IsTrue result → IsNear wish.now.y }
{
    is_near(wish.x) && is_near(wish.y)
}

fn is_near(z: i64) -> bool
    ensures { IsTrue result → IsNear z }
{
    -MOST_WISH <= z && z <= MOST_WISH
}
