//! The cells of a design: how many sites each takes, and where it wishes to stand.

ghost use Rattle.std.specs.Prelude.{◌≡◌, ◌<◌, ◌≤◌, IfOk};
ghost use Rattle.std.specs.List.{count_by};
ghost use Rattle.book_design.specs.Values.{node_value};
ghost use Rattle.book_design.specs.Points.{is_movable};
ghost use Rattle.book_design.specs.WellFormed.{IsDesign};
ghost use Rattle.level_run.specs.Levels.{level_at};
ghost use Rattle.level_run.specs.Rounds.{IsInLimits, last_round};
ghost use Rattle.row_legal.specs.Cells.{cells_of};
ghost use Rattle.row_legal.specs.Ranges.{AreGoodCells};
ghost use Rattle.row_legal.specs.Spots.{AreSitesOf};
ghost use Rattle.proud_top.specs.Wishes.{begin_of, wished_corner, AreWishes};
ghost use Rattle.proud_top.specs.Forms.Over.{IsBothOver, IsLastOver};
ghost use Rattle.proud_top.specs.Forms.Cells.{IsSize, IsSized, IsWish};

use book_design::{Design, Node};
use book_text::{Memory, micro_of};
use level_run::{Level, Levels, Rounds};
use relax_system::MOST_COORDINATE;
use row_legal::Wish;
use std::alloc::Global;

/// The movable nodes as cells.
#[derive(Drop)]
pub(crate) struct Cells {
    /// How many sites each takes.
    pub(crate) sites: Vec<u64>,
    /// Where each wishes its lower left corner.
    pub(crate) wishes: Vec<Wish>,
}

/// The movable nodes of a design as cells, which wish to have their middles at the mids of the last round. Star points, which have
/// the last mids, are no cells.
pub(crate) fn point_cells(
    alloc: Global,
    design: &Design<'_>,
    levels: &Levels,
    rounds: Rounds,
) -> Result<Cells, Memory>
    requires limits { IsInLimits rounds }
    requires over { IsLastOver (count_by is_movable design.now.nodes) (last_round rounds) levels.now }
    ensures sites { IfOk result (λ cells. AreSitesOf design.now cells.sites.items) }
    ensures wishes { IfOk result (λ cells. AreWishes design.now (level_at levels.now (last_round rounds)) cells.wishes.items) }
    ensures good { IfOk result (λ cells. AreGoodCells (cells_of cells.sites.items cells.wishes.items)) }
{
    let last = &levels.as_slice()[rounds.count() as usize - 1];
    let sites = sites(alloc, design)?;
    let wishes = wishes(alloc, design, last)?;
    Ok(Cells { sites, wishes })
}

/// How many sites each cell takes.
fn sites(alloc: Global, design: &Design<'_>) -> Result<Vec<u64>, Memory>
    ensures sites { IfOk result (λ sites. AreSitesOf design.now sites.items) }
    ensures valid { IsDesign design.now }
{
    let mut sites = Vec::new(alloc);
    for point in 0..cell_count(design) {
        sites.push(design.sites_of(point))?;
    }
    Ok(sites)
}

/// Where each cell wishes its corner.
fn wishes(alloc: Global, design: &Design<'_>, level: &Level) -> Result<Vec<Wish>, Memory>
    requires { IsBothOver (count_by is_movable design.now.nodes) level.now }
    ensures { IfOk result (λ wishes. AreWishes design.now level.now wishes.items) }
{
    let mut wishes = Vec::new(alloc);
    for point in 0..cell_count(design) {
        wishes.push(wish_of(design, level, point))?;
    }
    Ok(wishes)
}

/// Where a cell wishes its corner.
fn wish_of(design: &Design<'_>, level: &Level, point: u32) -> Wish
    requires over { IsBothOver (count_by is_movable design.now.nodes) level.now }
    requires there { point < count_by is_movable design.now.nodes }
    ensures { IsWish design.now level.now point result }
{
    let node = design.nodes()[design.node_of(point) as usize];
    let x = level.x.mid.as_slice()[point as usize];
    let y = level.y.mid.as_slice()[point as usize];
    corner(&node, x, y)
}

/// How many cells there are.
pub(crate) fn cell_count(design: &Design<'_>) -> u32
    ensures count { result ≡ count_by is_movable design.now.nodes }
    ensures valid { IsDesign design.now }
{
    design.points() as u32
}

/// The corner of a node whose middle lies at these mids.
fn corner(node: &Node<'_>, x: u64, y: u64) -> Wish
    requires size { IsSized node.now }
    requires x { x ≤ MOST_COORDINATE }
    requires y { y ≤ MOST_COORDINATE }
    ensures { result ≡ wished_corner (node_value node.now) x y }
{
    Wish {
        x: begin_of(x, node.width),
        y: begin_of(y, node.height),
    }
}

/// Where a size begins whose middle lies at a coordinate.
fn begin_of(mid: u64, size: i64) -> i64
    requires mid { mid ≤ MOST_COORDINATE }
    requires size { IsSize size }
    ensures { result ≡ begin_of mid size }
{
    micro_of(mid).0 - (size.unsigned_abs() / 2) as i64
}
