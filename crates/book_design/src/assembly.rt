//! A design from its parts.

ghost use Rattle.std.specs.Prelude.{◌≡◌, ℕ, ◌<◌, ◌≤◌, ◌^◌, map, length, IfOk, Some, None};
ghost use Rattle.std.specs.Int.{int_min, int_max};
ghost use Rattle.book_design.specs.declared.rules.TheConstants.{MOST_SITES};
ghost use Rattle.book_design.specs.Joined.{Joins, joined_node};
ghost use Rattle.book_design.specs.Values.{node_values};
ghost use Rattle.book_design.specs.Nets.{net_values};
ghost use Rattle.book_design.specs.Forms.Steps.{IsSound};
ghost use Rattle.book_design.specs.Forms.Sources.{records_of, AreInRange};
ghost use Rattle.book_design.specs.Forms.Parts.{outlines, pinned_net, joined_kept, kept_at, IsShape};
ghost use Rattle.book_design.specs.Forms.Assembly.{IsNarrow, AreNarrow, HasSiteBefore, IsCoreOf, core_with};

use crate::design::{Design, point_lists};
use crate::parts::{Core, Net, Node, Subrow};
use crate::rows::RowShape;
use crate::sources::Sources;
use crate::strips::Strip;
use std::alloc::{AllocError, Global};

/// The design of these parts of files without a fault.
pub(crate) fn assemble<'a>(
    alloc: Global,
    records: &Sources<'_, 'a>,
    nodes: Vec<Node<'a>>,
    nets: Vec<Net>,
    strips: &[Strip],
    shape: &RowShape,
) -> Result<Design<'a>, AllocError>
    requires few_nets { length (records_of records.now).nets < 2 ^ 32 }
    requires ranges { AreInRange (records_of records.now) }
    requires nodes { node_values nodes.items ≡ map (joined_node (records_of records.now)) (records_of records.now).nodes }
    requires nets { net_values nets.items ≡ map (pinned_net (records_of records.now)) (records_of records.now).nets }
    requires strips { strips.now ≡ outlines (records_of records.now) }
    requires shape { IsShape (records_of records.now) shape.now }
    requires free { IsSound (records_of records.now) }
    ensures { IfOk result (Joins (records_of records.now)) }
{
    let points = point_lists(alloc, &nodes)?;
    let subrows = plain_subrows(alloc, strips)?;
    let core = core_of(strips, shape.height);
    Ok(Design::new(nodes, nets, subrows, core, *shape, points))
}

/// The subrows as the design keeps them.
fn plain_subrows(alloc: Global, strips: &[Strip]) -> Result<Vec<Subrow>, AllocError>
    requires { (s : ℕ) → s < length strips.now → (kept_at strips.now s).sites ≤ MOST_SITES }
    ensures { IfOk result (λ subrows. subrows.items ≡ map joined_kept strips.now) }
{
    let mut subrows = Vec::new(alloc);
    for strip in strips {
        subrows.push(Subrow {
            row: strip.row,
            x: strip.left,
            y: strip.lower,
            sites: strip.sites as u32,
        })?;
    }
    Ok(subrows)
}

/// The smallest rectangle around these subrows, of which some have sites.
fn core_of(strips: &[Strip], height: i64) -> Core
    requires narrow { AreNarrow height strips.now }
    requires some { (s : ℕ) × HasSiteBefore strips.now (length strips.now) s }
    ensures { IsCoreOf height strips.now (length strips.now) result }
{
    let mut core = None;
    for strip in strips {
        core = widened(core, strip, height);
    }
    core.unwrap()
}

/// The rectangle around one more subrow, if that has a site.
fn widened(core: Option<Core>, strip: &Strip, height: i64) -> Option<Core>
    requires { IsNarrow height strip.now }
    ensures none { strip.now.sites ≡ 0 → result ≡ core }
    ensures some { 0 < strip.now.sites → result ≡ Some (core_with height strip.now core) }
{
    if strip.sites == 0 {
        return core;
    }
    let own = strip_core(strip, height);
    match core {
        Some(core) => Some(around(core, own)),
        None => Some(own),
    }
}

/// The rectangle of a subrow.
fn strip_core(strip: &Strip, height: i64) -> Core
    requires { IsNarrow height strip.now }
    ensures { result ≡ core_with height strip.now None }
{
    Core {
        xlo: strip.left,
        xhi: strip.right as i64,
        ylo: strip.lower,
        yhi: strip.lower + height,
    }
}

/// The smallest rectangle around two.
fn around(one: Core, other: Core) -> Core
    ensures left { result.xlo ≡ int_min one.xlo other.xlo }
    ensures right { result.xhi ≡ int_max one.xhi other.xhi }
    ensures lower { result.ylo ≡ int_min one.ylo other.ylo }
    ensures upper { result.yhi ≡ int_max one.yhi other.yhi }
{
    Core {
        xlo: lesser(one.xlo, other.xlo),
        xhi: greater(one.xhi, other.xhi),
        ylo: lesser(one.ylo, other.ylo),
        yhi: greater(one.yhi, other.yhi),
    }
}

fn lesser(one: i64, other: i64) -> i64
    ensures { result ≡ int_min one other }
{
    one.min(other)
}

fn greater(one: i64, other: i64) -> i64
    ensures { result ≡ int_max one other }
{
    one.max(other)
}
