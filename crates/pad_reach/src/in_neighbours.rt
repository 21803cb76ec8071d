ghost use Rattle.std.specs.Prelude.{◌≡◌, ℕ, ◌+◌, ◌^◌, ◌<◌, ◌≤◌, length, take, sum, slice_index, slice_range, EachIndex, IfOk, OnSome, MatchOption, vec_len};
ghost use Rattle.pad_reach.specs.Chain.{joint_at};
ghost use Rattle.pad_reach.specs.Forms.InNeighbours.{count_in, entries, AreEnds, IsLaidOut, IsReversed};

use crate::web::Web;
use std::alloc::{AllocError, Global};

/// The entries of a web, reversed: for each point its in-neighbours, which are the points that have it as a neighbour, once for
/// each entry.
///
/// Those of the point `q` stand in `points` from `starts[q]` up to `starts[q + 1]`.
#[derive(Drop)]
pub(crate) struct InNeighbours {
    pub(crate) starts: Vec<usize>,
    pub(crate) points: Vec<u32>,
}

impl InNeighbours {
    /// Sorts the entries of the web by their neighbours, by counting.
    pub(crate) fn new<W: Web>(alloc: Global, web: &W) -> Result<InNeighbours, AllocError>
        ensures { IfOk result
            (λ in_neighbours. IsReversed (W.joints web.now) in_neighbours.starts.items in_neighbours.points.items) }
    {
        let mut starts = vec![in alloc; 0usize; web.points() + 1]?;
        let entries = find_ends(web, &mut starts).ok_or(AllocError)?;
        let mut points = vec![in alloc; 0u32; entries]?;
        lay_out(web, &mut starts, &mut points);
        Ok(InNeighbours { starts, points })
    }

    /// The in-neighbours of the point.
    pub(crate) fn of(&self, point: usize) -> &[u32]
        requires there { point + 1 < vec_len self.now.starts }
        requires ordered { slice_index self.now.starts.items point
            ≤ slice_index self.now.starts.items (point + 1) }
        requires within { slice_index self.now.starts.items (point + 1)
            ≤ vec_len self.now.points }
        ensures { result.now
            ≡ slice_range
            self.now.points.items
            (slice_index self.now.starts.items point)
            (slice_index self.now.starts.items (point + 1)) }
    {
        &self.points[self.starts[point]..self.starts[point + 1]]
    }
}

/// Finds where the room of each point ends, and answers how many entries there are; None where they are 2^64 or more.
fn find_ends<W: Web>(web: &W, ends: &mut [usize]) -> Option<usize>
    requires all { length ends.old ≡ length (W.joints web.now) + 1 }
    requires none { EachIndex ends.old (λ q. slice_index ends.old q ≡ 0) }
    ensures total { MatchOption result
        (2 ^ 64 ≤ entries (W.joints web.now))
        (λ total. total ≡ entries (W.joints web.now)) }
    ensures found { OnSome result (AreEnds (W.joints web.now) ends.new) }
{
    let mut total = 0usize;
    for i in 0..web.points() {
        total = total.checked_add(web.degree(i))?;
        count_entries(web, i, ends);
    }
    add_up(ends);
    Some(total)
}

/// Counts the entries of a point, each at its neighbour.
fn count_entries<W: Web>(web: &W, i: usize, counts: &mut [usize])
    requires there { i < length (W.joints web.now) }
    requires all { length (W.joints web.now) ≤ length counts.old }
    requires room { EachIndex counts.old
        (λ q. slice_index counts.old q + length (joint_at (W.joints web.now) i).near < 2 ^ 64) }
    ensures { EachIndex counts.new
        (λ q. slice_index counts.new q
        ≡ slice_index counts.old q + count_in q (joint_at (W.joints web.now) i).near) }
{
    for k in 0..web.degree(i) {
        counts[web.neighbour(i, k) as usize] += 1;
    }
}

/// Puts the sum of the counts up to it in the place of each count.
fn add_up(counts: &mut [usize])
    requires { sum counts.old < 2 ^ 64 }
    ensures { EachIndex counts.new (λ q. slice_index counts.new q ≡ sum (take (q + 1) counts.old)) }
{
    let mut sum = 0;
    for count in counts.iter_mut() {
        sum += *count;
        *count = sum;
    }
}

/// Puts each point among the in-neighbours of its neighbours, from the ends of their room on downwards.
fn lay_out<W: Web>(web: &W, starts: &mut [usize], points: &mut [u32])
    requires { IsLaidOut (W.joints web.now) 0 0 starts.old points.old }
    ensures { IsReversed (W.joints web.now) starts.new points.new }
{
    for i in 0..web.points() {
        lay_out_point(web, i, starts, points);
    }
}

/// Puts a point before the in-neighbours that its neighbours have already.
fn lay_out_point<W: Web>(web: &W, i: usize, starts: &mut [usize], points: &mut [u32])
    requires there { i < length (W.joints web.now) }
    requires small { i < 2 ^ 32 }
    requires placed { IsLaidOut (W.joints web.now) i 0 starts.old points.old }
    ensures { IsLaidOut (W.joints web.now) (i + 1) 0 starts.new points.new }
{
    for k in 0..web.degree(i) {
        let neighbour = web.neighbour(i, k) as usize;
        let slot = starts[neighbour] - 1;
        starts[neighbour] = slot;
        points[slot] = i as u32;
    }
}
