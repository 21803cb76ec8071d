ghost use Rattle.std.specs.Prelude.{◌≡◌, ℕ, ◌<◌, ◌≤◌, [], ◌∷◌, ◌++◌, length, slice_set, vec_len, OnOk, IfOk, MatchResult};
ghost use Rattle.pad_reach.specs.Chain.{HasChain};
ghost use Rattle.pad_reach.specs.Reaches.{Reaches};
ghost use Rattle.pad_reach.specs.Refusal.{IsRefusal};
ghost use Rattle.pad_reach.specs.declared.search.ReachError.TheVariants.{Memory};
ghost use Rattle.pad_reach.specs.Forms.Search.{IsSettled, IsSearch};

use crate::in_neighbours::InNeighbours;
use crate::steps::{Entry, Reach};
use crate::web::{MOST_POINTS, Web};
use std::alloc::{AllocError, AllocFailed, Global};

/// Why there is no step for each point.
#[derive(Clone, Copy, Debug, PartialEq, Eq)]
pub enum ReachError {
    /// The first point from which no chain leads to an anchored point.
    Unanchored(u32),
    /// Want of memory.
    Memory,
}

impl From<AllocError> for ReachError {
    ghost from_gives = { λ _ e. e ≡ Memory };

    fn from(_error: AllocError) -> ReachError {
        ReachError::Memory
    }
}

impl<T: Drop> From<AllocFailed<T>> for ReachError {
    ghost from_gives = { λ _ e. e ≡ Memory };

    fn from(_error: AllocFailed<T>) -> ReachError {
        ReachError::Memory
    }
}

/// A step for each point that leads to an anchored point, or the first point without one.
///
/// Linear in points and neighbour entries: a search from the anchored points over reversed entries.
pub fn reach<W: Web>(alloc: Global, web: &W) -> Result<Reach, ReachError>
    ensures steps { MatchResult result (Reaches (W.joints web.now)) (IsRefusal (W.joints web.now)) }
    ensures chains { IfOk result (λ _. (p : ℕ) → p < length (W.joints web.now) → HasChain (W.joints web.now) p) }
{
    let found = spread(alloc, web)?;
    let mut entries = Vec::with_capacity(alloc, web.points())?;
    for (i, entry) in found.iter().enumerate() {
        match entry {
            Some(entry) => entries.push(*entry)?,
            None => return Err(ReachError::Unanchored(i as u32)),
        }
    }
    Ok(Reach { entries })
}

/// What is known of each point that a chain leads from, found breadth-first from the anchored points.
fn spread<W: Web>(alloc: Global, web: &W) -> Result<Vec<Option<Entry>>, AllocError>
    ensures { IfOk result (λ found. IsSettled (W.joints web.now) found.items) }
{
    let in_neighbours = InNeighbours::new(alloc, web)?;
    let mut search = Search::new(alloc, web)?;
    let mut next = 0;
    while next < search.queue.len() {
        let near = search.queue[next];
        let distance = search.found[near as usize].unwrap().distance + 1;
        for far in in_neighbours.of(near as usize) {
            if search.found[*far as usize].is_none() {
                search.add(
                    *far,
                    Entry {
                        toward: Some(near),
                        distance,
                    },
                )?;
            }
        }
        next += 1;
    }
    Ok(search.found)
}

/// The points that a search has reached: what is known of each, and all of them in the order in which they were reached.
#[derive(Drop)]
struct Search {
    found: Vec<Option<Entry>>,
    queue: Vec<u32>,
}

impl Search {
    /// Reaches the anchored points.
    fn new<W: Web>(alloc: Global, web: &W) -> Result<Search, AllocError>
        ensures search { IfOk result
            (λ search. IsSearch
            (W.joints web.now)
            (length (W.joints web.now))
            search.found.items
            search.queue.items
            0) }
        ensures few { length (W.joints web.now) ≤ MOST_POINTS }
    {
        let found = vec![in alloc; None; web.points()]?;
        let queue = Vec::with_capacity(alloc, web.points())?;
        let mut search = Search { found, queue };
        for i in 0..web.points() {
            if web.anchored(i) {
                search.add(
                    i as u32,
                    Entry {
                        toward: None,
                        distance: 0,
                    },
                )?;
            }
        }
        Ok(search)
    }

    /// Reaches a point.
    fn add(&mut self, point: u32, entry: Entry) -> Result<(), AllocError>
        requires { point < vec_len self.old.found }
        ensures found { OnOk result
            (self.new.found.items ≡ slice_set self.old.found.items point (Some entry)) }
        ensures queue { OnOk result (self.new.queue.items ≡ self.old.queue.items ++ point ∷ []) }
    {
        self.queue.push(point)?;
        self.found[point as usize] = Some(entry);
        Ok(())
    }
}
