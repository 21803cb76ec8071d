//! The machine: the words of the points and what each seat has seen, step by step.

ghost use Rattle.std.specs.Prelude.{◌≡◌, ◌<◌, [], length, slice_index_or, replicate, IfOk};
ghost use Rattle.std.specs.List.{fold};
ghost use Rattle.relax_system.specs.Means.{InBoxes};
ghost use Rattle.relax_system.specs.Sides.{further_of, mean_of, starts_of};
ghost use Rattle.relax_table.specs.Step.Kind.{Load, Renew};
ghost use Rattle.relax_table.specs.Ways.{is_past, one_if};
ghost use Rattle.book_files.specs.Schedule.{seat_of, point_of};
ghost use Rattle.relax_world.specs.World.{IsSeatCount, first_world, stepped, world_after};
ghost use Rattle.relax_world.specs.Sound.{IsSoundWorld};

use crate::sight::Sight;
use book_files::Event;
use book_text::Memory;
use relax_system::{Side, System};
use std::alloc::Global;
use std::marker::Model;

/// The most seats that a machine may have; it has at least one. It is as many as a crew may have.
pub const MOST_WORLD_SEATS: u32 = 64;

/// A machine of explicit events over a system: a word per point, what each seat has seen of the words, and how many steps changed
/// a word.
#[derive(Drop)]
pub struct World<'a> {
    system: &'a System,
    side: Side,
    words: Vec<u64>,
    seen: Vec<Sight>,
    changes: u64,
}

impl<'a> Model for World<'a> {
    ghost use Rattle.relax_world.specs.World.{WorldState, world_of};
    ghost use Rattle.relax_world.specs.Sound.{IsSoundWorld};

    ghost Value = { WorldState };

    ghost view = { λ w. world_of w.side w.system.now w.words.items w.seen.items w.changes };

    ghost invariant = { λ w. IsSoundWorld (world_of w.side w.system.now w.words.items w.seen.items w.changes) };
}

impl<'a> World<'a> {
    /// The machine before its first event: each word is where the side begins, and each seat has seen that. Only want of memory is
    /// refused.
    pub fn new(
        alloc: Global,
        system: &'a System,
        side: Side,
        seats: u32,
    ) -> Result<World<'a>, Memory>
        requires { IsSeatCount seats }
        ensures first { IfOk result (λ w. w ≡ first_world side system.now seats) }
        ensures sound { IfOk result IsSoundWorld }
    {
        let _ = system.points();
        let words = starts(alloc, side, system)?;
        let seen = sights(alloc, &words, seats)?;
        Ok(World {
            system,
            side,
            words,
            seen,
            changes: 0,
        })
    }

    /// Makes the step of an event. One of a seat or a point that isn't there does nothing. It takes no memory, and time by the
    /// entries of the point alone.
    pub fn step(&mut self, event: Event)
        ensures after { self.new ≡ world_after self.old event }
        ensures sound { IsSoundWorld self.new }
    {
        let (seat, point) = place_of(event);
        if seat < self.seen.len() && point < self.words.len() {
            match event {
                Event::Load { .. } => self.load(seat, point),
                Event::Renew { .. } => self.renew(seat, point),
            }
        }
    }

    /// Makes the steps of events, in order.
    pub fn run(&mut self, events: &[Event])
        ensures after { self.new ≡ fold world_after self.old events.now }
        ensures sound { IsSoundWorld self.new }
    {
        let _ = &self.system;
        for event in events {
            self.step(*event);
        }
    }

    /// The words, one per point.
    pub fn words(&self) -> &[u64]
        ensures words { result.now ≡ self.now.words }
        ensures sound { IsSoundWorld self.now }
    {
        &self.words
    }

    /// How many seats there are.
    pub fn seats(&self) -> usize
        ensures { result ≡ length self.now.seen }
    {
        self.seen.len()
    }

    /// What a seat has seen: a coordinate per point.
    pub fn seen(&self, seat: u32) -> &[u64]
        requires { seat < length self.now.seen }
        ensures seen { result.now ≡ slice_index_or self.now.seen seat [] }
        ensures sound { IsSoundWorld self.now }
    {
        self.seen[seat as usize].as_slice()
    }

    /// How many steps changed a word.
    pub fn changes(&self) -> u64
        ensures changes { result ≡ self.now.changes }
        ensures sound { IsSoundWorld self.now }
    {
        self.changes
    }

    /// A seat loads the word of a point.
    fn load(&mut self, seat: usize, point: usize)
        requires seat { seat < length self.old.seen }
        requires point { point < length self.old.words }
        ensures { self.new ≡ stepped self.old Load seat point }
    {
        let word = self.words[point];
        let sight = &mut self.seen[seat];
        sight.put(point, word);
    }

    /// A seat renews the word of a point by the mean of what it has seen.
    fn renew(&mut self, seat: usize, point: usize)
        requires seat { seat < length self.old.seen }
        requires point { point < length self.old.words }
        ensures { self.new ≡ stepped self.old Renew seat point }
    {
        let word = self.words[point];
        let sight = &mut self.seen[seat];
        let mean = mean(self.side, self.system, point, sight.as_slice());
        let next = further(self.side, word, mean);
        sight.put(point, next);
        self.words[point] = next;
        self.changes += passes(self.side, word, next);
    }
}

/// The seat and the point of an event.
pub(crate) fn place_of(event: Event) -> (usize, usize)
    ensures seat { result.0 ≡ seat_of event }
    ensures point { result.1 ≡ point_of event }
{
    match event {
        Event::Load { seat, point } => (seat as usize, point as usize),
        Event::Renew { seat, point } => (seat as usize, point as usize),
    }
}

/// The ends of the boxes at which a side begins.
pub(crate) fn starts(alloc: Global, side: Side, system: &System) -> Result<Vec<u64>, Memory>
    ensures { IfOk result (λ v. v.items ≡ starts_of side system.now) }
{
    let mut start = Vec::with_capacity(alloc, system.points())?;
    for i in 0..system.points() {
        let point = system.point(i);
        start.push(match side {
            Side::Floor => point.lo,
            Side::Ceil => point.hi,
        })?;
    }
    Ok(start)
}

/// What so many seats have seen that have seen these words.
fn sights(alloc: Global, words: &[u64], seats: u32) -> Result<Vec<Sight>, Memory>
    ensures { IfOk result (λ s. s.items ≡ replicate seats words.now) }
{
    let mut seen = Vec::with_capacity(alloc, seats as usize)?;
    for _ in 0..seats {
        seen.push(Sight::new(alloc, words)?)?;
    }
    Ok(seen)
}

/// A side's rounded mean of a point.
fn mean(side: Side, system: &System, point: usize, seen: &[u64]) -> u64
    requires point { point < length system.now }
    requires boxes { InBoxes system.now seen.now }
    ensures { result ≡ mean_of side system.now point seen.now }
{
    match side {
        Side::Floor => system.floor_mean(point, seen),
        Side::Ceil => system.ceil_mean(point, seen),
    }
}

/// Of two coordinates the one that stands further on the way.
fn further(side: Side, a: u64, b: u64) -> u64
    ensures { result ≡ further_of side a b }
{
    match side {
        Side::Floor => a.max(b),
        Side::Ceil => a.min(b),
    }
}

/// 1 where `b` stands past `a`, and else 0.
fn passes(side: Side, a: u64, b: u64) -> u64
    ensures { result ≡ one_if (is_past side a b) }
{
    match side {
        Side::Floor => u64::from(a < b),
        Side::Ceil => u64::from(b < a),
    }
}
