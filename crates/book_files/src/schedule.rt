ghost use Rattle.std.specs.Prelude.{◌≡◌, map, ◌≤◌, length, IfOk};
ghost use Rattle.book_files.specs.Grammar.{Answers};
ghost use Rattle.book_files.specs.ScheduleRules.{schedule_grammar};
ghost use Rattle.book_files.specs.Forms.Schedule.{number_of, event_of};

use crate::fault::{LineError, ReadError, TextKind};
use crate::walk::{Progress, keep_lines};
use crate::words::is_keyword;
use book_text::read_whole;
use std::alloc::Global;
use std::marker::Model;

/// The greatest number of a seat or of a point that a line of a schedule may have, 2^32 - 1. A greater one makes it no event.
pub const MOST_NUMBER: u64 = 4_294_967_295;

/// One event of a schedule: a seat and a point by their numbers from 0, each at most `MOST_NUMBER`. Neither need be there.
#[derive(Clone, Copy, Debug, PartialEq, Eq)]
pub enum Event {
    /// The line `load S P`: seat S loads point P.
    Load { seat: u32, point: u32 },
    /// The line `renew S P`: seat S renews point P.
    Renew { seat: u32, point: u32 },
}

/// The events of a schedule, in order.
#[derive(Drop)]
pub struct Events {
    events: Vec<Event>,
}

impl Model for Events {
    ghost use Rattle.std.specs.Prelude.{List};
    ghost use Rattle.book_files.specs.declared.schedule.Event.{Event};

    ghost Value = { List Event };

    ghost view = { λ e. e.events.items };
}

impl Events {
    /// The events in order. It takes no memory.
    pub fn as_slice(&self) -> &[Event]
        ensures { result.now ≡ self.now }
    {
        &self.events
    }
}

/// The events that a schedule has, or its first fault, which is `BadLine` at the first line that is no event.
///
/// Each line is `load S P` or `renew S P`: the keyword in any ASCII case, and two whole words of at most `MOST_NUMBER`.
/// There is no header, and a text without such lines is a schedule without events.
pub fn read_schedule(alloc: Global, bytes: &[u8]) -> Result<Events, ReadError>
    ensures reading { Answers schedule_grammar (λ events. events) bytes.now result }
    ensures few { IfOk result (λ events. length events ≤ length bytes.now) }
{
    let mut so_far = EventsSoFar {
        events: Vec::new(alloc),
    };
    keep_lines(alloc, bytes, &mut so_far)?;
    Ok(Events {
        events: so_far.events,
    })
}

/// The events of the lines before.
#[derive(Drop)]
struct EventsSoFar {
    events: Vec<Event>,
}

impl<'a> Progress<'a> for EventsSoFar {
    ghost use Rattle.book_files.specs.Forms.Progress.{StandsFor, Refuses};
    ghost use Rattle.book_files.specs.Forms.Schedule.{event_form};
    ghost use Rattle.book_files.specs.Forms.SoFar.{AreEventsSoFar};

    ghost stands_for = { StandsFor event_form AreEventsSoFar };

    ghost refuses = { Refuses event_form };

    fn keep(&mut self, _number: u64, words: &[&'a [u8]]) -> Result<(), LineError> {
        self.events.push(event_of(words)?)?;
        Ok(())
    }
}

/// The event of a line's words.
fn event_of(words: &[&[u8]]) -> Result<Event, TextKind>
    ensures { result ≡ event_of (map (λ w. w.now) words.now) }
{
    let [keyword, seat, point] = words else {
        return Err(TextKind::BadLine);
    };
    let (seat, point) = (number_of(seat)?, number_of(point)?);
    if is_keyword(b"load", keyword) {
        Ok(Event::Load { seat, point })
    } else if is_keyword(b"renew", keyword) {
        Ok(Event::Renew { seat, point })
    } else {
        Err(TextKind::BadLine)
    }
}

/// The number of a seat or of a point: a whole word in range.
fn number_of(word: &[u8]) -> Result<u32, TextKind>
    ensures { result ≡ number_of word.now }
{
    match read_whole(word) {
        Ok(number) if number <= MOST_NUMBER => Ok(number as u32),
        _ => Err(TextKind::BadLine),
    }
}
