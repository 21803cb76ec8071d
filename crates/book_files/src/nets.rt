ghost use Rattle.std.specs.Prelude.{◌≡◌, ◌+◌, ◌^◌, ◌<◌, ◌≤◌, ◌++◌, [], ◌∷◌, map, length, IfOk, OnOk};
ghost use Rattle.std.specs.List.{AllByRecursion};
ghost use Rattle.book_files.specs.Grammar.{Answers};
ghost use Rattle.book_files.specs.NetRules.{nets_grammar};
ghost use Rattle.book_files.specs.Ranges.{IsPinInRange, IsNetInRange, pin_count};
ghost use Rattle.book_files.specs.Forms.Progress.{Gives};
ghost use Rattle.book_files.specs.Nets.{net, is_direction};
ghost use Rattle.book_files.specs.Forms.Nets.{head_of, pin_of, offset_pin, plain_pin};
ghost use Rattle.book_files.specs.Forms.NetsSoFar.{head_entry, open_entries, counted, KeepsPinIn};
ghost use Rattle.book_files.specs.Entries.{pin_entry, pin_entries};
ghost use Rattle.book_files.specs.Blocks.{net_entries};

use crate::fault::{LineError, ReadError, TextKind, fault_at_end};
use crate::name::Name;
use crate::records::{NetBlock, PinLine};
use crate::walk::{Progress, keep_lines};
use crate::words::{count_of, is_colon, is_header, is_keyed, is_keyword, number_of, whole_of};
use book_text::Micro;
use std::alloc::{AllocFailed, Global};
use std::marker::Model;

/// The pins of a net.
#[derive(Drop)]
pub struct Pins<'a> {
    lines: Vec<PinLine<'a>>,
}

impl<'a> Model for Pins<'a> {
    ghost use Rattle.std.specs.Prelude.{List};
    ghost use Rattle.std.specs.List.{AllByRecursion};
    ghost use Rattle.book_files.specs.Entries.{PinEntry, pin_entries};
    ghost use Rattle.book_files.specs.Ranges.{IsPinInRange};

    ghost Value = { List PinEntry };

    ghost view = { λ p. pin_entries p.lines.items };

    ghost invariant = { λ p. AllByRecursion IsPinInRange (pin_entries p.lines.items) };
}

impl<'a> Pins<'a> {
    /// The pins in order.
    pub fn as_slice(&self) -> &[PinLine<'a>]
        ensures lines { pin_entries result.now ≡ self.now }
        ensures ranges { AllByRecursion IsPinInRange self.now }
    {
        &self.lines
    }

    /// How many pins there are.
    fn len(&self) -> usize
        ensures count { result ≡ length self.now }
        ensures small { result < 2 ^ 63 }
    {
        self.lines.len()
    }

    /// Takes one pin more.
    fn push(&mut self, pin: PinLine<'a>) -> Result<(), AllocFailed<PinLine<'a>>>
        requires { IsPinInRange (pin_entry pin) }
        ensures { OnOk result (self.new ≡ self.old ++ pin_entry pin.entry ∷ []) }
    {
        self.lines.push(pin)
    }
}

/// The nets of a `.nets` file.
#[derive(Drop)]
pub struct NetFile<'a> {
    blocks: Vec<NetBlock<'a>>,
}

impl<'a> Model for NetFile<'a> {
    ghost use Rattle.std.specs.Prelude.{List};
    ghost use Rattle.std.specs.List.{AllByRecursion};
    ghost use Rattle.book_files.specs.Entries.{NetEntry};
    ghost use Rattle.book_files.specs.Blocks.{net_entries};
    ghost use Rattle.book_files.specs.Ranges.{IsNetInRange};

    ghost Value = { List NetEntry };

    ghost view = { λ f. net_entries f.blocks.items };

    ghost invariant = { λ f. AllByRecursion IsNetInRange (net_entries f.blocks.items) };
}

impl<'a> NetFile<'a> {
    /// The nets in order.
    pub fn as_slice(&self) -> &[NetBlock<'a>]
        ensures blocks { net_entries result.now ≡ self.now }
        ensures ranges { AllByRecursion IsNetInRange self.now }
    {
        &self.blocks
    }
}

/// The nets that a `.nets` file has, or its first fault. Offsets are in millionths.
///
/// Each net has as many pins as it is stated to have, and the nets and the pins are as many as the
/// count lines state.
pub fn read_nets(alloc: Global, bytes: &[u8]) -> Result<NetFile<'_>, ReadError>
    ensures reading { Answers nets_grammar (λ file. file) bytes.now result }
    ensures few { IfOk result (λ file. length file + pin_count file ≤ length bytes.now) }
{
    let mut so_far = NetsSoFar {
        alloc,
        begun: false,
        total: None,
        pin_total: None,
        pins_found: 0,
        closed: Vec::new(alloc),
        current: None,
    };
    keep_lines(alloc, bytes, &mut so_far)?;
    if let Err(kind) = so_far.at_end() {
        return Err(fault_at_end(bytes, kind));
    }
    Ok(NetFile {
        blocks: so_far.into_blocks()?,
    })
}

/// How many pins a net is to have, and its name.
#[derive(Clone, Copy)]
struct Head<'a> {
    degree: u64,
    name: Option<Name<'a>>,
}

/// A net behind which no other was begun, with its pins so far.
#[derive(Drop)]
struct OpenNet<'a> {
    head: Head<'a>,
    pins: Pins<'a>,
}

impl<'a> OpenNet<'a> {
    ghost use Rattle.book_files.specs.Forms.Nets.{unless_short};
    ghost use Rattle.book_files.specs.Forms.NetsSoFar.{open_group, KeepsPin};

    /// Whether it has as many pins as it is to have.
    fn expect_whole(&self) -> Result<(), TextKind>
        ensures { Gives (λ _. tt) result (unless_short (Some (open_group self.now))) }
    {
        let stated = self.head.degree;
        let found = self.pins.len() as u64;
        if found < stated {
            return Err(TextKind::CountMismatch {
                told: stated,
                found,
            });
        }
        Ok(())
    }

    /// Takes the pin of a line.
    fn keep(&mut self, number: u64, words: &[&'a [u8]]) -> Result<(), LineError>
        ensures { KeepsPin self.old self.new
            (record { number = number; words = map (λ w. w.now) words.now }) result }
    {
        let pin = pin_of(number, words)?;
        let stated = self.head.degree;
        if stated <= self.pins.len() as u64 {
            let found = stated + 1;
            return Err(LineError::Kind(TextKind::CountMismatch {
                told: stated,
                found,
            }));
        }
        self.pins.push(pin)?;
        Ok(())
    }
}

/// Whether the header was read, which counts were stated, how many pins were found, and the nets, of
/// which the last is open.
#[derive(Drop)]
struct NetsSoFar<'a> {
    alloc: Global,
    begun: bool,
    total: Option<u64>,
    pin_total: Option<u64>,
    pins_found: u64,
    closed: Vec<NetBlock<'a>>,
    current: Option<OpenNet<'a>>,
}

impl<'a> NetsSoFar<'a> {
    ghost use Rattle.std.specs.Prelude.{option_map};
    ghost use Rattle.book_files.specs.Forms.Nets.{unless_short};
    ghost use Rattle.book_files.specs.Forms.NetsSoFar.{open_group, all_entries, at_end, BeginsNet};

    /// Whether the open net, if there is one, has as many pins as it is to have.
    fn expect_whole(&self) -> Result<(), TextKind>
        ensures { Gives (λ _. tt) result (unless_short (option_map open_group self.now.current)) }
    {
        match &self.current {
            None => Ok(()),
            Some(net) => net.expect_whole(),
        }
    }

    /// Closes the open net, and opens the one of a line.
    fn begin(&mut self, words: &[&'a [u8]]) -> Result<(), LineError>
        ensures { BeginsNet self.old self.new (map (λ w. w.now) words.now) result }
    {
        self.expect_whole()?;
        let head = head_of(words)?;
        close(&mut self.closed, self.current.take())?;
        let lines = Vec::new(self.alloc);
        let pins = Pins { lines };
        self.current = Some(OpenNet { head, pins });
        Ok(())
    }

    /// Whether the file may end here, or its first fault.
    fn at_end(&self) -> Result<(), TextKind>
        ensures { Gives (λ _. tt) result (at_end self.now) }
    {
        if !self.begun {
            return Err(TextKind::BadHeader);
        }
        self.expect_whole()?;
        let nets_found = self.closed.len() as u64 + u64::from(self.current.is_some());
        match (self.total, self.pin_total) {
            (Some(nets), Some(pins)) => {
                expect_count(nets, nets_found)?;
                expect_count(pins, self.pins_found)
            }
            _ => Err(TextKind::BadLine),
        }
    }

    /// All nets, the open one last.
    fn into_blocks(self) -> Result<Vec<NetBlock<'a>>, AllocFailed<NetBlock<'a>>>
        ensures { IfOk result (λ blocks. net_entries blocks.items ≡ all_entries self.entry) }
    {
        let mut blocks = self.closed;
        close(&mut blocks, self.current)?;
        Ok(blocks)
    }
}

impl<'a> Progress<'a> for NetsSoFar<'a> {
    ghost use Rattle.book_files.specs.Forms.Progress.{StandsFor, Refuses};
    ghost use Rattle.book_files.specs.Forms.Nets.{net_form};
    ghost use Rattle.book_files.specs.Forms.NetsSoFar.{IsNetsSoFar};

    ghost stands_for = { StandsFor net_form IsNetsSoFar };

    ghost refuses = { Refuses net_form };

    fn keep(&mut self, number: u64, words: &[&'a [u8]]) -> Result<(), LineError> {
        if !self.begun {
            if !is_header(b"nets", words) {
                return Err(LineError::Kind(TextKind::BadHeader));
            }
            self.begun = true;
        } else if is_keyed(b"numnets", words) {
            self.total = Some(count_of(self.total.is_some(), words)?);
        } else if is_keyed(b"numpins", words) {
            self.pin_total = Some(count_of(self.pin_total.is_some(), words)?);
        } else if is_keyed(b"netdegree", words) {
            self.begin(words)?;
        } else {
            keep_pin(&mut self.current, number, words)?;
            // A text has fewer pins than would stop the count.
            self.pins_found = self.pins_found.saturating_add(1);
        }
        Ok(())
    }
}

/// Takes the pin of a line into the open net. Where there is none, the line is bad.
fn keep_pin<'a>(
    current: &mut Option<OpenNet<'a>>,
    number: u64,
    words: &[&'a [u8]],
) -> Result<(), LineError>
    ensures { KeepsPinIn current.old current.new
        (record { number = number; words = map (λ w. w.now) words.now }) result }
{
    match current {
        None => Err(LineError::Kind(TextKind::BadLine)),
        Some(net) => net.keep(number, words),
    }
}

/// Puts the net behind the others, if there is one.
fn close<'a>(
    closed: &mut Vec<NetBlock<'a>>,
    current: Option<OpenNet<'a>>,
) -> Result<(), AllocFailed<NetBlock<'a>>>
    ensures { OnOk result
        (net_entries closed.new.items
        ≡ net_entries closed.old.items ++ open_entries current.entry) }
{
    match current {
        None => Ok(()),
        Some(net) => closed.push(NetBlock {
            name: net.head.name,
            pins: net.pins,
        }),
    }
}

/// Whether as many were found as were stated.
fn expect_count(stated: u64, found: u64) -> Result<(), TextKind>
    ensures { Gives (λ _. tt) result (counted stated found) }
{
    if stated != found {
        return Err(TextKind::CountMismatch {
            told: stated,
            found,
        });
    }
    Ok(())
}

/// The degree of a net, and its name behind it or none.
fn head_of<'a>(words: &[&'a [u8]]) -> Result<Head<'a>, TextKind>
    ensures { Gives (λ head. net (head_entry head)) result (head_of (map (λ w. w.now) words.now)) }
{
    match words {
        [_, _, degree] => Ok(Head {
            degree: whole_of(degree)?,
            name: None,
        }),
        [_, _, degree, name] => Ok(Head {
            degree: whole_of(degree)?,
            name: Some(Name(name)),
        }),
        _ => Err(TextKind::BadLine),
    }
}

/// A pin: its node, then its direction or none, then its offset behind a colon or none.
fn pin_of<'a>(number: u64, words: &[&'a [u8]]) -> Result<PinLine<'a>, TextKind>
    ensures { Gives pin_entry result (pin_of number (map (λ w. w.now) words.now)) }
{
    match words {
        [node] => Ok(plain_pin(number, node)),
        [node, direction] => {
            if is_direction(direction) {
                Ok(plain_pin(number, node))
            } else {
                Err(TextKind::BadLine)
            }
        }
        [node, direction, colon, x, y] => {
            if is_direction(direction) && is_colon(colon) {
                offset_pin(number, node, x, y)
            } else {
                Err(TextKind::BadLine)
            }
        }
        _ => Err(TextKind::BadLine),
    }
}

/// Whether the word is I, O or B, in any ASCII case.
fn is_direction(word: &[u8]) -> bool
    ensures { result ≡ is_direction word.now }
{
    is_keyword(b"i", word) || is_keyword(b"o", word) || is_keyword(b"b", word)
}

/// A pin at its node's centre.
fn plain_pin<'a>(number: u64, node: &'a [u8]) -> PinLine<'a>
    ensures { pin_entry result ≡ plain_pin number node.now }
{
    PinLine {
        line: number,
        node: Name(node),
        dx: Micro(0),
        dy: Micro(0),
    }
}

/// A pin at this offset from its node's centre.
fn offset_pin<'a>(number: u64, node: &'a [u8], x: &[u8], y: &[u8]) -> Result<PinLine<'a>, TextKind>
    ensures { Gives pin_entry result (offset_pin number node.now x.now y.now) }
{
    Ok(PinLine {
        line: number,
        node: Name(node),
        dx: number_of(x)?,
        dy: number_of(y)?,
    })
}
