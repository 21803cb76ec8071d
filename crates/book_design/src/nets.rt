//! The nets with their weights, and with pins that name their nodes by number.

ghost use Rattle.std.specs.Prelude.{◌≡◌, ◌<◌, ◌^◌, ℕ, map, length, option_map, IfOk, MatchResult};
ghost use Rattle.book_files.specs.Entries.{pin_entry, pin_entries, weight_entries};
ghost use Rattle.book_files.specs.declared.records.FileKind.TheVariants.{Nets};
ghost use Rattle.book_design.specs.declared.fault.DesignFault.TheVariants.{UnknownName};
ghost use Rattle.book_files.specs.Blocks.{net_entry};
ghost use Rattle.book_design.specs.Records.{last_weight, weight_lines};
ghost use Rattle.book_design.specs.Faults.{HasEarlierName, IsUnknown, IsUnknownPin, IsUnknownPlace};
ghost use Rattle.book_design.specs.Joined.{weight_of, joined_pin};
ghost use Rattle.book_design.specs.Nets.{net_values};
ghost use Rattle.book_design.specs.Forms.Steps.{HasKnownNames, IsFirstFrom, Stops};
ghost use Rattle.book_design.specs.Forms.Numbers.{AreNumbers};
ghost use Rattle.book_design.specs.Forms.Sources.{records_of, node_name, weight_name, entry_name, last_entry};
ghost use Rattle.book_design.specs.Forms.Parts.{whole_weight, whole_weights, pinned_net, AreKnown, StopsInPins};

use crate::fault::{DesignFault, JoinError};
use crate::numbers::{Numbers, number, weight_numbers};
use crate::parts::{Net, Pin};
use crate::pins::PinList;
use crate::rules::MOST_NET_WEIGHT;
use crate::sources::Sources;
use book_files::{FileKind, NetBlock, PinLine, WeightLine};
use std::alloc::{AllocError, Global};

/// A unit in millionths.
const UNIT: u64 = 1_000_000;

/// The weight of each net where it is a whole number from 0 to 65,535.
pub(crate) fn net_weights(
    alloc: Global,
    records: &Sources<'_, '_>,
) -> Result<Vec<Option<u32>>, AllocError>
    ensures { IfOk result (λ weights. weights.items ≡ whole_weights (records_of records.now)) }
{
    let numbers = weight_numbers(alloc, records)?;
    let mut weights = Vec::new(alloc);
    for net in records.nets {
        weights.push(net_weight(records, &numbers, net))?;
    }
    Ok(weights)
}

/// The net's weight where it is a whole number from 0 to 65,535.
fn net_weight<'a>(
    records: &Sources<'_, 'a>,
    numbers: &Numbers<'a>,
    net: &NetBlock<'a>,
) -> Option<u32>
    requires { AreNumbers (weight_name (records_of records.now)) (length (weight_lines (records_of records.now))) numbers.now }
    ensures { result ≡ whole_weight (weight_of (records_of records.now) (net_entry net.now)) }
{
    match net.name {
        Some(name) => match line_weight(records, numbers, name.0) {
            Some(weight) => whole(weight),
            None => Some(1),
        },
        None => Some(1),
    }
}

/// The weight in the last line of the weights file with this name, in millionths.
fn line_weight<'a>(records: &Sources<'_, 'a>, numbers: &Numbers<'a>, name: &[u8]) -> Option<i64>
    requires { AreNumbers (weight_name (records_of records.now)) (length (weight_lines (records_of records.now))) numbers.now }
    ensures { result ≡ option_map (λ line. line.weight) (last_weight (records_of records.now) name.now) }
{
    match records.weights {
        Some(lines) => weight_in(lines, numbers, name),
        None => None,
    }
}

/// The weight in the last of these lines with this name, in millionths.
fn weight_in<'a>(lines: &[WeightLine<'a>], numbers: &Numbers<'a>, name: &[u8]) -> Option<i64>
    requires { AreNumbers (entry_name (weight_entries lines.now)) (length (weight_entries lines.now)) numbers.now }
    ensures { result ≡ option_map (λ line. line.weight) (last_entry (weight_entries lines.now) name.now) }
{
    match number(numbers, name) {
        Some(i) => Some(lines[i].weight.0),
        None => None,
    }
}

/// The weight of so many millionths, where it is a whole number from 0 to 65,535.
fn whole(weight: i64) -> Option<u32>
    ensures { result ≡ whole_weight weight }
{
    if weight < 0 {
        return None;
    }
    let weight = weight as u64;
    if weight % UNIT == 0 && weight / UNIT <= MOST_NET_WEIGHT {
        Some((weight / UNIT) as u32)
    } else {
        None
    }
}

/// The nets, where each pin line and each line of the placement file has the name of a node.
pub(crate) fn join_nets<'a>(
    alloc: Global,
    records: &Sources<'_, 'a>,
    numbers: &Numbers<'a>,
    weights: &[Option<u32>],
) -> Result<Vec<Net>, JoinError>
    requires few { length (records_of records.now).nodes < 2 ^ 32 }
    requires distinct { (i : ℕ) → HasEarlierName (records_of records.now) i → ⊥ }
    requires numbers { AreNumbers (node_name (records_of records.now)) (length (records_of records.now).nodes) numbers.now }
    requires weights { weights.now ≡ whole_weights (records_of records.now) }
    ensures { MatchResult result (λ nets. HasKnownNames (records_of records.now) × (net_values nets.items ≡ map (pinned_net (records_of records.now)) (records_of records.now).nets)) (Stops (records_of records.now) 2) }
{
    let nets = pinned_nets(alloc, records, numbers, weights)?;
    test_places(records, numbers)?;
    Ok(nets)
}

/// The nets, where each pin line has the name of a node.
fn pinned_nets<'a>(
    alloc: Global,
    records: &Sources<'_, 'a>,
    numbers: &Numbers<'a>,
    weights: &[Option<u32>],
) -> Result<Vec<Net>, JoinError>
    requires few { length (records_of records.now).nodes < 2 ^ 32 }
    requires distinct { (i : ℕ) → HasEarlierName (records_of records.now) i → ⊥ }
    requires numbers { AreNumbers (node_name (records_of records.now)) (length (records_of records.now).nodes) numbers.now }
    requires weights { weights.now ≡ whole_weights (records_of records.now) }
    ensures { MatchResult result (λ nets. ((i : ℕ) → IsUnknownPin (records_of records.now) i → ⊥) × (net_values nets.items ≡ map (pinned_net (records_of records.now)) (records_of records.now).nets)) (Stops (records_of records.now) 2) }
{
    let mut nets = Vec::new(alloc);
    for (n, net) in records.nets.iter().enumerate() {
        let pins = join_pins(alloc, records, numbers, net.pins.as_slice())?;
        let weight = weights[n].unwrap_or(0);
        nets.push(Net { weight, pins })?;
    }
    Ok(nets)
}

/// The pins of a net, where each has the name of a node.
fn join_pins<'a>(
    alloc: Global,
    records: &Sources<'_, 'a>,
    numbers: &Numbers<'a>,
    lines: &[PinLine<'a>],
) -> Result<PinList, JoinError>
    requires few { length (records_of records.now).nodes < 2 ^ 32 }
    requires distinct { (i : ℕ) → HasEarlierName (records_of records.now) i → ⊥ }
    requires numbers { AreNumbers (node_name (records_of records.now)) (length (records_of records.now).nodes) numbers.now }
    ensures { MatchResult result (λ pins. AreKnown (records_of records.now) (pin_entries lines.now) × (pins ≡ map (joined_pin (records_of records.now)) (pin_entries lines.now))) (StopsInPins (records_of records.now) (pin_entries lines.now)) }
{
    let mut pins = Vec::new(alloc);
    for line in lines {
        let pin = join_pin(records, numbers, line)?;
        pins.push(pin)?;
    }
    Ok(PinList::new(pins))
}

/// The pin, where its line has the name of a node.
fn join_pin<'a>(
    records: &Sources<'_, 'a>,
    numbers: &Numbers<'a>,
    line: &PinLine<'a>,
) -> Result<Pin, DesignFault>
    requires few { length (records_of records.now).nodes < 2 ^ 32 }
    requires distinct { (i : ℕ) → HasEarlierName (records_of records.now) i → ⊥ }
    requires numbers { AreNumbers (node_name (records_of records.now)) (length (records_of records.now).nodes) numbers.now }
    ensures { MatchResult result (λ pin. (IsUnknown (records_of records.now) (pin_entry line.now).node → ⊥) × (pin ≡ joined_pin (records_of records.now) (pin_entry line.now))) (λ fault. IsUnknown (records_of records.now) (pin_entry line.now).node × (fault ≡ UnknownName Nets (pin_entry line.now).line)) }
{
    match number(numbers, line.node.0) {
        Some(i) => Ok(Pin {
            node: i as u32,
            dx: line.dx.0,
            dy: line.dy.0,
        }),
        None => Err(DesignFault::UnknownName {
            file: FileKind::Nets,
            line: line.line,
        }),
    }
}

/// Tests that each line of the placement file has the name of a node.
fn test_places<'a>(records: &Sources<'_, 'a>, numbers: &Numbers<'a>) -> Result<(), DesignFault>
    requires numbers { AreNumbers (node_name (records_of records.now)) (length (records_of records.now).nodes) numbers.now }
    requires pins { (i : ℕ) → IsUnknownPin (records_of records.now) i → ⊥ }
    ensures { MatchResult result (λ _. (i : ℕ) → IsUnknownPlace (records_of records.now) i → ⊥) (IsFirstFrom (records_of records.now) 2) }
{
    for place in records.places {
        if number(numbers, place.name.0).is_none() {
            return Err(DesignFault::UnknownName {
                file: FileKind::Pl,
                line: place.line,
            });
        }
    }
    Ok(())
}
