//! The report of a placed design.

ghost use Rattle.std.specs.Prelude.{◌≡◌, ◌++◌, ◌<◌, ◌≤◌, length, drop, decimal, IfOk, OnOk};
ghost use Rattle.std.specs.List.{count_by, sum_by};
ghost use Rattle.book_text.specs.Decimal.{fraction_text};
ghost use Rattle.book_design.specs.Nets.{net_values};
ghost use Rattle.book_design.specs.declared.rules.TheConstants.{MOST_PINS};
ghost use Rattle.wire_report.specs.Report.{counts_line, levels_line, wire_line, report_of};

use book_design::{Design, Net};
use book_text::{Memory, put_micro};
use itoa::Buffer;
use std::alloc::Global;

/// The report, three lines: how many cells, terminals, nets and pins the design has; how many levels there are after the first,
/// and their gap; and the wire length of so many millionths, in units.
pub fn report_text(
    alloc: Global,
    design: &Design<'_>,
    levels: u32,
    gap: u64,
    wire: u128,
) -> Result<Vec<u8>, Memory>
    ensures text { IfOk result (λ text. text.items ≡ report_of design.now levels gap wire) }
{
    let mut text = Vec::new(alloc);
    put_counts(&mut text, design)?;
    put_levels(&mut text, levels, gap)?;
    put_wire(alloc, &mut text, wire)?;
    Ok(text)
}

/// Appends the line of how many cells, terminals, nets and pins the design has.
fn put_counts(text: &mut Vec<u8>, design: &Design<'_>) -> Result<(), Memory>
    ensures { OnOk result (text.new.items ≡ text.old.items ++ counts_line design.now) }
{
    put_count(text, "cells ", design.points() as u128)?;
    put_count(text, " terminals ", terminal_count(design) as u128)?;
    put_count(text, " nets ", design.nets().len() as u128)?;
    put_count(text, " pins ", u128::from(pin_count(design.nets())))?;
    Ok(text.push(b'\n')?)
}

/// Appends the line of how many levels there are after the first, and their gap.
fn put_levels(text: &mut Vec<u8>, levels: u32, gap: u64) -> Result<(), Memory>
    ensures { OnOk result (text.new.items ≡ text.old.items ++ levels_line levels gap) }
{
    put_count(text, "levels ", u128::from(levels))?;
    put_count(text, " gap ", u128::from(gap))?;
    Ok(text.push(b'\n')?)
}

/// Appends the line of the wire length.
fn put_wire(alloc: Global, text: &mut Vec<u8>, wire: u128) -> Result<(), Memory>
    ensures { OnOk result (text.new.items ≡ text.old.items ++ wire_line wire) }
{
    put_count(text, "wire ", wire / 1_000_000)?;
    put_fraction(alloc, text, (wire % 1_000_000) as u32)?;
    Ok(text.push(b'\n')?)
}

/// How many fixed nodes there are: those that aren't movable.
fn terminal_count(design: &Design<'_>) -> usize
    ensures { result ≡ count_by (λ node. node.fixed) design.now.nodes }
{
    design.nodes().len() - design.points()
}

/// How many pins the nets have.
fn pin_count(nets: &[Net]) -> u64
    requires { sum_by (λ net. length net.pins) (net_values nets.now) ≤ MOST_PINS }
    ensures { result ≡ sum_by (λ net. length net.pins) (net_values nets.now) }
{
    let mut pins = 0;
    for net in nets {
        pins += net.pins.as_slice().len() as u64;
    }
    pins
}

/// Appends words, and a number behind them.
fn put_count(text: &mut Vec<u8>, words: &str, count: u128) -> Result<(), Memory>
    ensures { OnOk result (text.new.items ≡ text.old.items ++ words.now ++ decimal count) }
{
    text.extend_from_slice(words.as_bytes())?;
    let mut buffer = Buffer::new();
    Ok(text.extend_from_slice(buffer.format(count).as_bytes())?)
}

/// Appends the point and the digits of millionths, without zeros at the end, or nothing where there are none.
fn put_fraction(alloc: Global, text: &mut Vec<u8>, rest: u32) -> Result<(), Memory>
    requires { rest < 1000000 }
    ensures { OnOk result (text.new.items ≡ text.old.items ++ fraction_text rest) }
{
    let mut decimal = Vec::new(alloc);
    put_micro(&mut decimal, i128::from(rest))?;
    Ok(text.extend_from_slice(behind_first(&decimal))?)
}

/// What stands behind the first byte.
fn behind_first(bytes: &[u8]) -> &[u8]
    requires { 1 ≤ length bytes.now }
    ensures { result.now ≡ drop 1 bytes.now }
{
    &bytes[1..]
}
