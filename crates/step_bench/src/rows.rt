//! The steps from a design to the text of its placement.

ghost use Rattle.std.specs.Prelude.{◌≡◌, length, All};
ghost use Rattle.wire_report.specs.Wire.{IsNearCorner};

use crate::cells::{Cells, are_good};
use crate::made::Wire;
use crate::placement::{corners, placement_text};
use crate::watch::{Answer, NO_MEMORY, Watch};
use book_design::Design;
use row_legal::legalise;
use row_space::segments;
use std::alloc::Global;
use std::thread::Threads;
use wire_report::{Corner, hpwl};

/// Finds the segments, puts the cells there, measures the wires so often, and writes the placement.
pub fn measure_rows<R: Threads + Sync>(
    threads: &R,
    alloc: Global,
    watch: &mut Watch<'_>,
    design: &Design<'_>,
    areas: &[u64],
    cells: &Cells,
    times: u32,
) -> Answer<()> {
    // The star points stand behind the cells.
    let sites = &areas[..areas.len().min(cells.wishes.len())];
    if !are_good(sites, &cells.wishes) {
        return Err("the cells are beyond what may be placed");
    }
    watch.begin()?;
    let Ok(segments) = segments(alloc, design) else {
        return Err(NO_MEMORY);
    };
    watch.end("segments", &segments)?;
    let Ok(places) = legalise(alloc, &segments, sites, &cells.wishes) else {
        return Err("there is no room for a cell, or memory is wanting");
    };
    watch.end("legalise", &places)?;
    let Ok(corners) = corners(alloc, design, &segments, places.as_slice()) else {
        return Err(NO_MEMORY);
    };
    watch.end("corners", &corners)?;
    measure_wires(threads, alloc, watch, design, &corners, times)?;
    watch.begin()?;
    let Ok(text) = placement_text(alloc, design, &corners) else {
        return Err(NO_MEMORY);
    };
    watch.end("write", &text)
}

fn measure_wires<R: Threads + Sync>(
    threads: &R,
    alloc: Global,
    watch: &mut Watch<'_>,
    design: &Design<'_>,
    corners: &[Corner],
    times: u32,
) -> Answer<()>
    requires each { length corners.now ≡ length design.now.nodes }
    requires near { All IsNearCorner corners.now }
{
    let nets = design.nets().len();
    for _ in 0..times {
        watch.begin()?;
        let Ok(length) = hpwl(threads, alloc, design, corners) else {
            return Err(NO_MEMORY);
        };
        watch.end("wire", &Wire { nets, length })?;
    }
    Ok(())
}
