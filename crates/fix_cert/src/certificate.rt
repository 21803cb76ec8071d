//! The check of two vectors, over all points.

ghost use Rattle.std.specs.Prelude.{◌<◌, ℕ, length, IfOk};
ghost use Rattle.relax_system.specs.System.{IsValid};
ghost use Rattle.relax_system.specs.Means.{InBoxes};
ghost use Rattle.fix_cert.specs.Verdict.{IsVerdict, IsEnclosure};
ghost use Rattle.fix_cert.specs.Forms.Reading.{IsFinding, AreFindings};

use crate::reading::{Reading, read};
use crate::verdict::{Side2, Verdict};
use book_text::Memory;
use rayon::prelude::*;
use relax_system::{System, residuals_enclose};
use std::alloc::{AllocError, Global};
use std::thread::Threads;

/// Whether the two vectors are fixed points of the rounded means, and how wide they lie apart; or the first equation that
/// fails, the lower one before the upper one at the same point.
pub fn check<R: Threads + Sync>(
    rt: &R,
    alloc: Global,
    system: &System,
    lo: &[u64],
    hi: &[u64],
) -> Result<Verdict, Memory>
    requires lo_boxed { InBoxes system.now lo.now }
    requires hi_boxed { InBoxes system.now hi.now }
    ensures verdict { IfOk result (IsVerdict system.now lo.now hi.now) }
    ensures enclosure { IfOk result (IsEnclosure system.now lo.now hi.now) }
{
    residuals_enclose();
    let findings = read_all(rt, alloc, system, lo, hi)?;
    let mut gap = 0;
    let mut worst = 0;
    for (i, finding) in findings.iter().enumerate() {
        match finding {
            Ok(reading) => {
                gap = reading.gap.max(gap);
                worst = reading.residual.max(worst);
            }
            Err(side) => {
                return Ok(Verdict::Broken {
                    point: i as u32,
                    side: *side,
                });
            }
        }
    }
    Ok(Verdict::Encloses {
        gap,
        worst: u128::from(worst),
    })
}

/// What each point shows, in order, from as many threads as there are processors.
fn read_all<R: Threads + Sync>(
    rt: &R,
    alloc: Global,
    system: &System,
    lo: &[u64],
    hi: &[u64],
) -> Result<Vec<Result<Reading, Side2>>, AllocError>
    requires lo_boxed { InBoxes system.now lo.now }
    requires hi_boxed { InBoxes system.now hi.now }
    ensures valid { IsValid system.now }
    ensures findings { IfOk result (λ v. AreFindings system.now lo.now hi.now v.items) }
{
    (0..system.points())
        .into_par_iter()
        .map(
            |i: usize| -> Result<Reading, Side2>
                requires { (i < length system.now) × InBoxes system.now lo.now × InBoxes system.now hi.now }
                ensures { IsFinding system.entry.now lo.entry.now hi.entry.now i result }
            { read(system, lo, hi, i) },
        )
        .collect(rt, alloc)
}
