ghost use Rattle.std.specs.Prelude.{◌≡◌, ◌⊎◌, ℕ, List, Option, Some, Result, option_map};
ghost use Rattle.book_outer.specs.Files.{FileEntry};
ghost use Rattle.book_files.specs.declared.records.FileKind.{FileKind};
ghost use Rattle.level_run.specs.declared.rounds.Rounds.{Rounds};
ghost use Rattle.proud_top.specs.declared.status.Refusal.{Refusal};
ghost use Rattle.proud_words.specs.Request.{SourceValue};
ghost use Rattle.proud_top.specs.Flow.{PlacedValue, places};
ghost use Rattle.proud_top.specs.Statuses.{Says, HasNoRequest, IsDone, IsUsage, IsRefused, IsReadFault, IsWriteFault, IsMemory, IsCause, IsPlaceable, AreReadsCalm, AreWritesCalm, ArePutsCalm};
ghost use Rattle.proud_top.specs.Forms.Stops.{CoversStop, Refuses};

use crate::deliver::{deliver, put};
use crate::inputs::Inputs;
use crate::laws::laws;
use crate::place::place;
use crate::refusal::fault_line;
use crate::solver::Solver;
use crate::source::take;
use crate::status::Status;
use crate::stop::Stop;
use book_outer::{Folder, Gate, Sink, Words};
use proud_words::{WordsFault, one_request, requested};
use std::alloc::Global;
use std::thread::Threads;

/// Places the design that the words ask for, and writes its placement.
///
/// Behind the program's name the words are those of `USAGE_LINE`, in the forms of `clap`: the name of a design's aux file, or
/// `--grid R,C,K` for a design of R rows and C columns of cells, 1 to 64 each, with weights that the number K gives; and, where
/// they are asked for, a number of levels, a number of passes for each, a number of seats, the output file's name, and a schedule, whose events solve in place of a crew. 4 levels, 2 passes and 4 seats are usual. The usual
/// output file has the design's name without a final `.aux`, followed by `.proud.pl`, or is `grid.proud.pl`; it may be one of those
/// that were read. It is made only when all is read and placed, and gets a line `NAME X Y : ORIENT` for each node. The report then
/// gets `cells M terminals T nets N pins P`, `levels L gap G` and `wire D`, or, where the words, a file or the design is at fault, one
/// line that says so. Both don't depend on the number of seats or on the schedule (`one_placement`). The gate is called in the first sweep of
/// each solve of a crew.
pub fn proud<R: Threads + Sync, F: Folder, S: Sink, G: Gate>(
    rt: &R,
    alloc: Global,
    words: &Words,
    folder: &mut F,
    report: &mut S,
    gate: &G,
) -> Status
    // Each status has one record: why it comes, and what stands then.
    ensures done { result ≡ Status.Done
        → IsDone words.now (F.state folder.old) (F.state folder.new) (S.state report.old) (S.state report.new) }
    ensures usage { result ≡ Status.Usage
        → IsUsage words.now (F.state folder.old) (F.state folder.new) (S.state report.old) (S.state report.new) }
    ensures refused { (refusal : Refusal) → result ≡ Status.Refused refusal
        → IsRefused words.now refusal (F.state folder.old) (F.state folder.new) (S.state report.old) (S.state report.new) }
    ensures read_fault { (kind : FileKind) → result ≡ Status.ReadFault kind
        → IsReadFault words.now kind (F.state folder.old) (F.state folder.new) (S.state report.old) (S.state report.new) }
    ensures write_fault { result ≡ Status.WriteFault
        → IsWriteFault words.now (F.state folder.old) (F.state folder.new) (S.state report.old) (S.state report.new) }
    ensures memory { result ≡ Status.Memory
        → IsMemory words.now (F.state folder.old) (F.state folder.new) (S.state report.old) (S.state report.new) }

    // Where the words ask for nothing, nothing of the folder changes.
    ensures misused { HasNoRequest words.now
        → ((result ≡ Status.Usage) ⊎ (result ≡ Status.Memory)) × (F.state folder.new ≡ F.state folder.old) }

    // Where the files are known, the flow has one end at most, and a run without a fault has it.
    ensures one_end { (files : List FileEntry) (source : SourceValue) (schedule : Option (List ℕ)) (rounds : Rounds) (a b : Result PlacedValue Refusal)
        → places (Some files) source schedule rounds a → places (Some files) source schedule rounds b → a ≡ b }
    ensures only_refused { (files : List FileEntry) (refusal : Refusal) → (F.state folder.old).files ≡ Some files
        → IsCause words.now (Some files) refusal → AreReadsCalm (F.state folder.old) (F.state folder.new)
        → (result ≡ Status.Refused refusal) ⊎ (result ≡ Status.Memory) }
    ensures complete { (files : List FileEntry) → (F.state folder.old).files ≡ Some files
        → IsPlaceable words.now files → AreReadsCalm (F.state folder.old) (F.state folder.new) → AreWritesCalm (F.state folder.old) (F.state folder.new)
        → ArePutsCalm (S.state report.old) (S.state report.new)
        → (result ≡ Status.Done) ⊎ (result ≡ Status.Memory) }
{
    laws();
    one_request();
    run(rt, alloc, words, folder, report, gate)
}

/// The line that is put where the words ask for nothing.
const USAGE_LINE: &[u8] =
    b"usage: proud [--levels N] [--passes N] [--seats N] [--out FILE] [--schedule FILE] (DESIGN | --grid R,C,K)\n";

/// The run: what touches the outside, step by step.
fn run<R: Threads + Sync, F: Folder, S: Sink, G: Gate>(
    rt: &R,
    alloc: Global,
    words: &Words,
    folder: &mut F,
    report: &mut S,
    gate: &G,
) -> Status
    ensures says { Says result words.now (F.state folder.old) (F.state folder.new) (S.state report.old) (S.state report.new) }
    ensures misused { HasNoRequest words.now → F.state folder.new ≡ F.state folder.old }
{
    let request = match requested(alloc, words) {
        Ok(request) => request,
        Err(WordsFault::Usage) => return put(report, USAGE_LINE, Status::Usage, Status::Usage),
        Err(WordsFault::Memory) => return Status::Memory,
    };
    let taken = match take(alloc, folder, &request.source, &request.schedule) {
        Ok(taken) => taken,
        Err(stop) => return refuse(alloc, report, stop, None),
    };
    let solver = Solver::new(rt, gate, request.seats, taken.events.as_ref());
    match place(&solver, alloc, &taken.inputs, request.rounds) {
        Ok(placed) => deliver(folder, report, request.out.as_str(), &placed),
        Err(stop) => refuse(alloc, report, stop, Some(&taken.inputs)),
    }
}

/// Puts the line of a stop. For want of memory there is none.
fn refuse<S: Sink>(alloc: Global, report: &mut S, stop: Stop, inputs: Option<&Inputs>) -> Status
    requires { CoversStop (option_map (λ i. i.now) inputs) stop }
    ensures { Refuses (option_map (λ i. i.now) inputs.entry) stop (S.state report.old) (S.state report.new) result }
{
    if stop == Stop::Memory {
        return Status::Memory;
    }
    match fault_line(alloc, stop, inputs) {
        Ok(line) => put(report, &line, Status::from(stop), Status::from(stop)),
        Err(_) => Status::Memory,
    }
}
