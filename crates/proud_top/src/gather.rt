//! The files of a design, one after another.

ghost use Rattle.std.specs.Prelude.{◌≡◌, IfOk, option_map, string_bytes};
ghost use Rattle.book_files.specs.Entries.{aux_entry};
ghost use Rattle.book_files.specs.AuxRules.{aux_grammar};
ghost use Rattle.book_files.specs.Grammar.{IsReading};
ghost use Rattle.book_files.specs.declared.records.FileKind.TheVariants.{Aux};
ghost use Rattle.proud_top.specs.Beside.{beside, folder_of};
ghost use Rattle.proud_top.specs.Forms.Inputs.{IsSoundText};
ghost use Rattle.proud_top.specs.Forms.Stops.{Gathers};
ghost use Rattle.proud_top.specs.Forms.Gathering.{Loads, Looks, IsLook, Follows, FollowsWeights};

use crate::inputs::{Inputs, sound};
use crate::status::Refusal;
use crate::stop::Stop;
use book_files::{
    AuxFile, FileKind, LoadError, ReadError, load, one_answer, read_aux, read_nets, read_nodes,
    read_pl, read_schedule, read_scl, read_wts,
};
use book_outer::Folder;
use book_text::Memory;
use std::alloc::Global;

/// The texts of the design that the word names. Each file is loaded and looked through before the next is begun.
pub(crate) fn gather<F: Folder>(alloc: Global, folder: &mut F, design: &str) -> Result<Inputs, Stop>
    ensures { Gathers (F.state folder.old) (F.state folder.new) design.now result }
{
    let aux = next_text(alloc, folder, FileKind::Aux, design)?;
    let names = names_in(alloc, &aux)?;
    let nodes = text_beside(alloc, folder, FileKind::Nodes, design, names.nodes)?;
    let nets = text_beside(alloc, folder, FileKind::Nets, design, names.nets)?;
    let wts = weights_beside(alloc, folder, design, names.wts)?;
    let pl = text_beside(alloc, folder, FileKind::Pl, design, names.pl)?;
    let scl = text_beside(alloc, folder, FileKind::Scl, design, names.scl)?;
    Ok(Inputs {
        nodes,
        nets,
        wts,
        pl,
        scl,
    })
}

/// The names that the aux file, which has no fault, gives.
fn names_in(alloc: Global, aux: &[u8]) -> Result<AuxFile<'_>, Memory>
    requires { IsSoundText Aux aux.now }
    ensures { IfOk result (λ names. IsReading aux_grammar aux.now (aux_entry names)) }
{
    sound(read_aux(alloc, aux))
}

/// The text of the weights, where the aux file names one.
fn weights_beside<F: Folder>(
    alloc: Global,
    folder: &mut F,
    design: &str,
    name: Option<&str>,
) -> Result<Option<Vec<u8>>, Stop>
    ensures { FollowsWeights design.now (option_map (λ n. n.now) name.entry) (F.state folder.old) (F.state folder.new) result }
{
    match name {
        Some(name) => {
            let text = text_beside(alloc, folder, FileKind::Wts, design, name)?;
            Ok(Some(text))
        }
        None => Ok(None),
    }
}

/// The text of the file of the kind, which stands beside the design's aux file.
fn text_beside<F: Folder>(
    alloc: Global,
    folder: &mut F,
    kind: FileKind,
    design: &str,
    name: &str,
) -> Result<Vec<u8>, Stop>
    ensures { Follows kind (beside design.now name.now) (F.state folder.old) (F.state folder.new) result }
{
    let path = beside(alloc, design, name)?;
    next_text(alloc, folder, kind, path.as_str())
}

/// The text of the next file, which is not too long and has no fault.
fn next_text<F: Folder>(
    alloc: Global,
    folder: &mut F,
    kind: FileKind,
    name: &str,
) -> Result<Vec<u8>, Stop>
    ensures { Follows kind name.now (F.state folder.old) (F.state folder.new) result }
{
    let text = load_kind(alloc, folder, kind, name)?;
    look(alloc, kind, &text)?;
    Ok(text)
}

/// The bytes of the file of the kind.
pub(crate) fn load_kind<F: Folder>(
    alloc: Global,
    folder: &mut F,
    kind: FileKind,
    name: &str,
) -> Result<Vec<u8>, Stop>
    ensures { Loads kind name.now (F.state folder.old) (F.state folder.new) result }
{
    match load(alloc, folder, name) {
        Ok(bytes) => Ok(bytes),
        Err(LoadError::ReadFault) => Err(Stop::ReadFault(kind)),
        Err(LoadError::TooLong) => Err(Stop::Refused(Refusal::TooLong(kind))),
        Err(LoadError::Memory) => Err(Stop::Memory),
    }
}

/// Looks through a text of the kind for its first fault. What it reads as isn't kept.
pub(crate) fn look(alloc: Global, kind: FileKind, text: &[u8]) -> Result<(), Stop>
    ensures { Looks kind text.now result }
{
    one_answer();
    match kind {
        FileKind::Aux => looked(kind, read_aux(alloc, text)),
        FileKind::Nodes => looked(kind, read_nodes(alloc, text)),
        FileKind::Nets => looked(kind, read_nets(alloc, text)),
        FileKind::Wts => looked(kind, read_wts(alloc, text)),
        FileKind::Pl => looked(kind, read_pl(alloc, text)),
        FileKind::Scl => looked(kind, read_scl(alloc, text)),
        FileKind::Schedule => looked(kind, read_schedule(alloc, text)),
    }
}

/// The fault that a reader of files of the kind answers.
fn looked<T: Drop>(kind: FileKind, answer: Result<T, ReadError>) -> Result<(), Stop>
    ensures { IsLook kind answer result }
{
    match answer {
        Ok(_) => Ok(()),
        Err(ReadError::Fault(fault)) => Err(Stop::Refused(Refusal::Text(kind, fault))),
        Err(ReadError::Memory) => Err(Stop::Memory),
    }
}

/// The name of a file that stands beside the design's aux file.
fn beside(alloc: Global, design: &str, name: &str) -> Result<String, Memory>
    ensures { IfOk result (λ path. string_bytes path ≡ beside design.now name.now) }
{
    let mut path = String::from_str(alloc, folder_of(design))?;
    path.push_str(name)?;
    Ok(path)
}

/// The part of a name up to and with its last slash.
fn folder_of(name: &str) -> &str
    ensures { result.now ≡ folder_of name.now }
{
    match name.rfind('/') {
        Some(slash) => &name[..slash + 1],
        None => "",
    }
}
