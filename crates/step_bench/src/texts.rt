//! The texts of a design's files.

ghost use Rattle.std.specs.Prelude.{◌≤◌, length, vec_len, IfOk};
ghost use Rattle.book_files.specs.declared.loading.TheConstants.{MOST_BYTES};

use crate::watch::{Answer, NO_MEMORY};
use book_files::{AuxFile, MOST_BYTES, load, read_aux};
use book_outer::{Folder, HostFolder};
use std::alloc::Global;
use std::path::Path;

/// The texts of a design's files but for its aux file.
#[derive(Drop)]
pub struct Texts {
    pub nodes: Vec<u8>,
    pub nets: Vec<u8>,
    pub wts: Option<Vec<u8>>,
    pub pl: Vec<u8>,
    pub scl: Vec<u8>,
    ghost nodes_short: { length nodes.items ≤ MOST_BYTES },
    ghost nets_short: { length nets.items ≤ MOST_BYTES },
    ghost scl_short: { length scl.items ≤ MOST_BYTES },
}

/// Loads the files of the design, each once.
pub fn load_texts(rt: &HostRuntime, design: &str) -> Answer<Texts> {
    let files: Result<_, _> = rt.clone();
    match files {
        Ok(files) => gather(rt.alloc(), &mut HostFolder::new(files), design),
        Err(_) => Err(NO_MEMORY),
    }
}

/// Loads a file by its name as it stands.
pub fn load_text(rt: &HostRuntime, name: &str) -> Answer<Vec<u8>> {
    let files: Result<_, _> = rt.clone();
    match files {
        Ok(files) => text(rt.alloc(), &mut HostFolder::new(files), name),
        Err(_) => Err(NO_MEMORY),
    }
}

fn gather<F: Folder>(alloc: Global, folder: &mut F, design: &str) -> Answer<Texts> {
    let aux = text(alloc, folder, design)?;
    let Ok(names) = read_aux(alloc, &aux) else {
        return Err("the aux file isn't read");
    };
    texts_of(alloc, folder, design, &names)
}

fn texts_of<F: Folder>(
    alloc: Global,
    folder: &mut F,
    design: &str,
    names: &AuxFile<'_>,
) -> Answer<Texts> {
    let nodes = text_beside(alloc, folder, design, names.nodes)?;
    let nets = text_beside(alloc, folder, design, names.nets)?;
    let wts = match names.wts {
        Some(name) => Some(text_beside(alloc, folder, design, name)?),
        None => None,
    };
    let pl = text_beside(alloc, folder, design, names.pl)?;
    let scl = text_beside(alloc, folder, design, names.scl)?;
    Ok(Texts {
        nodes,
        nets,
        wts,
        pl,
        scl,
    })
}

/// The text of a file that stands beside the design's aux file.
fn text_beside<F: Folder>(
    alloc: Global,
    folder: &mut F,
    design: &str,
    name: &str,
) -> Answer<Vec<u8>>
    ensures { IfOk result (λ text. vec_len text ≤ MOST_BYTES) }
{
    let path = Path::new(design).with_file_name(alloc, name);
    match path {
        Ok(path) => text(alloc, folder, path.as_str()),
        Err(_) => Err(NO_MEMORY),
    }
}

fn text<F: Folder>(alloc: Global, folder: &mut F, name: &str) -> Answer<Vec<u8>>
    ensures { IfOk result (λ text. vec_len text ≤ MOST_BYTES) }
{
    match load(alloc, folder, name) {
        Ok(text) => Ok(text),
        Err(_) => Err("a file isn't loaded"),
    }
}
