//! The steps from texts to a design.

use crate::texts::Texts;
use crate::watch::{Answer, Watch};
use book_design::{Design, join_design};
use book_files::{WeightFile, read_nets, read_nodes, read_pl, read_scl, read_wts};
use std::alloc::Global;

/// Reads the texts, and joins them.
pub fn joined<'a>(alloc: Global, watch: &mut Watch<'_>, texts: &'a Texts) -> Answer<Design<'a>> {
    let Ok(nodes) = read_nodes(alloc, &texts.nodes) else {
        return Err("the nodes aren't read");
    };
    watch.end("read nodes", &nodes)?;
    let Ok(nets) = read_nets(alloc, &texts.nets) else {
        return Err("the nets aren't read");
    };
    watch.end("read nets", &nets)?;
    let weights = weights(alloc, watch, texts.wts.as_deref())?;
    watch.begin()?;
    let Ok(places) = read_pl(alloc, &texts.pl) else {
        return Err("the places aren't read");
    };
    watch.end("read pl", &places)?;
    let Ok(rows) = read_scl(alloc, &texts.scl) else {
        return Err("the rows aren't read");
    };
    watch.end("read scl", &rows)?;
    let Ok(design) = join_design(alloc, &nodes, &nets, weights.as_ref(), &places, &rows) else {
        return Err("the files aren't joined");
    };
    watch.end("join", &design)?;
    Ok(design)
}

/// Reads the weights, where there are any.
fn weights<'a>(
    alloc: Global,
    watch: &mut Watch<'_>,
    text: Option<&'a [u8]>,
) -> Answer<Option<WeightFile<'a>>> {
    let Some(text) = text else {
        return Ok(None);
    };
    let Ok(weights) = read_wts(alloc, text) else {
        return Err("the weights aren't read");
    };
    watch.end("read wts", &weights)?;
    Ok(Some(weights))
}
