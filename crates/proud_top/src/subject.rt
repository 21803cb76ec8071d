//! The subjects of lines: a node by its name, and a net by its number in the file.

ghost use Rattle.std.specs.Prelude.{◌≡◌, IfOk};
ghost use Rattle.proud_top.specs.Lines.{node_subject, net_subject};

use book_text::Memory;
use std::alloc::Global;

/// A node, by its name.
pub(crate) fn node_subject(alloc: Global, name: &[u8]) -> Result<Vec<u8>, Memory>
    ensures { IfOk result (λ subject. subject.items ≡ node_subject name.now) }
{
    let mut subject = Vec::from_slice(alloc, b"node ")?;
    subject.extend_from_slice(name)?;
    Ok(subject)
}

/// A net, by its number.
pub(crate) fn net_subject(alloc: Global, number: u32) -> Result<Vec<u8>, Memory>
    ensures { IfOk result (λ subject. subject.items ≡ net_subject number) }
{
    let subject = format!(in alloc; "net {number}")?;
    Ok(Vec::from_slice(alloc, subject.as_bytes())?)
}
