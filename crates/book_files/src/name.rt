/// The name of a node or a net, a slice of the file's bytes.
#[derive(Clone, Copy, Debug)]
pub struct Name<'a>(pub &'a [u8]);
