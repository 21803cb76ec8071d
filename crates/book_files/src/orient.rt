/// How a node is turned. It is passed through.
#[derive(Clone, Copy, Debug, PartialEq, Eq)]
pub enum Orient {
    N,
    S,
    E,
    W,
    FN,
    FS,
    FE,
    FW,
}
