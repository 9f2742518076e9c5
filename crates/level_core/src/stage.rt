/// How far the making of a level is that coordinates are appended to.
#[derive(Clone, Copy, Debug, PartialEq, Eq, Drop)]
pub enum Stage {
    /// Nothing was reserved yet. It has no parents.
    Fresh,
    /// Room was reserved, and `finish` is due. Nothing can be read.
    Unfinished,
    /// It is finished.
    Finished,
}
