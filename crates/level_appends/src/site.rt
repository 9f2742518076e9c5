/// Where a level is appended to: its number, counted from 1, and the first of the three variables of its cursor: the last row's parent,
/// where its positions begin, and how many coordinates are appended.
#[derive(Clone, Copy, Debug, PartialEq, Eq, Drop)]
pub struct AppendSite {
    pub level: u64,
    pub base: u64,
}
