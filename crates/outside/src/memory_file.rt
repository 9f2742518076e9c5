// Files in memory, found by their names.
ghost use Rattle.std.specs.Prelude.{◌≡◌, ℕ, ◌<◌, ◌++◌, List, [], OnOk, OnErr, IfOk, MatchOption, length, Some};

use std::alloc::{AllocError, Global};

#[derive(Drop)]
pub struct MemoryFile {
    pub name: String,
    pub bytes: Vec<u8>,
}
