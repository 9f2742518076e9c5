use crate::singleton::SingletonLevel;
use level_core::{Level, LevelArray, Span};

impl Level for SingletonLevel {
    fn tell_rules(&self) {
        let _size = self.size;
    }

    fn segment(&self, parent: Span) -> Span {
        parent
    }

    fn coord(&self, pos: u64) -> Option<u64> {
        Some(self.coords.get(pos))
    }

    fn child(&self, pos: u64, segment: Span) -> Span {
        Span {
            lo: pos,
            hi: self.coords.group_end(pos, segment.hi),
        }
    }

    fn locate(&self, _parent: u64, _x: u64) -> Option<u64> {
        None
    }

    fn array_len(&self, array: LevelArray) -> Option<u64> {
        match array {
            LevelArray::Coordinates => Some(self.coords.len()),
            LevelArray::Dimension | LevelArray::Ends | LevelArray::Width => None,
        }
    }

    fn array_word(&self, array: LevelArray, at: u64) -> Option<u64> {
        match array {
            LevelArray::Coordinates => self.coords.at(at),
            LevelArray::Dimension | LevelArray::Ends | LevelArray::Width => None,
        }
    }
}
