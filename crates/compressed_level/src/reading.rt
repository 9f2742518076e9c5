use crate::compressed::CompressedLevel;
use level_core::{Level, LevelArray, Span};

impl Level for CompressedLevel {
    fn tell_rules(&self) {
        let _size = self.size;
    }

    fn segment(&self, parent: Span) -> Span {
        Span {
            lo: self.ends.get(parent.lo),
            hi: self.ends.get(parent.hi),
        }
    }

    fn coord(&self, pos: u64) -> Option<u64> {
        Some(self.coords.get(pos))
    }

    fn child(&self, pos: u64, segment: Span) -> Span {
        Span {
            lo: pos,
            hi: self.coords.group_end(pos, segment.hi),
        }
    }

    fn locate(&self, _parent: u64, _x: u64) -> Option<u64> {
        None
    }

    fn array_len(&self, array: LevelArray) -> Option<u64> {
        match array {
            LevelArray::Ends => Some(self.ends.len()),
            LevelArray::Coordinates => Some(self.coords.len()),
            LevelArray::Dimension | LevelArray::Width => None,
        }
    }

    fn array_word(&self, array: LevelArray, at: u64) -> Option<u64> {
        match array {
            LevelArray::Ends => self.ends.at(at),
            LevelArray::Coordinates => self.coords.at(at),
            LevelArray::Dimension | LevelArray::Width => None,
        }
    }
}
