use crate::dense::DenseLevel;
use level_core::{Level, LevelArray, Span};

impl Level for DenseLevel {
    fn tell_rules(&self) {
        let _size = self.size;
    }

    fn segment(&self, parent: Span) -> Span {
        Span {
            lo: parent.lo * self.size,
            hi: parent.hi * self.size,
        }
    }

    fn coord(&self, pos: u64) -> Option<u64> {
        Some(pos % self.size)
    }

    fn child(&self, pos: u64, _segment: Span) -> Span {
        Span {
            lo: pos,
            hi: pos + 1,
        }
    }

    fn locate(&self, parent: u64, x: u64) -> Option<u64> {
        if x < self.size {
            Some(self.place_of(parent, x))
        } else {
            None
        }
    }

    fn array_len(&self, array: LevelArray) -> Option<u64> {
        match array {
            LevelArray::Dimension => Some(1),
            LevelArray::Ends | LevelArray::Width | LevelArray::Coordinates => None,
        }
    }

    fn array_word(&self, array: LevelArray, at: u64) -> Option<u64> {
        match array {
            LevelArray::Dimension if at == 0 => Some(self.size),
            _ => None,
        }
    }
}
