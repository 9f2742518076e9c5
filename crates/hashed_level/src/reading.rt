use crate::hashed::HashedLevel;
use level_core::{Level, LevelArray, Span};

impl Level for HashedLevel {
    fn tell_rules(&self) {
        self.know_rules();
    }

    fn segment(&self, parent: Span) -> Span {
        self.block_of(parent.lo)
    }

    fn coord(&self, pos: u64) -> Option<u64> {
        self.coordinate_at(pos)
    }

    fn child(&self, pos: u64, _segment: Span) -> Span {
        Span {
            lo: pos,
            hi: pos + 1,
        }
    }

    fn locate(&self, parent: u64, x: u64) -> Option<u64> {
        self.position_below(parent, x)
    }

    fn array_len(&self, array: LevelArray) -> Option<u64> {
        match array {
            LevelArray::Width => Some(self.width_count()),
            LevelArray::Coordinates => Some(self.slot_count()),
            LevelArray::Dimension | LevelArray::Ends => None,
        }
    }

    fn array_word(&self, array: LevelArray, at: u64) -> Option<u64> {
        match array {
            LevelArray::Width if at == 0 => self.width(),
            LevelArray::Coordinates => self.slot(at),
            _ => None,
        }
    }
}
