use crate::level::{StorageLevel, of_each_kind};
use level_core::{Level, LevelArray, Span};

impl Level for StorageLevel {
    fn tell_rules(&self) {
        of_each_kind!(self, it => it.tell_rules())
    }

    fn segment(&self, parent: Span) -> Span {
        of_each_kind!(self, it => it.segment(parent))
    }

    fn coord(&self, pos: u64) -> Option<u64> {
        of_each_kind!(self, it => it.coord(pos))
    }

    fn child(&self, pos: u64, segment: Span) -> Span {
        of_each_kind!(self, it => it.child(pos, segment))
    }

    fn locate(&self, parent: u64, x: u64) -> Option<u64> {
        of_each_kind!(self, it => it.locate(parent, x))
    }

    fn array_len(&self, array: LevelArray) -> Option<u64> {
        of_each_kind!(self, it => it.array_len(array))
    }

    fn array_word(&self, array: LevelArray, at: u64) -> Option<u64> {
        of_each_kind!(self, it => it.array_word(array, at))
    }
}
