//! What is told of a case.
ghost use Rattle.std.specs.Prelude.{◌≡◌};
ghost use Rattle.std.specs.Result.{result_ok};

use std::alloc::Global;
use std::fmt::{Debug, Write};
use std::mem;

/// What is told of a case, in one text. Where memory for it is wanting that is noted, and ends the program once the case is through.
#[derive(Drop)]
pub struct Answer {
    alloc: Global,
    text: String,
    wants_memory: bool,
}

impl Answer {
    pub fn new(alloc: Global) -> Answer {
        Answer {
            alloc,
            text: String::new(alloc),
            wants_memory: false,
        }
    }

    pub fn alloc(&self) -> Global {
        self.alloc
    }

    /// Adds a text.
    pub fn tell(&mut self, text: &str) {
        let added = self.text.push_str(text);
        self.note(added);
    }

    /// Adds a value, as `{:?}` prints it.
    pub fn show<T: Debug + Drop>(&mut self, value: T) {
        let added = write!(self.text, "{value:?}");
        self.note(added);
    }

    /// Adds values, each behind a blank.
    pub fn show_all<T: Debug>(&mut self, values: &[T]) {
        for value in values {
            self.tell(" ");
            self.show(value);
        }
    }

    /// Adds bytes with escapes.
    pub fn escape(&mut self, bytes: &[u8]) {
        let added = write!(self.text, "{}", bytes.escape_ascii());
        self.note(added);
    }

    /// Adds bytes between double quotes, with escapes.
    pub fn quote(&mut self, bytes: &[u8]) {
        self.tell("\"");
        self.escape(bytes);
        self.tell("\"");
    }

    /// Notes whether memory was wanting for something that was to be kept.
    pub fn note<E: Drop>(&mut self, kept: Result<(), E>) {
        if kept.is_err() {
            self.wants_memory = true;
        }
    }

    /// What a call made, for which memory may be wanting.
    pub fn made<T, E: Drop>(&mut self, made: Result<T, E>) -> Option<T>
        ensures { result ≡ result_ok made }
    {
        match made {
            Ok(value) => Some(value),
            Err(_) => {
                self.wants_memory = true;
                None
            }
        }
    }

    pub(crate) fn wants_memory(&self) -> bool {
        self.wants_memory
    }

    /// Puts four blanks before each line that was told.
    pub(crate) fn indent(&mut self) {
        let told = mem::replace(&mut self.text, String::new(self.alloc));
        for line in told.lines() {
            self.tell("    ");
            self.tell(line);
            self.tell("\n");
        }
    }

    /// What was told.
    pub fn as_str(&self) -> &str {
        self.text.as_str()
    }
}
