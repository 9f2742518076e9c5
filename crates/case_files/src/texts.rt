//! Numbers, words and texts, as case files write them.
use crate::answer::Answer;

/// What an escape stands for whose backslash is left out, and what stands behind it.
fn unescaped(text: &str) -> Option<(u8, &str)> {
    let (letter, behind) = text.split_at_checked(1)?;
    match letter {
        "t" => Some((b'\t', behind)),
        "r" => Some((b'\r', behind)),
        "n" => Some((b'\n', behind)),
        "\\" => Some((b'\\', behind)),
        "x" => {
            let (digits, behind) = behind.split_at_checked(2)?;
            Some((u8::from_str_radix(digits, 16).ok()?, behind))
        }
        _ => None,
    }
}

impl Answer {
    /// The numbers of a text, parted by blanks.
    pub fn numbers(&mut self, text: &str) -> Option<Vec<u64>> {
        let mut numbers = Vec::new(self.alloc());
        for word in text.split_whitespace() {
            self.note(numbers.push(word.parse().ok()?));
        }
        Some(numbers)
    }

    fn add_word(&mut self, words: &mut Vec<String>, word: &str) -> Option<()> {
        let word = String::from_str(self.alloc(), word);
        let word = self.made(word)?;
        self.note(words.push(word));
        Some(())
    }

    /// The words of a line. One with blanks, or an empty one, stands in double quotes.
    pub fn words(&mut self, line: &str) -> Option<Vec<String>> {
        let mut words = Vec::new(self.alloc());
        for (n, part) in line.split('"').enumerate() {
            if n % 2 == 1 {
                self.add_word(&mut words, part)?;
                continue;
            }
            for word in part.split_whitespace() {
                self.add_word(&mut words, word)?;
            }
        }
        Some(words)
    }

    /// The bytes of a text, in which `\t`, `\r`, `\n`, `\\` and `\xHH` stand for one each.
    pub fn bytes(&mut self, text: &str) -> Option<Vec<u8>> {
        let mut bytes = Vec::new(self.alloc());
        let mut rest = text;
        for _ in 0..text.len() {
            let Some((plain, escape)) = rest.split_once('\\') else {
                break;
            };
            let (byte, behind) = unescaped(escape)?;
            self.note(bytes.extend_from_slice(plain.as_bytes()));
            self.note(bytes.push(byte));
            rest = behind;
        }
        self.note(bytes.extend_from_slice(rest.as_bytes()));
        Some(bytes)
    }

    /// Adds so many copies of a piece: the number stands before it, and then a blank. Nothing is added where nothing stands.
    fn add_copies(&mut self, text: &mut String, copies: &str) -> Option<()> {
        if copies.is_empty() {
            return Some(());
        }
        let (count, piece) = copies.split_once(' ')?;
        for _ in 0..count.parse::<u32>().ok()? {
            self.note(text.push_str(piece));
        }
        Some(())
    }

    /// A text with each `{COUNT PIECE}` in it written out.
    pub fn repeated(&mut self, text: &str) -> Option<String> {
        let mut whole = String::new(self.alloc());
        for part in text.split('{') {
            let (copies, behind) = part.split_once('}').unwrap_or(("", part));
            self.add_copies(&mut whole, copies)?;
            self.note(whole.push_str(behind));
        }
        Some(whole)
    }
}
