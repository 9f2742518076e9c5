// Words and their forms.
ghost use Rattle.std.specs.Prelude.{◌≡◌, ◌≢◌, ◌∷◌, ◌++◌, ◌==◌, false, true};
ghost use Rattle.std.specs.Prelude.{not, ℕ, List, Some, None, MatchOption, IfSome, option_map};
ghost use Rattle.std.specs.Prelude.{length, get_or, ◌||◌, ◌&&◌, ◌<◌};
ghost use Rattle.std.specs.List.{list_all};
ghost use Rattle.index_notation.specs.Tokens.{goes_on};
ghost use Rattle.bindings.specs.Words.{is_name as is_name_text, is_tns, is_mtx, format_text_of, said_of, said_behind};
ghost use Rattle.bindings.specs.Files.{is_matrix};
ghost use Rattle.bindings.specs.Views.{text_in, said_in, HasNumber};

use crate::file_format::FileFormat;
use crate::tensor_file::TensorFile;
use limits::greatest_range_in_word;
use text_lines::{NumFault, read_index};

/// The letters of a format, and the order of its modes where one is given.
#[derive(Clone, Copy, Debug, Drop)]
pub(crate) struct FormatText<'a> {
    pub(crate) letters: &'a str,
    pub(crate) order: Option<&'a str>,
}

/// What a word behind EXPR says.
#[derive(Clone, Copy, Debug, Drop)]
pub(crate) enum Word<'a> {
    /// `NAME:LETTERS` or `NAME:LETTERS:ORDER`.
    Format {
        name: &'a str,
        text: FormatText<'a>,
    },
    /// `NAME=PATH`.
    File {
        name: &'a str,
        file: TensorFile<'a>,
    },
    /// `VAR#RANGE`, with the number of its digits unless it is above the limit.
    Range {
        name: &'a str,
        digits: &'a str,
        range: Option<u64>,
    },
}

/// Whether a name goes on with this byte.
fn goes_on_in_name(byte: u8) -> bool
    ensures { result ≡ goes_on byte }
{
    byte.is_ascii_alphanumeric() || byte == b'_'
}

/// Whether a name goes on with each of these bytes.
fn go_on_in_name(bytes: &[u8]) -> bool
    ensures { result ≡ list_all goes_on bytes.now }
{
    for byte in bytes {
        if !goes_on_in_name(*byte) {
            return false;
        }
    }
    true
}

/// Whether these bytes are a name.
fn is_name(bytes: &[u8]) -> bool
    ensures { result ≡ is_name_text bytes.now }
{
    let Some((first, others)) = bytes.split_first() else {
        return false;
    };
    first.is_ascii_alphabetic() && go_on_in_name(others)
}

/// The format of the file of a path, by the path's ending, if it has one of the two.
fn format_of_path(path: &str) -> Option<FileFormat>
    ensures { MatchOption result ((is_tns path.now || is_mtx path.now) ≡ false)
        (λ format. ((is_tns path.now || is_mtx path.now) ≡ true) × (is_matrix format ≡ is_mtx path.now)) }
{
    let bytes = path.as_bytes();
    if bytes.ends_with(b".mtx") {
        Some(FileFormat::MatrixMarket)
    } else if bytes.ends_with(b".tns") {
        Some(FileFormat::Coordinates)
    } else {
        None
    }
}

/// What stands before and behind the first of these marks.
fn split_at(text: &str, mark: char) -> Option<(&str, &str)>
    requires { mark < 128 }
    ensures { MatchOption result ((i : ℕ) → i < length text.now → get_or text.now i 0 ≢ mark)
        (λ parts. (text.now ≡ parts.0.now ++ mark ∷ parts.1.now)
        × ((i : ℕ) → i < length parts.0.now → get_or parts.0.now i 0 ≢ mark)) }
{
    text.split_once(mark)
}

/// The letters and the order in what stands behind a colon.
fn format_text(text: &str) -> FormatText<'_>
    ensures { text_in result ≡ format_text_of text.now }
{
    match split_at(text, ':') {
        Some((letters, order)) => FormatText {
            letters,
            order: Some(order),
        },
        None => FormatText {
            letters: text,
            order: None,
        },
    }
}

/// What stands before and behind the first of these marks, if that before it is a name.
fn split_name(word: &str, mark: char) -> Option<(&str, &str)>
    requires ascii { mark < 128 }
    requires apart { goes_on mark ≡ false }
    ensures { MatchOption result ((name rest : List ℕ) → is_name_text name ≡ true → word.now ≡ name ++ mark ∷ rest → ⊥)
        (λ parts. (is_name_text parts.0.now ≡ true) × (word.now ≡ parts.0.now ++ mark ∷ parts.1.now)) }
{
    let Some((name, rest)) = split_at(word, mark) else {
        return None;
    };
    if is_name(name.as_bytes()) {
        Some((name, rest))
    } else {
        None
    }
}

/// The word of a file, whose path has one of the two endings.
fn file_word<'a>(name: &'a str, path: &'a str) -> Option<Word<'a>>
    ensures said { option_map said_in result ≡ said_behind name.entry.now (Some 61) path.entry.now }
    ensures range { IfSome result HasNumber }
{
    match format_of_path(path) {
        Some(format) => Some(Word::File {
            name,
            file: TensorFile { path, format },
        }),
        None => None,
    }
}

/// The word of a range, which is one or more digits.
fn range_word<'a>(name: &'a str, digits: &'a str) -> Option<Word<'a>>
    ensures said { option_map said_in result ≡ said_behind name.entry.now (Some 35) digits.entry.now }
    ensures range { IfSome result HasNumber }
{
    match read_index(digits.as_bytes(), greatest_range_in_word()) {
        Ok(range) => Some(Word::Range {
            name,
            digits,
            range: Some(range),
        }),
        Err(NumFault::NumRange) => Some(Word::Range {
            name,
            digits,
            range: None,
        }),
        Err(_) => None,
    }
}

/// What a word says, if it has one of the forms.
pub(crate) fn read_word(word: &str) -> Option<Word<'_>>
    ensures said { option_map said_in result ≡ said_of word.now }
    ensures range { IfSome result HasNumber }
{
    if let Some((name, text)) = split_name(word, ':') {
        return Some(Word::Format {
            name,
            text: format_text(text),
        });
    }
    if let Some((name, path)) = split_name(word, '=') {
        return file_word(name, path);
    }
    if let Some((name, digits)) = split_name(word, '#') {
        return range_word(name, digits);
    }
    None
}
