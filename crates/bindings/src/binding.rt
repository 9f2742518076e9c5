// What all words bind.
ghost use Rattle.std.specs.Prelude.{◌≡◌, ◌<◌, ◌≤◌, ◌+◌, ℕ, List, Some, None};
ghost use Rattle.std.specs.Prelude.{Ok, Err, map, length, take, All, IfOk, MatchResult};
ghost use Rattle.std.specs.Prelude.{MatchOption, IsTrue};
ghost use Rattle.std.specs.Prelude.{true, OnOk, ◌++◌, ◌∷◌, [], option_map};
ghost use Rattle.limits.specs.Limits.{greatest_order};
ghost use Rattle.index_notation.specs.Statement.{IsNumberedWithSums};
ghost use Rattle.bindings.specs.Bindings.{AreSound, IsFirstFault};
ghost use Rattle.bindings.specs.Outcome.{AnswersFormat, AreFormats, HaveFiles, IsWithoutFile};
ghost use Rattle.bindings.specs.Outcome.{IsFileRefused, IsWordRefused, IsFormatRefused};
ghost use Rattle.bindings.specs.Outcome.{Binds, IsRefused};
ghost use Rattle.bindings.specs.Tables.{HasPlaces, IsBound, file_in};
ghost use Rattle.bindings.specs.Views.{text_in};

use crate::bound::{Bound, order_of};
use crate::fault::BindingFault;
use crate::names::first_named;
use crate::tensor_file::TensorFile;
use crate::word::FormatText;
use format_spec::{Format, FormatFault, parse_format};
use index_notation::Statement;
use indexmap::IndexMap;
use std::alloc::{AllocError, Global};

/// What the words behind EXPR bind.
#[derive(Drop)]
pub struct Bindings<'a> {
    /// The format of each tensor, by its number.
    pub formats: Vec<Format>,
    /// The files of the tensors that have some, by the tensors' numbers, in the order of the words.
    pub files: IndexMap<usize, TensorFile<'a>>,
    /// The range of each variable that has a word, by its number.
    pub ranges: Vec<Option<u64>>,
}

/// The first word with a fault is refused; else all are bound.
fn bind_words<'a>(
    alloc: Global,
    statement: &Statement,
    words: &[&'a str],
) -> Result<Bound<'a>, BindingFault>
    ensures { MatchResult result
        (λ bound. IsBound statement.now (map (λ word. word.now) words.now) bound
        × AreSound statement.now (map (λ word. word.now) words.now) (length words.now))
        (λ fault. IsWordRefused statement.now (map (λ word. word.now) words.now) fault) }
{
    let mut bound = Bound::new(alloc, statement)?;
    for (at, word) in words.iter().enumerate() {
        if let Some(fault) = bound.add(statement, word)? {
            return Err(BindingFault::Word {
                word: at + 1,
                fault,
            });
        }
    }
    Ok(bound)
}

/// The first operand without a file.
fn first_without_file(statement: &Statement, bound: &Bound<'_>) -> Option<usize>
    ensures { (words : List (List ℕ)) → IsBound statement.now words bound.now
        → MatchOption result (HaveFiles statement.now words (length statement.now.tensors)) (IsWithoutFile statement.now words) }
{
    let names = statement.tensors.as_slice();
    for tensor in 1..names.len() {
        if !bound.files.contains_key(&first_named(names, tensor)) {
            return Some(tensor);
        }
    }
    None
}

/// Refuses the first operand without a file, where files are needed.
fn check_files(
    statement: &Statement,
    bound: &Bound<'_>,
    need_files: bool,
) -> Result<(), BindingFault>
    ensures { (words : List (List ℕ)) → IsBound statement.now words bound.now
        → MatchResult result (λ _. need_files ≡ true → HaveFiles statement.now words (length statement.now.tensors))
        (IsFileRefused statement.now words need_files) }
{
    if !need_files {
        return Ok(());
    }
    match first_without_file(statement, bound) {
        Some(tensor) => Err(BindingFault::NoFile { tensor }),
        None => Ok(()),
    }
}

/// The format of a tensor of this order: by its text, or all dense.
fn format_of(
    alloc: Global,
    text: Option<FormatText<'_>>,
    order: usize,
) -> Result<Format, FormatFault>
    requires { order ≤ greatest_order }
    ensures { AnswersFormat (option_map text_in text.entry) order result }
{
    match text {
        Some(text) => parse_format(alloc, text.letters, text.order, order),
        None => Ok(Format::all_dense(alloc, order)),
    }
}

/// Puts a format behind others. Refused for want of memory alone.
fn push(formats: &mut Vec<Format>, format: Format) -> Result<(), AllocError>
    ensures { OnOk result (formats.new.items ≡ formats.old.items ++ format ∷ []) }
{
    Ok(formats.push(format)?)
}

/// The formats of all tensors, or the first that is none.
fn formats_of(
    alloc: Global,
    statement: &Statement,
    bound: &Bound<'_>,
) -> Result<Vec<Format>, BindingFault>
    requires numbered { IsNumberedWithSums statement.now }
    requires places { HasPlaces statement.now bound.now }
    ensures { (words : List (List ℕ)) → IsBound statement.now words bound.now
        → MatchResult result (λ formats. AreFormats statement.now words formats.items)
        (IsFormatRefused statement.now words) }
{
    let names = statement.tensors.as_slice();
    let mut formats = Vec::new(alloc);
    for tensor in 0..names.len() {
        let text = bound.texts[first_named(names, tensor)];
        match format_of(alloc, text, order_of(statement, tensor)) {
            Ok(format) => push(&mut formats, format)?,
            Err(fault) => return Err(BindingFault::BadFormat { tensor, fault }),
        }
    }
    Ok(formats)
}

/// What the words behind EXPR bind, or the first refusal in order: of the words, of the files where they are needed, of the
/// formats. Refused for want of memory besides.
pub fn bind<'a>(
    alloc: Global,
    statement: &Statement,
    words: &[&'a str],
    need_files: bool,
) -> Result<Bindings<'a>, BindingFault>
    requires { IsNumberedWithSums statement.now }
    ensures { MatchResult result
        (λ b. Binds statement.now (map (λ word. word.now) words.now) need_files b.formats.items
        (map file_in b.files.entries) b.ranges.items)
        (IsRefused statement.now (map (λ word. word.now) words.now) need_files) }
{
    let bound = bind_words(alloc, statement, words)?;
    check_files(statement, &bound, need_files)?;
    let formats = formats_of(alloc, statement, &bound)?;
    Ok(Bindings {
        formats,
        files: bound.files,
        ranges: bound.ranges,
    })
}
