// What the words so far bind.
ghost use Rattle.std.specs.Prelude.{◌≡◌, ◌<◌, ◌++◌, ◌∷◌, [], ℕ, List, Some};
ghost use Rattle.std.specs.Prelude.{None, true, false, IfOk, OnOk, IsTrue, length, replicate};
ghost use Rattle.std.specs.Prelude.{nat_lt};
ghost use Rattle.bindings.specs.Words.{said_of};
ghost use Rattle.bindings.specs.declared.fault.WordFault.{WordFault};
ghost use Rattle.bindings.specs.Bindings.{number_in, names_for, is_bound, is_no_matrix, is_above_limit, fault_of_said, fault_of, order_in};
ghost use Rattle.bindings.specs.Bindings.{order_of as order_of_tensor};
ghost use Rattle.bindings.specs.Views.{said_in, HasNumber};
ghost use Rattle.bindings.specs.Tables.{IsBound, HasPlaces};

use crate::fault::WordFault;
use crate::names::place;
use crate::tensor_file::TensorFile;
use crate::word::{FormatText, Word, read_word};
use index_notation::{Access, Statement};
use indexmap::IndexMap;
use std::alloc::{AllocError, Global};

/// The texts of formats and the files of tensors, and the ranges of variables, by their numbers.
#[derive(Drop)]
pub(crate) struct Bound<'a> {
    pub(crate) texts: Vec<Option<FormatText<'a>>>,
    pub(crate) files: IndexMap<usize, TensorFile<'a>>,
    pub(crate) ranges: Vec<Option<u64>>,
}

/// The number of variables of the first of these accesses to a tensor.
fn order_among(accesses: &[Access], tensor: usize) -> usize
    ensures { result ≡ order_in accesses.now tensor }
{
    for access in accesses {
        if access.tensor == tensor {
            return access.vars.len();
        }
    }
    0
}

/// The order of a tensor: the number of variables of its accesses, and 0 where it has none.
pub fn order_of(statement: &Statement, tensor: usize) -> usize
    ensures { result ≡ order_of_tensor statement.now tensor }
{
    if statement.left.tensor == tensor {
        statement.left.vars.len()
    } else {
        order_among(statement.accesses.as_slice(), tensor)
    }
}

/// The number of the tensor or variable that a word is about, which is past the last one where there is none.
fn number_of(statement: &Statement, word: &Word<'_>) -> usize
    ensures { result ≡ number_in statement.now (said_in word.now) }
{
    match word {
        Word::Format { name, .. } | Word::File { name, .. } => place(
            statement.tensors.as_slice(),
            name.as_bytes(),
        ),
        Word::Range { name, .. } => place(statement.vars.as_slice(), name.as_bytes()),
    }
}

/// Whether the statement has a tensor or variable of this number, as the word's form wants it.
fn is_known(statement: &Statement, word: &Word<'_>, number: usize) -> bool
    ensures { result ≡ nat_lt number (length (names_for statement.now (said_in word.now))) }
{
    match word {
        Word::Format { .. } | Word::File { .. } => number < statement.tensors.len(),
        Word::Range { .. } => number < statement.vars.len(),
    }
}

/// Whether the word names a matrix for a tensor that is neither a matrix nor a vector.
fn needs_a_matrix(statement: &Statement, word: &Word<'_>, number: usize) -> bool
    requires { number ≡ number_in statement.now (said_in word.now) }
    ensures { result ≡ is_no_matrix statement.now (said_in word.now) }
{
    match word {
        Word::File { file, .. } if file.is_matrix() => {
            let order = order_of(statement, number);
            !(order == 1 || order == 2)
        }
        _ => false,
    }
}

/// Whether the word gives a range above the limit.
fn passes_limit(word: &Word<'_>) -> bool
    requires { HasNumber word.now }
    ensures { result ≡ is_above_limit (said_in word.now) }
{
    match word {
        Word::Range { range, .. } => range.is_none(),
        _ => false,
    }
}

/// So many places without a value.
fn empty_places<T: Copy>(alloc: Global, count: usize) -> Result<Vec<Option<T>>, AllocError>
    ensures { IfOk result (λ places. places.items ≡ replicate count None) }
{
    let mut places = Vec::new(alloc);
    places.resize(count, None)?;
    Ok(places)
}

impl<'a> Bound<'a> {
    /// Nothing is bound.
    pub(crate) fn new(alloc: Global, statement: &Statement) -> Result<Bound<'a>, AllocError>
        ensures { IfOk result (IsBound statement.now []) }
    {
        Ok(Bound {
            texts: empty_places(alloc, statement.tensors.len())?,
            files: IndexMap::new(alloc),
            ranges: empty_places(alloc, statement.vars.len())?,
        })
    }

    /// Whether a word so far says something of this tensor or variable by the same form.
    fn holds(&self, statement: &Statement, word: &Word<'a>, number: usize) -> bool
        requires places { HasPlaces statement.now self.now }
        requires number { number ≡ number_in statement.now (said_in word.now) }
        requires within { number < length (names_for statement.now (said_in word.now)) }
        ensures { (words : List (List ℕ)) → IsBound statement.now words self.now
            → result ≡ is_bound statement.now words (said_in word.now) }
    {
        match word {
            Word::Format { .. } => self.texts[number].is_some(),
            Word::File { .. } => self.files.contains_key(&number),
            Word::Range { .. } => self.ranges[number].is_some(),
        }
    }

    /// The fault of a word about this tensor or variable, which the statement has.
    fn fault_of_known(
        &self,
        statement: &Statement,
        word: &Word<'a>,
        number: usize,
    ) -> Option<WordFault>
        requires places { HasPlaces statement.now self.now }
        requires number { number ≡ number_in statement.now (said_in word.now) }
        requires within { number < length (names_for statement.now (said_in word.now)) }
        requires range { HasNumber word.now }
        ensures { (words : List (List ℕ)) → IsBound statement.now words self.now
            → result ≡ fault_of_said statement.now words (said_in word.now) }
    {
        if self.holds(statement, word, number) {
            Some(WordFault::Twice)
        } else if needs_a_matrix(statement, word, number) {
            Some(WordFault::NotMatrix)
        } else if passes_limit(word) {
            Some(WordFault::RangeLimit)
        } else {
            None
        }
    }

    /// Binds what a word says of this tensor or variable, which isn't bound yet.
    fn bind(
        &mut self,
        statement: &Statement,
        word: Word<'a>,
        number: usize,
    ) -> Result<(), AllocError>
        requires places { HasPlaces statement.now self.old }
        requires number { number ≡ number_in statement.now (said_in word) }
        requires within { number < length (names_for statement.now (said_in word)) }
        requires range { HasNumber word }
        ensures { OnOk result ((words : List (List ℕ)) (text : List ℕ) → IsBound statement.now words self.old
            → said_of text ≡ Some (said_in word.entry) → fault_of_said statement.now words (said_in word.entry) ≡ None
            → IsBound statement.now (words ++ text ∷ []) self.new) }
    {
        match word {
            Word::Format { text, .. } => self.texts[number] = Some(text),
            Word::File { file, .. } => {
                self.files.insert(number, file)?;
            }
            Word::Range { range, .. } => self.ranges[number] = range,
        }
        Ok(())
    }

    /// Binds what one more word says, or tells its fault, and then leaves all as it was. Refused for want of memory alone.
    pub(crate) fn add(
        &mut self,
        statement: &Statement,
        word: &'a str,
    ) -> Result<Option<WordFault>, AllocError>
        requires { HasPlaces statement.now self.old }
        ensures fault { IfOk result (λ fault. (words : List (List ℕ)) → IsBound statement.now words self.old
            → fault ≡ fault_of statement.now words (said_of word.now)) }
        ensures bound { IfOk result (λ fault. (words : List (List ℕ)) → IsBound statement.now words self.old
            → fault ≡ None → IsBound statement.now (words ++ word.now ∷ []) self.new) }
        ensures kept { IfOk result (λ fault. (why : WordFault) → fault ≡ Some why → self.new ≡ self.old) }
    {
        let Some(said) = read_word(word) else {
            return Ok(Some(WordFault::BadBinding));
        };
        let number = number_of(statement, &said);
        if !is_known(statement, &said, number) {
            return Ok(Some(WordFault::UnknownName));
        }
        if let Some(fault) = self.fault_of_known(statement, &said, number) {
            return Ok(Some(fault));
        }
        self.bind(statement, said, number)?;
        Ok(None)
    }
}
