//! The machine: variables, arrays that are lent and arrays of its own, and the turns that loops have made.
ghost use Rattle.std.specs.Prelude.{◌≡◌, ℕ, ◌+◌, ◌^◌, ◌<◌, ◌≤◌, List, length, MatchOption, IfOk, IsOk, OnOk, OnErr};
ghost use Rattle.std.specs.Prelude.{◌++◌, ◌∷◌, [], Some, None, take, true, replicate};
ghost use Rattle.std.specs.Prelude.{slice_get, option_map, unwrap_or, map, IsTrue, IfSome, ◌↔◌};
ghost use Rattle.kernel_code.specs.Arrays.{sum_in, may_write};
ghost use Rattle.kernel_code.specs.declared.syntax.Arr.{Arr};
ghost use Rattle.kernel_code.specs.declared.syntax.Arr.TheVariants.{ListCoordinates, ListPositions, Key, Sums};
ghost use Rattle.kernel_code.specs.Meaning.{Ended, Stuck, Outcome, set_array, one_turn, sort_outcome, sort_sum_outcome, key_columns};
ghost use Rattle.kernel_code.specs.Meaning.{set_columns, with_array, changed, grown, value, word_at, length_of, set_outcome};
ghost use Rattle.kernel_code.specs.Meaning.{put_outcome, add_outcome, push_outcome, extend_outcome, cut_outcome};
ghost use Rattle.kernel_code.specs.Meaning.{behind, statements_in_list};
ghost use Rattle.lent_arrays.specs.Lent.{lent_array};
ghost use Rattle.machine_parts.specs.ArrayPlaces.{held};
ghost use Rattle.machine_parts.specs.Rows.{row_of};
ghost use Rattle.resolved_code.specs.Erase.{erase};
ghost use Rattle.kernel_interpreter.specs.Memory.{variable_room};
ghost use Rattle.kernel_interpreter.specs.Store.{count_of, state_of, own_array, outcome_at, outcome_of, made};
ghost use Rattle.kernel_interpreter.specs.Store.{IsPlaceOf, IsTold, IsWritable};

use crate::ending::{Ending, Refused, Step};
use crate::turns::{KeptTurns, NO_TURNS};
use kernel_code::{Arr, KExpr, LoopKind, Turns, apply_to_words, least_operand, width_of_operand};
use lent_arrays::LentArrays;
use machine_parts::{
    ArrayPlaces, OwnArray, PlacedRow, Table, append_copies, append_word, coordinates_of,
    count_told, decided_by_first, is_same, may_be_written, may_grow, number_of_keys, positions_of,
    rows_of_list, sort_rows, sum_of_words, sum_rows, values_of, words_at,
};
use numbers::Semiring;
use resolved_code::{Resolved, count_resolved};
use seg_buffer::Segment;
use std::alloc::{AllocError, Global};
use std::mem;

/// What a kernel works on: variables, arrays, and the turns that loops have made.
#[derive(Drop)]
pub struct Machine<'a> {
    alloc: Global,
    variables: Table,
    places: ArrayPlaces,
    arrays: Vec<OwnArray>,
    lent: LentArrays<'a>,
    turns: KeptTurns,
    /// What a step that answers `Over` leaves aside.
    refused: Refused,
    /// The number of the statement where a step answers `StuckInside`.
    stuck_inside: u64,
}

const NOTHING_REFUSED: Refused = Refused {
    array: Arr::Range,
    count: 0,
};

/// The value of a variable or of a number, and none of any other expression.
#[inline(always)]
fn leaf(machine: &Machine, e: &KExpr) -> Option<u64>
    ensures { IfSome result (λ v. value e.now (state_of machine.now) ≡ Some v) }
{
    match e {
        KExpr::Num(n) => Some(*n),
        KExpr::Var(x) => machine.variable(*x),
        _ => None,
    }
}

/// The value of an expression. An operator of variables or numbers is read where it stands, as these are.
#[inline(always)]
pub(crate) fn value_in_place(machine: &Machine, e: &KExpr) -> Option<u64>
    ensures { result ≡ value e.now (state_of machine.now) }
{
    match e {
        KExpr::Num(n) => Some(*n),
        KExpr::Var(x) => machine.variable(*x),
        KExpr::Bin(op, a, b) => match (leaf(machine, a.get()), leaf(machine, b.get())) {
            (Some(x), Some(y)) => Some(apply_to_words(*op, x, y)),
            _ => value_of(machine, e),
        },
        _ => value_of(machine, e),
    }
}

/// The value of an operand. A variable or a number is read where it stands.
#[cycle(value)]
#[inline(always)]
fn operand(machine: &Machine, e: &KExpr) -> Option<u64>
    ensures { result ≡ value e.now (state_of machine.now) }
{
    match e {
        KExpr::Num(n) => Some(*n),
        KExpr::Var(x) => machine.variable(*x),
        _ => value_of(machine, e),
    }
}

/// The value of an expression, or none where it is stuck.
#[cycle(value)]
fn value_of(machine: &Machine, e: &KExpr) -> Option<u64>
    ensures { result ≡ value e.now (state_of machine.now) }
{
    match e {
        KExpr::Num(n) => Some(*n),
        KExpr::Var(x) => machine.variable(*x),
        KExpr::At(a, i) => {
            let i = operand(machine, i.get());
            machine.word(*a, i)
        }
        KExpr::Len(a) => machine.length(*a),
        KExpr::Bin(op, a, b) => {
            let x = operand(machine, a.get())?;
            if let Some(decided) = decided_by_first(*op, x) {
                return Some(decided);
            }
            let y = operand(machine, b.get())?;
            Some(apply_to_words(*op, x, y))
        }
        KExpr::Min(a, b) => {
            let x = operand(machine, a.get());
            let y = operand(machine, b.get());
            least_operand(x, y)
        }
        KExpr::Width(e) => {
            let x = operand(machine, e.get());
            width_of_operand(x)
        }
    }
}

impl<'a> Machine<'a> {
    /// A machine with no variable, no turn made, and no array but those that are lent. It takes no memory.
    pub fn new(alloc: Global, lent: LentArrays<'a>) -> Machine<'a>
        ensures vars { (x : ℕ) → (state_of result).vars x ≡ None }
        ensures own { (a : Arr) → own_array result a ≡ None }
        ensures lent { result.lent ≡ lent.entry }
        ensures turns { (k : LoopKind) → (state_of result).turns k ≡ 0 }
    {
        Machine {
            alloc,
            variables: Table::new(alloc),
            places: ArrayPlaces::new(alloc),
            arrays: Vec::new(alloc),
            lent,
            turns: NO_TURNS,
            refused: NOTHING_REFUSED,
            stuck_inside: 0,
        }
    }

    /// Gives an array that a kernel may write these words, whether or not it was there. Refused for want of memory, the
    /// words are dropped.
    pub fn add_array(&mut self, a: Arr, words: Segment<u64>) -> Result<(), AllocError>
        requires { may_write a ≡ true }
        ensures { OnOk result (state_of self.new ≡ set_array (state_of self.old) a words.items) }
    {
        self.arrays.reserve(1)?;
        self.places.set(a, self.arrays.len() as u64)?;
        self.arrays.push_reserved(OwnArray { name: a, words });
        Ok(())
    }

    /// The place of an array of the machine's own.
    fn find(&self, a: Arr) -> Option<usize>
        ensures { MatchOption result (own_array self.now a ≡ None) (IsPlaceOf self.now a) }
    {
        let Some(place) = self.places.get(a) else {
            return None;
        };
        match self.arrays.get(place as usize) {
            Some(array) if is_same(array.name, a) => Some(place as usize),
            _ => None,
        }
    }

    /// Takes the words of an array of its own out, which leaves the array empty. It takes no memory.
    pub fn take_array(&mut self, a: Arr) -> Option<Segment<u64>>
        requires { may_write a ≡ true }
        ensures words { option_map (λ words. words.items) result ≡ (state_of self.old).arrays a }
        ensures left { MatchOption result (state_of self.new ≡ state_of self.old)
            (λ _. state_of self.new ≡ set_array (state_of self.old) a []) }
    {
        let Some(place) = self.find(a) else {
            return None;
        };
        Some(mem::replace(&mut self.arrays[place].words, Segment::new(self.alloc)))
    }

    /// Gives an array of its own that is there other words.
    fn replace(&mut self, a: Arr, words: Segment<u64>)
        requires { may_write a ≡ true }
        ensures is { (xs : List ℕ) → (state_of self.old).arrays a ≡ Some xs
            → state_of self.new ≡ set_array (state_of self.old) a words.items }
        ensures turns { self.new.turns ≡ self.old.turns }
        ensures variables { self.new.variables ≡ self.old.variables }
    {
        if let Some(place) = self.find(a) {
            self.arrays[place].words = words;
        }
    }

    /// The turns made by the last run.
    pub fn turns(&self) -> Turns
        ensures { count_of result ≡ (state_of self.now).turns }
    {
        self.turns.counts
    }

    /// The value of a variable, or none where it has none.
    #[inline(always)]
    pub fn variable(&self, x: u64) -> Option<u64>
        ensures { result ≡ (state_of self.now).vars x }
    {
        self.variables.get(x)
    }

    /// The value of a variable that has a place, or none where it has no value.
    #[inline(always)]
    pub(crate) fn slot(&self, x: u64) -> Option<u64>
        requires { x < variable_room self.now }
        ensures { result ≡ (state_of self.now).vars x }
    {
        self.variables.at(x)
    }

    /// The words of an array of its own, or none where it doesn't exist.
    pub fn array(&self, a: Arr) -> Option<&[u64]>
        requires { may_write a ≡ true }
        ensures { option_map (λ words. words.now) result ≡ (state_of self.now).arrays a }
    {
        match self.find(a) {
            None => None,
            Some(place) => Some(self.arrays[place].words.as_slice()),
        }
    }

    fn own_word(&self, a: Arr, i: u64) -> Option<u64>
        requires { may_write a ≡ true }
        ensures { result ≡ word_at ((state_of self.now).arrays a) (Some i) }
    {
        match self.array(a) {
            None => None,
            Some(words) => words.get(i as usize).copied(),
        }
    }

    fn own_length(&self, a: Arr) -> Option<u64>
        requires { may_write a ≡ true }
        ensures { result ≡ length_of ((state_of self.now).arrays a) }
    {
        match self.array(a) {
            None => None,
            Some(words) => Some(words.len() as u64),
        }
    }

    fn word_at(&self, a: Arr, i: u64) -> Option<u64>
        ensures { result ≡ word_at ((state_of self.now).arrays a) (Some i) }
    {
        if may_be_written(a) {
            self.own_word(a, i)
        } else {
            self.lent.word(a, i)
        }
    }

    pub(crate) fn word(&self, a: Arr, i: Option<u64>) -> Option<u64>
        ensures { result ≡ word_at ((state_of self.now).arrays a) i }
    {
        match i {
            None => None,
            Some(i) => self.word_at(a, i),
        }
    }

    fn length(&self, a: Arr) -> Option<u64>
        ensures { result ≡ length_of ((state_of self.now).arrays a) }
    {
        if may_be_written(a) {
            self.own_length(a)
        } else {
            self.lent.length(a)
        }
    }

    /// Gives a variable a place, whether or not it has a value. Refused for want of memory alone, and never where it has one.
    pub(crate) fn make_room(&mut self, x: u64) -> Result<(), AllocError>
        ensures state { OnOk result (state_of self.new ≡ state_of self.old) }
        ensures more { OnOk result (variable_room self.old ≤ variable_room self.new) }
        ensures room { OnOk result (x < variable_room self.new) }
        ensures enough { x < variable_room self.old → IsOk result }
    {
        self.variables.make_room(x)
    }

    /// Gives a variable that has a place a value.
    #[inline(always)]
    pub(crate) fn set(&mut self, x: u64, value: Option<u64>) -> Step
        requires { x < variable_room self.old }
        ensures is { outcome_at result self.new ≡ set_outcome (state_of self.old) x value }
        ensures turns { self.new.turns ≡ self.old.turns }
        ensures room { variable_room self.new ≡ variable_room self.old }
        ensures told { IsTold result }
    {
        let Some(value) = value else {
            return Step::Stuck;
        };
        self.variables.put(x, value);
        Step::Ended
    }

    /// How a run ends where its last step answers so.
    pub(crate) fn ending(&self, step: Step) -> Result<Ending, AllocError>
        ensures is { IfOk result (λ ending. outcome_of ending (state_of self.now) ≡ outcome_at step self.now) }
        ensures told { OnOk result (IsTold step) }
        ensures ok { IsTold step → IsOk result }
    {
        match step {
            Step::Ended => Ok(Ending::Ended),
            Step::Stuck => Ok(Ending::Stuck { statement: 1 }),
            Step::StuckInside => Ok(Ending::Stuck {
                statement: self.stuck_inside,
            }),
            Step::Over => Ok(Ending::Over {
                array: self.refused.array,
                count: self.refused.count,
            }),
            Step::More => Ok(Ending::More),
            Step::Memory => Err(AllocError),
        }
    }

    /// What code answers that stands behind so many statements: where it is stuck, they count too.
    #[cold]
    fn behind_so_many(&mut self, step: Step, count: u64) -> Step
        ensures is { outcome_at result self.new ≡ behind count (outcome_at step self.old) }
        ensures told { IsTold step ↔ IsTold result }
        ensures state { state_of self.new ≡ state_of self.old }
        ensures turns { self.new.turns ≡ self.old.turns }
        ensures variables { self.new.variables ≡ self.old.variables }
    {
        if count == 0 {
            return step;
        }
        match step {
            Step::Stuck => {
                self.stuck_inside = count.saturating_add(1);
                Step::StuckInside
            }
            Step::StuckInside => {
                self.stuck_inside = count.saturating_add(self.stuck_inside);
                Step::StuckInside
            }
            Step::Ended | Step::Over | Step::More | Step::Memory => step,
        }
    }

    /// What code answers that stands in a statement, behind its first line.
    #[inline(always)]
    pub(crate) fn inside(&mut self, step: Step) -> Step
        ensures is { outcome_at result self.new ≡ behind 1 (outcome_at step self.old) }
        ensures told { IsTold step ↔ IsTold result }
        ensures state { state_of self.new ≡ state_of self.old }
        ensures turns { self.new.turns ≡ self.old.turns }
        ensures variables { self.new.variables ≡ self.old.variables }
    {
        match step {
            Step::Stuck | Step::StuckInside => self.behind_so_many(step, 1),
            Step::Ended | Step::Over | Step::More | Step::Memory => step,
        }
    }

    /// What code answers that stands behind statements. They are counted where it is stuck alone.
    #[inline(always)]
    pub(crate) fn behind(&mut self, step: Step, before: &[Resolved]) -> Step
        ensures is { outcome_at result self.new
            ≡ behind (statements_in_list (map erase before.now)) (outcome_at step self.old) }
        ensures told { IsTold step ↔ IsTold result }
        ensures state { state_of self.new ≡ state_of self.old }
        ensures turns { self.new.turns ≡ self.old.turns }
        ensures variables { self.new.variables ≡ self.old.variables }
    {
        match step {
            Step::Stuck | Step::StuckInside => self.behind_so_many(step, count_resolved(before)),
            Step::Ended | Step::Over | Step::More | Step::Memory => step,
        }
    }

    /// The place of an array that exists and may be written.
    fn writable(&self, a: Arr) -> Option<usize>
        ensures { MatchOption result ((next : List ℕ → Outcome) → with_array (state_of self.now) a next ≡ Stuck (state_of self.now).turns 1)
            (IsWritable self.now a) }
    {
        if !may_be_written(a) {
            return None;
        }
        self.find(a)
    }

    fn put_word(&mut self, a: Arr, i: u64, value: u64) -> Step
        ensures is { outcome_at result self.new
            ≡ with_array (state_of self.old) a (changed (state_of self.old) a i (λ _. value)) }
        ensures turns { self.new.turns ≡ self.old.turns }
        ensures variables { self.new.variables ≡ self.old.variables }
        ensures told { IsTold result }
    {
        let Some(place) = self.writable(a) else {
            return Step::Stuck;
        };
        let words = &mut self.arrays[place].words;
        if i >= words.len() as u64 {
            return Step::Stuck;
        }
        words.set(i as usize, value);
        Step::Ended
    }

    fn add_word<S: Semiring>(&mut self, a: Arr, i: u64, value: u64) -> Step
        ensures is { outcome_at result self.new
            ≡ with_array (state_of self.old) a (changed (state_of self.old) a i (λ old. sum_in S.arithmetic a old value)) }
        ensures turns { self.new.turns ≡ self.old.turns }
        ensures variables { self.new.variables ≡ self.old.variables }
        ensures told { IsTold result }
    {
        let Some(place) = self.writable(a) else {
            return Step::Stuck;
        };
        let words = &mut self.arrays[place].words;
        if i >= words.len() as u64 {
            return Step::Stuck;
        }
        let sum = sum_of_words::<S>(a, words.get(i as usize), value);
        words.set(i as usize, sum);
        Step::Ended
    }

    fn push_word(&mut self, a: Arr, value: u64) -> Step
        ensures is { IsTold result → outcome_at result self.new
            ≡ with_array (state_of self.old) a (λ xs. grown (state_of self.old) a (length xs + 1) xs (value ∷ [])) }
        ensures turns { self.new.turns ≡ self.old.turns }
        ensures variables { self.new.variables ≡ self.old.variables }
    {
        let Some(place) = self.writable(a) else {
            return Step::Stuck;
        };
        let words = &mut self.arrays[place].words;
        let length = words.len() as u64;
        if !may_grow(a, length, 1) {
            let count = count_told(a, length, 1);
            self.refused = Refused { array: a, count };
            return Step::Over;
        }
        match append_word(words, value) {
            Ok(()) => Step::Ended,
            Err(_) => Step::Memory,
        }
    }

    fn extend_words(&mut self, a: Arr, n: u64, value: u64) -> Step
        ensures is { IsTold result → outcome_at result self.new
            ≡ with_array (state_of self.old) a (λ xs. grown (state_of self.old) a (length xs + n) xs (replicate n value)) }
        ensures turns { self.new.turns ≡ self.old.turns }
        ensures variables { self.new.variables ≡ self.old.variables }
    {
        let Some(place) = self.writable(a) else {
            return Step::Stuck;
        };
        let words = &mut self.arrays[place].words;
        let length = words.len() as u64;
        if !may_grow(a, length, n) {
            let count = count_told(a, length, n);
            self.refused = Refused { array: a, count };
            return Step::Over;
        }
        match append_copies(words, n, value) {
            Ok(()) => Step::Ended,
            Err(_) => Step::Memory,
        }
    }

    fn cut_words(&mut self, a: Arr, n: u64) -> Step
        ensures is { outcome_at result self.new
            ≡ with_array (state_of self.old) a (λ xs. Ended (set_array (state_of self.old) a (take n xs))) }
        ensures turns { self.new.turns ≡ self.old.turns }
        ensures variables { self.new.variables ≡ self.old.variables }
        ensures told { IsTold result }
    {
        let Some(place) = self.writable(a) else {
            return Step::Stuck;
        };
        self.arrays[place].words.truncate(n as usize);
        Step::Ended
    }

    #[inline(never)]
    pub(crate) fn put(&mut self, a: Arr, i: Option<u64>, value: Option<u64>) -> Step
        ensures is { outcome_at result self.new ≡ put_outcome (state_of self.old) a i value }
        ensures turns { self.new.turns ≡ self.old.turns }
        ensures variables { self.new.variables ≡ self.old.variables }
        ensures told { IsTold result }
    {
        match (i, value) {
            (Some(i), Some(value)) => self.put_word(a, i, value),
            _ => Step::Stuck,
        }
    }

    #[inline(never)]
    pub(crate) fn add<S: Semiring>(&mut self, a: Arr, i: Option<u64>, value: Option<u64>) -> Step
        ensures is { outcome_at result self.new ≡ add_outcome S.arithmetic (state_of self.old) a i value }
        ensures turns { self.new.turns ≡ self.old.turns }
        ensures variables { self.new.variables ≡ self.old.variables }
        ensures told { IsTold result }
    {
        match (i, value) {
            (Some(i), Some(value)) => self.add_word::<S>(a, i, value),
            _ => Step::Stuck,
        }
    }

    #[inline(never)]
    pub(crate) fn push(&mut self, a: Arr, value: Option<u64>) -> Step
        ensures is { IsTold result → outcome_at result self.new ≡ push_outcome (state_of self.old) a value }
        ensures turns { self.new.turns ≡ self.old.turns }
        ensures variables { self.new.variables ≡ self.old.variables }
    {
        match value {
            Some(value) => self.push_word(a, value),
            None => Step::Stuck,
        }
    }

    #[inline(never)]
    pub(crate) fn extend(&mut self, a: Arr, n: Option<u64>, value: Option<u64>) -> Step
        ensures is { IsTold result → outcome_at result self.new ≡ extend_outcome (state_of self.old) a n value }
        ensures turns { self.new.turns ≡ self.old.turns }
        ensures variables { self.new.variables ≡ self.old.variables }
    {
        match (n, value) {
            (Some(n), Some(value)) => self.extend_words(a, n, value),
            _ => Step::Stuck,
        }
    }

    #[inline(never)]
    pub(crate) fn cut(&mut self, a: Arr, n: Option<u64>) -> Step
        ensures is { outcome_at result self.new ≡ cut_outcome true (state_of self.old) a n }
        ensures turns { self.new.turns ≡ self.old.turns }
        ensures variables { self.new.variables ≡ self.old.variables }
        ensures told { IsTold result }
    {
        match n {
            Some(n) => self.cut_words(a, n),
            None => Step::Stuck,
        }
    }

    /// Lets loops make turns until so many are made in all.
    pub(crate) fn allow(&mut self, limit: u64)
        requires { made self.old ≤ limit }
        ensures left { made self.new + self.new.turns.left ≡ limit }
        ensures state { state_of self.new ≡ state_of self.old }
        ensures variables { self.new.variables ≡ self.old.variables }
    {
        let counts = &self.turns.counts;
        let made = counts.merge + counts.skip + counts.gather + counts.drain + counts.probe;
        self.turns.left = limit - made;
    }

    /// Whether no turn may be made any more.
    #[inline(always)]
    pub(crate) fn has_no_turn(&self) -> bool
        ensures { IsTrue result ↔ (self.now.turns.left ≡ 0) }
    {
        self.turns.left == 0
    }

    /// Counts a turn, of those that may be made.
    #[inline(always)]
    pub(crate) fn count_turn(&mut self, kind: LoopKind)
        requires left { 0 < self.old.turns.left }
        requires few { made self.old + self.old.turns.left < 2 ^ 64 }
        ensures is { state_of self.new ≡ one_turn (state_of self.old) kind }
        ensures made { made self.new ≡ made self.old + 1 }
        ensures left { self.new.turns.left + 1 ≡ self.old.turns.left }
        ensures variables { self.new.variables ≡ self.old.variables }
    {
        self.turns.left -= 1;
        match kind {
            LoopKind::Merge => self.turns.counts.merge += 1,
            LoopKind::Skip => self.turns.counts.skip += 1,
            LoopKind::Gather => self.turns.counts.gather += 1,
            LoopKind::Drain => self.turns.counts.drain += 1,
            LoopKind::Probe => self.turns.counts.probe += 1,
        }
    }

    /// Sorts the rows of a scratch list by their coordinates.
    #[inline(never)]
    pub(crate) fn sort(&mut self, list: u64) -> Result<Step, AllocError>
        ensures is { IfOk result (λ step. outcome_at step self.new
            ≡ sort_outcome (state_of self.old) list ((state_of self.old).arrays (Arr.ListCoordinates list))
            ((state_of self.old).arrays (Arr.ListPositions list))) }
        ensures turns { self.new.turns ≡ self.old.turns }
        ensures variables { self.new.variables ≡ self.old.variables }
        ensures refused { OnErr result (self.new ≡ self.old) }
    {
        let Some(coordinates) = self.array(Arr::ListCoordinates(list)) else {
            return Ok(Step::Stuck);
        };
        let Some(positions) = self.array(Arr::ListPositions(list)) else {
            return Ok(Step::Stuck);
        };
        if coordinates.len() != positions.len() {
            return Ok(Step::Stuck);
        }
        let mut rows = rows_of_list(self.alloc, coordinates, positions)?;
        sort_rows(&mut rows)?;
        let coordinates = coordinates_of(self.alloc, rows.as_slice())?;
        let positions = positions_of(self.alloc, rows.as_slice())?;
        self.replace(Arr::ListCoordinates(list), coordinates);
        self.replace(Arr::ListPositions(list), positions);
        Ok(Step::Ended)
    }

    /// The words of an array, and no words where it doesn't exist.
    fn words_of(&self, a: Arr) -> &[u64]
        requires { may_write a ≡ true }
        ensures { result.now ≡ unwrap_or ((state_of self.now).arrays a) [] }
    {
        match self.array(a) {
            Some(words) => words,
            None => &[],
        }
    }

    /// The key columns of a workspace, if each has so many words.
    fn key_columns(
        &self,
        workspace: u64,
        keys: u64,
        count: usize,
    ) -> Result<Option<Vec<&[u64]>>, AllocError>
        ensures { IfOk result (λ columns. option_map (λ cs. map (λ c. c.now) cs.items) columns
            ≡ key_columns (state_of self.now) workspace count keys) }
    {
        let mut columns = Vec::new(self.alloc);
        for k in 0..keys {
            let Some(column) = self.array(Arr::Key(workspace, k)) else {
                return Ok(None);
            };
            if column.len() != count {
                return Ok(None);
            }
            columns.push(column)?;
        }
        Ok(Some(columns))
    }

    /// Replaces each key column by its words at the places of rows.
    fn pick_columns(
        &mut self,
        workspace: u64,
        keys: u64,
        rows: &[PlacedRow],
    ) -> Result<(), AllocError>
        ensures is { OnOk result ((columns : List (List ℕ)) (count : ℕ)
            → key_columns (state_of self.old) workspace count keys ≡ Some columns
            → state_of self.new ≡ set_columns (state_of self.old) workspace (map (row_of columns) rows.now) keys) }
        ensures turns { self.new.turns ≡ self.old.turns }
        ensures variables { self.new.variables ≡ self.old.variables }
    {
        for k in 0..keys {
            let name = Arr::Key(workspace, k);
            let column = words_at(self.alloc, self.words_of(name), rows)?;
            self.replace(name, column);
        }
        Ok(())
    }

    /// Sorts the rows of a workspace by their keys, and adds the values of those with equal keys.
    #[inline(never)]
    pub(crate) fn sort_sum<S: Semiring>(
        &mut self,
        workspace: u64,
        workspaces: &[u64],
    ) -> Result<Step, AllocError>
        ensures is { IfOk result (λ step. outcome_at step self.new
            ≡ sort_sum_outcome S.arithmetic (state_of self.old) workspace (slice_get workspaces.now workspace)
            ((state_of self.old).arrays (Arr.Sums workspace))) }
        ensures turns { self.new.turns ≡ self.old.turns }
        ensures variables { self.new.variables ≡ self.old.variables }
    {
        let Some(keys) = number_of_keys(workspaces, workspace) else {
            return Ok(Step::Stuck);
        };
        let Some(values) = self.array(Arr::Sums(workspace)) else {
            return Ok(Step::Stuck);
        };
        let Some(columns) = self.key_columns(workspace, keys, values.len())? else {
            return Ok(Step::Stuck);
        };
        let rows = sum_rows::<S>(self.alloc, columns.as_slice(), values)?;
        drop(columns);
        let sums = values_of(self.alloc, rows.as_slice())?;
        self.pick_columns(workspace, keys, rows.as_slice())?;
        self.replace(Arr::Sums(workspace), sums);
        Ok(Step::Ended)
    }
}
