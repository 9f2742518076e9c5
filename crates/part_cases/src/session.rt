//! The lines of case files, one after another.
use crate::arithmetics::{tell_entries_or_drains, tell_statement_values, tell_words};
use crate::formats::tell_format;
use crate::forms::tell_form;
use crate::graphs::{tell_edges, tell_graph, tell_lattice};
use crate::memory::{tell_blocks, tell_refusals};
use crate::numbered::tell_numbered;
use crate::owners::{tell_box, tell_items, tell_tree};
use crate::ranged::tell_ranges;
use crate::scripted::Scripted;
use crate::segments::{tell_segments, tell_twin};
use crate::statements::{tell_expanded, tell_groups, tell_named, tell_statement};
use crate::{copies, files, streams, tokens};
use case_files::{Answer, Cases, keyword_of};
use index_notation::Statement;
use notation_grammar::NotationFault;
use notation_reader::parse;
use std::rt::Files;

/// The system's files and output, and what earlier lines left for later ones.
#[derive(Drop)]
pub(crate) struct Session<'a, R> {
    rt: &'a R,
    statement: Option<Statement>,
}

/// What is read of a text, once its repetitions and escapes are written out.
fn parsed(answer: &mut Answer, text: &str) -> Option<Result<Statement, NotationFault>> {
    let text = answer.repeated(text)?;
    let bytes = answer.bytes(text.as_str())?;
    let text = str::from_utf8(bytes.as_slice()).ok()?;
    Some(parse(answer.alloc(), text))
}

impl<'a, R: Files + Print + AllocGlobal> Session<'a, R> {
    pub(crate) fn new(rt: &'a R) -> Session<'a, R> {
        Session {
            rt,
            statement: None,
        }
    }

    /// Tells the statement of a text, which is kept, or its fault.
    fn read_text(&mut self, answer: &mut Answer, text: &str) -> Option<()> {
        match parsed(answer, text)? {
            Ok(statement) => {
                tell_statement(answer, &statement)?;
                self.statement = Some(statement);
            }
            Err(fault) => answer.show(&fault),
        }
        Some(())
    }

    /// Tells what comes of the statement that was kept.
    fn tell_kept(&self, answer: &mut Answer, keyword: &str, rest: &str) -> Option<()> {
        let statement = self.statement.as_ref()?;
        match keyword {
            "ranges" => tell_ranges(answer, statement, rest),
            "edges" => tell_edges(answer, statement, rest),
            "lattice" => tell_lattice(answer, statement, rest),
            _ => tell_form(answer, statement, rest),
        }
    }

    /// Tells what comes of a case `HEAD | TEXT`.
    fn read_scripted(&self, answer: &mut Answer, keyword: &str, case: &str) -> Option<()> {
        let (head, text) = case.split_once('|')?;
        let (head, fails) = head.split_once("fail").unwrap_or((head, ""));
        let (numbers, cuts) = head.split_once("cut").unwrap_or((head, ""));
        let (numbers, over) = numbers.split_once("over").unwrap_or((numbers, "ring"));
        let numbers = answer.numbers(numbers)?;
        let cuts = answer.numbers(cuts)?;
        let fails = answer.numbers(fails)?;
        let text = answer.bytes(text.strip_prefix(' ').unwrap_or(text))?;
        let case = Scripted {
            numbers: numbers.as_slice(),
            over: over.trim(),
            cuts: cuts.as_slice(),
            fails: fails.as_slice(),
            text: text.as_slice(),
        };
        match keyword {
            "put" | "read" | "absent" | "write" | "batch" => streams::tell(answer, keyword, case),
            "tns" | "put_tns" | "mtx" => files::tell(answer, keyword, case),
            "copy" | "copy_real" | "copy_counted" | "laws" => {
                copies::tell(self.rt, answer, keyword, case)
            }
            _ => tokens::tell(answer, keyword, case),
        }
    }
}

impl<R: Files + Print + AllocGlobal> Cases for Session<'_, R> {
    fn read_line(&mut self, line: &str, answer: &mut Answer) -> Option<()> {
        let (keyword, rest) = keyword_of(line);
        match keyword {
            "text" => self.read_text(answer, rest),
            "ranges" | "edges" | "lattice" | "form" => self.tell_kept(answer, keyword, rest),
            "names" => tell_named(answer, rest),
            "groups" => tell_groups(answer, rest),
            "expanded" => tell_expanded(answer, rest),
            "graph" => tell_graph(answer, rest),
            "format" | "dense" => tell_format(answer, keyword, rest),
            "numbers" => tell_numbered(answer, rest),
            "words:" => tell_words(answer, rest),
            "entries:" | "drain:" => tell_entries_or_drains(answer, keyword, rest),
            "value:" | "present:" => tell_statement_values(answer, keyword, rest),
            "segment" => tell_segments(answer, rest),
            "twin:" => tell_twin(answer, rest),
            "items:" => tell_items(answer, rest),
            "box:" => tell_box(answer, rest),
            "tree:" => tell_tree(answer, rest),
            "blocks:" => tell_blocks(answer, rest),
            "refusals:" => tell_refusals(answer, rest),
            _ => self.read_scripted(answer, keyword, rest),
        }
    }
}
