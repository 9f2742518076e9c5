//! The lines of case files, one after another.
use crate::case::Case;
use crate::given::Tally;
use crate::report::tell_case;
use case_files::{Answer, Cases};
use std::alloc::Global;

/// The case that is being read, the lines that stand at the head of each case of the file, and what was counted of its reports.
#[derive(Drop)]
pub(crate) struct Session {
    head: String,
    case: Option<Case>,
    tally: Tally,
}

impl Session {
    pub(crate) fn new(alloc: Global) -> Session {
        Session {
            head: String::new(alloc),
            case: None,
            tally: Tally::new(),
        }
    }

    /// Runs the case that was read, if there is one.
    fn end_case(&mut self, answer: &mut Answer) -> Option<()> {
        match self.case.take() {
            Some(mut case) => tell_case(answer, &mut case, &mut self.tally),
            None => Some(()),
        }
    }

    /// Begins a case, and tells its name.
    fn begin_case(&mut self, answer: &mut Answer, line: &str) -> Option<()> {
        answer.tell(line);
        answer.tell("\n");
        let mut case = Case::new(answer.alloc());
        for line in self.head.as_str().lines() {
            case.add_line(answer, line)?;
        }
        self.case = Some(case);
        Some(())
    }
}

impl Cases for Session {
    fn shows(&self, _line: &str) -> bool {
        false
    }

    fn read_line(&mut self, line: &str, answer: &mut Answer) -> Option<()> {
        if line.starts_with("case ") {
            self.end_case(answer)?;
            return self.begin_case(answer, line);
        }
        match &mut self.case {
            Some(case) => case.add_line(answer, line),
            None => {
                answer.note(self.head.push_str(line));
                answer.note(self.head.push_str("\n"));
                Some(())
            }
        }
    }

    fn end_file(&mut self, answer: &mut Answer) -> Option<()> {
        self.head.clear();
        self.end_case(answer)?;
        self.tally.tell(answer);
        self.tally = Tally::new();
        Some(())
    }
}
