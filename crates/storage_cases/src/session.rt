//! The lines of case files, one after another.
use crate::checked::tell_checked;
use crate::kinds::{tell_kind, tell_positions_of};
use crate::levels::tell_tensor_levels;
use crate::postfix::Postfix;
use crate::reading::Text;
use crate::run::tell_run;
use crate::tensors::Parts;
use crate::values::tell_values;
use case_files::{Answer, Cases, keyword_of};
use kernel_code::{Kernel, KernelSemiring};
use kernel_print::put_kernel;
use numbers::{Ring, Semiring};
use outside::MemSink;
use semirings::{Bits, MinPlus};
use simplifier::simplify;
use std::alloc::Global;

/// The tensor of the runs, the kernel that the lines so far make, and the text that they make.
#[derive(Drop)]
pub(crate) struct Session {
    tensor: String,
    kernel: Postfix,
    text: Text,
}

/// Whether a kernel names a semiring.
fn is_over<S: Semiring>(kernel: &Kernel) -> bool {
    match &kernel.semiring {
        KernelSemiring::Ring => S::is_ring(),
        KernelSemiring::Named(name) => name.as_slice() == S::name().as_bytes(),
    }
}

/// The text of a kernel below a line of its own.
fn tell_kernel(answer: &mut Answer, line: &str, kernel: &Kernel) -> Option<()> {
    let mut sink = MemSink::new(answer.alloc());
    answer.note(put_kernel(&mut sink, kernel));
    answer.tell(line);
    answer.tell("\n");
    answer.tell(str::from_utf8(sink.written()).ok()?);
    answer.tell("\n");
    Some(())
}

impl Session {
    pub(crate) fn new(alloc: Global) -> Session {
        Session {
            tensor: String::new(alloc),
            kernel: Postfix::new(alloc),
            text: Text::new(alloc),
        }
    }

    /// What comes of the kernel, over the semiring that it names.
    fn tell_outcome(&mut self, answer: &mut Answer, keyword: &str, name: &str) -> Option<()> {
        let kernel = self.kernel.take_kernel();
        if is_over::<MinPlus>(&kernel) {
            return self.tell_over::<MinPlus>(answer, keyword, name, kernel);
        }
        if is_over::<Bits>(&kernel) {
            return self.tell_over::<Bits>(answer, keyword, name, kernel);
        }
        self.tell_over::<Ring>(answer, keyword, name, kernel)
    }

    /// What comes of a kernel over a semiring.
    fn tell_over<S: Semiring>(
        &self,
        answer: &mut Answer,
        keyword: &str,
        name: &str,
        kernel: Kernel,
    ) -> Option<()> {
        match keyword {
            "print" => tell_kernel(answer, keyword, &kernel),
            "simplify" => {
                let simple = simplify::<S>(answer.alloc(), kernel);
                let simple = answer.made(simple)?;
                tell_kernel(answer, keyword, &simple)
            }
            "checked" => tell_checked::<S>(answer, self.tensor.as_str(), name, &kernel),
            _ => {
                answer.tell(name);
                answer.tell(": ");
                tell_run::<S>(answer, self.tensor.as_str(), kernel.body.as_slice())
            }
        }
    }

    /// The kernel is over the semiring of this name.
    fn set_semiring(&mut self, name: &str) -> Option<()> {
        match name {
            "minplus" => self.kernel.set_semiring::<MinPlus>(),
            "bits" => self.kernel.set_semiring::<Bits>(),
            _ => None,
        }
    }

    /// Keeps the line of the tensor of the runs from here on.
    fn set_tensor(&mut self, answer: &mut Answer, line: &str) -> Option<()> {
        let tensor = String::from_str(answer.alloc(), line);
        self.tensor = answer.made(tensor)?;
        Some(())
    }
}

impl Cases for Session {
    /// Lines of kernels aren't shown.
    fn shows(&self, line: &str) -> bool {
        !matches!(
            keyword_of(line).0,
            "tensor"
                | "over"
                | "workspace"
                | "list"
                | "do"
                | "print"
                | "simplify"
                | "run"
                | "line"
                | "piece"
                | "copies"
                | "read"
                | "read_line"
        )
    }

    fn read_line(&mut self, line: &str, answer: &mut Answer) -> Option<()> {
        let (keyword, rest) = keyword_of(line);
        match keyword {
            "kind:" => tell_kind(answer, rest),
            "positions:" => tell_positions_of(answer, rest),
            "levels:" => tell_tensor_levels(answer, Parts::of(rest)?),
            "tensor" => self.set_tensor(answer, rest),
            "over" => self.set_semiring(rest),
            "workspace" => self.kernel.add_workspace(rest),
            "list" => {
                self.kernel.add_list();
                Some(())
            }
            "do" => self.kernel.read_words(rest),
            "print" | "simplify" | "run" | "checked" => self.tell_outcome(answer, keyword, rest),
            "line" => self.text.add_line(answer, rest),
            "piece" => self.text.add(answer, rest),
            "copies" => self.text.add_copies(answer, rest),
            "read" => self.text.tell(answer, rest),
            "read_line" => self.text.tell_line(answer, rest),
            _ => tell_values(answer, Parts::of(line)?),
        }
    }
}
