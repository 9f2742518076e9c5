// What was read of a kernel so far, line by line.
ghost use Rattle.std.specs.Prelude.{◌≡◌, ◌↔◌, [], ◌∷◌, ◌++◌, IsTrue, IfOk};
ghost use Rattle.kernel_read.specs.Lines.{IsLine};

use crate::blocks::{Block, Opening};
use crate::closings::{closing, second};
use crate::heads::{is_list_line, keys_of_line};
use crate::lines::Line;
use crate::progress::Progress;
use kernel_code::{KStmt, Kernel, KernelSemiring};
use std::alloc::{AllocError, Global};
use trees::Items;

/// How many keys a workspace may have.
const MOST_KEYS: u64 = 6;

/// What was read of a kernel so far: its semiring, its workspaces, the number of its scratch lists, the blocks that are open, and the
/// statements so far of the innermost one.
#[derive(Debug, Drop)]
pub struct Draft {
    pub semiring: KernelSemiring,
    pub workspaces: Items<u64>,
    pub lists: u64,
    pub outer: Items<Block>,
    pub code: Items<KStmt>,
}

impl Draft {
    ghost use Rattle.kernel_read.specs.Drafts.{BeginsSecond, DraftFits, EndsBlock, Follows, IsBodyStep, IsFront, IsStep};
    ghost use Rattle.kernel_read.specs.Drafts.{KeysIn, ListsIn, new_draft};
    ghost use Rattle.kernel_read.specs.Drafts.{has_sums, opened, with_body};
    ghost use Rattle.kernel_read.specs.declared.progress.Progress.TheVariants.{Inside as inside};

    /// What was read with the first line.
    pub(crate) fn new(alloc: Global, semiring: KernelSemiring) -> Draft
        ensures { result ≡ new_draft semiring }
    {
        Draft {
            semiring,
            workspaces: Items::new(alloc),
            lists: 0,
            outer: Items::new(alloc),
            code: Items::new(alloc),
        }
    }

    /// Whether a workspace or a scratch list may still come.
    fn is_front(&self) -> bool
        ensures { IsTrue result ↔ IsFront self.now }
    {
        self.outer.is_empty() && self.code.is_empty()
    }

    /// Whether sums and products of values stand beside those of words.
    fn has_sums(&self) -> bool
        ensures { result ≡ has_sums self.now.semiring }
    {
        match &self.semiring {
            KernelSemiring::Ring => false,
            KernelSemiring::Named(_) => true,
        }
    }

    /// The number of keys of the next workspace, where this is its line.
    fn keys_in(&self, line: &[u8]) -> Option<u64>
        ensures { KeysIn self.now line.now result }
    {
        let number = self.workspaces.len() as u64;
        if self.lists != 0 || number == u64::MAX {
            return None;
        }
        let keys = keys_of_line(line, number)?;
        if keys <= MOST_KEYS { Some(keys) } else { None }
    }

    /// The number of scratch lists with the next one, where this is its line.
    fn lists_in(&self, line: &[u8]) -> Option<u64>
        ensures { ListsIn self.now line.now result }
    {
        if self.lists == u64::MAX {
            return None;
        }
        if is_list_line(line, self.lists) {
            Some(self.lists + 1)
        } else {
            None
        }
    }

    /// The draft with a statement more.
    fn with_statement(self, statement: KStmt) -> Result<Draft, AllocError>
        ensures { IfOk result (λ d. d ≡ with_body self self.outer (self.code ++ (statement ∷ []))) }
    {
        let mut draft = self;
        draft.code.push(statement)?;
        Ok(draft)
    }

    /// The draft with a block more that is open.
    fn with_block(self, alloc: Global, opening: Opening) -> Result<Draft, AllocError>
        ensures { IfOk result (λ d. d ≡ opened self opening) }
    {
        let Draft {
            semiring,
            workspaces,
            lists,
            mut outer,
            code,
        } = self;
        outer.push(Block {
            before: code,
            opening,
        })?;
        Ok(Draft {
            semiring,
            workspaces,
            lists,
            outer,
            code: Items::new(alloc),
        })
    }

    /// The draft in the second body of the `if` whose first one is the innermost block.
    fn in_second(self, alloc: Global) -> Result<Option<Progress>, AllocError>
        ensures { IfOk result (BeginsSecond self) }
    {
        let Draft {
            semiring,
            workspaces,
            lists,
            mut outer,
            code,
        } = self;
        let Some(block) = outer.pop() else {
            return Ok(None);
        };
        let Block { before, opening } = block;
        match second(opening, code) {
            Some(opening) => {
                outer.push(Block { before, opening })?;
                Ok(Some(Progress::Inside(Draft {
                    semiring,
                    workspaces,
                    lists,
                    outer,
                    code: Items::new(alloc),
                })))
            }
            None => Ok(None),
        }
    }

    /// The draft behind the innermost block, or the kernel where no block is open.
    fn behind_block(self) -> Result<Option<Progress>, AllocError>
        ensures { IfOk result (EndsBlock self) }
    {
        let Draft {
            semiring,
            workspaces,
            lists,
            mut outer,
            code,
        } = self;
        let Some(block) = outer.pop() else {
            return Ok(Some(Progress::Done(Kernel {
                semiring,
                workspaces,
                lists,
                body: code,
            })));
        };
        let Block { before, opening } = block;
        match closing(opening, code) {
            Some(statement) => {
                let mut code = before;
                code.push(statement)?;
                Ok(Some(Progress::Inside(Draft {
                    semiring,
                    workspaces,
                    lists,
                    outer,
                    code,
                })))
            }
            None => Ok(None),
        }
    }

    /// What the draft becomes with a line of the innermost block. Refused only for want of memory.
    fn with_read(self, alloc: Global, line: Line) -> Result<Option<Progress>, AllocError>
        ensures { IfOk result (IsStep self line) }
    {
        match line {
            Line::Whole(statement) => {
                let draft = self.with_statement(statement)?;
                Ok(Some(Progress::Inside(draft)))
            }
            Line::If(test) => {
                let draft = self.with_block(alloc, Opening::Then(test))?;
                Ok(Some(Progress::Inside(draft)))
            }
            Line::While(kind, test) => {
                let draft = self.with_block(alloc, Opening::Loop(kind, test))?;
                Ok(Some(Progress::Inside(draft)))
            }
            Line::Else => self.in_second(alloc),
            Line::Close => self.behind_block(),
        }
    }

    /// What the draft becomes with a line of its body. Refused only for want of memory.
    fn with_body_line(self, alloc: Global, line: &[u8]) -> Result<Option<Progress>, AllocError>
        requires line { IsLine line.now }
        ensures { IfOk result (IsBodyStep self line.now) }
    {
        match Line::of(alloc, line, self.outer.len(), self.has_sums())? {
            Some(read) => self.with_read(alloc, read),
            None => Ok(None),
        }
    }

    /// What the draft becomes with a line. Refused only for want of memory.
    pub(crate) fn with_line(
        self,
        alloc: Global,
        line: &[u8],
    ) -> Result<Option<Progress>, AllocError>
        requires fits { DraftFits self }
        requires line { IsLine line.now }
        ensures { IfOk result (Follows (inside self) line.now) }
    {
        if self.is_front() {
            if let Some(keys) = self.keys_in(line) {
                let mut draft = self;
                draft.workspaces.push(keys)?;
                return Ok(Some(Progress::Inside(draft)));
            }
            if let Some(lists) = self.lists_in(line) {
                let mut draft = self;
                draft.lists = lists;
                return Ok(Some(Progress::Inside(draft)));
            }
        }
        self.with_body_line(alloc, line)
    }
}
