// Whole kernels.
ghost use Rattle.std.specs.Prelude.{◌+◌, ◌<◌, ◌^◌, length};
ghost use Rattle.kernel_read.specs.Answers.{IsAnswer, IsAnswerFrom};

use crate::comments::behind_comments;
use crate::fault::KernelFault;
use crate::marks::rest_at;
use crate::progress::Progress;
use crate::steps::{Step, step_in};
use kernel_code::Kernel;
use std::alloc::Global;

/// The kernel whose text stands behind so many lines of comments.
fn kernel_behind(alloc: Global, text: &[u8], skipped: u64) -> Result<Kernel, KernelFault>
    requires { skipped + length text.now < 2 ^ 64 }
    ensures { IsAnswerFrom skipped text.now result }
{
    let mut progress = Progress::Start;
    let mut depth = 0;
    let mut at = 0;
    let mut lines = 0;
    while at < text.len() {
        match step_in(alloc, progress, depth, rest_at(text, at))? {
            Step::Line(next, inside, count) => {
                progress = next;
                depth = inside;
                at += count;
                lines += 1;
            }
            Step::Deep => {
                return Err(KernelFault::KernelDepth {
                    line: (skipped + lines).saturating_add(1),
                });
            }
            Step::Bad => {
                return Err(KernelFault::BadKernel {
                    line: (skipped + lines).saturating_add(1),
                });
            }
        }
    }
    match progress {
        Progress::Done(kernel) => Ok(kernel),
        _ => Err(KernelFault::BadKernel {
            line: (skipped + lines).saturating_add(1),
        }),
    }
}

/// The kernel whose text this is, behind comments: lines in front that begin with `//`. A fault is told at the first line that has
/// one.
pub fn read_kernel(alloc: Global, bytes: &[u8]) -> Result<Kernel, KernelFault>
    ensures { IsAnswer bytes.now result }
{
    let (at, skipped) = behind_comments(bytes);
    kernel_behind(alloc, rest_at(bytes, at), skipped)
}
