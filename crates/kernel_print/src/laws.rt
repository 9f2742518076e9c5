//! The claim that a text is that of one kernel, as a call whose contract is the claim. It does nothing.
ghost use Rattle.kernel_print.specs.KernelTexts.{TextsTellKernels};

/// Claim: a kernel is told by its text.
#[tactic(auto, using(crate::proofs::KernelTexts::texts_tell_kernels))]
pub fn texts_tell_kernels()
    ensures { TextsTellKernels }
{}
