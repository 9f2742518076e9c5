// The claim that kernels are read back, as a call whose contract is the claim. It does nothing.
ghost use Rattle.kernel_read.specs.ReadBack.{KernelsAreReadBack};

/// Claim: the text of a kernel is read as that kernel, by `read_kernel`.
pub fn kernels_are_read_back()
    ensures { KernelsAreReadBack }
{}
