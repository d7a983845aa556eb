//! The law of what is noted beside the minutes: where notes have led a kernel, no other one with the same minutes stands.
//!
//! To who reads the contracts of the hall it says that a question is answered of the one kernel there is: each begin and each slice is noted with its answer,
//! so want of memory too has only one way to go on.
#![tactic(auto)]

ghost use Rattle.hall_laws.specs.OneKernel.{OneKernelStands};

/// Law: two kernels that the same notes have led to the same minutes are one.
pub fn one_kernel_stands_law()
    ensures { OneKernelStands }
{}
