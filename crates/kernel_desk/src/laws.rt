//! What the relation of a desk before a hall says of several calls.
ghost use Rattle.kernel_desk.specs.Shutdowns.{ShutdownIsFinal};

/// Law: behind a shutdown at a desk each job of it is refused as closing, whatever is called between.
pub fn shutdown_is_final_law()
    ensures { ShutdownIsFinal }
{}
