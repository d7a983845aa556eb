//! What a kernel reads of what a console says, by `jupyter_msg`. The functions do nothing: their contracts are the laws.
ghost use Rattle.console_talk.specs.Laws.{CompletionsAreRead, MovesAreRead, NothingIsRefused, OpensAreRead, RunsAreRead};

/// A request to run a text is read as that.
pub fn runs_are_read_law()
    ensures { RunsAreRead }
{}

/// A request to complete a text is read as that, with the cursor at its end.
pub fn completions_are_read_law()
    ensures { CompletionsAreRead }
{}

/// An opening of a comm is read as one for `janus.undo`.
pub fn opens_are_read_law()
    ensures { OpensAreRead }
{}

/// A move, and the question where the kernel stands, are read as that.
pub fn moves_are_read_law()
    ensures { MovesAreRead }
{}

/// A kernel refuses no field of what a console says: not of its header, and not of its content.
pub fn nothing_is_refused_law()
    ensures { NothingIsRefused }
{}
