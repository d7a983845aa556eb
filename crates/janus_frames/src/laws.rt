//! Laws about the definitions of `specs/`. The functions do nothing: their contracts are the laws.

ghost use Rattle.janus_frames.specs.Laws.{WritesAlone};

/// Behind a write a name has the value that was written, and each other name the one that it had.
pub fn writes_alone_law()
    ensures { WritesAlone }
{}
