//! What a console is asked to do.

/// What a console is asked to do, once.
#[derive(Drop)]
pub enum ConsoleCommand {
    /// To run this text as a cell.
    Run(String),
    /// To undo this number of cells.
    Undo(u32),
    /// To redo this number of cells.
    Redo(u32),
    /// To go to the node of this number.
    Goto(u32),
    /// To show where the kernel stands, with the declared names and their values.
    Show,
    /// To complete the name at the end of this text.
    Complete(String),
}
