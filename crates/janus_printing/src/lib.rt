//! The law of printing: what is printed of a cell is read again as the same cell.
//!
//! It stands above the parser and the printer, and adds no code. What it promises:
//! - `cell_reads_back_law`: the text that `print_cell` gives for the tree of a text has a tree, and that is the same tree,
//!   places aside; so it is within the limits on nesting and on operators, and the parser reads it.
//! - `procedure_reads_back_law`: what `print_procedure` gives for a procedure of a text's tree is read as a cell with that
//!   procedure alone.
//! - `exp_reads_back_law`: the same of `print_exp` and the tree of an expression.
//!
//! The statements are in specs/ReadBack.
#![tactic(auto)]

ghost use Rattle.janus_printing.specs.ReadBack.{CellReadsBack, ExpReadsBack, ProcedureReadsBack};

/// Law: what is printed of a text's tree is read as the same tree, places aside.
pub fn cell_reads_back_law()
    ensures { CellReadsBack }
{}

/// Law: what is printed of one procedure of a text's tree is read as a cell with that procedure alone, places aside.
pub fn procedure_reads_back_law()
    ensures { ProcedureReadsBack }
{}

/// Law: what is printed of an expression's tree is read as the same tree, places aside.
pub fn exp_reads_back_law()
    ensures { ExpReadsBack }
{}
