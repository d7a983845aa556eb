//! What holds of the texts of procedures. The function does nothing: its contract is the law.
ghost use Rattle.kernel_text.specs.Laws.{HasOnePrint, TextIsPrint};

/// The text of a procedure is the print of each tree that is this procedure, places aside, with the local's name behind each `delocal`;
/// so two trees that are one procedure, places and those names aside, have one such print.
pub fn one_print_law()
    ensures text { TextIsPrint }
    ensures one { HasOnePrint }
{}
