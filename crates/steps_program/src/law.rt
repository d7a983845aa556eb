//! Laws of the definitions, which a program need not call.
ghost use Rattle.steps_program.specs.Numbered.{LastCellIsLast, TextsStandInFile};

/// Law: the lines of each text that is walked through, and of those before it, are lines of the file, from the first line of the text on. So the number that is
/// told with a place is that of its line in the file.
pub fn texts_stand_in_file_law()
    ensures { TextsStandInFile }
{}

/// Law: where no number of a cell is given, the cell that is walked through is the last of the file.
pub fn last_cell_is_last_law()
    ensures { LastCellIsLast }
{}
