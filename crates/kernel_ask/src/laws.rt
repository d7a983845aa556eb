//! What holds of the answers. The functions do nothing: their contracts are the laws.
ghost use Rattle.kernel_ask.specs.History.{CountedEndsAreInputs, InputsAreBegunCells};
ghost use Rattle.kernel_ask.specs.Shown.{ShownIsOfText};

/// Each cell that raised the counter and has ended is an input of the history: under the counter that its end carries, with the text of
/// its post. The inputs are the cells that have begun and raised the counter, and no others: each under the counter that it got with its
/// begin.
pub fn counted_ends_are_inputs_law()
    ensures ended { CountedEndsAreInputs }
    ensures begun { InputsAreBegunCells }
{}

/// What is shown of a cell that ran, by the tree that its node keeps, is what is shown of the text from which it came.
pub fn shown_is_of_text_law()
    ensures { ShownIsOfText }
{}
