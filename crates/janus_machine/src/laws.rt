//! Laws about the definitions of `specs/`. The functions do nothing: their contracts are the laws.

ghost use Rattle.janus_machine.specs.Law.{RunsMean, BlocksAreSafe, BacksMean, BooksTurn, DefinedAreInEffect, SeenIsGivenBack};

/// Steps from the beginning of a block are its Part, where they end its Exec, and at a fault its Stop.
pub fn runs_mean_law()
    ensures { RunsMean }
{}

/// A well-formed block is never broken, and a block that has ended once is not either.
pub fn blocks_are_safe_law()
    ensures { BlocksAreSafe }
{}

/// A mirrored cursor goes back through each Part to the beginning, without a fault, in as many steps.
pub fn backs_mean_law()
    ensures { BacksMean }
{}

/// The inverse code of a book stands for the inverse block.
pub fn books_turn_law()
    ensures { BooksTurn }
{}

/// Bodies that were put into effect one after another are those that calls of their names run.
pub fn defined_are_in_effect_law()
    ensures { DefinedAreInEffect }
{}

/// What is seen at a cursor is the store, where each open call has given back what it was lent.
pub fn seen_is_given_back_law()
    ensures { SeenIsGivenBack }
{}
