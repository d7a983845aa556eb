//! Which part of a statement a place of the code is.

ghost use Rattle.std.specs.Prelude.{◌≡◌};
ghost use Rattle.janus_syntax.specs.Tree.{stm_view};
ghost use Rattle.janus_places.specs.Spots.{form_of};

use janus_syntax::tree::Stm;

/// Which form a statement has.
#[derive(Clone, Copy, PartialEq, Eq, Debug)]
pub enum Form {
    Skip,
    Assign,
    AssignElement,
    Push,
    Pop,
    Swap,
    If,
    Loop,
    LocalInt,
    LocalStack,
    Call,
    Uncall,
}

/// Which of a statement's blocks: the one behind `then`, `do` or the head of a local is the first, the one behind `else` or `loop` the second.
#[derive(Clone, Copy, PartialEq, Eq, Debug)]
pub enum Branch {
    First,
    Second,
}

/// What a place of the code is.
#[derive(Clone, Copy, PartialEq, Eq, Debug)]
pub enum Part {
    /// Before the whole block.
    Begin,
    /// Behind the whole block.
    End,
    /// Before a statement: its first test comes next, or its local is made, or it is done.
    Before(Form),
    /// Behind a statement.
    After(Form),
    /// Before one of its blocks.
    Enters(Form, Branch),
    /// Behind one of its blocks: its last test comes next, or its local is taken away.
    Leaves(Form, Branch),
}

/// Which form a statement has.
pub(crate) fn form_of(statement: &Stm) -> Form
    ensures { result ≡ form_of (stm_view statement.now) }
{
    match statement {
        Stm::Skip => Form::Skip,
        Stm::Assign(_, _, _) => Form::Assign,
        Stm::AssignElement(_, _, _, _) => Form::AssignElement,
        Stm::Push(_, _) => Form::Push,
        Stm::Pop(_, _) => Form::Pop,
        Stm::Swap(_, _) => Form::Swap,
        Stm::If(_, _, _, _) => Form::If,
        Stm::Loop(_, _, _, _) => Form::Loop,
        Stm::LocalInt(_, _, _, _, _) => Form::LocalInt,
        Stm::LocalStack(_, _, _) => Form::LocalStack,
        Stm::Call(_, _) => Form::Call,
        Stm::Uncall(_, _) => Form::Uncall,
    }
}
