//! Flat code: the statements of a cell, named by number, and their expressions.

ghost use Rattle.janus_code.specs.Flat.{IsDownward, IsDownward-prop};

use janus_check::Kind;
use janus_syntax::tree::{Operator, Update};

/// A name, by its number: that of a variable is its slot, that of a procedure its number in a table of procedures' names.
#[derive(Clone, Copy, Drop)]
pub struct Symbol {
    pub number: usize,
}

/// An expression. The right sides of `And` and `Or` are read only where they are needed.
#[derive(Drop)]
pub enum FlatExp {
    Number(u32),
    Variable(Symbol),
    Element(Symbol, Box<FlatExp>),
    /// Whether a stack has no value.
    Empty(Symbol),
    /// The newest value of a stack.
    Top(Symbol),
    Negative(Box<FlatExp>),
    Binary(Operator, Box<FlatExp>, Box<FlatExp>),
    And(Box<FlatExp>, Box<FlatExp>),
    Or(Box<FlatExp>, Box<FlatExp>),
}

/// A block: the statements whose numbers stand in `Code::members` from `start` up to, and without, `end`.
#[derive(Clone, Copy, Drop)]
pub struct Block {
    pub start: usize,
    pub end: usize,
}

/// A statement. Its blocks are named, not held.
#[derive(Drop)]
pub enum Statement {
    Skip,
    /// A variable, and what it is changed by.
    Assign(Symbol, Update, FlatExp),
    /// An array, the index of the element, and what that is changed by.
    AssignElement(Symbol, FlatExp, Update, FlatExp),
    /// A variable, whose number goes onto the stack.
    Push(Symbol, Symbol),
    /// A variable, which takes the newest value of the stack.
    Pop(Symbol, Symbol),
    /// Two variables, whose numbers are exchanged.
    Swap(Symbol, Symbol),
    /// The first test, the parts after `then` and `else`, and the test after `fi`.
    If(FlatExp, Block, Block, FlatExp),
    /// The test after `from`, the parts after `do` and `loop`, and the test after `until`.
    Loop(FlatExp, Block, Block, FlatExp),
    /// A local number: what it begins with, the block in which it stands, and what it ends with.
    LocalInt(Symbol, FlatExp, Block, FlatExp),
    /// A local stack, empty at both ends, and the block in which it stands.
    LocalStack(Symbol, Block),
    /// A call: the procedure's name, and the arguments.
    Call(Symbol, Vec<Symbol>),
    /// A call of the inverse: the procedure's name, and the arguments.
    Uncall(Symbol, Vec<Symbol>),
}

/// Flat code. A statement stands behind those of its blocks.
#[derive(Drop)]
pub struct Code {
    /// All statements, each at its number.
    pub statements: Vec<Statement>,
    /// The numbers of the statements of each block, block by block.
    pub members: Vec<usize>,
    /// The outermost block.
    pub body: Block,
    ghost downward: { IsDownward members.items statements.items body } by { IsDownward-prop members.items statements.items body },
}

/// A parameter of a procedure, and what it stands for.
#[derive(Drop)]
pub struct FlatParameter {
    pub name: Symbol,
    pub kind: Kind,
}

/// A procedure: its name, its parameters, and the code of its body.
#[derive(Drop)]
pub struct FlatProcedure {
    pub name: Symbol,
    pub parameters: Vec<FlatParameter>,
    pub body: Code,
}

/// Flat code with slots, and how many slots are enough for all of its numbers.
#[derive(Drop)]
pub struct SlottedCode {
    pub code: Code,
    pub width: usize,
}

/// A procedure whose code has slots, and how many slots are enough for all of its numbers.
#[derive(Drop)]
pub struct SlottedProcedure {
    pub procedure: FlatProcedure,
    pub width: usize,
}
