//! Trees of cells.
//!
//! Names and numbers keep the octets of the text where they stand, since a later check refuses a cell at a place.

ghost use Rattle.std.specs.Prelude.{◌≡◌, IfOk};
ghost use Rattle.janus_syntax.specs.View.{name_of};
ghost use Rattle.janus_syntax.specs.Tree.{exp_view};

use crate::token::Span;
use std::alloc::{AllocError, Global};

/// A name, at one of the places where it stands in the text.
#[derive(Drop)]
pub struct Name {
    pub text: String,
    pub span: Span,
}

impl Name {
    /// The same name, at the same place, in memory of its own; an error for want of memory.
    pub fn copy(&self) -> Result<Name, AllocError>
        ensures name { IfOk result (λ copy. name_of copy ≡ name_of self.now) }
        ensures place { IfOk result (λ copy. copy.span ≡ self.now.span) }
    {
        Ok(Name {
            text: self.text.clone()?,
            span: self.span,
        })
    }
}

/// An operator of an expression that reads both its sides.
#[derive(Clone, Copy, Debug)]
pub enum Operator {
    Add,
    Subtract,
    Multiply,
    Divide,
    Remainder,
    BitAnd,
    BitOr,
    Xor,
    Less,
    Greater,
    AtMost,
    AtLeast,
    Equal,
    Differ,
}

/// An expression. A number is at most 2147483647. The right sides of `And` and `Or` are read only where they are needed.
#[derive(Drop)]
pub enum Exp {
    Number(u32, Span),
    Variable(Name),
    Element(Name, Box<Exp>),
    /// Whether a stack has no value.
    Empty(Name),
    /// The newest value of a stack.
    Top(Name),
    Negative(Box<Exp>),
    Binary(Operator, Box<Exp>, Box<Exp>),
    And(Box<Exp>, Box<Exp>),
    Or(Box<Exp>, Box<Exp>),
}

impl Exp {
    /// The same expression, at the same places, in memory of its own; an error for want of memory.
    #[cycle(copy)]
    pub fn copy(&self, alloc: Global) -> Result<Exp, AllocError>
        ensures { IfOk result (λ copy. exp_view copy ≡ exp_view self.now) }
    {
        match self {
            Exp::Number(number, span) => Ok(Exp::Number(*number, *span)),
            Exp::Variable(name) => Ok(Exp::Variable(name.copy()?)),
            Exp::Element(name, index) => {
                let index = index.boxed_copy(alloc)?;
                Ok(Exp::Element(name.copy()?, index))
            }
            Exp::Empty(name) => Ok(Exp::Empty(name.copy()?)),
            Exp::Top(name) => Ok(Exp::Top(name.copy()?)),
            Exp::Negative(operand) => Ok(Exp::Negative(operand.boxed_copy(alloc)?)),
            Exp::Binary(operator, left, right) => {
                let left = left.boxed_copy(alloc)?;
                Ok(Exp::Binary(*operator, left, right.boxed_copy(alloc)?))
            }
            Exp::And(left, right) => {
                let left = left.boxed_copy(alloc)?;
                Ok(Exp::And(left, right.boxed_copy(alloc)?))
            }
            Exp::Or(left, right) => {
                let left = left.boxed_copy(alloc)?;
                Ok(Exp::Or(left, right.boxed_copy(alloc)?))
            }
        }
    }

    /// The same in a box of its own; an error for want of memory.
    #[cycle(copy)]
    pub fn boxed_copy(&self, alloc: Global) -> Result<Box<Exp>, AllocError>
        ensures { IfOk result (λ copy. exp_view copy.value ≡ exp_view self.now) }
    {
        let copy = self.copy(alloc)?;
        Ok(Box::new(alloc, copy)?)
    }
}

/// The operator of an assignment: `+=`, `-=` or `^=`.
#[derive(Clone, Copy, Debug)]
pub enum Update {
    Add,
    Subtract,
    Xor,
}

/// What a local is: a number or a stack.
#[derive(Clone, Copy)]
pub enum LocalKind {
    Int,
    Stack,
}

/// A statement. A part of an `if` or a loop that is left out in the text is the block with one `Skip`.
#[derive(Drop)]
pub enum Stm {
    Skip,
    /// A variable, and what it is changed by.
    Assign(Name, Update, Box<Exp>),
    /// An array, the index of the element, and what that is changed by.
    AssignElement(Name, Box<Exp>, Update, Box<Exp>),
    /// A variable, whose number goes onto the stack.
    Push(Name, Name),
    /// A variable, which takes the newest value of the stack.
    Pop(Name, Name),
    /// Two variables, whose numbers are exchanged.
    Swap(Name, Name),
    /// The first test, the parts after `then` and `else`, and the test after `fi`.
    If(Box<Exp>, Vec<Stm>, Vec<Stm>, Box<Exp>),
    /// The test after `from`, the parts after `do` and `loop`, and the test after `until`.
    Loop(Box<Exp>, Vec<Stm>, Vec<Stm>, Box<Exp>),
    /// A local number: its name, what it begins with, the statements in which it stands, the same name behind `delocal`, and
    /// what it ends with.
    LocalInt(Name, Box<Exp>, Vec<Stm>, Name, Box<Exp>),
    /// A local stack, empty at both ends: its name, the statements in which it stands, and the same name behind `delocal`.
    LocalStack(Name, Vec<Stm>, Name),
    /// A call: the procedure's name, and the arguments.
    Call(Name, Vec<Name>),
    /// A call of the inverse: the procedure's name, and the arguments.
    Uncall(Name, Vec<Name>),
}

/// What a cell declares.
#[derive(Drop)]
pub enum Declaration {
    Int(Name),
    /// An array, how long it is, and where that number stands.
    Array(Name, u32, Span),
    Stack(Name),
}

/// A parameter of a procedure: its name, and what it stands for.
#[derive(Drop)]
pub enum Parameter {
    Int(Name),
    Array(Name),
    Stack(Name),
}

/// A procedure: its name, its parameters, and the statements of its body.
#[derive(Drop)]
pub struct Procedure {
    pub name: Name,
    pub parameters: Vec<Parameter>,
    pub body: Vec<Stm>,
}

/// A cell: its declarations, its statements and its procedures. Of a program with `main` they are those of `main`, and the
/// other procedures.
#[derive(Drop)]
pub struct Cell {
    pub declarations: Vec<Declaration>,
    pub statements: Vec<Stm>,
    pub procedures: Vec<Procedure>,
}
