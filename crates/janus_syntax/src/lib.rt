//! The syntax of Janus cells: from a text to its tree, or to the place where it is refused.
//!
//! Janus is the reversible language of Yokoyama and Glück (A reversible programming language and its invertible
//! self-interpreter, 2007) and of Yokoyama, Axelsen and Glück (Principles of a reversible programming language, 2008).
//! A cell of a notebook is its unit of text: declarations and then statements.
//!
//! What the layer above may rely on:
//! - `tokens`: the tokens are those of the text, the longest item that fits at each place, and there are no others; else the
//!   first character that begins no token, or the first number past 2147483647, whichever stands first.
//! - `parse_cell`, `parse_exp`: the answer is the one tree that the grammar gives the text; else the refusal that the grammar
//!   has for it, with its place in octets.
//! - `one_tokens_law`, `one_tree_law`, `one_refusal_law`: a text has one list of tokens at most, one tree at most and one
//!   refusal at most. `tree_or_refusal_law`: it has a tree or a refusal, and not both. So no answer is left to choice.
//! - `wanted_law`: behind the beginning of a text one item is wanted at most, and one is just behind what begins a text.
//! - `print_cell`, `print_procedure`, `print_exp`: the text is the one that `Printing` gives the tree, and the only fault is want of memory. That it is
//!   read as the same tree is proved in `janus_printing`.
//! - `Exp::copy`, `Name::copy`: the same tree at the same places.
//! - Tokens, trees and faults, and what their public fields have, are named at the root.
//!
//! The code, in reading order:
//!
//! - `token`, `text_token`, `lexer`: tokens, those of the parser, and how they are found in a text.
//! - `tree`, `operator`: what is read, and the levels of operators.
//! - `fault`, `problem`: why a text is refused, and why the reading of its tokens stops.
//! - `pair`: a part that is kept only if the next is read.
//! - `item`: single tokens. `expression`, `call`, `statement`, `procedure`, `cell`: how each is read. `parser`: whole texts.
//! - `printer`: from a tree to its text. `laws`: the laws, each as the contract of a function that does nothing.
//!
//! The definitions, in specs/, in reading order:
//!
//! - `Spelling`, `Lexical`: tokens of a text. `Tokens`, `Tree`, `Operators`: tokens, trees and operators as contracts see them.
//! - `Forms`, `Table`: of what the forms of the grammar are made, and the grammar, a line for each form.
//! - `Grammar`: which tokens spell which tree, what is wanted behind a beginning, where tokens are refused.
//! - `Text`, `Laws`: tokens and text together, and the laws of both. `Fault`: what is shown of a refusal.
//! - `Printing`: the text of a tree. `View`: the trees as trees of the meaning.
//! - `TextTokens`, `Scan`, `Reader`, `Reading`, `Statements`, `Procedures`, `Printed` serve the proofs: no contract of a public function names them.
//!
//! A cell here has declarations of numbers, arrays and stacks, then assignments, swaps, `push`, `pop`, `if`, loops, locals, `call`,
//! `uncall` and `skip`, and then procedures; or it is a program of procedures, one of which is `main`.
//!
//! A refusal stands at a bad token or a number too large before all else; then at the first token with which no text goes on, or at the end
//! of a text that only begins one; at the token that opens a 65th construct; at the 257th operator of an expression; or at a kind or a name
//! behind `delocal` that isn't that of its `local`.
#![tactic(auto)]

mod call;
mod cell;
mod expression;
pub mod fault;
mod item;
pub mod laws;
mod lexer;
pub mod operator;
mod pair;
mod parser;
mod printer;
mod problem;
mod procedure;
mod statement;
mod text_token;
pub mod token;
pub mod tree;

pub use fault::{SyntaxFault, What};
pub use laws::{one_refusal_law, one_tokens_law, one_tree_law, tree_or_refusal_law, wanted_law};
pub use lexer::tokens;
pub use parser::{parse_cell, parse_exp};
pub use printer::{print_cell, print_exp, print_procedure};
pub use token::{Keyword, Sign, Span, Token, TokenKind};
pub use tree::{Cell, Declaration, Exp, Name, Operator, Parameter, Procedure, Stm, Update};
