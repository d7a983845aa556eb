//! Whether two trees of cells are the same, with the places of their names and numbers.
//!
//! A text has one tree, and a program that has kept a tree can tell by it whether that is the tree of a text: it reads the text again and compares. To the
//! layer above this crate promises that trees which it calls the same have one view (`cell_view` of `janus_syntax`), in which each name, each number and each
//! place of the text stands. Of trees that it calls different it promises nothing.
//!
//! The modules, in the order in which a reader needs them: `word` (operators, places and names), `exp` (expressions), `statement` (statements and blocks),
//! `cell` (declarations, procedures and cells).
#![tactic(auto)]

mod cell;
mod exp;
mod statement;
mod word;

pub use crate::cell::is_same_cell;
