//! The grammar of Janus as readers know it, and that the parser's table says the same.
//!
//! `janus_syntax` states its grammar by a table of forms, from which come the parser, the next wanted item and the place
//! of each refusal. Here stand the rules of a grammar as books print them: expressions by levels, statements, declarations,
//! procedures, and cells, of which some are whole programs with `main` (Yokoyama and Glück, A reversible programming
//! language and its invertible self-interpreter, 2007; stacks and locals as in Yokoyama, Axelsen and Glück, Principles of a
//! reversible programming language, 2008). This crate adds no code. What it promises:
//! - `cells_are_derived_law`: tokens are a cell by the table, limits aside, exactly where they are one by the rules, and so
//!   is each cell within the limits.
//! - `expressions_are_derived_law`: the same of whole expressions.
//!
//! The rules are in specs/Derivation.
#![tactic(auto)]

ghost use Rattle.janus_grammar.specs.Laws.{CellsAreDerived, CellsWithinLimitsAreDerived, ExpressionsAreDerived, ExpressionsWithinLimitsAreDerived};

/// Law: the table and the rules have the same cells.
pub fn cells_are_derived_law()
    ensures same { CellsAreDerived }
    ensures within_limits { CellsWithinLimitsAreDerived }
{}

/// Law: the table and the rules have the same expressions.
pub fn expressions_are_derived_law()
    ensures same { ExpressionsAreDerived }
    ensures within_limits { ExpressionsWithinLimitsAreDerived }
{}
