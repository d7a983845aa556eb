//! User expressions, each of which is read from its text once.
ghost use Rattle.std.specs.Prelude.{◌≡◌, string_bytes};
ghost use Rattle.kernel_text.specs.DeclaredNames.{KnowsNamesOf};
ghost use Rattle.kernel_ask.specs.Evaluation.{IsEvaluated};
ghost use Rattle.kernel_ask.specs.Wishes.{wish_of};

use crate::done::NamedValue;
use crate::evaluation::evaluation_of;
use janus_syntax::tree::Exp;
use janus_syntax::{SyntaxFault, parse_exp};
use kernel_text::{DeclaredNames, View};
use std::alloc::Global;
use std::marker::Model;
use std::sync::ledger::Ledger;

/// A user expression: the name under which its value is told, and its text, which is read as the wish is made: so nothing is read as a
/// cell ends. Contracts see the name and the text; the type keeps that what was read is what the text is. The text is kept for that alone: no
/// tree tells it.
#[derive(Drop)]
pub struct Wish {
    name: String,
    text: String,
    exp: Result<Exp, SyntaxFault>,
}

impl Model for Wish {
    ghost use Rattle.std.specs.Prelude.{string_bytes};
    ghost use Rattle.janus_syntax.specs.Text.{IsParsedExp};
    ghost use Rattle.kernel_ask.specs.Wishes.{WishOf, wish_of};

    ghost Value = { WishOf };

    ghost view = { λ w. wish_of (string_bytes w.name) (string_bytes w.text) };

    ghost invariant = { λ w. IsParsedExp (string_bytes w.text) w.exp };
}

impl Wish {
    /// The expression is read from its text. A text that is refused, or that finds no memory, is told so in place of a value.
    pub fn new(alloc: Global, name: String, text: String) -> Wish
        ensures { result ≡ wish_of (string_bytes name) (string_bytes text) }
    {
        let exp = parse_exp(alloc, text.as_str());
        Wish { name, text, exp }
    }

    /// The value of the expression in a world, whose declared names these are, or why it has none, under the name.
    pub(crate) fn evaluate<L: Ledger>(
        self,
        alloc: Global,
        world: &View<'_, L>,
        names: &DeclaredNames<'_, L>,
    ) -> NamedValue
        requires names { KnowsNamesOf names.now world.now.store }
        ensures name { string_bytes result.name ≡ self.name }
        ensures value { IsEvaluated world.now.store self.exp result.value }
    {
        let Wish { name, exp, .. } = self;
        let value = evaluation_of(alloc, world, names, &exp);
        NamedValue { name, value }
    }
}
