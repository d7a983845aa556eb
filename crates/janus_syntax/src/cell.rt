//! Declarations and cells.

ghost use Rattle.std.specs.Prelude.{◌≡◌, []};
ghost use Rattle.janus_syntax.specs.Tree.{Cell as Tree, Exp as ExpTree, name_view, exp_view, cell_view, declaration_view, declarations_view, block_view};
ghost use Rattle.janus_syntax.specs.Table.{is_bare};
ghost use Rattle.janus_syntax.specs.TextTokens.{views};
ghost use Rattle.janus_syntax.specs.Forms.{A_cell, Whole, Declarations};
ghost use Rattle.janus_syntax.specs.Grammar.{all, IsTree, IsRefused};
ghost use Rattle.janus_syntax.specs.Reading.{Reads, IsPart, FailsPart};
ghost use Rattle.janus_syntax.specs.Statements.{IsDeclarationOrOther, FailsDeclaration, IsBound, FailsBound, AreFirstParts, AtEnd, Refused};

use crate::expression::whole_expression;
use crate::fault::What;
use crate::item::{behind_sign, keyword_at, name, number, sign_at};
use crate::pair::{both, so_far};
use crate::problem::Problem;
use crate::procedure::procedures;
use crate::statement::statements;
use crate::text_token::Tokens;
use crate::token::{Keyword, Sign};
use crate::tree::{Cell, Declaration, Exp, Name, Stm};
use std::alloc::Global;

/// A declaration and the tokens behind it, if one begins here.
fn declaration(alloc: Global, tokens: Tokens) -> Result<Option<(Declaration, Tokens)>, Problem>
    ensures { Reads (IsDeclarationOrOther (views tokens.now)) (FailsDeclaration (views tokens.now)) result }
{
    if let Some(rest) = keyword_at(Keyword::Int, tokens) {
        let (name, rest) = name(alloc, rest)?;
        let (declaration, rest) = bound(name, rest)?;
        return Ok(Some((declaration, rest)));
    }
    let Some(rest) = keyword_at(Keyword::Stack, tokens) else {
        return Ok(None);
    };
    let (stack, rest) = name(alloc, rest)?;
    Ok(Some((Declaration::Stack(stack), rest)))
}

/// The declaration of `name`, behind that name: an array, if a length stands here.
fn bound(name: Name, tokens: Tokens) -> Result<(Declaration, Tokens), Problem>
    ensures { Reads (λ x. IsBound (name_view name) (declaration_view x.0) (views tokens.now) (views x.1.now))
        (FailsBound (name_view name) (views tokens.now)) result }
{
    let Some(rest) = sign_at(Sign::OpenIndex, tokens) else {
        return Ok((Declaration::Int(name), tokens));
    };
    let (length, span, rest) = number(rest)?;
    let rest = behind_sign(Sign::CloseIndex, rest)?;
    Ok((Declaration::Array(name, length, span), rest))
}

/// All declarations that stand here, and the tokens behind them.
pub(crate) fn declarations(
    alloc: Global,
    tokens: Tokens,
) -> Result<(Vec<Declaration>, Tokens), Problem>
    ensures { Reads (λ x. IsPart Declarations 0 (declarations_view x.0.items) (views tokens.now) (views x.1.now))
        (FailsPart Declarations 0 (views tokens.now)) result }
{
    let (mut declarations, mut rest) = so_far(Vec::new(alloc), tokens);
    'declarations: while let Some((next, after)) = declaration(alloc, rest)? {
        declarations.push(next)?;
        rest = after;
    }
    Ok((declarations, rest))
}

/// The end of the tokens.
fn end(tokens: Tokens) -> Result<(), Problem>
    ensures { Reads (λ u. views tokens.now ≡ []) (AtEnd (views tokens.now)) result }
{
    if tokens.is_empty() {
        Ok(())
    } else {
        Err(Problem::Expected {
            what: What::End,
            left: tokens.len(),
        })
    }
}

/// Whether there are neither declarations nor statements.
fn is_bare(declarations: &[Declaration], statements: &[Stm]) -> bool
    ensures { result ≡ is_bare (declarations_view declarations.now) (block_view statements.now) }
{
    if declarations.is_empty() {
        statements.is_empty()
    } else {
        false
    }
}

/// The cell that the tokens spell.
pub(crate) fn cell(alloc: Global, tokens: Tokens) -> Result<Cell, Problem>
    // What is read is the tokens' tree, and a refusal is the one that the grammar has.
    ensures read { Reads (λ cell. IsTree A_cell all (cell_view cell) (views tokens.now)) (IsRefused A_cell (views tokens.now)) result }

    // What has a tree is read as that tree, unless memory runs out.
    ensures only { (tree : Tree) → IsTree A_cell all tree (views tokens.now) → Reads (λ cell. cell_view cell ≡ tree) (λ e. ⊥) result }
{
    all_tokens_cell(alloc, tokens)
}

fn all_tokens_cell(alloc: Global, tokens: Tokens) -> Result<Cell, Problem>
    ensures { Reads (λ cell. IsTree A_cell all (cell_view cell) (views tokens.now)) (Refused A_cell (views tokens.now)) result }
{
    let (read, main, rest) = first_parts(alloc, tokens)?;
    let (cell, rest) = procedures(alloc, read, main, rest)?;
    end(rest)?;
    Ok(cell)
}

/// The cell of the declarations and the statements that stand here, whether `main` may follow, and the tokens behind them.
fn first_parts(alloc: Global, tokens: Tokens) -> Result<(Cell, bool, Tokens), Problem>
    ensures { Reads (λ x. AreFirstParts x.1 (cell_view x.0) (views tokens.now) (views x.2.now)) (Refused A_cell (views tokens.now)) result }
{
    let (declarations, rest) = declarations(alloc, tokens)?;
    let (statements, rest) = statements(alloc, rest)?;
    let main = is_bare(&declarations, &statements);
    let cell = Cell {
        declarations,
        statements,
        procedures: Vec::new(alloc),
    };
    Ok((cell, main, rest))
}

/// The expression that the tokens spell.
pub(crate) fn only_expression(alloc: Global, tokens: Tokens) -> Result<Exp, Problem>
    // What is read is the tokens' tree, and a refusal is the one that the grammar has.
    ensures read { Reads (λ exp. IsTree Whole all (exp_view exp) (views tokens.now)) (IsRefused Whole (views tokens.now)) result }

    // What has a tree is read as that tree, unless memory runs out.
    ensures only { (tree : ExpTree) → IsTree Whole all tree (views tokens.now) → Reads (λ exp. exp_view exp ≡ tree) (λ e. ⊥) result }
{
    all_tokens_expression(alloc, tokens)
}

fn all_tokens_expression(alloc: Global, tokens: Tokens) -> Result<Exp, Problem>
    ensures { Reads (λ exp. IsTree Whole all (exp_view exp) (views tokens.now)) (Refused Whole (views tokens.now)) result }
{
    let (exp, rest) = whole_expression(alloc, tokens, 0)?;
    let (exp, _) = both(exp, end(rest))?;
    Ok(exp)
}
