//! The places of a block.

ghost use Rattle.std.specs.Prelude.{◌≡◌, ◌≤◌, List, length, IfOk, OnOk};
ghost use Rattle.janus_meaning.specs.Syntax.{Name as TheName};
ghost use Rattle.janus_syntax.specs.Tree.{Stm as TheStm, stm_view, block_view};
ghost use Rattle.janus_places.specs.Spots.{block_spots, inner_spots, stm_spots, between, form_of as the_form_of};
ghost use Rattle.janus_places.specs.Spots.{enters_span, leaves_span, Enters, Leaves, inside};
ghost use Rattle.janus_places.specs.Table.{IsTableOf, AreLocals, Adds};

use crate::part::{Branch, Form, Part, form_of};
use crate::span::{head_of, span_of, tail_of};
use crate::table::Table;
use janus_syntax::Span;
use janus_syntax::tree::{Exp, Stm};
use std::alloc::{AllocError, Global};

impl Table {
    /// The places of the code of a block; the only error is want of memory.
    pub fn of(alloc: Global, block: &[Stm]) -> Result<Table, AllocError>
        ensures { IfOk result (λ table. IsTableOf table (block_view block.now)) }
    {
        let mut table = Table::new(alloc);
        table.add(Part::Begin, None, 0)?;
        add_block(&mut table, block, 0)?;
        table.add(Part::End, None, 0)?;
        Ok(table)
    }
}

/// Adds the places of a block's statements, where these locals are open.
#[cycle(places)]
fn add_block(table: &mut Table, block: &[Stm], locals: usize) -> Result<(), AllocError>
    requires { locals ≤ length table.old.locals.items }
    ensures within { OnOk result (length table.old.locals.items ≤ length table.new.locals.items) }
    ensures adds { OnOk result ((xs : List TheName) → AreLocals table.old.locals.items locals xs →
        Adds table.old table.new (block_spots xs (block_view block.now))) }
{
    for i in 0..block.len() {
        add_statement(table, &block[i], locals)?;
    }
    Ok(())
}

/// Adds the places of a statement.
#[cycle(places)]
fn add_statement(table: &mut Table, statement: &Stm, locals: usize) -> Result<(), AllocError>
    requires { locals ≤ length table.old.locals.items }
    ensures within { OnOk result (length table.old.locals.items ≤ length table.new.locals.items) }
    ensures adds { OnOk result ((xs : List TheName) → AreLocals table.old.locals.items locals xs →
        Adds table.old table.new (stm_spots xs (stm_view statement.now))) }
{
    let form = form_of(statement);
    table.add(Part::Before(form), head_of(statement), locals)?;
    add_inner(table, statement, locals)?;
    table.add(Part::After(form), tail_of(statement), locals)?;
    Ok(())
}

/// Adds the places of a statement's blocks.
#[cycle(places)]
#[tactic(auto, using(crate::proofs::Rows::none))]
fn add_inner(table: &mut Table, statement: &Stm, locals: usize) -> Result<(), AllocError>
    requires { locals ≤ length table.old.locals.items }
    ensures within { OnOk result (length table.old.locals.items ≤ length table.new.locals.items) }
    ensures adds { OnOk result ((xs : List TheName) → AreLocals table.old.locals.items locals xs →
        Adds table.old table.new (inner_spots xs (stm_view statement.now))) }
{
    match statement {
        Stm::If(test, then_part, else_part, last) => {
            let (first, last) = (Some(span_of(test)), Some(span_of(last)));
            add_branch(
                table,
                Form::If,
                Branch::First,
                first,
                then_part,
                last,
                locals,
            )?;
            add_branch(
                table,
                Form::If,
                Branch::Second,
                first,
                else_part,
                last,
                locals,
            )
        }
        Stm::Loop(entry, do_part, loop_part, exit) => {
            let (entry, exit) = (Some(span_of(entry)), Some(span_of(exit)));
            add_branch(
                table,
                Form::Loop,
                Branch::First,
                entry,
                do_part,
                exit,
                locals,
            )?;
            add_branch(
                table,
                Form::Loop,
                Branch::Second,
                exit,
                loop_part,
                entry,
                locals,
            )
        }
        Stm::LocalInt(name, _, body, _, _) => {
            let (head, tail) = (head_of(statement), tail_of(statement));
            let inner = table.open(name, locals)?;
            add_branch(
                table,
                Form::LocalInt,
                Branch::First,
                head,
                body,
                tail,
                inner,
            )
        }
        Stm::LocalStack(name, body, _) => {
            let (head, tail) = (head_of(statement), tail_of(statement));
            let inner = table.open(name, locals)?;
            add_branch(
                table,
                Form::LocalStack,
                Branch::First,
                head,
                body,
                tail,
                inner,
            )
        }
        Stm::Skip
        | Stm::Assign(_, _, _)
        | Stm::AssignElement(_, _, _, _)
        | Stm::Push(_, _)
        | Stm::Pop(_, _)
        | Stm::Swap(_, _)
        | Stm::Call(_, _)
        | Stm::Uncall(_, _) => Ok(()),
    }
}

/// Adds the places of a block of a statement: these parts of the text stand before and behind it, and these locals are open in it.
#[cycle(places)]
fn add_branch(
    table: &mut Table,
    form: Form,
    branch: Branch,
    before: Option<Span>,
    block: &[Stm],
    behind: Option<Span>,
    locals: usize,
) -> Result<(), AllocError>
    requires { locals ≤ length table.old.locals.items }
    ensures within { OnOk result (length table.old.locals.items ≤ length table.new.locals.items) }
    ensures adds { OnOk result ((xs : List TheName) (s : TheStm) → form ≡ the_form_of s → before ≡ enters_span s branch → behind ≡ leaves_span s branch →
        AreLocals table.old.locals.items locals (inside xs s) →
        Adds table.old table.new (between (Enters xs s branch) (block_spots (inside xs s) (block_view block.now)) (Leaves xs s branch))) }
{
    table.add(Part::Enters(form, branch), before, locals)?;
    add_block(table, block, locals)?;
    table.add(Part::Leaves(form, branch), behind, locals)?;
    Ok(())
}
