//! The check of a cell.
ghost use Rattle.std.specs.Prelude.{◌≡◌, ◌≢◌, [], OnOk, IfOk, IfErr, not, ◌++◌};
ghost use Rattle.janus_syntax.specs.Tree.{cell_view, declaration_view, declarations_view};
ghost use Rattle.janus_syntax.specs.View.{name_of};
ghost use Rattle.janus_check.specs.Names.{shape_in, over, meant_kind};
ghost use Rattle.janus_check.specs.Fault.{IsFirst, first_from};
ghost use Rattle.janus_check.specs.Check.{is_full, has_all_stacks, fault_if, name_faults, extended, faults_over, declaration_faults, declarations_faults};
ghost use Rattle.janus_check.specs.Check.{after_declaration, after_declarations, is_array_length};
ghost use Rattle.janus_check.specs.WellFormed.{IsWellFormedOver};
ghost use Rattle.janus_check.specs.Checked.{cell_in, known_in};
ghost use Rattle.janus_check.specs.Own.{IsOwn};
ghost use Rattle.janus_check.specs.declared.fault.CheckFault.TheVariants.{Declared, TooMany, ArrayLength, Memory as NoMemory};

use crate::checked::Checked;
use crate::env::{Env, Kind};
use crate::fault::{CheckFault, sooner};
use crate::procedure::{bodies_fault, define_all};
use crate::scope::kind_declared;
use crate::sight::Sight;
use crate::statement::block_fault;
use crate::table::SymbolTable;
use janus_meaning::limit::{ARRAY_LIMIT, LIVE_STACK_LIMIT, NAME_LIMIT};
use janus_syntax::token::Span;
use janus_syntax::tree::{Cell, Declaration, Name};
use std::alloc::{AllocError, Global};

/// Checks a cell over the names that are declared already and the procedures that are defined. What passes is well formed over them, and keeps the names
/// and the procedures of its own. Else the answer is the fault that stands first in the text, and at one place the one with the smaller number, or want of
/// memory.
pub fn check<'a, T: SymbolTable>(
    alloc: Global,
    env: &'a T,
    cell: Cell,
) -> Result<Checked<'a, T>, CheckFault>
    ensures passes { OnOk result (faults_over (T.known env.now) (cell_view cell) ≡ []) }
    ensures well_formed { OnOk result (IsWellFormedOver (T.known env.now) (cell_view cell)) }
    ensures same { IfOk result (λ checked. cell_in checked ≡ cell_view cell) }
    ensures known { IfOk result (λ checked. known_in checked ≡ T.known env.now) }
    ensures first { IfErr result (λ fault. fault ≢ NoMemory → IsFirst fault (faults_over (T.known env.now) (cell_view cell))) }
{
    let mut own = Env::new(alloc);
    match first_fault(alloc, env, &mut own, &cell)? {
        None => Ok(Checked::new(env, own, cell)),
        Some(fault) => Err(fault),
    }
}

/// The first fault of a cell, if it has one. The names that it declares are its own then, and so are the procedures that it defines.
fn first_fault<T: SymbolTable>(
    alloc: Global,
    env: &T,
    own: &mut Env,
    cell: &Cell,
) -> Result<Option<CheckFault>, AllocError>
    requires names { own.old.names ≡ [] }
    requires procedures { own.old.procedures ≡ [] }
    ensures first { IfOk result (λ first. first ≡ first_from None (faults_over (T.known env.now) (cell_view cell.now))) }
    ensures own { OnOk result (IsWellFormedOver (T.known env.now) (cell_view cell.now) → IsOwn (T.known env.now) own.new (cell_view cell.now)) }
{
    let first = declare_all(env, own, &cell.declarations, None)?;
    let first = define_all(alloc, env, own, &cell.procedures, first)?;
    let sight = Sight::declared(env, &*own);
    let first = block_fault(&cell.statements, &sight, first);
    Ok(bodies_fault(env, own, &cell.procedures, first))
}

/// The first fault after one more declaration, whose name is then declared if there is room for it.
fn declare<T: SymbolTable>(
    env: &T,
    own: &mut Env,
    declaration: &Declaration,
    first: Option<CheckFault>,
) -> Result<Option<CheckFault>, AllocError>
    ensures fault { IfOk result
        (λ next. next ≡ first_from first (declaration_faults (over (shape_in (T.known env.now).names) own.old.names) (declaration_view declaration.now))) }
    ensures names { OnOk result
        (over (shape_in (T.known env.now).names) own.new.names
        ≡ after_declaration (over (shape_in (T.known env.now).names) own.old.names) (declaration_view declaration.now)) }
    ensures procedures { own.new.procedures ≡ own.old.procedures }
{
    match declaration {
        Declaration::Int(name) => declare_name(env, own, name, Kind::Number, first),
        Declaration::Array(name, length, at) => {
            let next = declare_name(env, own, name, Kind::Array, first)?;
            Ok(length_fault(*length, *at, next))
        }
        Declaration::Stack(name) => {
            let full = has_all_stacks(env, own);
            let next = declare_name(env, own, name, Kind::Stack, first)?;
            Ok(stack_fault(full, name.span, next))
        }
    }
}

/// The first fault after the declaration of a name, which is then declared if there is room for it. So no more
/// names of a cell are kept than may be declared.
fn declare_name<T: SymbolTable>(
    env: &T,
    own: &mut Env,
    name: &Name,
    kind: Kind,
    first: Option<CheckFault>,
) -> Result<Option<CheckFault>, AllocError>
    ensures fault { IfOk result
        (λ next. next ≡ first_from first (name_faults (over (shape_in (T.known env.now).names) own.old.names) (name_of name.now) name.now.span)) }
    ensures names { OnOk result
        (over (shape_in (T.known env.now).names) own.new.names
        ≡ extended (over (shape_in (T.known env.now).names) own.old.names) (name_of name.now) (meant_kind kind)) }
    ensures procedures { own.new.procedures ≡ own.old.procedures }
{
    let known = kind_declared(env, own, name).is_some();
    let full = is_full(env, own);
    let next = declaration_fault(known, full, name.span, first);
    if !known && !full {
        own.declare(name.text.clone()?, kind)?;
    }
    Ok(next)
}

/// The first fault after the declaration of a name at this place, which is known already or not, where no more names
/// may be declared or not.
fn declaration_fault(
    known: bool,
    full: bool,
    at: Span,
    first: Option<CheckFault>,
) -> Option<CheckFault>
    ensures { result ≡ first_from first (fault_if known (Declared at) ++ fault_if full (TooMany at)) }
{
    let mut next = first;
    if known {
        next = sooner(next, CheckFault::Declared(at));
    }
    if full {
        next = sooner(next, CheckFault::TooMany(at));
    }
    next
}

/// The first fault after the length of an array at this place.
fn length_fault(length: u32, at: Span, first: Option<CheckFault>) -> Option<CheckFault>
    ensures { result ≡ first_from first (fault_if (not (is_array_length length)) (ArrayLength at)) }
{
    if length == 0 || length > ARRAY_LIMIT {
        sooner(first, CheckFault::ArrayLength(at))
    } else {
        first
    }
}

/// The first fault after the declaration of a stack at this place, where no more of them may be declared or not.
fn stack_fault(full: bool, at: Span, first: Option<CheckFault>) -> Option<CheckFault>
    ensures { result ≡ first_from first (fault_if full (TooMany at)) }
{
    if full {
        sooner(first, CheckFault::TooMany(at))
    } else {
        first
    }
}

/// Whether no more stacks may be declared.
fn has_all_stacks<T: SymbolTable>(env: &T, own: &Env) -> bool
    ensures { result ≡ has_all_stacks (over (shape_in (T.known env.now).names) own.now.names) }
{
    env.stacks() + own.stacks() >= LIVE_STACK_LIMIT
}

/// Whether no more names may be declared.
fn is_full<T: SymbolTable>(env: &T, own: &Env) -> bool
    ensures { result ≡ is_full (over (shape_in (T.known env.now).names) own.now.names) }
{
    env.len() + own.len() >= NAME_LIMIT
}

/// The first fault after the declarations, whose names are then declared as far as there is room for them.
fn declare_all<T: SymbolTable>(
    env: &T,
    own: &mut Env,
    declarations: &[Declaration],
    first: Option<CheckFault>,
) -> Result<Option<CheckFault>, AllocError>
    ensures fault { IfOk result
        (λ next. next ≡ first_from first (declarations_faults (over (shape_in (T.known env.now).names) own.old.names) (declarations_view declarations.now))) }
    ensures names { OnOk result
        (over (shape_in (T.known env.now).names) own.new.names
        ≡ after_declarations (over (shape_in (T.known env.now).names) own.old.names) (declarations_view declarations.now)) }
    ensures procedures { own.new.procedures ≡ own.old.procedures }
{
    let mut next = first;
    for i in 0..declarations.len() {
        next = declare(env, own, &declarations[i], next)?;
    }
    Ok(next)
}
