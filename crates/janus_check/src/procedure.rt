//! The check of procedures.
ghost use Rattle.std.specs.Prelude.{◌≡◌, ◌++◌, [], None, OnOk, IfOk};
ghost use Rattle.janus_meaning.specs.Shape.{head_at, count_new, different};
ghost use Rattle.janus_syntax.specs.Tree.{procedure_view, procedures_view};
ghost use Rattle.janus_syntax.specs.View.{name_of};
ghost use Rattle.janus_check.specs.Names.{heads_in, meant_kinds};
ghost use Rattle.janus_check.specs.Fault.{first_from};
ghost use Rattle.janus_check.specs.Check.{fault_if, is_changed, with_head, after_head, after_heads, head_faults, heads_faults, body_faults, bodies_faults};
ghost use Rattle.janus_check.specs.Sight.{heads_over};
ghost use Rattle.janus_check.specs.declared.fault.CheckFault.TheVariants.{Declared, ChangedParameters, TooMany};

use crate::env::{Env, Kind};
use crate::fault::{CheckFault, sooner};
use crate::parameter::{kinds_of, parameters_fault};
use crate::sight::Sight;
use crate::statement::block_fault;
use crate::table::SymbolTable;
use janus_meaning::limit::PROCEDURE_LIMIT;
use janus_syntax::token::Span;
use janus_syntax::tree::{Name, Procedure};
use std::alloc::{AllocError, Global};

/// The first fault after the names of procedures, which are then the cell's own. Of a name given twice the first counts. The
/// only error is want of memory.
pub(crate) fn define_all<T: SymbolTable>(
    alloc: Global,
    env: &T,
    own: &mut Env,
    procedures: &[Procedure],
    first: Option<CheckFault>,
) -> Result<Option<CheckFault>, AllocError>
    requires { own.old.procedures ≡ [] }
    ensures fault { IfOk result
        (λ next. next
        ≡ first_from first (heads_faults (heads_in (T.known env.now).procedures) (heads_in own.old.procedures) (procedures_view procedures.now))) }
    ensures heads { OnOk result (heads_in own.new.procedures ≡ after_heads (heads_in own.old.procedures) (procedures_view procedures.now)) }
    ensures names { own.new.names ≡ own.old.names }
{
    if procedures.is_empty() {
        return Ok(first);
    }
    let mut next = first;
    let mut count = env.procedures();
    for i in 0..procedures.len() {
        next = define(alloc, env, own, &procedures[i], &mut count, next)?;
    }
    Ok(next)
}

/// The first fault after the name of a procedure, which is then the cell's own. `count` is how many procedures there are. The
/// only error is want of memory.
fn define<T: SymbolTable>(
    alloc: Global,
    env: &T,
    own: &mut Env,
    procedure: &Procedure,
    count: &mut usize,
    first: Option<CheckFault>,
) -> Result<Option<CheckFault>, AllocError>
    requires { count.old ≡ different (heads_over (T.known env.now) own.old) }
    ensures fault { IfOk result
        (λ next. next ≡ first_from first (head_faults (heads_in (T.known env.now).procedures) (heads_in own.old.procedures) (procedure_view procedure.now))) }
    ensures heads { OnOk result (heads_in own.new.procedures ≡ after_head (heads_in own.old.procedures) (procedure_view procedure.now)) }
    ensures counted { OnOk result (count.new ≡ different (heads_over (T.known env.now) own.new)) }
    ensures names { own.new.names ≡ own.old.names }
{
    let name = &procedure.name;
    let kinds = kinds_of(alloc, &procedure.parameters)?;
    let changed = has_changed(env, &name.text, &kinds);
    let known = own.head(&name.text).is_some();
    *count = add(env, own, name, kinds, *count)?;
    Ok(head_fault(known, changed, *count > PROCEDURE_LIMIT, name.span, first))
}

/// Makes a procedure the cell's own, if none of its name is, and gives how many procedures there are. The only error is want of
/// memory.
fn add<T: SymbolTable>(
    env: &T,
    own: &mut Env,
    name: &Name,
    kinds: Vec<Kind>,
    count: usize,
) -> Result<usize, AllocError>
    requires { count ≡ different (heads_over (T.known env.now) own.old) }
    ensures heads { OnOk result (heads_in own.new.procedures ≡ with_head (heads_in own.old.procedures) (name_of name.now) (meant_kinds kinds.items)) }
    ensures counted { IfOk result (λ n. n ≡ different (heads_over (T.known env.now) own.new)) }
    ensures names { own.new.names ≡ own.old.names }
{
    if own.head(&name.text).is_some() {
        return Ok(count);
    }
    let total = counted(env, own, &name.text, count);
    own.define(name.text.clone()?, kinds)?;
    Ok(total)
}

/// How many procedures there are with one more of this name, which is not the cell's own yet.
fn counted<T: SymbolTable>(env: &T, own: &Env, name: &str, count: usize) -> usize
    requires counted { count ≡ different (heads_over (T.known env.now) own.now) }
    requires new { head_at name.now (heads_in own.now.procedures) ≡ None }
    ensures { result ≡ count_new (head_at name.now (heads_over (T.known env.now) own.now)) count }
{
    env.procedures_law();
    own.procedures_law();
    match env.head(name) {
        Some(_) => count,
        None => count + 1,
    }
}

/// Whether a procedure is defined already with parameters of other kinds.
fn has_changed<T: SymbolTable>(env: &T, name: &str, kinds: &[Kind]) -> bool
    ensures { result ≡ is_changed (meant_kinds kinds.now) (head_at name.now (heads_in (T.known env.now).procedures)) }
{
    match env.head(name) {
        Some(found) => *found != *kinds,
        None => false,
    }
}

/// The first fault after the name of a procedure at this place, which is the cell's own already or not, has other parameters than
/// before or not, and is past the limit or not.
fn head_fault(
    known: bool,
    changed: bool,
    past: bool,
    at: Span,
    first: Option<CheckFault>,
) -> Option<CheckFault>
    ensures { result ≡ first_from first (fault_if known (Declared at) ++ fault_if changed (ChangedParameters at) ++ fault_if past (TooMany at)) }
{
    let mut next = first;
    if known {
        next = sooner(next, CheckFault::Declared(at));
    }
    if changed {
        next = sooner(next, CheckFault::ChangedParameters(at));
    }
    if past {
        next = sooner(next, CheckFault::TooMany(at));
    }
    next
}

/// The first fault after the parameters and the bodies of procedures.
pub(crate) fn bodies_fault<T: SymbolTable>(
    env: &T,
    own: &Env,
    procedures: &[Procedure],
    first: Option<CheckFault>,
) -> Option<CheckFault>
    ensures { result ≡ first_from first (bodies_faults (heads_over (T.known env.now) own.now) (procedures_view procedures.now)) }
{
    let mut next = first;
    for i in 0..procedures.len() {
        next = body_fault(env, own, &procedures[i], next);
    }
    next
}

/// The first fault after the parameters and the body of a procedure.
fn body_fault<T: SymbolTable>(
    env: &T,
    own: &Env,
    procedure: &Procedure,
    first: Option<CheckFault>,
) -> Option<CheckFault>
    ensures { result ≡ first_from first (body_faults (heads_over (T.known env.now) own.now) (procedure_view procedure.now)) }
{
    let next = parameters_fault(&procedure.parameters, first);
    let declared = Sight::declared(env, own);
    let sight = declared.body(&procedure.parameters);
    block_fault(&procedure.body, &sight, next)
}
