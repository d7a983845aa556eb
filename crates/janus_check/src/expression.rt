//! The check of an expression.
ghost use Rattle.std.specs.Prelude.{◌≡◌, OnOk, IfErr, [], ◌++◌};
ghost use Rattle.janus_meaning.specs.Formed.{IsExp};
ghost use Rattle.janus_syntax.specs.Tree.{name_view, exp_view};
ghost use Rattle.janus_syntax.specs.View.{name_of, plain_exp};
ghost use Rattle.janus_check.specs.Names.{shape_in, meant_kind};
ghost use Rattle.janus_check.specs.Fault.{IsFirst, first_from};
ghost use Rattle.janus_check.specs.Check.{faults_of, exp_faults, self_fault};
ghost use Rattle.janus_check.specs.Sight.{faults_at};

use crate::env::{Env, Kind};
use crate::fault::{CheckFault, sooner};
use crate::sight::{Sight, use_fault};
use crate::table::SymbolTable;
use janus_syntax::tree::{Exp, Name};
use std::alloc::Global;

/// Which names an expression may use where it stands.
#[derive(Drop)]
pub(crate) enum Context<'a, T: SymbolTable> {
    /// Each name in sight.
    Free(&'a Sight<'a, T>),
    /// In an index or a right side: each but this one, which is assigned.
    Assigning(&'a Sight<'a, T>, &'a Name),
    /// At an end of a local: each but this one, which is the local's.
    EndOfLocal(&'a Sight<'a, T>, &'a Name),
}

/// Checks an expression over the declared names. What passes is well formed; else the answer is the fault that stands
/// first in the text, and at one place the one with the smaller number.
pub fn check_exp<T: SymbolTable>(alloc: Global, env: &T, exp: &Exp) -> Result<(), CheckFault>
    ensures passes { OnOk result (exp_faults (shape_in (T.known env.now).names) (exp_view exp.now) ≡ []) }
    ensures well_formed { OnOk result (IsExp (shape_in (T.known env.now).names) (plain_exp (exp_view exp.now))) }
    ensures first { IfErr result (λ fault. IsFirst fault (exp_faults (shape_in (T.known env.now).names) (exp_view exp.now))) }
{
    let none = Env::new(alloc);
    let sight = Sight::declared(env, &none);
    match exp_fault(exp, &Context::Free(&sight), None) {
        None => Ok(()),
        Some(fault) => Err(fault),
    }
}

/// The first fault after an expression.
pub(crate) fn exp_fault<T: SymbolTable>(
    exp: &Exp,
    context: &Context<T>,
    first: Option<CheckFault>,
) -> Option<CheckFault>
    ensures { result ≡ first_from first (faults_of (faults_at context.now) (exp_view exp.now)) }
{
    match exp {
        Exp::Number(_, _) => first,
        Exp::Variable(name) => fault_at(context, Kind::Number, name, first),
        Exp::Element(name, index) => {
            let next = fault_at(context, Kind::Array, name, first);
            exp_fault(index, context, next)
        }
        Exp::Empty(name) | Exp::Top(name) => fault_at(context, Kind::Stack, name, first),
        Exp::Negative(operand) => exp_fault(operand, context, first),
        Exp::Binary(_, left, right) => {
            let next = exp_fault(left, context, first);
            exp_fault(right, context, next)
        }
        Exp::And(left, right) => {
            let next = exp_fault(left, context, first);
            exp_fault(right, context, next)
        }
        Exp::Or(left, right) => {
            let next = exp_fault(left, context, first);
            exp_fault(right, context, next)
        }
    }
}

/// The first fault after a use of a name, as one of this kind, in an expression that stands there.
fn fault_at<T: SymbolTable>(
    context: &Context<T>,
    kind: Kind,
    name: &Name,
    first: Option<CheckFault>,
) -> Option<CheckFault>
    ensures { result ≡ first_from first (faults_at context.now (meant_kind kind) (name_view name.now)) }
{
    match context {
        Context::Free(sight) => use_fault(sight, kind, name, first),
        Context::Assigning(sight, target) => {
            let next = use_fault(sight, kind, name, first);
            self_use(target, name, next)
        }
        Context::EndOfLocal(sight, local) => {
            if name.text == local.text {
                sooner(first, CheckFault::SelfUse(name.span))
            } else {
                use_fault(sight, kind, name, first)
            }
        }
    }
}

/// The first fault after a use of a name where the assigned name may not be used.
fn self_use(target: &Name, name: &Name, first: Option<CheckFault>) -> Option<CheckFault>
    ensures { result ≡ first_from first (self_fault (name_of target.now) (name_view name.now)) }
{
    if name.text == target.text {
        sooner(first, CheckFault::SelfUse(name.span))
    } else {
        first
    }
}
