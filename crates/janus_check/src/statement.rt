//! The check of statements and blocks.
ghost use Rattle.std.specs.Prelude.{◌≡◌};
ghost use Rattle.janus_syntax.specs.Tree.{stm_view, block_view};
ghost use Rattle.janus_check.specs.Fault.{first_from};
ghost use Rattle.janus_check.specs.Check.{stm_faults, block_faults};
ghost use Rattle.janus_check.specs.Sight.{in_sight, heads_seen};

use crate::call::call_fault;
use crate::env::Kind;
use crate::expression::{Context, exp_fault};
use crate::fault::CheckFault;
use crate::sight::{Sight, shadow_fault, use_fault};
use crate::table::SymbolTable;
use janus_syntax::tree::Stm;

/// The first fault after a statement.
#[cycle(stm_fault)]
fn stm_fault<T: SymbolTable>(
    stm: &Stm,
    sight: &Sight<T>,
    first: Option<CheckFault>,
) -> Option<CheckFault>
    ensures { result ≡ first_from first (stm_faults (heads_seen sight.now) (in_sight sight.now) (stm_view stm.now)) }
{
    match stm {
        Stm::Skip => first,
        Stm::Assign(name, _, exp) => {
            let next = use_fault(sight, Kind::Number, name, first);
            exp_fault(exp, &Context::Assigning(&*sight, &*name), next)
        }
        Stm::AssignElement(name, index, _, exp) => {
            let side = Context::Assigning(&*sight, &*name);
            let next = use_fault(sight, Kind::Array, name, first);
            let next = exp_fault(index, &side, next);
            exp_fault(exp, &side, next)
        }
        Stm::Push(variable, stack) | Stm::Pop(variable, stack) => {
            let next = use_fault(sight, Kind::Number, variable, first);
            use_fault(sight, Kind::Stack, stack, next)
        }
        Stm::Swap(one, other) => {
            let next = use_fault(sight, Kind::Number, one, first);
            use_fault(sight, Kind::Number, other, next)
        }
        Stm::If(test, then_part, else_part, last) => {
            let next = exp_fault(test, &Context::Free(&*sight), first);
            let next = block_fault(then_part, sight, next);
            let next = block_fault(else_part, sight, next);
            exp_fault(last, &Context::Free(&*sight), next)
        }
        Stm::Loop(entry, do_part, loop_part, exit) => {
            let next = exp_fault(entry, &Context::Free(&*sight), first);
            let next = block_fault(do_part, sight, next);
            let next = block_fault(loop_part, sight, next);
            exp_fault(exit, &Context::Free(&*sight), next)
        }
        Stm::LocalInt(name, begin, body, _, end) => {
            let next = shadow_fault(sight, name, first);
            let next = exp_fault(begin, &Context::EndOfLocal(&*sight, &*name), next);
            let next = block_fault(body, &(&*sight).local(&*name, Kind::Number), next);
            exp_fault(end, &Context::EndOfLocal(&*sight, &*name), next)
        }
        Stm::LocalStack(name, body, _) => {
            let next = shadow_fault(sight, name, first);
            block_fault(body, &(&*sight).local(&*name, Kind::Stack), next)
        }
        Stm::Call(called, arguments) | Stm::Uncall(called, arguments) => {
            call_fault(sight, called, arguments, first)
        }
    }
}

/// The first fault after the statements.
#[cycle(stm_fault)]
pub(crate) fn block_fault<T: SymbolTable>(
    statements: &[Stm],
    sight: &Sight<T>,
    first: Option<CheckFault>,
) -> Option<CheckFault>
    ensures { result ≡ first_from first (block_faults (heads_seen sight.now) (in_sight sight.now) (block_view statements.now)) }
{
    let mut next = first;
    for i in 0..statements.len() {
        next = stm_fault(&statements[i], sight, next);
    }
    next
}
