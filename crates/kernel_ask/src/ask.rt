//! The answers over a lent kernel. None of them changes it.
ghost use Rattle.std.specs.Prelude.{◌≡◌, ℕ, List, length, map, string_bytes, option_map, IfOk, IfErr};
ghost use Rattle.kernel_text.specs.Runs.{Machine};
ghost use Rattle.kernel_ask.specs.declared.answer.Ask.TheVariants.{IsComplete};
ghost use Rattle.std.specs.Str.{chars};
ghost use Rattle.kernel_text.specs.State.{Idle, here};
ghost use Rattle.kernel_ask.specs.Cursor.{word_at};
ghost use Rattle.kernel_ask.specs.Completion.{IsCompletion};
ghost use Rattle.kernel_ask.specs.Inspection.{inspection};
ghost use Rattle.kernel_ask.specs.History.{inputs, told, input_of};
ghost use Rattle.kernel_ask.specs.Evaluation.{IsEvaluated};
ghost use Rattle.kernel_ask.specs.Shown.{IsShownOfNode};
ghost use Rattle.kernel_ask.specs.EndedAt.{StandsAtEnd};
ghost use Rattle.kernel_ask.specs.State.{OfShown};
ghost use Rattle.kernel_ask.specs.Answer.{IsContent, IsAnswer};

use crate::answer::{Answer, Ask, Completion, Content, HallFault};
use crate::comms::Comms;
use crate::completion::completion_of;
use crate::done::ExpFault;
use crate::evaluation::evaluation_of;
use crate::input_history::history_of;
use crate::inputs::{HistoryAsk, Input};
use crate::inspection::inspection_of;
use crate::judgement::is_complete;
use crate::shown::shown_of;
use crate::standing::state;
use janus_syntax::parse_exp;
use kernel_text::{Kernel, Outcome};
use std::alloc::{AllocError, Global};
use std::sync::ledger::Ledger;

/// The declared names, procedures and keywords that go on with what stands in front of a cursor. Places count Unicode code points; no
/// cursor is the end of the code, and so is one past it. The only error is want of memory.
pub fn complete<L: Ledger>(
    alloc: Global,
    kernel: &Kernel<L>,
    code: &str,
    cursor: Option<u64>,
) -> Result<Completion, AllocError>
    ensures { IfOk result (λ c. OfShown kernel.now.machine (λ w. IsCompletion w (chars code.now) cursor c)) }
{
    let world = kernel.world();
    let procedures = world.procedures(alloc)?;
    completion_of(alloc, &world, &procedures, code, cursor)
}

/// The value text of the declared name that touches a cursor and the text of its procedure, if it has them, parted by LF. Places count
/// as in [`complete`]. The only error is want of memory.
pub fn inspect<L: Ledger>(
    alloc: Global,
    kernel: &Kernel<L>,
    code: &str,
    cursor: Option<u64>,
) -> Result<Option<String>, AllocError>
    ensures { IfOk result (λ text. OfShown kernel.now.machine (λ w. option_map string_bytes text ≡ inspection w (word_at cursor (chars code.now)))) }
{
    let world = kernel.world();
    let procedures = world.procedures(alloc)?;
    inspection_of(alloc, &world, &procedures, code, cursor)
}

/// The inputs that are asked for, in rising order. The only error is want of memory.
pub fn history<L: Ledger>(
    alloc: Global,
    kernel: &Kernel<L>,
    ask: HistoryAsk,
) -> Result<Vec<Input>, AllocError>
    ensures { IfOk result (λ v. map input_of v.items
        ≡ told ask (inputs kernel.now.machine.minutes kernel.now.machine.counter)) }
{
    history_of(alloc, kernel.minutes(), kernel.counter(), ask)
}

/// The value of an expression's text in the world of the position, or why it has none. No job is open.
pub fn evaluate<L: Ledger>(alloc: Global, kernel: &Kernel<L>, text: &str) -> Result<i32, ExpFault>
    requires { kernel.now.machine.state.job ≡ Idle }
    ensures { IsEvaluated (here kernel.now.machine.state.past).store text.now result }
{
    let read = parse_exp(alloc, text);
    let names = kernel.declared_names();
    let world = kernel.world();
    evaluation_of(alloc, &world, &names, &read)
}

/// What is shown of a job that is over: the value texts of the declared names that the cell names, in the order of declaration and parted by LF,
/// with their values in the world of its node, where the job is a cell that ran and names one; else nothing. The cell is the one that its node
/// keeps, so no text is read. No job is open, and the kernel stands at that node still. The only error is want of memory.
pub fn shown_of_node<L: Ledger>(
    alloc: Global,
    kernel: &Kernel<L>,
    outcome: &Outcome,
) -> Result<Option<String>, AllocError>
    requires idle { kernel.now.machine.state.job ≡ Idle }
    requires still { StandsAtEnd outcome.now kernel.now.machine.state.past }
    ensures { IfOk result (λ text. IsShownOfNode outcome.now kernel.now.machine.state.past (option_map string_bytes text)) }
{
    match *outcome {
        Outcome::Ran(node, _) => match kernel.cell(node) {
            Some(cell) => {
                let world = kernel.world();
                shown_of(alloc, &world, cell)
            }
            None => Ok(None),
        },
        Outcome::Failed(_, _)
        | Outcome::Interrupted(_)
        | Outcome::Undid(_, _)
        | Outcome::Redid(_, _)
        | Outcome::Went(_, _, _)
        | Outcome::Refused(_) => Ok(None),
    }
}

/// What is answered to a question.
fn content_of<L: Ledger>(
    alloc: Global,
    kernel: &Kernel<L>,
    comms: &Comms,
    ask: Ask<'_>,
) -> Result<Content, AllocError>
    ensures { IfOk result (IsContent kernel.now.machine comms.now ask.entry) }
{
    match ask {
        Ask::Complete { code, cursor } => {
            let completion = complete(alloc, kernel, code, cursor)?;
            Ok(Content::Completion(completion))
        }
        Ask::Inspect { code, cursor } => {
            let text = inspect(alloc, kernel, code, cursor)?;
            Ok(Content::Inspection(text))
        }
        Ask::IsComplete { code } => {
            let completeness = is_complete(alloc, code);
            Ok(Content::Completeness(completeness))
        }
        Ask::History(ask) => {
            let inputs = history(alloc, kernel, ask)?;
            Ok(Content::History(inputs))
        }
        Ask::Comms => {
            let ids = comms.list()?;
            Ok(Content::Comms(ids))
        }
        Ask::IsOpen { id } => Ok(Content::IsOpen(comms.is_open(id))),
        Ask::State => {
            let state = state(alloc, kernel)?;
            Ok(Content::State(state))
        }
    }
}

/// The answer to the question whether code can be executed as it stands, beside a kernel with `seen` minutes: the text alone tells, so no kernel
/// is lent.
pub fn judge(alloc: Global, seen: usize, code: &str) -> Answer
    ensures { (m : Machine) → (comms : List (List ℕ)) → seen ≡ length m.minutes → IsAnswer m comms (IsComplete code.entry) result }
{
    let completeness = is_complete(alloc, code);
    Answer {
        seen,
        content: Content::Completeness(completeness),
    }
}

/// Answers a question of a frontend from the kernel's names, its shown world and its minutes, and tells how many minutes were seen.
/// Want of memory is the only error; where it can't be told whether code is complete, that is the answer `Unknown`.
pub fn ask_on<L: Ledger>(
    alloc: Global,
    kernel: &Kernel<L>,
    comms: &Comms,
    ask: Ask<'_>,
) -> Result<Answer, HallFault>
    ensures answer { IfOk result (IsAnswer kernel.now.machine comms.now ask.entry) }
    ensures memory { IfErr result (λ fault. fault ≡ HallFault.Memory) }
{
    match content_of(alloc, kernel, comms, ask) {
        Ok(content) => Ok(Answer {
            seen: kernel.minutes().len(),
            content,
        }),
        Err(_) => Err(HallFault::Memory),
    }
}
