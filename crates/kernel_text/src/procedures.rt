//! Procedures that are lent: the newest of a name, and the text in which one is told.
ghost use Rattle.std.specs.Prelude.{◌≡◌, string_bytes, IfOk};
ghost use Rattle.janus_meaning.specs.Store.{find};
ghost use Rattle.janus_syntax.specs.Tree.{procedure_view};
ghost use Rattle.janus_syntax.specs.View.{plain_procedure};
ghost use Rattle.kernel_core.specs.Defined.{in_a_row};
ghost use Rattle.kernel_text.specs.Procedures.{IsNewest};
ghost use Rattle.kernel_text.specs.ProcedureTexts.{procedure_text as procedure_text_of};

use janus_code::closed::closed;
use janus_syntax::print_procedure;
use janus_syntax::tree::Procedure;
use std::alloc::{AllocError, Global};

/// The newest procedure of a name, if there is one: a newer one hides those of its name behind it.
pub fn newest_of<'a>(procedures: &[&'a Procedure], name: &str) -> Option<&'a Procedure>
    ensures { IsNewest (find name.now (in_a_row procedures.now)) result }
{
    for i in 0..procedures.len() {
        let procedure = procedures[i];
        if name == procedure.name.text.as_str() {
            return Some(procedure);
        }
    }
    None
}

/// The text of a procedure, in one line, as `procedure p(int x) x += 1`: its print, with the local's name behind each `delocal`. The only
/// error is want of memory.
pub fn procedure_text(alloc: Global, procedure: &Procedure) -> Result<String, AllocError>
    ensures { IfOk result (λ text. string_bytes text ≡ procedure_text_of (plain_procedure (procedure_view procedure.now))) }
{
    let procedure = closed(alloc, procedure)?;
    let Ok(text) = print_procedure(alloc, &procedure) else {
        return Err(AllocError);
    };
    Ok(text)
}
