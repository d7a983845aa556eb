//! The bodies of procedures, as the texts of their cells have them.
ghost use Rattle.std.specs.Prelude.{◌≡◌, List, map, IfOk, IfSome, IfNone, string_bytes};
ghost use Rattle.janus_meaning.specs.Fault.{Bad, Broken};
ghost use Rattle.janus_meaning.specs.Syntax.{names_of, Proc};
ghost use Rattle.janus_meaning.specs.Store.{find};
ghost use Rattle.janus_meaning.specs.World.{define};
ghost use Rattle.janus_syntax.specs.Tree.{parameter_view, parameters_view, procedures_view};
ghost use Rattle.janus_syntax.specs.View.{plain_parameter, plain_procedure};
ghost use Rattle.kernel_machine.specs.Legal.{IsLegal};
ghost use Rattle.kernel_history.specs.Fields.{past_of};
ghost use Rattle.steps_walk.specs.Bodies.{IsBodyOf, IsNewest, IsTextOf, procedures_over};

use janus_places::Table;
use janus_syntax::tree::{Parameter, Procedure};
use kernel_history::HistoryTree;
use kernel_loader::Program;
use std::alloc::{AllocError, Global};

/// What is kept of the body of a procedure.
#[derive(Drop)]
pub(crate) struct Body {
    /// The number of its name.
    pub(crate) number: usize,
    /// The node of the cell that defines it; none of the open cell.
    pub(crate) node: Option<usize>,
    /// The names of its parameters, the first one first.
    pub(crate) parameters: Vec<String>,
    /// The places of its code.
    pub(crate) table: Table,
}

impl Body {
    /// That of a procedure; the only error is want of memory.
    pub(crate) fn of(
        alloc: Global,
        number: usize,
        node: Option<usize>,
        procedure: &Procedure,
    ) -> Result<Body, AllocError>
        ensures number { IfOk result (λ body. body.number ≡ number) }
        ensures node { IfOk result (λ body. body.node ≡ node) }
        ensures is { IfOk result (λ body. IsBodyOf body procedure.now) }
    {
        let parameters = names_of(alloc, &procedure.parameters)?;
        let table = Table::of(alloc, &procedure.body)?;
        Ok(Body {
            number,
            node,
            parameters,
            table,
        })
    }
}

/// The names of parameters; the only error is want of memory.
#[tactic(auto, using(crate::proofs::Bodies::next_name, crate::proofs::Bodies::all_names))]
fn names_of(alloc: Global, parameters: &[Parameter]) -> Result<Vec<String>, AllocError>
    ensures { IfOk result (λ names. map string_bytes names.items ≡ names_of (map plain_parameter (parameters_view parameters.now))) }
{
    let mut names = Vec::new(alloc);
    for i in 0..parameters.len() {
        names.push(String::from_str(alloc, name_of(&parameters[i]))?)?;
    }
    Ok(names)
}

/// The name of a parameter.
fn name_of(parameter: &Parameter) -> &str
    ensures { result.now ≡ (plain_parameter (parameter_view parameter.now)).0 }
{
    match parameter {
        Parameter::Int(name) | Parameter::Array(name) | Parameter::Stack(name) => {
            name.text.as_str()
        }
    }
}

/// The newest of the procedures of a cell that has a name: the last one.
fn newest<'a>(procedures: &'a [Procedure], name: &str) -> Option<&'a Procedure>
    ensures some { IfSome result (λ procedure. IsNewest procedures.now name.now procedure.now) }
    ensures none { IfNone result ((rest : List Proc) →
        find name.now (define (map plain_procedure (procedures_view procedures.now)) rest) ≡ find name.now rest) }
{
    let mut behind = procedures.len();
    while behind > 0 {
        let last = behind - 1;
        let procedure = &procedures[last];
        if procedure.name.text.as_str() == name {
            return Some(procedure);
        }
        behind = last;
    }
    None
}

/// The procedure which a call of this name runs where a cell is open over the position of a tree, and the node of the cell that defines it; none of the
/// open cell.
pub(crate) fn text_of<'a>(
    program: &'a Program,
    tree: &'a HistoryTree,
    name: &str,
) -> Option<(Option<usize>, &'a Procedure)>
    requires { IsLegal (past_of tree.now) }
    ensures some { IfSome result (λ found. IsTextOf program.now tree.now name.now found.0 found.1.now) }
    // No call of the name runs anything.
    ensures none { IfNone result (find name.now (procedures_over program.now tree.now) ≡ Bad Broken) }
{
    if let Some(procedure) = newest(&program.cell.procedures, name) {
        return Some((None, procedure));
    }
    let mut at = tree.position;
    while at != 0 {
        if let Some(procedure) = newest(&tree.cells.content(at).program.cell.procedures, name) {
            return Some((Some(at), procedure));
        }
        at = tree.cells.parent(at);
    }
    None
}
