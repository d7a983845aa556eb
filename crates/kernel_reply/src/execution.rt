//! What is said of a cell (Jupyter messaging page: "Execute", "Code inputs", "Execution results", "Execution errors").
ghost use Rattle.std.specs.Prelude.{◌≡◌, ◌≤◌, false, map, vec_len, IfOk, OnOk, option_map};
ghost use Rattle.serde_json.specs.Data.{object, no_members};
ghost use Rattle.serde_json.specs.View.{view, members_view};
ghost use Rattle.serde_json.specs.Written.{has_float};
ghost use Rattle.kernel_message.specs.Draft.{said_of};
ghost use Rattle.kernel_reply.specs.Execution as table;
ghost use Rattle.kernel_reply.specs.Told.{told};

use crate::problem::{Problem, exp_problem};
use crate::status::{idle, plain};
use itoa::Buffer;
use kernel_ask::NamedValue;
use kernel_message::{Draft, put_count, put_empty, put_text, put_value};
use serde_json::{Map, Value, json};
use std::alloc::{AllocError, Global};

/// A line as a traceback, which it is alone.
fn traceback(alloc: Global, line: &str) -> Result<Value, AllocError>
    ensures { IfOk result (λ v. view v ≡ table.traceback line.now) }
{
    json!(in alloc; [line])
}

/// The value of an expression.
fn number_shown(alloc: Global, value: i32) -> Result<Value, AllocError>
    ensures { IfOk result (λ v. view v ≡ table.value_shown (Ok value)) }
{
    let mut buffer = Buffer::new();
    let data = plain(alloc, buffer.format(value))?;
    let mut members = Map::new(alloc);
    put_value(alloc, &mut members, "data", data)?;
    put_empty(alloc, &mut members, "metadata")?;
    put_text(alloc, &mut members, "status", "ok")?;
    Ok(Value::Object(members))
}

/// Why an expression has no value.
fn problem_shown(alloc: Global, problem: &Problem) -> Result<Value, AllocError>
    ensures { IfOk result (λ v. view v ≡ table.problem_shown (told problem.now)) }
{
    let traceback = traceback(alloc, &problem.evalue)?;
    let mut members = Map::new(alloc);
    put_text(alloc, &mut members, "ename", problem.ename)?;
    put_text(alloc, &mut members, "evalue", &problem.evalue)?;
    put_text(alloc, &mut members, "status", "error")?;
    put_value(alloc, &mut members, "traceback", traceback)?;
    Ok(Value::Object(members))
}

/// What came of an expression.
fn value_shown(alloc: Global, value: &NamedValue) -> Result<Value, AllocError>
    ensures { IfOk result (λ v. view v ≡ table.value_shown value.now.value) }
{
    match value.value {
        Ok(number) => number_shown(alloc, number),
        Err(fault) => {
            let problem = exp_problem(alloc, fault)?;
            problem_shown(alloc, &problem)
        }
    }
}

/// Adds what came of the expressions, by name.
fn put_values(
    alloc: Global,
    map: &mut Map<String, Value>,
    values: &[NamedValue],
) -> Result<(), AllocError>
    ensures { OnOk result (members_view map.new.entries
        ≡ table.with_values (members_view map.old.entries) values.now) }
{
    for value in values {
        let shown = value_shown(alloc, value)?;
        serde_json::put(map, alloc, &value.name, shown)?;
    }
    Ok(())
}

/// What came of the expressions, by name.
fn values_shown(alloc: Global, values: &[NamedValue]) -> Result<Value, AllocError>
    ensures { IfOk result (λ v. view v ≡ object (table.with_values no_members values.now)) }
{
    let mut map = Map::new(alloc);
    put_values(alloc, &mut map, values)?;
    Ok(Value::Object(map))
}

/// What is told of a cell that ran.
#[tactic(auto, using(crate::proofs::Holes::ran_plain))]
fn ran_content(alloc: Global, count: u64, values: Value) -> Result<Value, AllocError>
    requires { has_float (view values) ≡ false }
    ensures no_float { IfOk result (λ v. has_float (view v) ≡ false) }
    ensures value { IfOk result (λ v. view v ≡ table.ran_content count (view values)) }
{
    let mut members = Map::new(alloc);
    put_count(alloc, &mut members, "execution_count", count)?;
    put_text(alloc, &mut members, "status", "ok")?;
    put_value(alloc, &mut members, "user_expressions", values)?;
    Ok(Value::Object(members))
}

/// The reply for a cell that ran.
#[tactic(auto, unfolding(crate::specs::Execution::ran_reply))]
fn ran_reply(alloc: Global, count: u64, values: &[NamedValue]) -> Result<Draft, AllocError>
    ensures { IfOk result (λ s. said_of s ≡ table.ran_reply count values.now) }
{
    let shown = values_shown(alloc, values)?;
    Ok(Draft {
        msg_type: "execute_reply",
        content: ran_content(alloc, count, shown)?,
    })
}

/// What is told of a cell with which something went wrong.
fn error_reply_content(alloc: Global, count: u64, problem: &Problem) -> Result<Value, AllocError>
    ensures { IfOk result (λ v. view v ≡ table.error_reply_content count (told problem.now)) }
{
    let traceback = traceback(alloc, &problem.evalue)?;
    let mut members = Map::new(alloc);
    put_text(alloc, &mut members, "ename", problem.ename)?;
    put_text(alloc, &mut members, "evalue", &problem.evalue)?;
    put_count(alloc, &mut members, "execution_count", count)?;
    put_text(alloc, &mut members, "status", "error")?;
    put_value(alloc, &mut members, "traceback", traceback)?;
    Ok(Value::Object(members))
}

/// The reply for a cell with which something went wrong.
#[tactic(auto, unfolding(crate::specs::Execution::error_reply))]
pub(crate) fn error_reply(alloc: Global, count: u64, problem: &Problem) -> Result<Draft, AllocError>
    ensures { IfOk result (λ s. said_of s ≡ table.error_reply count (told problem.now)) }
{
    Ok(Draft {
        msg_type: "execute_reply",
        content: error_reply_content(alloc, count, problem)?,
    })
}

/// The reply for a cell.
pub(crate) fn execute_reply(
    alloc: Global,
    count: u64,
    problem: Option<&Problem>,
    values: &[NamedValue],
) -> Result<Draft, AllocError>
    ensures { IfOk result (λ s. said_of s
        ≡ table.execute_reply count (option_map (λ p. told p.now) problem.entry) values.now) }
{
    match problem {
        None => ran_reply(alloc, count, values),
        Some(problem) => error_reply(alloc, count, problem),
    }
}

/// The text of a cell, and its number.
#[tactic(auto, unfolding(crate::specs::Execution::execute_input))]
fn execute_input(alloc: Global, code: &str, count: u64) -> Result<Draft, AllocError>
    ensures { IfOk result (λ s. said_of s ≡ table.execute_input code.now count) }
{
    let mut members = Map::new(alloc);
    put_text(alloc, &mut members, "code", code)?;
    put_count(alloc, &mut members, "execution_count", count)?;
    Ok(Draft {
        msg_type: "execute_input",
        content: Value::Object(members),
    })
}

/// What is told of the values that a cell shows.
fn execute_result_content(alloc: Global, shown: &str, count: u64) -> Result<Value, AllocError>
    ensures { IfOk result (λ v. view v ≡ table.execute_result_content shown.now count) }
{
    let data = plain(alloc, shown)?;
    let mut members = Map::new(alloc);
    put_value(alloc, &mut members, "data", data)?;
    put_count(alloc, &mut members, "execution_count", count)?;
    put_empty(alloc, &mut members, "metadata")?;
    Ok(Value::Object(members))
}

/// What a cell that ran shows.
#[tactic(auto, unfolding(crate::specs::Execution::execute_result))]
fn execute_result(alloc: Global, shown: &str, count: u64) -> Result<Draft, AllocError>
    ensures { IfOk result (λ s. said_of s ≡ table.execute_result shown.now count) }
{
    Ok(Draft {
        msg_type: "execute_result",
        content: execute_result_content(alloc, shown, count)?,
    })
}

/// What is told of what went wrong.
fn error_content(alloc: Global, problem: &Problem) -> Result<Value, AllocError>
    ensures { IfOk result (λ v. view v ≡ table.error_content (told problem.now)) }
{
    let traceback = traceback(alloc, &problem.evalue)?;
    let mut members = Map::new(alloc);
    put_text(alloc, &mut members, "ename", problem.ename)?;
    put_text(alloc, &mut members, "evalue", &problem.evalue)?;
    put_value(alloc, &mut members, "traceback", traceback)?;
    Ok(Value::Object(members))
}

/// What went wrong with a cell.
#[tactic(auto, unfolding(crate::specs::Execution::error))]
fn error(alloc: Global, problem: &Problem) -> Result<Draft, AllocError>
    ensures { IfOk result (λ s. said_of s ≡ table.error (told problem.now)) }
{
    Ok(Draft {
        msg_type: "error",
        content: error_content(alloc, problem)?,
    })
}

/// The broadcasts of a cell; of a silent one the status alone.
pub(crate) fn execute_broadcasts(
    alloc: Global,
    silent: bool,
    code: &str,
    count: u64,
    problem: Option<&Problem>,
    shown: Option<&str>,
) -> Result<Vec<Draft>, AllocError>
    ensures says { IfOk result (λ v. map said_of v.items
        ≡ table.execute_broadcasts silent code.now count (option_map (λ p. told p.now) problem.entry)
        (option_map (λ t. t.now) shown.entry)) }
    ensures few { IfOk result (λ v. vec_len v ≤ 3) }
{
    let idle = idle(alloc)?;
    if silent {
        return Ok(Vec::from_array(alloc, [idle])?);
    }
    let input = execute_input(alloc, code, count)?;
    match problem {
        Some(problem) => Ok(Vec::from_array(alloc, [input, error(alloc, problem)?, idle])?),
        None => match shown {
            Some(shown) => {
                let result = execute_result(alloc, shown, count)?;
                Ok(Vec::from_array(alloc, [input, result, idle])?)
            }
            None => Ok(Vec::from_array(alloc, [input, idle])?),
        },
    }
}
