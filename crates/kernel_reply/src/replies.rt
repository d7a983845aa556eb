//! The replies to what is asked (Jupyter messaging page: "Kernel info", "Completion", "Introspection", "Code completeness", "History", "Kernel
//! interrupt", "Kernel shutdown").
ghost use Rattle.std.specs.Prelude.{◌≡◌, [], true, false, map, IfOk, option_map};
ghost use Rattle.serde_json.specs.View.{view};
ghost use Rattle.serde_json.specs.Written.{has_float};
ghost use Rattle.kernel_message.specs.Draft.{said_of};
ghost use Rattle.kernel_message.specs.Json.{list, record_of};
ghost use Rattle.kernel_reply.specs.Replies as table;
ghost use Rattle.kernel_reply.specs.Status.{plain as plain_of};

use crate::lists::texts;
use crate::status::plain;
use kernel_ask::{Completeness, Completion, Input};
use kernel_message::{Draft, put_count, put_empty, put_flag, put_text, put_value};
use serde_json::{Map, Value};
use std::alloc::{AllocError, Global};

/// A list of nothing.
fn no_items(alloc: Global) -> Value
    ensures { view result ≡ list [] }
{
    Value::Array(Vec::new(alloc))
}

/// The language.
fn language_info(alloc: Global) -> Result<Value, AllocError>
    ensures { IfOk result (λ v. view v ≡ table.language_info) }
{
    let mut members = Map::new(alloc);
    put_text(alloc, &mut members, "file_extension", ".janus")?;
    put_text(alloc, &mut members, "mimetype", "text/x-janus")?;
    put_text(alloc, &mut members, "name", "janus")?;
    put_text(alloc, &mut members, "version", "2008")?;
    Ok(Value::Object(members))
}

/// What the kernel is.
fn kernel_info(alloc: Global) -> Result<Value, AllocError>
    ensures { IfOk result (λ v. view v ≡ table.kernel_info) }
{
    let language_info = language_info(alloc)?;
    let mut members = Map::new(alloc);
    put_text(alloc, &mut members, "banner", "Janus with undo")?;
    put_value(alloc, &mut members, "help_links", no_items(alloc))?;
    put_text(alloc, &mut members, "implementation", "janus-shared")?;
    put_text(alloc, &mut members, "implementation_version", "1.0.0")?;
    put_value(alloc, &mut members, "language_info", language_info)?;
    put_text(alloc, &mut members, "protocol_version", "5.4")?;
    put_text(alloc, &mut members, "status", "ok")?;
    Ok(Value::Object(members))
}

/// The reply that says what the kernel is.
pub(crate) fn kernel_info_reply(alloc: Global) -> Result<Draft, AllocError>
    ensures { IfOk result (λ s. said_of s ≡ table.kernel_info_reply) }
{
    Ok(Draft {
        msg_type: "kernel_info_reply",
        content: kernel_info(alloc)?,
    })
}

/// The names that fit, as a list, and where they stand.
#[tactic(auto, using(crate::proofs::Holes::complete_plain))]
fn complete_content(
    alloc: Global,
    completion: &Completion,
    matches: Value,
) -> Result<Value, AllocError>
    requires { has_float (view matches) ≡ false }
    ensures no_float { IfOk result (λ v. has_float (view v) ≡ false) }
    ensures value { IfOk result (λ v. view v ≡ table.complete_content completion.now (view matches)) }
{
    let mut members = Map::new(alloc);
    put_count(alloc, &mut members, "cursor_end", completion.end as u64)?;
    put_count(alloc, &mut members, "cursor_start", completion.start as u64)?;
    put_value(alloc, &mut members, "matches", matches)?;
    put_empty(alloc, &mut members, "metadata")?;
    put_text(alloc, &mut members, "status", "ok")?;
    Ok(Value::Object(members))
}

/// The names that fit.
pub(crate) fn complete_reply(alloc: Global, completion: &Completion) -> Result<Draft, AllocError>
    ensures { IfOk result (λ s. said_of s ≡ table.complete_reply completion.now) }
{
    let matches = texts(alloc, &completion.matches)?;
    Ok(Draft {
        msg_type: "complete_reply",
        content: complete_content(alloc, completion, matches)?,
    })
}

/// What is known of a name.
fn known_shown(alloc: Global, text: &str) -> Result<Value, AllocError>
    ensures { IfOk result (λ v. view v ≡ table.inspect_content (plain_of text.now) true) }
{
    let data = plain(alloc, text)?;
    let mut members = Map::new(alloc);
    put_value(alloc, &mut members, "data", data)?;
    put_flag(alloc, &mut members, "found", true)?;
    put_empty(alloc, &mut members, "metadata")?;
    put_text(alloc, &mut members, "status", "ok")?;
    Ok(Value::Object(members))
}

/// Nothing is known of a name.
fn unknown_shown(alloc: Global) -> Result<Value, AllocError>
    ensures { IfOk result (λ v. view v ≡ table.inspect_content (record_of []) false) }
{
    let mut members = Map::new(alloc);
    put_empty(alloc, &mut members, "data")?;
    put_flag(alloc, &mut members, "found", false)?;
    put_empty(alloc, &mut members, "metadata")?;
    put_text(alloc, &mut members, "status", "ok")?;
    Ok(Value::Object(members))
}

/// What is known of a name, if anything is.
pub(crate) fn inspect_reply(alloc: Global, known: Option<&str>) -> Result<Draft, AllocError>
    ensures { IfOk result (λ s. said_of s ≡ table.inspect_reply (option_map (λ t. t.now) known.entry)) }
{
    match known {
        Some(text) => Ok(Draft {
            msg_type: "inspect_reply",
            content: known_shown(alloc, text)?,
        }),
        None => Ok(Draft {
            msg_type: "inspect_reply",
            content: unknown_shown(alloc)?,
        }),
    }
}

/// A status of code, and nothing more.
fn status_word(alloc: Global, word: &str) -> Result<Value, AllocError>
    ensures { IfOk result (λ v. view v ≡ table.status_word word.now) }
{
    let mut members = Map::new(alloc);
    put_text(alloc, &mut members, "status", word)?;
    Ok(Value::Object(members))
}

/// The status of code to which more has to come, with no indent.
fn incomplete(alloc: Global) -> Result<Value, AllocError>
    ensures { IfOk result (λ v. view v ≡ table.incomplete) }
{
    let mut members = Map::new(alloc);
    put_text(alloc, &mut members, "indent", "")?;
    put_text(alloc, &mut members, "status", "incomplete")?;
    Ok(Value::Object(members))
}

/// The status of code.
fn completeness_content(alloc: Global, code_is: Completeness) -> Result<Value, AllocError>
    ensures no_float { IfOk result (λ v. has_float (view v) ≡ false) }
    ensures value { IfOk result (λ v. view v ≡ table.completeness_content code_is) }
{
    match code_is {
        Completeness::Complete => status_word(alloc, "complete"),
        Completeness::Incomplete => incomplete(alloc),
        Completeness::Invalid => status_word(alloc, "invalid"),
        Completeness::Unknown => status_word(alloc, "unknown"),
    }
}

/// Whether code can be executed as it stands.
pub(crate) fn is_complete_reply(alloc: Global, code_is: Completeness) -> Result<Draft, AllocError>
    ensures { IfOk result (λ s. said_of s ≡ table.is_complete_reply code_is) }
{
    Ok(Draft {
        msg_type: "is_complete_reply",
        content: completeness_content(alloc, code_is)?,
    })
}

/// The text of an input, beside the output if that is asked for: none is kept.
fn input_text(alloc: Global, output: bool, code: &str) -> Result<Value, AllocError>
    ensures { IfOk result (λ v. view v ≡ table.input_text output code.now) }
{
    let text = Value::try_from_str(alloc, code)?;
    if output {
        let items = Vec::from_array(alloc, [text, Value::Null])?;
        return Ok(Value::Array(items));
    }
    Ok(text)
}

/// An input of session 1.
fn input_shown(alloc: Global, output: bool, input: &Input) -> Result<Value, AllocError>
    ensures { IfOk result (λ v. view v ≡ table.input_shown output input.now) }
{
    let text = input_text(alloc, output, &input.code)?;
    let session: u64 = 1;
    let items = Vec::from_array(
        alloc,
        [Value::from(session), Value::from(input.number), text],
    )?;
    Ok(Value::Array(items))
}

/// The inputs as values.
fn input_items(alloc: Global, output: bool, inputs: &[Input]) -> Result<Vec<Value>, AllocError>
    ensures { IfOk result (λ v. map view v.items ≡ map (table.input_shown output) inputs.now) }
{
    let mut items = Vec::new(alloc);
    for input in inputs {
        items.push(input_shown(alloc, output, input)?)?;
    }
    Ok(items)
}

/// The inputs as a list.
fn inputs_shown(alloc: Global, output: bool, inputs: &[Input]) -> Result<Value, AllocError>
    ensures { IfOk result (λ v. view v ≡ list (map (table.input_shown output) inputs.now)) }
{
    let items = input_items(alloc, output, inputs)?;
    Ok(Value::Array(items))
}

/// A list of inputs as the history.
#[tactic(auto, using(crate::proofs::Holes::history_plain))]
fn history_content(alloc: Global, inputs: Value) -> Result<Value, AllocError>
    requires { has_float (view inputs) ≡ false }
    ensures no_float { IfOk result (λ v. has_float (view v) ≡ false) }
    ensures value { IfOk result (λ v. view v ≡ table.history_content (view inputs)) }
{
    let mut members = Map::new(alloc);
    put_value(alloc, &mut members, "history", inputs)?;
    put_text(alloc, &mut members, "status", "ok")?;
    Ok(Value::Object(members))
}

/// The input history.
pub(crate) fn history_reply(
    alloc: Global,
    output: bool,
    inputs: &[Input],
) -> Result<Draft, AllocError>
    ensures { IfOk result (λ s. said_of s ≡ table.history_reply output inputs.now) }
{
    let shown = inputs_shown(alloc, output, inputs)?;
    Ok(Draft {
        msg_type: "history_reply",
        content: history_content(alloc, shown)?,
    })
}

/// What is told where the history is to be searched.
fn no_search(alloc: Global) -> Result<Value, AllocError>
    ensures { IfOk result (λ v. view v ≡ table.no_search) }
{
    let mut members = Map::new(alloc);
    put_text(alloc, &mut members, "ename", "LeftOut")?;
    put_text(alloc, &mut members, "evalue", "history search")?;
    put_text(alloc, &mut members, "status", "error")?;
    put_value(alloc, &mut members, "traceback", no_items(alloc))?;
    Ok(Value::Object(members))
}

/// The history is not searched.
pub(crate) fn no_search_reply(alloc: Global) -> Result<Draft, AllocError>
    ensures { IfOk result (λ s. said_of s ≡ table.no_search_reply) }
{
    Ok(Draft {
        msg_type: "history_reply",
        content: no_search(alloc)?,
    })
}

/// An interrupt was passed on.
pub(crate) fn interrupt_reply(alloc: Global) -> Result<Draft, AllocError>
    ensures { IfOk result (λ s. said_of s ≡ table.interrupt_reply) }
{
    Ok(Draft {
        msg_type: "interrupt_reply",
        content: status_word(alloc, "ok")?,
    })
}

/// The kernel ends.
pub(crate) fn shutdown_reply(alloc: Global, restart: bool) -> Result<Draft, AllocError>
    ensures { IfOk result (λ s. said_of s ≡ table.shutdown_reply restart) }
{
    let mut members = Map::new(alloc);
    put_flag(alloc, &mut members, "restart", restart)?;
    put_text(alloc, &mut members, "status", "ok")?;
    Ok(Draft {
        msg_type: "shutdown_reply",
        content: Value::Object(members),
    })
}
