//! The request to execute a cell (Jupyter messaging page, "Execute").
ghost use Rattle.std.specs.Prelude.{◌≡◌, ◌⊎◌, ◌++◌, ◌∷◌, [], true, false, Some, None, IfOk, IfErr, OnOk, option_map, option_and_then, unwrap_or, string_bytes};
ghost use Rattle.serde_json.specs.Find.{as_str};
ghost use Rattle.serde_json.specs.View.{view, members_view};
ghost use Rattle.jupyter_msg.specs.Asked.{Reads};
ghost use Rattle.jupyter_msg.specs.Fields.{value_at, allowed, as_texts, first_wrong, text_at, texts_in};
ghost use Rattle.jupyter_msg.specs.Requests.{IsExecute, expressions_of, fields_of};

use crate::fault::{Field, MsgFault};
use crate::fields::{flag, into_object, into_text, take_value, text, text_in, value_at};
use crate::request_type::RequestType;
use serde_json::{Map, Value};
use std::alloc::Global;

/// An expression whose value the frontend asks for beside the cell, under a name of its own.
#[derive(Debug, Drop)]
pub struct UserExpression {
    /// The name under which it is answered.
    pub name: String,
    /// The text of the expression.
    pub expression: String,
}

/// The request to execute a cell.
#[derive(Debug, Drop)]
pub struct ExecuteRequest {
    /// The text of the cell.
    pub code: String,
    /// Nothing is broadcast but the status; `false` where the field is missing.
    pub silent: bool,
    /// The cell is counted and kept in the input history. Where the field is missing it is `true`, and `false` for a
    /// silent cell.
    pub store_history: bool,
    /// The expressions, in the order of their names' octets; none where the field is missing.
    pub user_expressions: Vec<UserExpression>,
}

/// The expression of one member.
fn expression_of(alloc: Global, name: &str, value: &Value) -> Result<UserExpression, MsgFault>
    ensures name { IfOk result (λ e. string_bytes e.name ≡ name.now) }
    ensures text { IfOk result (λ e. as_str (view value.now) ≡ Some (string_bytes e.expression)) }
    ensures refused { IfErr result (λ e. (e ≡ MsgFault.Memory)
        ⊎ ((e ≡ MsgFault.BadField Field.UserExpressions) × (as_str (view value.now) ≡ None))) }
{
    match value.as_str() {
        Some(text) => Ok(UserExpression {
            name: String::from_str(alloc, name)?,
            expression: String::from_str(alloc, text)?,
        }),
        None => Err(MsgFault::BadField(Field::UserExpressions)),
    }
}

/// Adds the expression of one member.
fn push_expression(
    alloc: Global,
    expressions: &mut Vec<UserExpression>,
    name: &str,
    value: &Value,
) -> Result<(), MsgFault>
    ensures more { OnOk result ((e : UserExpression) × (expressions.new.items ≡ expressions.old.items ++ e ∷ [])
        × (string_bytes e.name ≡ name.now) × (as_str (view value.now) ≡ Some (string_bytes e.expression))) }
    ensures refused { IfErr result (λ e. (e ≡ MsgFault.Memory)
        ⊎ ((e ≡ MsgFault.BadField Field.UserExpressions) × (as_str (view value.now) ≡ None))) }
{
    let expression = expression_of(alloc, name, value)?;
    expressions.push(expression)?;
    Ok(())
}

/// The expressions of an object whose members are all texts.
fn expressions_in(alloc: Global, map: &Map<String, Value>) -> Result<Vec<UserExpression>, MsgFault>
    ensures value { IfOk result (λ v. texts_in (members_view map.now.entries)
        ≡ Some (expressions_of v.items)) }
    ensures refused { IfErr result (λ e. (e ≡ MsgFault.Memory)
        ⊎ ((e ≡ MsgFault.BadField Field.UserExpressions)
        × (texts_in (members_view map.now.entries) ≡ None))) }
{
    let mut expressions = Vec::with_capacity(alloc, map.len())?;
    for (name, value) in map.iter() {
        push_expression(alloc, &mut expressions, name, value)?;
    }
    Ok(expressions)
}

/// The expressions of the field `user_expressions`, none where it is missing.
fn expressions(alloc: Global, content: &Value) -> Result<Vec<UserExpression>, MsgFault>
    ensures value { IfOk result (λ v. expressions_of v.items
        ≡ unwrap_or (option_and_then as_texts (value_at Field.UserExpressions (view content.now))) []) }
    ensures fits { IfOk result (λ v. allowed as_texts (value_at Field.UserExpressions (view content.now))
        ≡ true) }
    ensures refused { IfErr result (λ e. (e ≡ MsgFault.Memory)
        ⊎ ((e ≡ MsgFault.BadField Field.UserExpressions)
        × (allowed as_texts (value_at Field.UserExpressions (view content.now)) ≡ false))) }
{
    match value_at(content, Field::UserExpressions) {
        None => Ok(Vec::new(alloc)),
        Some(value) => match value.as_object() {
            Some(map) => expressions_in(alloc, map),
            None => Err(MsgFault::BadField(Field::UserExpressions)),
        },
    }
}

/// Adds the expression of one member that is handed over.
fn push_taken(
    expressions: &mut Vec<UserExpression>,
    name: String,
    value: Value,
) -> Result<(), MsgFault>
    ensures more { OnOk result ((e : UserExpression) × (expressions.new.items ≡ expressions.old.items ++ e ∷ [])
        × (string_bytes e.name ≡ string_bytes name) × (as_str (view value) ≡ Some (string_bytes e.expression))) }
    ensures refused { IfErr result (λ e. (e ≡ MsgFault.Memory)
        ⊎ ((e ≡ MsgFault.BadField Field.UserExpressions) × (as_str (view value) ≡ None))) }
{
    let Some(expression) = into_text(value) else {
        return Err(MsgFault::BadField(Field::UserExpressions));
    };
    expressions.push(UserExpression { name, expression })?;
    Ok(())
}

/// The expressions of an object whose members are all texts: names and texts are moved.
fn taken_expressions(
    alloc: Global,
    map: Map<String, Value>,
) -> Result<Vec<UserExpression>, MsgFault>
    ensures value { IfOk result (λ v. texts_in (members_view map.entries)
        ≡ Some (expressions_of v.items)) }
    ensures refused { IfErr result (λ e. (e ≡ MsgFault.Memory)
        ⊎ ((e ≡ MsgFault.BadField Field.UserExpressions)
        × (texts_in (members_view map.entries) ≡ None))) }
{
    let mut expressions = Vec::with_capacity(alloc, map.len())?;
    for (name, value) in map {
        push_taken(&mut expressions, name, value)?;
    }
    Ok(expressions)
}

/// The expressions of a value that is taken out of the field `user_expressions`, none where it is missing.
fn expressions_of_value(
    alloc: Global,
    value: Option<Value>,
) -> Result<Vec<UserExpression>, MsgFault>
    ensures value { IfOk result (λ v. expressions_of v.items
        ≡ unwrap_or (option_and_then as_texts (option_map view value)) []) }
    ensures fits { IfOk result (λ v. allowed as_texts (option_map view value) ≡ true) }
    ensures refused { IfErr result (λ e. (e ≡ MsgFault.Memory)
        ⊎ ((e ≡ MsgFault.BadField Field.UserExpressions)
        × (allowed as_texts (option_map view value) ≡ false))) }
{
    match value {
        None => Ok(Vec::new(alloc)),
        Some(value) => match into_object(value) {
            Some(map) => taken_expressions(alloc, map),
            None => Err(MsgFault::BadField(Field::UserExpressions)),
        },
    }
}

/// The text of a value that is taken out of the field `code`.
fn text_of_value(value: Option<Value>) -> Result<String, MsgFault>
    ensures value { IfOk result (λ t. option_and_then as_str (option_map view value) ≡ Some (string_bytes t)) }
    ensures refused { IfErr result (λ e. (e ≡ MsgFault.BadField Field.Code)
        × (option_and_then as_str (option_map view value) ≡ None)) }
{
    value
        .and_then(into_text)
        .ok_or(MsgFault::BadField(Field::Code))
}

/// The text of the cell and the expressions, taken out of the content.
fn take_texts(alloc: Global, content: Value) -> Result<(String, Vec<UserExpression>), MsgFault>
    ensures code { IfOk result (λ x. text_at Field.Code (view content) ≡ Some (string_bytes x.0)) }
    ensures value { IfOk result (λ x. expressions_of x.1.items
        ≡ unwrap_or (option_and_then as_texts (value_at Field.UserExpressions (view content))) []) }
    ensures fits { IfOk result (λ x. allowed as_texts (value_at Field.UserExpressions (view content)) ≡ true) }
    ensures refused { IfErr result (λ e. (e ≡ MsgFault.Memory)
        ⊎ ((e ≡ MsgFault.BadField Field.Code) × (text_at Field.Code (view content) ≡ None))
        ⊎ ((e ≡ MsgFault.BadField Field.UserExpressions)
        × (allowed as_texts (value_at Field.UserExpressions (view content)) ≡ false))) }
{
    let Some(mut members) = into_object(content) else {
        return Err(MsgFault::BadField(Field::Code));
    };
    let expressions = take_value(&mut members, Field::UserExpressions);
    let expressions = expressions_of_value(alloc, expressions)?;
    let code = text_of_value(take_value(&mut members, Field::Code))?;
    Ok((code, expressions))
}

impl ExecuteRequest {
    /// Reads the content of an `execute_request`.
    pub(crate) fn read(alloc: Global, content: &Value) -> Result<ExecuteRequest, MsgFault>
        ensures { Reads (IsExecute (view content.now)) result
            (first_wrong (fields_of RequestType.Execute) (view content.now)) }
    {
        let code = text(alloc, content, Field::Code)?;
        let silent = flag(content, Field::Silent)?.unwrap_or(false);
        let store_history = flag(content, Field::StoreHistory)?.unwrap_or(!silent);
        let user_expressions = expressions(alloc, content)?;
        Ok(ExecuteRequest {
            code,
            silent,
            store_history,
            user_expressions,
        })
    }

    /// As [`ExecuteRequest::read`], of a content that is handed over: the text of the cell and the expressions are moved out of it.
    pub(crate) fn take(alloc: Global, content: Value) -> Result<ExecuteRequest, MsgFault>
        ensures { Reads (IsExecute (view content)) result
            (first_wrong (fields_of RequestType.Execute) (view content)) }
    {
        text_in(&content, Field::Code)?;
        let silent = flag(&content, Field::Silent)?.unwrap_or(false);
        let store_history = flag(&content, Field::StoreHistory)?.unwrap_or(!silent);
        let (code, user_expressions) = take_texts(alloc, content)?;
        Ok(ExecuteRequest {
            code,
            silent,
            store_history,
            user_expressions,
        })
    }
}
