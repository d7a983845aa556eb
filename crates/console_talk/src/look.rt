//! Looking into the content of an answer.
ghost use Rattle.std.specs.Prelude.{◌≡◌, Bool, option_map};
ghost use Rattle.serde_json.specs.Find.{get};
ghost use Rattle.serde_json.specs.View.{view};
ghost use Rattle.console_talk.specs.Look.{count_in, is_word, text_in};

use serde_json::Value;

/// The member of this name, if the value is an object that has it.
pub(crate) fn member_in<'a>(value: &'a Value, name: &str) -> Option<&'a Value>
    ensures { option_map (λ v. view v.now) result ≡ get name.now (view value.now) }
{
    value.get(name)
}

/// The text of the member of this name, if it is one.
#[tactic(auto, unfolding(crate::specs::Look::text_in))]
pub(crate) fn text_in<'a>(value: &'a Value, name: &str) -> Option<&'a str>
    ensures { option_map (λ t. t.now) result ≡ text_in name.now (view value.now) }
{
    member_in(value, name).and_then(Value::as_str)
}

/// The whole number of the member of this name, if it is one from 0 on.
#[tactic(auto, unfolding(crate::specs::Look::count_in))]
pub(crate) fn count_in(value: &Value, name: &str) -> Option<u64>
    ensures { result ≡ count_in name.now (view value.now) }
{
    member_in(value, name).and_then(Value::as_u64)
}

/// Whether the member of this name is this text.
#[tactic(auto, unfolding(crate::specs::Look::is_word))]
pub(crate) fn is_word(value: &Value, name: &str, word: &str) -> bool
    ensures { result ≡ is_word name.now word.now (view value.now) }
{
    match text_in(value, name) {
        Some(text) => text == word,
        None => false,
    }
}
