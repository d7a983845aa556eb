//! What stands at a cursor. Positions count code points.
ghost use Rattle.std.specs.Prelude.{◌≡◌, ◌++◌, ◌+◌, ◌≤◌, length, take, drop, string_bytes, IfOk, OnOk};
ghost use Rattle.std.specs.List.{list_all};
ghost use Rattle.std.specs.Str.{chars};
ghost use Rattle.kernel_ask.specs.Cursor.{is_letter as is_letter_of, goes_on as goes_on_of, is_name, longest_end, first_run, before, behind};
ghost use Rattle.kernel_ask.specs.Cursor.{word_at as word_at_of};
ghost use Rattle.kernel_ask.specs.Grown.{grown_name, grown_run};

use std::alloc::{AllocError, Global};

/// Whether a name can begin with the character.
fn is_letter(c: char) -> bool
    ensures { result ≡ is_letter_of c }
{
    ('A'..='Z').contains(&c) || ('a'..='z').contains(&c)
}

/// Whether a name can go on with the character.
fn goes_on(c: char) -> bool
    ensures { result ≡ goes_on_of c }
{
    is_letter(c) || ('0'..='9').contains(&c) || c == '_'
}

/// Adds a character to the name that stands in front of it, or drops the name.
fn grow_name(name: &mut String, c: char) -> Result<(), AllocError>
    ensures { OnOk result (string_bytes name.new ≡ grown_name (string_bytes name.old) c) }
{
    let fits = if name.is_empty() {
        is_letter(c)
    } else {
        goes_on(c)
    };
    if fits {
        name.push(c)?;
    } else {
        name.clear();
    }
    Ok(())
}

/// The longest name at the end of the characters, maybe empty.
#[tactic(auto, using(crate::proofs::Ends::name_end_step))]
fn last_name(alloc: Global, characters: &[char]) -> Result<String, AllocError>
    ensures { IfOk result (λ name. string_bytes name ≡ longest_end is_name characters.now) }
{
    let mut name = String::new(alloc);
    for c in characters {
        grow_name(&mut name, *c)?;
    }
    Ok(name)
}

/// Adds a character to the run that stands in front of it, or drops the run.
fn grow_run(run: &mut String, c: char) -> Result<(), AllocError>
    ensures { OnOk result (string_bytes run.new ≡ grown_run (string_bytes run.old) c) }
{
    if goes_on(c) {
        run.push(c)?;
    } else {
        run.clear();
    }
    Ok(())
}

/// The longest run of letters, digits and `_` at the end of the characters.
#[tactic(auto, using(crate::proofs::Ends::run_end_step))]
fn last_run(alloc: Global, characters: &[char]) -> Result<String, AllocError>
    ensures { IfOk result (λ run. string_bytes run ≡ longest_end (list_all goes_on_of) characters.now) }
{
    let mut run = String::new(alloc);
    for c in characters {
        grow_run(&mut run, *c)?;
    }
    Ok(run)
}

/// Adds the longest run at the beginning of the characters.
fn push_run(run: &mut String, characters: &[char]) -> Result<(), AllocError>
    ensures { OnOk result (string_bytes run.new ≡ string_bytes run.old ++ first_run characters.now) }
{
    for c in characters {
        if !goes_on(*c) {
            return Ok(());
        }
        run.push(*c)?;
    }
    Ok(())
}

/// The characters of the code.
fn characters_of(alloc: Global, code: &str) -> Result<Vec<char>, AllocError>
    ensures { IfOk result (λ v. v.items ≡ chars code.now) }
{
    code.chars().collect(alloc)
}

/// How many of the characters stand in front of the cursor. One past the end is the end, and so is none.
fn place(characters: &[char], cursor: Option<u64>) -> usize
    ensures within { result ≤ length characters.now }
    ensures front { take result characters.now ≡ before cursor characters.now }
    ensures back { drop result characters.now ≡ behind cursor characters.now }
{
    match cursor {
        Some(n) if n < characters.len() as u64 => n as usize,
        _ => characters.len(),
    }
}

/// The longest name that ends at a cursor, and where it stands.
#[derive(Drop)]
pub(crate) struct Prefix {
    pub(crate) name: String,
    pub(crate) start: usize,
    pub(crate) end: usize,
}

/// The longest name that ends at the cursor, maybe empty, and where it stands.
#[tactic(auto, using(crate::proofs::Ends::length_name_end))]
pub(crate) fn prefix_at(
    alloc: Global,
    code: &str,
    cursor: Option<u64>,
) -> Result<Prefix, AllocError>
    ensures name { IfOk result (λ p. string_bytes p.name ≡ longest_end is_name (before cursor (chars code.now))) }
    ensures end { IfOk result (λ p. p.«end» ≡ length (before cursor (chars code.now))) }
    ensures start { IfOk result (λ p. p.start + length (string_bytes p.name) ≡ p.«end») }
{
    let characters = characters_of(alloc, code)?;
    let end = place(&characters, cursor);
    let name = last_name(alloc, &characters[..end])?;
    let start = end - name.as_str().len();
    Ok(Prefix { name, start, end })
}

/// The run of letters, digits and `_` that touches the cursor on either side.
pub(crate) fn word_at(alloc: Global, code: &str, cursor: Option<u64>) -> Result<String, AllocError>
    ensures { IfOk result (λ word. string_bytes word ≡ word_at_of cursor (chars code.now)) }
{
    let characters = characters_of(alloc, code)?;
    let at = place(&characters, cursor);
    let mut word = last_run(alloc, &characters[..at])?;
    push_run(&mut word, &characters[at..])?;
    Ok(word)
}
