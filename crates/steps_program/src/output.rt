//! What is written. The writer is memory: a write fails for want of it alone, and so does what can't be told because a body wasn't met.
ghost use Rattle.std.specs.Borrow.{Bor};
ghost use Rattle.std.specs.Global.{Vec};
ghost use Rattle.std.specs.Prelude.{◌≡◌, ◌<◌, ◌++◌, ℕ, List, OnOk, Option, Some, Result, map, slice_get};
ghost use Rattle.std.specs.Str.Pattern.{GetsRange};
ghost use Rattle.std.specs.Io.KnownBytes.{Appends};
ghost use Rattle.janus_meaning.specs.Syntax.{Name};
ghost use Rattle.janus_meaning.specs.World.{listed};
ghost use Rattle.janus_syntax.specs.Text.{IsLexed};
ghost use Rattle.janus_syntax.specs.declared.fault.SyntaxFault.{SyntaxFault as TheFault};
ghost use Rattle.janus_syntax.specs.declared.token.Token.{Token as TheToken};
ghost use Rattle.kernel_text.specs.Lines.{named_text};
ghost use Rattle.kernel_text.specs.ValueTexts.{value_text};
ghost use Rattle.cells_program.specs.Lines.{ended_line};
ghost use Rattle.cells_program.specs.Shown.{value_lines};
ghost use Rattle.steps_walk.specs.Sights.{AreInSight};
ghost use Rattle.steps_walk.specs.Standing.{name_of};
ghost use Rattle.steps_walk.specs.Values.{sighted, value_or_lent};
ghost use Rattle.steps_walk.specs.Walk.{calls_in, slots_in};
ghost use Rattle.steps_program.specs.Places.{lines_of, place_in, source_of as source_of_node};
ghost use Rattle.steps_program.specs.Told.{again as again_of, begins as begins_of, leaves as leaves_of, turned as turned_of, word_of as form_word};
ghost use Rattle.steps_program.specs.Told.{called as called_of, is_listed as is_listed_of, mark as mark_of, middle as middle_of};
ghost use Rattle.steps_program.specs.Told.{counted_line, named_line, onward_text, part_text, name_text, way_text, code_text, place_text, source_line};
ghost use Rattle.steps_program.specs.Told.{end_text, doing_text, there_text, step_text, callee_text, caller_text, from_text};
ghost use Rattle.steps_program.specs.Told.{listed_line, line_listed, lines_listed};
ghost use Rattle.steps_program.specs.Told.{is_name as is_name_of, stands_among as stands_among_of, read_line, reads_text};
ghost use Rattle.steps_program.specs.Told.{TellsTokens, TellsPart, TellsStep, TellsNames, TellsCall, TellsFirstCalls, TellsCalls, TellsLines};

use crate::place::{Place, line_of, place_at, split_line};
use crate::source::{Source, source_of};
use cells_program::{WriteFailed, send, send_counted, send_value};
use janus_syntax::SyntaxFault;
use std::alloc::Global;
use std::io::Write;
use std::sync::ledger::Ledger;
use steps_walk::{Branch, Form, Level, Part, Sight, Span, Spot, Token, TokenKind, Walk, tokens};

/// Writes words, and ends the line.
pub(crate) fn send_ended<W: Write>(writer: &mut W, words: &str) -> Result<(), WriteFailed>
    ensures { OnOk result (Appends (W.contents writer.old) (W.contents writer.new) (ended_line words.now)) }
{
    send(writer, words.as_bytes())?;
    send(writer, b"\n")
}

/// Writes words and a number, and ends the line.
pub(crate) fn send_counted_line<W: Write>(
    writer: &mut W,
    words: &str,
    n: u64,
) -> Result<(), WriteFailed>
    ensures { OnOk result (Appends (W.contents writer.old) (W.contents writer.new) (counted_line words.now n)) }
{
    send_counted(writer, words, n)?;
    send(writer, b"\n")
}

/// Writes a space and a name.
pub(crate) fn send_named<W: Write>(writer: &mut W, name: &str) -> Result<(), WriteFailed>
    ensures { OnOk result (Appends (W.contents writer.old) (W.contents writer.new) (named_text name.now)) }
{
    send(writer, b" ")?;
    send(writer, name.as_bytes())
}

/// Writes a space and a name, and ends the line.
pub(crate) fn send_named_line<W: Write>(writer: &mut W, name: &str) -> Result<(), WriteFailed>
    ensures { OnOk result (Appends (W.contents writer.old) (W.contents writer.new) (named_line name.now)) }
{
    send_named(writer, name)?;
    send(writer, b"\n")
}

/// A statement in a word.
fn word_of(form: Form) -> &'static str
    ensures { result.now ≡ form_word form }
{
    match form {
        Form::Skip => "skip",
        Form::Assign | Form::AssignElement => "assignment",
        Form::Push => "push",
        Form::Pop => "pop",
        Form::Swap => "swap",
        Form::If => "if",
        Form::Loop => "loop",
        Form::LocalInt | Form::LocalStack => "local",
        Form::Call => "call",
        Form::Uncall => "uncall",
    }
}

/// What the step does that begins a statement.
fn begins(form: Form) -> &'static str
    ensures { result.now ≡ begins_of form }
{
    match form {
        Form::If => " test of ",
        Form::Loop => " entry of ",
        _ => " before ",
    }
}

/// What the step does behind a statement's second block.
fn again(form: Form) -> &'static str
    ensures { result.now ≡ again_of form }
{
    match form {
        Form::Loop => " again of ",
        _ => " exit of ",
    }
}

/// What the step does behind one of a statement's blocks.
fn leaves(form: Form, branch: Branch) -> &'static str
    ensures { result.now ≡ leaves_of form branch }
{
    match branch {
        Branch::First => " exit of ",
        Branch::Second => again(form),
    }
}

/// Writes words in front of a statement, and that in a word.
fn send_form<W: Write>(writer: &mut W, words: &str, form: Form) -> Result<(), WriteFailed>
    ensures { OnOk result (Appends (W.contents writer.old) (W.contents writer.new) (words.now ++ form_word form)) }
{
    send(writer, words.as_bytes())?;
    send(writer, word_of(form).as_bytes())
}

/// Writes what the next step does, where code runs as it is written.
fn send_onward<W: Write>(writer: &mut W, part: Part) -> Result<(), WriteFailed>
    ensures { OnOk result (Appends (W.contents writer.old) (W.contents writer.new) (onward_text part)) }
{
    match part {
        Part::Begin => send(writer, b" begin"),
        Part::End => send(writer, b" end"),
        Part::Before(form) => send_form(writer, begins(form), form),
        Part::After(form) => send_form(writer, " behind ", form),
        Part::Enters(form, _) => send_form(writer, " into ", form),
        Part::Leaves(form, branch) => send_form(writer, leaves(form, branch), form),
    }
}

/// The part that a step of the inverse is.
fn turned(part: Part) -> Part
    ensures { result ≡ turned_of part }
{
    match part {
        Part::Begin => Part::End,
        Part::End => Part::Begin,
        Part::Before(form) => Part::After(form),
        Part::After(form) => Part::Before(form),
        Part::Enters(form, branch) => Part::Leaves(form, branch),
        Part::Leaves(form, branch) => Part::Enters(form, branch),
    }
}

/// Writes what the next step does.
fn send_part<W: Write>(writer: &mut W, part: Part, inverse: bool) -> Result<(), WriteFailed>
    ensures { OnOk result (Appends (W.contents writer.old) (W.contents writer.new) (part_text inverse part)) }
{
    if inverse {
        return send_onward(writer, turned(part));
    }
    send_onward(writer, part)
}

/// Writes a place, if there is one, with a space in front.
fn send_place<W: Write>(writer: &mut W, place: Option<Place>) -> Result<(), WriteFailed>
    ensures { OnOk result (Appends (W.contents writer.old) (W.contents writer.new) (place_text place)) }
{
    let Some(place) = place else {
        return Ok(());
    };
    send_counted(writer, " line ", place.line as u64)?;
    send_counted(writer, " column ", place.column as u64)
}

/// Where a spot stands in the file.
pub(crate) fn place_of(source: &Source, spot: Spot) -> Option<Place>
    ensures { result ≡ place_in source.now spot.span }
{
    let span = spot.span?;
    Some(place_at(source.text.as_str(), source.first_line, span.start))
}

/// Writes in which procedure a level stands, if in one.
fn send_name<L: Ledger, W: Write>(
    writer: &mut W,
    walk: &Walk<L>,
    level: &Level,
) -> Result<(), WriteFailed>
    ensures { OnOk result (Appends (W.contents writer.old) (W.contents writer.new) (name_text (name_of walk.now level.now))) }
{
    let Some(name) = walk.procedure_name(level) else {
        return Ok(());
    };
    send(writer, b" in ")?;
    send(writer, name.as_bytes())
}

/// Writes which way code runs.
fn send_way<W: Write>(writer: &mut W, inverse: bool) -> Result<(), WriteFailed>
    ensures { OnOk result (Appends (W.contents writer.old) (W.contents writer.new) (way_text inverse)) }
{
    if inverse {
        return send(writer, b" inverse");
    }
    Ok(())
}

/// Writes in which code a level stands, and which way that runs.
fn send_code<L: Ledger, W: Write>(
    writer: &mut W,
    walk: &Walk<L>,
    level: &Level,
) -> Result<(), WriteFailed>
    ensures { OnOk result (Appends (W.contents writer.old) (W.contents writer.new)
        (code_text (name_of walk.now level.now) level.now.inverse)) }
{
    send_name(writer, walk, level)?;
    send_way(writer, level.inverse)
}

/// Writes the line of a text on which a place is, if there is one.
fn send_source<W: Write>(
    writer: &mut W,
    source: &Source,
    place: Option<Place>,
) -> Result<(), WriteFailed>
    ensures { OnOk result (Appends (W.contents writer.old) (W.contents writer.new) (source_line source.now place)) }
{
    let Some(place) = place else {
        return Ok(());
    };
    let Some(line) = line_of(source.text.as_str(), source.first_line, place.line) else {
        return Ok(());
    };
    send(writer, b"  ")?;
    send_ended(writer, line.trim())
}

/// Ends the line of a step, and writes the line of the text.
fn send_end<W: Write>(
    writer: &mut W,
    source: &Source,
    place: Option<Place>,
) -> Result<(), WriteFailed>
    ensures { OnOk result (Appends (W.contents writer.old) (W.contents writer.new) (end_text source.now place)) }
{
    send(writer, b"\n")?;
    send_source(writer, source, place)
}

/// Writes what a step does in which code, and the line of the text.
fn send_doing<L: Ledger, W: Write>(
    writer: &mut W,
    walk: &Walk<L>,
    source: &Source,
    level: &Level,
    spot: Spot,
) -> Result<(), WriteFailed>
    ensures { OnOk result (Appends (W.contents writer.old) (W.contents writer.new)
        (doing_text source.now (name_of walk.now level.now) level.now spot)) }
{
    send_part(writer, spot.part, level.inverse)?;
    send_code(writer, walk, level)?;
    send_end(writer, source, place_of(source, spot))
}

/// Writes where a step stands, what it does, and the line of the text.
fn send_there<L: Ledger, W: Write>(
    writer: &mut W,
    walk: &Walk<L>,
    source: &Source,
    level: &Level,
    spot: Spot,
) -> Result<(), WriteFailed>
    ensures { OnOk result (Appends (W.contents writer.old) (W.contents writer.new)
        (there_text (Some source.now) (name_of walk.now level.now) level.now spot)) }
{
    send_place(writer, place_of(source, spot))?;
    send_doing(writer, walk, source, level, spot)
}

/// Writes the number of the next step, what it does and where, at a level.
fn send_step<L: Ledger, W: Write>(
    writer: &mut W,
    walk: &Walk<L>,
    sources: &[Source],
    level: &Level,
    spot: Spot,
) -> Result<(), WriteFailed>
    ensures { OnOk result (Appends (W.contents writer.old) (W.contents writer.new) (step_text sources.now walk.now level.now spot)) }
{
    send_counted(writer, "step ", walk.count())?;
    match source_of(sources, level.node) {
        Some(source) => send_there(writer, walk, source, level, spot),
        None => send(writer, b"\n"),
    }
}

/// Writes where the walk stands.
pub(crate) fn send_where<L: Ledger, W: Write>(
    writer: &mut W,
    walk: &Walk<L>,
    sources: &[Source],
) -> Result<(), WriteFailed>
    ensures { OnOk result ((out : List ℕ) × TellsStep sources.now walk.now out × Appends (W.contents writer.old) (W.contents writer.new) out) }
{
    let Some((level, spot)) = walk.stand() else {
        return Err(WriteFailed);
    };
    send_step(writer, walk, sources, &level, spot)
}

/// Writes the open calls, the outermost first.
pub(crate) fn send_calls<L: Ledger, W: Write>(
    writer: &mut W,
    walk: &Walk<L>,
    sources: &[Source],
) -> Result<(), WriteFailed>
    ensures { OnOk result ((out : List ℕ) × TellsCalls sources.now walk.now out × Appends (W.contents writer.old) (W.contents writer.new) out) }
{
    if walk.open_calls() == 0 {
        return send(writer, b"no calls\n");
    }
    send_each_call(writer, walk, sources)
}

/// Writes each open call, the outermost first.
fn send_each_call<L: Ledger, W: Write>(
    writer: &mut W,
    walk: &Walk<L>,
    sources: &[Source],
) -> Result<(), WriteFailed>
    ensures { OnOk result ((out : List ℕ) × TellsFirstCalls sources.now walk.now (calls_in walk.now) out
        × Appends (W.contents writer.old) (W.contents writer.new) out) }
{
    for i in 0..walk.open_calls() {
        send_call(writer, walk, sources, i)?;
    }
    Ok(())
}

/// Writes an open call, the outermost being 0.
fn send_call<L: Ledger, W: Write>(
    writer: &mut W,
    walk: &Walk<L>,
    sources: &[Source],
    i: usize,
) -> Result<(), WriteFailed>
    requires { i < calls_in walk.now }
    ensures { OnOk result ((out : List ℕ) × TellsCall sources.now walk.now i out × Appends (W.contents writer.old) (W.contents writer.new) out) }
{
    let Some(caller) = walk.level(i) else {
        return Err(WriteFailed);
    };
    let Some(callee) = walk.level(i + 1) else {
        return Err(WriteFailed);
    };
    let Some(spot) = walk.spot(&caller) else {
        return Err(WriteFailed);
    };
    send_callee(writer, walk, spot, &callee)?;
    send_caller(writer, sources, &caller, spot, callee.inverse)
}

/// Writes how a procedure was called, and its name.
fn send_callee<L: Ledger, W: Write>(
    writer: &mut W,
    walk: &Walk<L>,
    spot: Spot,
    callee: &Level,
) -> Result<(), WriteFailed>
    ensures { OnOk result (Appends (W.contents writer.old) (W.contents writer.new) (callee_text spot.part (name_of walk.now callee.now))) }
{
    send(writer, called(spot.part).as_bytes())?;
    match walk.procedure_name(callee) {
        Some(name) => send_named(writer, name),
        None => Ok(()),
    }
}

/// How a call is called that stands there: by its word.
fn called(part: Part) -> &'static str
    ensures { result.now ≡ called_of part }
{
    match part {
        Part::Before(form) => word_of(form),
        _ => "call",
    }
}

/// Writes where a call stands, and which way the procedure runs.
fn send_caller<W: Write>(
    writer: &mut W,
    sources: &[Source],
    caller: &Level,
    spot: Spot,
    inverse: bool,
) -> Result<(), WriteFailed>
    ensures { OnOk result (Appends (W.contents writer.old) (W.contents writer.new)
        (caller_text (source_of_node sources.now caller.now.node) spot.span inverse)) }
{
    send_from(writer, sources, caller, spot)?;
    send_way(writer, inverse)?;
    send(writer, b"\n")
}

/// Writes where a call stands.
fn send_from<W: Write>(
    writer: &mut W,
    sources: &[Source],
    caller: &Level,
    spot: Spot,
) -> Result<(), WriteFailed>
    ensures { OnOk result (Appends (W.contents writer.old) (W.contents writer.new)
        (from_text (source_of_node sources.now caller.now.node) spot.span)) }
{
    match source_of(sources, caller.node) {
        Some(source) => send_place(writer, place_of(source, spot)),
        None => Ok(()),
    }
}

/// Writes a name with the value in its slot; alone if it has none.
fn send_slot<L: Ledger, W: Write>(
    writer: &mut W,
    walk: &Walk<L>,
    name: &str,
    slot: usize,
) -> Result<(), WriteFailed>
    ensures { OnOk result (Appends (W.contents writer.old) (W.contents writer.new)
        (ended_line (value_text (name.now, value_or_lent (slice_get (listed (slots_in walk.now)) slot))))) }
{
    match walk.value(slot) {
        Some(value) => send_value(writer, name, value),
        None => send_ended(writer, name),
    }
}

/// Writes these names in sight with their values, the oldest first; they stand the newest first.
fn send_sight<L: Ledger, W: Write>(
    writer: &mut W,
    walk: &Walk<L>,
    names: &[&str],
) -> Result<(), WriteFailed>
    ensures { OnOk result (Appends (W.contents writer.old) (W.contents writer.new)
        (value_lines (listed (sighted (slots_in walk.now) (map (λ name. name.now) names.now))))) }
{
    for slot in 0..names.len() {
        send_slot(writer, walk, names[names.len() - 1 - slot], slot)?;
    }
    Ok(())
}

/// Writes the names in sight where the walk stands, with their values.
pub(crate) fn send_names<L: Ledger, W: Write>(
    alloc: Global,
    writer: &mut W,
    walk: &Walk<L>,
) -> Result<(), WriteFailed>
    ensures { OnOk result ((out : List ℕ) × TellsNames walk.now out × Appends (W.contents writer.old) (W.contents writer.new) out) }
{
    walk.meant_law();
    let Some(sight) = walk.sight_here() else {
        return Err(WriteFailed);
    };
    match sight.names(alloc) {
        Ok(names) => send_sight(writer, walk, &names),
        Err(_) => Err(WriteFailed),
    }
}

/// Whether a token is this name.
fn is_name(token: &Token, name: &str) -> bool
    ensures { result ≡ is_name_of name.now token.now.kind }
{
    match &token.kind {
        TokenKind::Name(text) => text.as_str() == name,
        TokenKind::Number(_) | TokenKind::Sign(_) | TokenKind::Keyword(_) => false,
    }
}

/// Whether a name stands among tokens.
fn stands_among(tokens: &[Token], name: &str) -> bool
    ensures { result ≡ stands_among_of tokens.now name.now }
{
    tokens.iter().any(|token| is_name(token, name))
}

/// Writes a name with the value in its slot, if it stands among tokens, and none that hides it is in sight.
fn send_if_read<L: Ledger, W: Write>(
    writer: &mut W,
    walk: &Walk<L>,
    sight: &Sight<'_>,
    tokens: &[Token],
    name: &str,
    slot: usize,
) -> Result<(), WriteFailed>
    ensures { OnOk result ((out : List ℕ) × ((g : List Name) → AreInSight sight.now g → out ≡ read_line (slots_in walk.now) tokens.now g name.now slot)
        × Appends (W.contents writer.old) (W.contents writer.new) out) }
{
    let is_newest = sight.slot(name) == Some(slot);
    if !is_newest {
        return Ok(());
    }
    if !stands_among(tokens, name) {
        return Ok(());
    }
    send(writer, b"  ")?;
    send_slot(writer, walk, name, slot)
}

/// Writes those of these names in sight that stand among tokens, with their values; they stand the newest first.
fn send_each_read<L: Ledger, W: Write>(
    writer: &mut W,
    walk: &Walk<L>,
    sight: &Sight<'_>,
    names: &[&str],
    tokens: &[Token],
) -> Result<(), WriteFailed>
    ensures { OnOk result ((out : List ℕ) × ((g : List Name) → AreInSight sight.now g → map (λ name. name.now) names.now ≡ g →
        out ≡ reads_text (slots_in walk.now) tokens.now g g) × Appends (W.contents writer.old) (W.contents writer.new) out) }
{
    for slot in 0..names.len() {
        send_if_read(
            writer,
            walk,
            sight,
            tokens,
            names[names.len() - 1 - slot],
            slot,
        )?;
    }
    Ok(())
}

/// Writes the names in sight that stand among tokens, with their values.
fn send_tokens<L: Ledger, W: Write>(
    alloc: Global,
    writer: &mut W,
    walk: &Walk<L>,
    sight: &Sight<'_>,
    tokens: &[Token],
) -> Result<(), WriteFailed>
    ensures { OnOk result ((out : List ℕ) × ((g : List Name) → AreInSight sight.now g → out ≡ reads_text (slots_in walk.now) tokens.now g g)
        × Appends (W.contents writer.old) (W.contents writer.new) out) }
{
    match sight.names(alloc) {
        Ok(names) => send_each_read(writer, walk, sight, names.as_slice(), tokens),
        Err(_) => Err(WriteFailed),
    }
}

/// Writes the names in sight that stand in a text, with their values.
fn send_text<L: Ledger, W: Write>(
    alloc: Global,
    writer: &mut W,
    walk: &Walk<L>,
    sight: &Sight<'_>,
    text: &str,
) -> Result<(), WriteFailed>
    ensures { OnOk result ((out : List ℕ) × ((g : List Name) → AreInSight sight.now g →
        (lexed : Result (Vec TheToken) TheFault) × IsLexed text.now lexed × TellsTokens (slots_in walk.now) g lexed out)
        × Appends (W.contents writer.old) (W.contents writer.new) out) }
{
    match tokens(alloc, text) {
        Ok(tokens) => send_tokens(alloc, writer, walk, sight, tokens.as_slice()),
        Err(SyntaxFault::Memory) => Err(WriteFailed),
        Err(_) => Ok(()),
    }
}

/// Writes the names in sight that stand in a part of a text, with their values.
pub(crate) fn send_read<L: Ledger, W: Write>(
    alloc: Global,
    writer: &mut W,
    walk: &Walk<L>,
    sight: &Sight<'_>,
    text: &str,
    span: Span,
) -> Result<(), WriteFailed>
    ensures { OnOk result ((out : List ℕ) × ((g : List Name) → AreInSight sight.now g →
        (part : Option (Bor (List ℕ))) × GetsRange text.now span.start span.end part × TellsPart (slots_in walk.now) g part out)
        × Appends (W.contents writer.old) (W.contents writer.new) out) }
{
    match text.get(span.start..span.end) {
        Some(part) => send_text(alloc, writer, walk, sight, part),
        None => Ok(()),
    }
}

/// How many lines are listed before and behind the one of the next step.
const AROUND: usize = 5;

/// The line round which others are listed.
#[derive(Clone, Copy)]
pub(crate) struct CentreLine {
    pub(crate) line: usize,
    /// Whether the next step stands on it.
    pub(crate) is_next: bool,
}

/// Whether a line is listed round this one.
fn is_listed(number: usize, here: CentreLine) -> bool
    ensures { result ≡ is_listed_of number here }
{
    here.line.saturating_sub(AROUND) <= number && number <= here.line.saturating_add(AROUND)
}

/// What stands in front of the number of a line.
fn mark(number: usize, here: CentreLine) -> &'static str
    ensures { result.now ≡ mark_of number here }
{
    if here.is_next && number == here.line {
        "> "
    } else {
        "  "
    }
}

/// Writes a line with its number, and a mark where the next step stands on it.
fn send_listed<W: Write>(
    writer: &mut W,
    number: usize,
    here: CentreLine,
    line: &str,
) -> Result<(), WriteFailed>
    ensures { OnOk result (Appends (W.contents writer.old) (W.contents writer.new) (listed_line number here line.now)) }
{
    send_counted(writer, mark(number, here), number as u64)?;
    send_named_line(writer, line)
}

/// Writes a line, if it is listed.
fn send_if_listed<W: Write>(
    writer: &mut W,
    number: usize,
    here: CentreLine,
    line: &str,
) -> Result<(), WriteFailed>
    ensures { OnOk result (Appends (W.contents writer.old) (W.contents writer.new) (line_listed number here line.now)) }
{
    if is_listed(number, here) {
        return send_listed(writer, number, here, line);
    }
    Ok(())
}

/// Writes those lines of a text that are listed; the first line has this number.
fn send_lines<W: Write>(
    writer: &mut W,
    text: &str,
    first_line: usize,
    here: CentreLine,
) -> Result<(), WriteFailed>
    ensures { OnOk result (Appends (W.contents writer.old) (W.contents writer.new) (lines_listed here first_line (lines_of text.now))) }
{
    let mut rest = text;
    let mut number = first_line;
    while let Some((line, more)) = split_line(rest) {
        send_if_listed(writer, number, here, line)?;
        number = number.saturating_add(1);
        rest = more;
    }
    send_if_listed(writer, number, here, rest)
}

/// The line round which others are listed: that of the next step, or the first one where it has no place.
fn middle(source: &Source, spot: Spot) -> CentreLine
    ensures { result ≡ middle_of source.now spot.span }
{
    match place_of(source, spot) {
        Some(place) => CentreLine {
            line: place.line,
            is_next: true,
        },
        None => CentreLine {
            line: source.first_line,
            is_next: false,
        },
    }
}

/// Writes the lines round the one of the next step, with a mark at that one; where it has no place, the first ones, without a mark.
pub(crate) fn send_list<L: Ledger, W: Write>(
    writer: &mut W,
    walk: &Walk<L>,
    sources: &[Source],
) -> Result<(), WriteFailed>
    ensures { OnOk result ((out : List ℕ) × TellsLines sources.now walk.now out × Appends (W.contents writer.old) (W.contents writer.new) out) }
{
    let Some((level, spot)) = walk.stand() else {
        return Err(WriteFailed);
    };
    match source_of(sources, level.node) {
        Some(source) => send_lines(
            writer,
            source.text.as_str(),
            source.first_line,
            middle(source, spot),
        ),
        None => Ok(()),
    }
}
