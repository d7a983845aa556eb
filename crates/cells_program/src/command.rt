//! Command lines.
ghost use Rattle.std.specs.Prelude.{◌≡◌, ◌<◌, true, false, nat_eq, length, drop, Some, None, if◌then◌else◌};
ghost use Rattle.std.specs.Char.{is_ascii_digit};
ghost use Rattle.std.specs.List.{list_all, starts_with};
ghost use Rattle.std.specs.Option.{MatchOption};
ghost use Rattle.std.specs.Str.Parse.{digits_value};
ghost use Rattle.cells_program.specs.Lines.{trimmed as trimmed_of};
ghost use Rattle.cells_program.specs.Command.{command_of, is_count, is_short_number};

/// What a command line asks for.
#[derive(Clone, Copy)]
pub enum Command {
    /// To run the gathered text as a cell, also an empty one.
    Run,
    /// To undo this number of cells.
    Undo(u32),
    /// To redo this number of cells.
    Redo(u32),
    /// To go to the node of this number.
    Goto(u32),
    /// To show the position and the declared names with their values.
    Show,
    /// To list the procedures.
    List,
    /// Nothing that is known.
    Unknown,
}

impl Command {
    /// The command of a line that begins with `%`; spaces, tabs and CRs at its end don't count.
    pub fn read(line: &str) -> Command
        ensures { result ≡ command_of (trimmed_of line.now) }
    {
        let line = trimmed(line);
        if line == "%%" {
            return Command::Run;
        }
        if line == "%show" {
            return Command::Show;
        }
        if line == "%list" {
            return Command::List;
        }
        if let Some(digits) = after(line, "%undo ") {
            return match count(digits) {
                Some(k) => Command::Undo(k),
                None => Command::Unknown,
            };
        }
        if let Some(digits) = after(line, "%redo ") {
            return match count(digits) {
                Some(k) => Command::Redo(k),
                None => Command::Unknown,
            };
        }
        if let Some(digits) = after(line, "%goto ") {
            return match count(digits) {
                Some(n) => Command::Goto(n),
                None => Command::Unknown,
            };
        }
        Command::Unknown
    }
}

/// What follows the words, where the line begins with them.
fn after<'a>(line: &'a str, words: &str) -> Option<&'a str>
    ensures { MatchOption result (starts_with nat_eq line.now words.now ≡ false)
        (λ rest. (starts_with nat_eq line.now words.now ≡ true) × (rest.now ≡ drop (length words.now) line.now)) }
{
    line.strip_prefix(words)
}

/// Whether a text is 1 to 10 ASCII digits.
fn is_short_number(text: &str) -> bool
    ensures { result ≡ is_short_number text.now }
{
    !text.is_empty() && text.len() <= 10 && has_digits_alone(text)
}

/// Whether each octet of a text is an ASCII digit.
fn has_digits_alone(text: &str) -> bool
    ensures { result ≡ list_all is_ascii_digit text.now }
{
    text.bytes().all(|c| c.is_ascii_digit())
}

/// The number that 1 to 10 digits write, if it is at most 4294967295.
fn count(digits: &str) -> Option<u32>
    ensures { result ≡ (if is_count digits.now then Some (digits_value 10 digits.now) else None) }
{
    if !is_short_number(digits) {
        return None;
    }
    digits.parse::<u32>().ok()
}

/// The text before its last octet, where that is a space, a tab or a CR.
fn without_last(rest: &str) -> Option<&str>
    ensures { MatchOption result (trimmed_of rest.now ≡ rest.now)
        (λ front. (trimmed_of rest.now ≡ trimmed_of front.now) × (length front.now < length rest.now)) }
{
    if let Some(front) = rest.strip_suffix(' ') {
        return Some(front);
    }
    if let Some(front) = rest.strip_suffix('\t') {
        return Some(front);
    }
    rest.strip_suffix('\r')
}

/// The line without the spaces, tabs and CRs at its end.
fn trimmed(line: &str) -> &str
    ensures { result.now ≡ trimmed_of line.now }
{
    let mut rest = line;
    while let Some(front) = without_last(rest) {
        rest = front;
    }
    rest
}
