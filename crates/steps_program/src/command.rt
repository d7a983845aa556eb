//! What a line asks for.
ghost use Rattle.std.specs.Prelude.{◌≡◌, ◌<◌, IsTrue, ◌↔◌, length};
ghost use Rattle.std.specs.List.{position_or_len, before_first, after_first};
ghost use Rattle.std.specs.Option.{MatchOption};
ghost use Rattle.std.specs.Str.{trim};
ghost use Rattle.steps_program.specs.Commands.{Quit, asked, asked_alone, asked_of, asked_to_go, asked_with, is_space, number_of as number_of_word};

/// What a line asks for.
#[derive(Clone, Copy)]
pub enum Command<'a> {
    /// To take so many steps on.
    Step(u64),
    /// To take so many steps back.
    Back(u64),
    /// To go on to the next statement or test that is not inside a call made from here.
    Next,
    /// To go on until the innermost call is left; outside of calls to the end.
    Finish,
    /// To go on to a line of the file.
    To(u64),
    BackTo(u64),
    ToFault,
    ToEnd,
    ToStart,
    /// To go on until an expression over the names in sight holds.
    Until(&'a str),
    BackUntil(&'a str),
    /// To go on until the value of a name changes.
    Watch(&'a str),
    BackWatch(&'a str),
    Show,
    Where,
    Calls,
    List,
    Count,
    Quit,
    /// Nothing: the line is blank.
    Nothing,
    Unknown,
}

/// The number that a word writes in decimal digits.
fn number(word: &str) -> Option<u64>
    ensures { result ≡ number_of_word word.now }
{
    word.parse::<u64>().ok()
}

/// The command of a word with another behind it.
fn with_word<'a>(first: &str, word: &'a str) -> Command<'a>
    ensures { asked result ≡ asked_with first.now word.now }
{
    if first == "step" {
        return match number(word) {
            Some(n) => Command::Step(n),
            None => Command::Unknown,
        };
    }
    if first == "back" {
        return match number(word) {
            Some(n) => Command::Back(n),
            None => Command::Unknown,
        };
    }
    if first == "to" {
        return match number(word) {
            Some(line) => Command::To(line),
            None => Command::Unknown,
        };
    }
    if first == "back-to" {
        return match number(word) {
            Some(line) => Command::BackTo(line),
            None => Command::Unknown,
        };
    }
    if first == "until" {
        return Command::Until(word);
    }
    if first == "back-until" {
        return Command::BackUntil(word);
    }
    if first == "watch" {
        return Command::Watch(word);
    }
    if first == "back-watch" {
        return Command::BackWatch(word);
    }
    Command::Unknown
}

/// The command of a word that goes somewhere.
fn to_go<'a>(word: &str) -> Command<'a>
    ensures { asked result ≡ asked_to_go word.now }
{
    if word == "step" {
        return Command::Step(1);
    }
    if word == "back" {
        return Command::Back(1);
    }
    if word == "next" {
        return Command::Next;
    }
    if word == "finish" {
        return Command::Finish;
    }
    if word == "to-fault" {
        return Command::ToFault;
    }
    if word == "to-end" {
        return Command::ToEnd;
    }
    if word == "to-start" {
        return Command::ToStart;
    }
    Command::Unknown
}

/// The command of a word that has none behind it.
fn alone<'a>(word: &str) -> Command<'a>
    ensures { asked result ≡ asked_alone word.now }
{
    if word == "" {
        return Command::Nothing;
    }
    if word == "show" {
        return Command::Show;
    }
    if word == "where" {
        return Command::Where;
    }
    if word == "calls" {
        return Command::Calls;
    }
    if word == "list" {
        return Command::List;
    }
    if word == "count" {
        return Command::Count;
    }
    if word == "quit" {
        return Command::Quit;
    }
    to_go(word)
}

/// The words before and behind the first space; none where there is no space.
fn split_word(line: &str) -> Option<(&str, &str)>
    ensures { MatchOption result (position_or_len is_space line.now ≡ length line.now)
        (λ x. (x.0.now ≡ before_first is_space line.now) × (x.1.now ≡ after_first is_space line.now)
        × (position_or_len is_space line.now < length line.now)) }
{
    line.split_once(' ')
}

impl<'a> Command<'a> {
    /// Whether it asks to end.
    pub(crate) fn is_quit(&self) -> bool
        ensures { IsTrue result ↔ (asked self.now ≡ Quit) }
    {
        matches!(self, Command::Quit)
    }

    /// The command of a line; white space at the ends of the line and of the second word doesn't count.
    pub fn read(line: &'a str) -> Command<'a>
        ensures { asked result ≡ asked_of line.now }
    {
        let line = line.trim();
        match split_word(line) {
            Some((first, word)) => with_word(first, word.trim()),
            None => alone(line),
        }
    }
}
