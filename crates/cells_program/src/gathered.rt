//! The text of a cell, line by line.
ghost use Rattle.std.specs.Prelude.{◌≡◌, ◌||◌, not, false, true, [], ◌++◌, IfNone, IfSome, string_bytes};
ghost use Rattle.cells_program.specs.Gathering.{IsGathered};
ghost use Rattle.cells_program.specs.Lines.{ended_line, is_blank as is_blank_text};

use crate::lines::is_blank;
use std::alloc::Global;

/// The text of a cell as far as it is gathered.
#[derive(Drop)]
pub(crate) struct Gathered {
    pub(crate) text: String,
    /// It has an octet that isn't space, tab, CR or LF.
    pub(crate) has_text: bool,
    /// There was no memory for a line of it.
    pub(crate) lost: bool,
}

impl Gathered {
    /// No text.
    pub(crate) fn new(alloc: Global) -> Gathered
        ensures { IsGathered result [] }
    {
        Gathered {
            text: String::new(alloc),
            has_text: false,
            lost: false,
        }
    }

    /// Adds a line and its LF. Where there is no memory for them the text is lost.
    pub(crate) fn add(&mut self, line: &str)
        ensures has_text { self.new.has_text ≡ (self.old.has_text || not (is_blank_text line.now)) }
        ensures kept { self.new.lost ≡ false → self.old.lost ≡ false }
        ensures text { self.new.lost ≡ false →
            string_bytes self.new.text ≡ string_bytes self.old.text ++ ended_line line.now }
    {
        if !is_blank(line) {
            self.has_text = true;
        }
        if self.text.push_str(line).is_err() || self.text.push('\n').is_err() {
            self.lost = true;
        }
    }

    /// The text, and none of it is left here; `None` where it was lost.
    pub(crate) fn take(&mut self, alloc: Global) -> Option<String>
        ensures taken { IsGathered self.new [] }
        ensures kept { IfSome result (λ text. self.old.lost ≡ false) }
        ensures lost { IfNone result (self.old.lost ≡ true) }
        ensures text { IfSome result (λ text. string_bytes text ≡ string_bytes self.old.text) }
    {
        let text = std::mem::replace(&mut self.text, String::new(alloc));
        let lost = self.lost;
        self.has_text = false;
        self.lost = false;
        if lost { None } else { Some(text) }
    }
}
