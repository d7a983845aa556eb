//! Lines of the input.
ghost use Rattle.std.specs.Prelude.{◌≡◌, ◌==◌, ◌<◌, length};
ghost use Rattle.std.specs.List.{position_or_len, before_first, after_first};
ghost use Rattle.std.specs.Option.{MatchOption};
ghost use Rattle.cells_program.specs.Lines.{is_blank as is_blank_text, is_command_line as is_command_line_text};

/// The first line of a text, and what is behind its LF; `None` where there is no LF.
pub fn split_line(text: &str) -> Option<(&str, &str)>
    ensures cut { MatchOption result (position_or_len (λ b. b == 10) text.now ≡ length text.now)
        (λ x. (x.0.now ≡ before_first (λ b. b == 10) text.now) × (x.1.now ≡ after_first (λ b. b == 10) text.now)
        × (position_or_len (λ b. b == 10) text.now < length text.now)) }
{
    text.split_once('\n')
}

/// Whether a line begins with `%`.
pub fn is_command_line(line: &str) -> bool
    ensures { result ≡ is_command_line_text line.now }
{
    line.starts_with('%')
}

/// Whether a text has only spaces, tabs, CRs and LFs.
pub fn is_blank(line: &str) -> bool
    ensures { result ≡ is_blank_text line.now }
{
    line.bytes().all(|c| (c == b' ' || (c == b'\t' || c == b'\r')) || c == b'\n')
}
