//! Where an audit stands in the minutes.
ghost use Rattle.std.specs.Prelude.{◌≡◌, ◌+◌, ◌-◌, ◌<◌, IfSome, IfNone, None, Some, slice_get};
ghost use Rattle.kernel_audit.specs.Marks.{IsMark, is_of, of_kind, nth_of};

use kernel_ask::Entry;

/// The kinds of entries.
#[derive(Clone, Copy, PartialEq, Eq)]
pub(crate) enum Kind {
    Post,
    End,
}

/// A place of the minutes, and how many entries of a kind stand before it.
#[derive(Clone, Copy)]
pub(crate) struct Mark {
    pub place: usize,
    pub passed: u64,
}

/// Whether an entry is of this kind.
fn is_of(kind: Kind, entry: &Entry) -> bool
    ensures { result ≡ is_of kind entry.now }
{
    match kind {
        Kind::Post => match entry {
            Entry::Posted { .. } => true,
            Entry::Ended { .. } => false,
        },
        Kind::End => match entry {
            Entry::Posted { .. } => false,
            Entry::Ended { .. } => true,
        },
    }
}

/// The mark of the entry with this number of its kind, from a mark before it on; where there is none, that of the end.
fn find(minutes: &[Entry], kind: Kind, from: Mark, number: u64) -> Mark
    requires mark { IsMark kind minutes.now from }
    requires later { from.passed < number }
    ensures mark { IsMark kind minutes.now result }
    ensures found { slice_get minutes.now result.place ≡ slice_get (of_kind kind minutes.now) (number - 1) }
{
    let mut passed = from.passed;
    for place in from.place..minutes.len() {
        if is_of(kind, &minutes[place]) {
            if passed + 1 == number {
                return Mark { place, passed };
            }
            passed += 1;
        }
    }
    Mark {
        place: minutes.len(),
        passed,
    }
}

/// The entry with this number of its kind, if there is one. It is looked for from the mark on, which moves there; only where the number is
/// no greater than that of the entry before, from the start.
pub(crate) fn numbered<'a>(
    minutes: &'a [Entry],
    kind: Kind,
    mark: &mut Mark,
    number: u64,
) -> Option<&'a Entry>
    requires { IsMark kind minutes.now mark.old }
    ensures mark { IsMark kind minutes.now mark.new }
    ensures some { IfSome result (λ e. nth_of kind minutes.now number ≡ Some e.now) }
    ensures none { IfNone result (nth_of kind minutes.now number ≡ None) }
{
    if number == 0 {
        return None;
    }
    if number <= mark.passed {
        *mark = Mark {
            place: 0,
            passed: 0,
        };
    }
    *mark = find(minutes, kind, *mark, number);
    minutes.get(mark.place)
}
