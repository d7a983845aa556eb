//! How the history follows the minutes, and what is noted beside them.
ghost use Rattle.std.specs.Prelude.{◌≡◌, ◌++◌, ◌∷◌, [], All, map, true};
ghost use mathlib.Core.List.{IsPrefix};
ghost use Rattle.kernel_audit.specs.Minutes as minutes;
ghost use Rattle.kernel_audit.specs.Notes.{wished_in, has_shutdown, comms_in};
ghost use Rattle.kernel_audit.specs.declared.note.Note.TheVariants.{Posted, Shut, Asked, Changed, Told};
ghost use Rattle.hall_state.specs.TurnNotes.{IsTurnNote};
ghost use Rattle.kernel_audit.specs.Written.{entry_of};

use kernel_audit::{Beside, Comms, Done, Entry, HistoryName, Keeper, Kernel, Note, Pass, Wish};
use std::sync::ledger::{Book, Ledger};

/// Adds the entry to the history that the kernel wrote last.
pub(crate) fn follow<W: Ledger, L: HistoryName>(history: &mut Keeper<Entry, L>, kernel: &Kernel<W>)
    requires { (entry : minutes.Entry) × (kernel.now.machine.minutes ≡ map entry_of history.old ++ entry ∷ []) }
    ensures { map entry_of history.new ≡ kernel.now.machine.minutes }
{
    let minutes = kernel.minutes();
    history.extend(&minutes[minutes.len() - 1]);
}

/// Notes the wishes of a post, and gives them back.
pub(crate) fn note_wishes<L: HistoryName>(
    notes: &mut Keeper<Note, Beside<L>>,
    wishes: Vec<Wish>,
) -> Vec<Wish>
    ensures wishes { result ≡ wishes }
    ensures last { notes.new ≡ notes.old ++ Posted wishes ∷ [] }
    ensures noted { wished_in notes.new ≡ wished_in notes.old ++ wishes.items ∷ [] }
    ensures shut { has_shutdown notes.new ≡ has_shutdown notes.old }
    ensures comms { comms_in notes.new ≡ comms_in notes.old }
{
    let note = Note::Posted(wishes);
    notes.extend(&note);
    match note {
        Note::Posted(wishes) => wishes,
        Note::Shut => unreachable!(),
        Note::Asked => unreachable!(),
        Note::Changed(_comms) => unreachable!(),
        Note::Began(_begun) => unreachable!(),
        Note::Cut(_most, _is_asked, _sliced) => unreachable!(),
        Note::Told(_done) => unreachable!(),
    }
}

/// Notes which comms are open behind a change, and gives them back.
pub(crate) fn note_comms<L: HistoryName>(notes: &mut Keeper<Note, Beside<L>>, comms: Comms) -> Comms
    ensures same { result ≡ comms }
    ensures noted { notes.new ≡ notes.old ++ Changed comms ∷ [] }
    ensures wishes { wished_in notes.new ≡ wished_in notes.old }
    ensures shut { has_shutdown notes.new ≡ has_shutdown notes.old }
    ensures comms { comms_in notes.new ≡ comms }
{
    let note = Note::Changed(comms);
    notes.extend(&note);
    match note {
        Note::Changed(comms) => comms,
        Note::Posted(_wishes) => unreachable!(),
        Note::Shut => unreachable!(),
        Note::Asked => unreachable!(),
        Note::Began(_begun) => unreachable!(),
        Note::Cut(_most, _is_asked, _sliced) => unreachable!(),
        Note::Told(_done) => unreachable!(),
    }
}

/// Notes a shutdown.
pub(crate) fn note_shutdown<L: HistoryName>(notes: &mut Keeper<Note, Beside<L>>)
    ensures last { notes.new ≡ notes.old ++ Shut ∷ [] }
    ensures noted { wished_in notes.new ≡ wished_in notes.old }
    ensures shut { has_shutdown notes.new ≡ true }
    ensures comms { comms_in notes.new ≡ comms_in notes.old }
{
    notes.extend(&Note::Shut);
}

/// Notes that a question was asked.
pub(crate) fn note_question<L: HistoryName>(notes: &mut Keeper<Note, Beside<L>>)
    ensures noted { notes.new ≡ notes.old ++ Asked ∷ [] }
    ensures wishes { wished_in notes.new ≡ wished_in notes.old }
    ensures shut { has_shutdown notes.new ≡ has_shutdown notes.old }
    ensures comms { comms_in notes.new ≡ comms_in notes.old }
{
    notes.extend(&Note::Asked);
}

/// Notes what a turn was.
pub(crate) fn note_turn<L: HistoryName>(notes: &mut Keeper<Note, Beside<L>>, turn: Note)
    requires { IsTurnNote turn }
    ensures noted { notes.new ≡ notes.old ++ turn ∷ [] }
    ensures wishes { wished_in notes.new ≡ wished_in notes.old }
    ensures shut { has_shutdown notes.new ≡ has_shutdown notes.old }
    ensures comms { comms_in notes.new ≡ comms_in notes.old }
{
    notes.extend(&turn);
}

/// Notes what is told of the end of a job, and gives it back.
pub(crate) fn note_told<L: HistoryName>(notes: &mut Keeper<Note, Beside<L>>, done: Done) -> Done
    ensures same { result ≡ done }
    ensures noted { notes.new ≡ notes.old ++ Told done ∷ [] }
    ensures wishes { wished_in notes.new ≡ wished_in notes.old }
    ensures shut { has_shutdown notes.new ≡ has_shutdown notes.old }
    ensures comms { comms_in notes.new ≡ comms_in notes.old }
{
    let note = Note::Told(done);
    notes.extend(&note);
    match note {
        Note::Told(done) => done,
        Note::Posted(_wishes) => unreachable!(),
        Note::Shut => unreachable!(),
        Note::Asked => unreachable!(),
        Note::Changed(_comms) => unreachable!(),
        Note::Began(_begun) => unreachable!(),
        Note::Cut(_most, _is_asked, _sliced) => unreachable!(),
    }
}

/// Shows all of the history and of the notes to passes, which end with them.
pub(crate) fn show_all<L: HistoryName>(
    passes: Vec<Pass<L>>,
    book: &mut Book<L>,
    history: &mut Keeper<Entry, L>,
    notes: &mut Keeper<Note, Beside<L>>,
)
    ensures fronts { All (λ p. IsPrefix p.front (map entry_of history.old)) passes.items }
    ensures notes { All (λ p. IsPrefix p.notes notes.old) passes.items }
{
    for mut pass in passes {
        pass.see(book, history, notes);
    }
}
