//! What lies under the hall's lock.
ghost use Rattle.std.specs.Prelude.{◌≡◌, ◌+◌, ◌-◌, ◌^◌, ◌<◌, ◌≤◌, ◌↔◌, IsTrue, [], ◌∷◌, ◌++◌, IfOk, IfErr, OnOk, OnErr, IfSome, IfNone, All, suc, length, map};
ghost use Rattle.std.specs.Prelude.{None, is_some, true, false, get_or, option_map, string_bytes, vec_len, vec_capacity};
ghost use mathlib.Core.List.{IsPrefix};
ghost use Rattle.kernel_audit.specs.Request.{request_of};
ghost use Rattle.kernel_audit.specs.Minutes.{posted_in};
ghost use Rattle.kernel_audit.specs.LegalMinutes.{IsLegalMachine};
ghost use Rattle.kernel_audit.specs.Runs.{IsRefusal, posted, shut, phase_of};
ghost use Rattle.kernel_audit.specs.outcome.Phase.TheVariants.{Idle};
ghost use Rattle.kernel_audit.specs.Answer.{IsAnswer};
ghost use Rattle.kernel_audit.specs.CommChanges.{IsChange};
ghost use Rattle.kernel_audit.specs.Written.{entry_of};
ghost use Rattle.kernel_audit.specs.Notes.{wished_in, has_shutdown, comms_in, IsNotedQuestion, IsNotedChange, IsNotedEnd};
ghost use Rattle.kernel_audit.specs.Course.{GoesBy, HasCome, IsKernelSeen};
ghost use Rattle.kernel_audit.specs.declared.note.Note.{Note};
ghost use Rattle.kernel_audit.specs.declared.note.Note.TheVariants.{Posted, Asked, Changed, Told};
ghost use Rattle.kernel_audit.specs.Passes.{pass_of, next_act, HasSeen, AreInOneOrder, HaveOneNumbering, HasPosted};
ghost use Rattle.hall_state.specs.Turns.{IsTurn};
ghost use Rattle.hall_state.specs.OpenResults.{AreSettled, left_in};
ghost use Rattle.hall_state.specs.PendingResults.{IsWaiting, IsTold, IsToldOnce, WasTold, AreKept, AreUntold, AreBeside, WereMade};
ghost use Rattle.hall_state.specs.LastEnds.{EndsNowhere};
ghost use Rattle.hall_state.specs.declared.limit.TheConstants.{PASSES, WISHES_OF_A_PIECE};
ghost use Rattle.hall_state.specs.declared.pending_result.PendingResult.{PendingResult};
ghost use Rattle.kernel_audit.specs.Ends.{HasEnd};
ghost use Rattle.kernel_audit.specs.Audit.{Audited, IsAuditFault};

use crate::history::{
    follow, note_comms, note_question, note_shutdown, note_told, note_turn, note_wishes, show_all,
};
use crate::limit::WISHES_OF_A_PIECE;
use crate::minutes::Minutes;
use crate::open_result::OpenResult;
use crate::passes::Passes;
use crate::pending_result::{PendingResult, fetch, fetch_first, open_last, settle_last};
use crate::turn::{Turn, noted_turn_on};
use kernel_audit::{
    Answer, Ask, AuditFault, Beside, CommChange, Comms, Done, Entry, Front, HallFault, HistoryName,
    Job, Keeper, Kernel, NamedValue, NewHistory, Note, Pass, Phase, PostFault, SpentWishes, Ticket,
    Wish, ask_on, audit, comm_on,
};
use kernel_bell::{Bell, RunnerSeat};
use std::alloc::Global;
use std::mem;
use std::sync::ledger::{Book, Ledger};

/// The lock's value. Its type keeps that the book is the number of posts in the minutes, that the minutes are the history, that a shutdown is noted where the
/// kernel closes, that the open comms are those that are noted, that the kernel stands where the notes have led it, each turn of the runner among them, and
/// that one pending result stands beside each post, of the wishes that are noted of it: those of the jobs that have ended are settled, but for the last one's
/// while what is made for it is under way, and the others wait.
///
/// What a frontend does here counts as an act of its pass, if it is no post: a shutdown, a change of the comms, or that it is told of an end.
#[derive(Drop)]
pub struct State<W: Ledger, L: HistoryName> {
    kernel: Kernel<W>,
    comms: Comms,
    pending_results: Vec<PendingResult>,
    /// How many of them are settled, the first ones.
    settled: u64,
    /// What is being made for the job that has ended last; none where all of it is there.
    under_way: Option<OpenResult>,
    alloc: Global,
    book: Book<L>,
    history: Keeper<Entry, L>,
    notes: Keeper<Note, Beside<L>>,
    pub ghost counted: { book.total ≡ posted_in kernel.machine.minutes },
    pub ghost told: { map entry_of history ≡ kernel.machine.minutes },
    pub ghost closes: { has_shutdown notes ≡ kernel.machine.closing },
    pub ghost open_comms: { comms_in notes ≡ comms },
    pub ghost course: { ∥ HasCome notes kernel.machine ∥₁ },
    pub ghost beside: { ∥ AreBeside settled kernel.machine.minutes (wished_in notes) pending_results.items ∥₁ },
    pub ghost results: { ∥ AreSettled settled kernel.machine (wished_in notes) under_way ∥₁ },
}

impl<W: Ledger, L: HistoryName> State<W, L> {
    /// Around an open kernel with no minutes, where no comm is open, with the book of its posts, the history that its minutes become, and that of the notes.
    /// Who posts has a share in that book: none is here, so a post is a pass's.
    pub fn new(
        alloc: Global,
        kernel: Kernel<W>,
        book: Book<L>,
        history: NewHistory<Entry>,
        notes: NewHistory<Note>,
    ) -> State<W, L>
        requires fresh { kernel.machine.minutes ≡ [] }
        requires open { kernel.machine.closing ≡ false }
        requires book { book.total ≡ 0 }
        requires history { history ≡ L.history }
        requires notes { notes ≡ L.beside }
        ensures kernel { result.kernel ≡ kernel }
        ensures comms { result.comms ≡ [] }
    {
        show_legal(&kernel);
        State {
            kernel,
            comms: Comms::new(alloc),
            pending_results: Vec::new(alloc),
            settled: 0,
            under_way: None,
            alloc,
            book,
            history: history.keeper(),
            notes: notes.keeper(),
        }
    }

    /// Posts a job for a pass, which counts it, and answers its number. The wishes are taken, and stand beside it until it ends. A refused post drops the job,
    /// and leaves the wishes and the room to who called, to be let go of with the lock free. The pass has seen the minutes behind the post, or those for which
    /// it is refused. The room for their values was taken before the lock was.
    pub fn post(
        &mut self,
        pass: &mut Pass<L>,
        job: Job,
        wishes: &mut Vec<Wish>,
        room: &mut Vec<NamedValue>,
    ) -> Result<u64, PostFault>
        requires empty { room.old.items ≡ [] }
        requires room { vec_len wishes.old ≤ vec_capacity room.old }
        ensures number { IfOk result (λ n. n ≡ suc (posted_in self.old.kernel.machine.minutes)) }
        ensures posted { IfOk result (λ n. self.new.kernel.machine ≡ posted self.old.kernel.machine pass.old.lane (request_of job)) }
        ensures stands { IfOk result (λ n. HasPosted pass.old (request_of job) wishes.old.items n pass.new) }
        ensures refusal { IfErr result (IsRefusal self.old.kernel.machine) }
        ensures left { OnErr result (wishes.new ≡ wishes.old) }
        ensures kernel { OnErr result (self.new.kernel.machine ≡ self.old.kernel.machine) }
        ensures pass { OnErr result (HasSeen pass.old pass.new) }
        ensures acts { pass.new.acts ≡ pass.old.acts }
        ensures front { pass.new.front ≡ self.new.kernel.machine.minutes }
        ensures closing { has_shutdown pass.new.notes ≡ self.old.kernel.machine.closing }
        ensures comms { self.new.comms ≡ self.old.comms }
        ensures pending_result { IfOk result
            (λ n. (e : PendingResult) × IsWaiting wishes.old.items e
            × (self.new.pending_results.items ≡ self.old.pending_results.items ++ e ∷ [])) }
        ensures pending_results { OnErr result (self.new.pending_results.items ≡ self.old.pending_results.items) }
        ensures legal { IsLegalMachine self.old.kernel.machine }
    {
        show_legal(&self.kernel);
        self.see(pass);
        match self.queue(pass, job, wishes, room) {
            Ok(number) => {
                self.see(pass);
                Ok(number)
            }
            Err(fault) => Err(fault),
        }
    }

    /// Why a post is refused for which no memory was found before the lock was taken.
    pub fn refuse(&mut self, pass: &mut Pass<L>) -> PostFault
        ensures refusal { IsRefusal self.old.kernel.machine result }
        ensures pass { HasSeen pass.old pass.new }
        ensures acts { pass.new.acts ≡ pass.old.acts }
        ensures front { pass.new.front ≡ self.old.kernel.machine.minutes }
        ensures closing { has_shutdown pass.new.notes ≡ self.old.kernel.machine.closing }
        ensures kernel { self.new.kernel ≡ self.old.kernel }
        ensures legal { IsLegalMachine self.old.kernel.machine }
    {
        self.see(pass);
        refusal_of(&self.kernel)
    }

    /// Shows the minutes to a pass, and the notes beside them. What it had seen is a beginning of them, and all its posts are among them.
    pub fn see(&mut self, pass: &mut Pass<L>)
        ensures seen { HasSeen pass.old pass.new }
        ensures acts { pass.new.acts ≡ pass.old.acts }
        ensures front { pass.new.front ≡ self.old.kernel.machine.minutes }
        ensures notes { pass.new.notes ≡ self.old.notes }
        ensures same_notes { self.new.notes ≡ self.old.notes }
        ensures closing { has_shutdown pass.new.notes ≡ self.old.kernel.machine.closing }
        ensures own { pass.new.posts ≤ posted_in self.old.kernel.machine.minutes }
        ensures open_comms { comms_in pass.new.notes ≡ self.new.comms }
        ensures legal { IsLegalMachine self.old.kernel.machine }
        ensures kernel { self.new.kernel ≡ self.old.kernel }
        ensures comms { self.new.comms ≡ self.old.comms }
        ensures pending_results { self.new.pending_results ≡ self.old.pending_results }
    {
        show_legal(&self.kernel);
        let State {
            book,
            history,
            notes,
            ..
        } = self;
        pass.see(book, history, notes);
    }

    /// Shows the minutes to a pass that asks a question, and the notes, of which the question is the last: so it is answered of what stands here now. The
    /// question is no act.
    pub fn take_question(&mut self, pass: &mut Pass<L>)
        ensures noted { IsNotedQuestion pass.old.notes pass.new.notes }
        ensures seen { HasSeen pass.old pass.new }
        ensures acts { pass.new.acts ≡ pass.old.acts }
        ensures kernel_seen { IsKernelSeen pass.new self.new.kernel.machine }
        ensures front { pass.new.front ≡ self.old.kernel.machine.minutes }
        ensures own { pass.new.posts ≤ posted_in self.old.kernel.machine.minutes }
        ensures open_comms { comms_in pass.new.notes ≡ self.new.comms }
        ensures legal { IsLegalMachine self.old.kernel.machine }
        ensures kernel { self.new.kernel ≡ self.old.kernel }
        ensures comms { self.new.comms ≡ self.old.comms }
        ensures pending_results { self.new.pending_results ≡ self.old.pending_results }
    {
        self.see(pass);
        self.note_asked();
        self.see(pass);
    }

    /// Notes that a question was asked.
    fn note_asked(&mut self)
        ensures noted { self.new.notes ≡ self.old.notes ++ Asked ∷ [] }
        ensures kernel { self.new.kernel ≡ self.old.kernel }
        ensures comms { self.new.comms ≡ self.old.comms }
        ensures pending_results { self.new.pending_results ≡ self.old.pending_results }
    {
        let State { notes, .. } = self;
        note_question(notes);
    }

    /// Shows the minutes and the notes to two passes. What each had seen is a beginning of them, so of what the two had seen one is a beginning of the other:
    /// there is one order for both, in which a number is of one post.
    pub fn in_one_order(&mut self, a: &mut Pass<L>, b: &mut Pass<L>)
        ensures order { AreInOneOrder a.old b.old }
        ensures numbers { HaveOneNumbering a.old b.old }
        ensures first { HasSeen a.old a.new }
        ensures second { HasSeen b.old b.new }
        ensures acts { (a.new.acts ≡ a.old.acts) × (b.new.acts ≡ b.old.acts) }
        ensures kernel { self.new.kernel ≡ self.old.kernel }
        ensures comms { self.new.comms ≡ self.old.comms }
        ensures notes { self.new.notes ≡ self.old.notes }
        ensures pending_results { self.new.pending_results ≡ self.old.pending_results }
    {
        self.see(a);
        self.see(b);
    }

    /// Queues a job. Whether it is refused is tested once: by the kernel, or where there is no memory beside it.
    fn queue(
        &mut self,
        pass: &mut Pass<L>,
        job: Job,
        wishes: &mut Vec<Wish>,
        room: &mut Vec<NamedValue>,
    ) -> Result<u64, PostFault>
        requires empty { room.old.items ≡ [] }
        requires room { vec_len wishes.old ≤ vec_capacity room.old }
        ensures serves { OnOk result (self.old.kernel.machine.closing ≡ false) }
        ensures number { IfOk result (λ n. n ≡ suc (posted_in self.old.kernel.machine.minutes)) }
        ensures posted { IfOk result (λ n. self.new.kernel.machine ≡ posted self.old.kernel.machine pass.old.lane (request_of job)) }
        ensures counted { IfOk result (λ n. pass.new ≡ pass_of pass.old.lane (pass.old.posts + 1) pass.old.acts pass.old.front pass.old.notes) }
        ensures wished { IfOk result (λ n. wished_in self.new.notes ≡ wished_in self.old.notes ++ wishes.old.items ∷ []) }
        ensures refusal { IfErr result (IsRefusal self.old.kernel.machine) }
        ensures left { OnErr result (wishes.new ≡ wishes.old) }
        ensures kernel { OnErr result (self.new.kernel.machine ≡ self.old.kernel.machine) }
        ensures pass { OnErr result (pass.new ≡ pass.old) }
        ensures comms { self.new.comms ≡ self.old.comms }
        ensures pending_result { IfOk result
            (λ n. (e : PendingResult) × IsWaiting wishes.old.items e
            × (self.new.pending_results.items ≡ self.old.pending_results.items ++ e ∷ [])) }
        ensures pending_results { OnErr result (self.new.pending_results.items ≡ self.old.pending_results.items) }
    {
        let State {
            kernel,
            pending_results,
            alloc,
            book,
            history,
            notes,
            ..
        } = self;
        show_legal(kernel);
        if pending_results.reserve(1).is_err() {
            return Err(refusal_of(kernel));
        }
        let number = kernel.post(pass.lane(), job)?;
        follow(history, kernel);
        let wishes = note_wishes(notes, taken(*alloc, wishes));
        let room = taken(*alloc, room);
        pending_results.push_reserved(PendingResult::new(wishes, room));
        pass.count(book);
        Ok(number)
    }

    /// One turn of the runner, by the bell that the type names, which is noted. In a turn that ends a job its shown text and the first of its values are made.
    /// What was under way of an earlier job is finished first.
    pub fn turn(&mut self, bell: &Bell, runner: &mut RunnerSeat, m: u64) -> Turn
        requires own { runner.old.bell ≡ bell.now }
        requires bell { bell.now ≡ L.bell }
        requires room { runner.old.knows.serial < 2 ^ 64 - 1 }
        ensures turn { IsTurn self.old.kernel.machine runner.old m result self.new.kernel.machine runner.new }
        ensures legal { IsLegalMachine self.old.kernel.machine }
        ensures comms { self.new.comms ≡ self.old.comms }
        ensures noted { (note : Note) × (self.new.notes ≡ self.old.notes ++ note ∷ [])
            × GoesBy note self.old.kernel.machine self.new.kernel.machine }
        ensures kept { AreKept self.old.settled self.old.pending_results.items self.new.pending_results.items }
        ensures untold { AreUntold self.old.settled self.new.settled self.new.pending_results.items }
    {
        self.finish();
        show_legal(&self.kernel);
        let State {
            kernel,
            history,
            notes,
            ..
        } = self;
        let (turn, note) = noted_turn_on(kernel, bell, runner, m);
        note_turn(notes, note);
        if turn.is_end() {
            follow(history, kernel);
            show_legal(&self.kernel);
            let opened = open_last(self.alloc, &self.kernel, &mut self.pending_results);
            self.under_way = Some(opened);
            let mut spent = None;
            let _more = self.make(&mut spent);
        }
        turn
    }

    /// Makes some more of what is under way for the job that has ended last; whether more may be left. Once nothing is, `spent` has the memory of its user
    /// expressions, to be let go of without the lock.
    pub fn make(&mut self, spent: &mut Option<SpentWishes>) -> bool
        ensures kernel { self.new.kernel ≡ self.old.kernel }
        ensures comms { self.new.comms ≡ self.old.comms }
        ensures notes { self.new.notes ≡ self.old.notes }
        ensures all { result ≡ false → self.new.under_way ≡ None }
        ensures fewer { length (left_in self.new.under_way) ≡ length (left_in self.old.under_way) - WISHES_OF_A_PIECE }
        // It answers that more may be left only where a whole piece was: so it comes to an end.
        ensures some { result ≡ true → WISHES_OF_A_PIECE ≤ length (left_in self.old.under_way) }
        ensures kept { AreKept self.old.settled self.old.pending_results.items self.new.pending_results.items }
        ensures untold { AreUntold self.old.settled self.new.settled self.new.pending_results.items }
        ensures legal { IsLegalMachine self.old.kernel.machine }
    {
        show_legal(&self.kernel);
        let State {
            kernel,
            pending_results,
            settled,
            under_way,
            alloc,
            ..
        } = self;
        let Some(made) = under_way else {
            return false;
        };
        if made.make(*alloc, kernel, WISHES_OF_A_PIECE) {
            return true;
        }
        if let Some(made) = under_way.take() {
            *settled = made.number;
            *spent = Some(settle_last(pending_results, made));
        }
        false
    }

    /// Makes all that is left of what is under way.
    fn finish(&mut self)
        ensures kernel { self.new.kernel ≡ self.old.kernel }
        ensures comms { self.new.comms ≡ self.old.comms }
        ensures notes { self.new.notes ≡ self.old.notes }
        ensures all { self.new.under_way ≡ None }
        ensures kept { AreKept self.old.settled self.old.pending_results.items self.new.pending_results.items }
        ensures untold { AreUntold self.old.settled self.new.settled self.new.pending_results.items }
    {
        show_legal(&self.kernel);
        let State {
            kernel,
            pending_results,
            settled,
            under_way,
            alloc,
            ..
        } = self;
        if let Some(mut made) = under_way.take() {
            made.finish(*alloc, kernel);
            *settled = made.number;
            let _spent = settle_last(pending_results, made);
        }
    }

    /// Whether something is still made for a job that has ended.
    pub fn is_making(&self) -> bool
        ensures { result ≡ is_some self.now.under_way }
    {
        self.under_way.is_some()
    }

    /// What came of the job of this number; `None` where it has not ended, where what is made for it is under way, or where the first alone is to be told
    /// and was told already. What was made as it ended is told once: of the wishes that are noted of its post. Who comes later is told nothing of it. That it
    /// is told is an act of the pass, and all that is told is the last of the notes that it has seen then; where nothing is told the pass is as it was.
    pub fn done(&mut self, pass: &mut Pass<L>, number: u64, is_first: bool) -> Option<Done>
        ensures number { IfSome result (λ d. d.number ≡ number) }
        ensures end { IfSome result (HasEnd self.old.kernel.machine.minutes) }
        ensures told { IfSome result (λ d. IsTold self.old.kernel.machine.minutes self.old.pending_results.items number d self.new.pending_results.items) }
        ensures none { IfNone result (self.new.pending_results.items ≡ self.old.pending_results.items) }
        ensures unended { IfNone result (is_first ≡ false → self.old.under_way ≡ None → EndsNowhere self.old.kernel.machine.minutes number) }
        // Of what is settled the end is told, whatever is under way.
        ensures settled { IfNone result (is_first ≡ false → number ≤ self.old.settled → EndsNowhere self.old.kernel.machine.minutes number) }
        // To the first all is told that is settled and was not told.
        ensures first { IfNone result (is_first ≡ true → WasTold self.old.settled self.old.pending_results.items number) }
        ensures made { IfSome result (λ d. is_first ≡ true → ∥ WereMade self.old.kernel.machine.minutes d.number d.outcome
            (get_or (wished_in self.old.notes) (number - 1) []) (option_map string_bytes d.shown) d.values.items ∥₁) }
        ensures once { IfSome result (λ d. ∥ IsToldOnce self.old.kernel.machine.minutes (get_or (wished_in self.old.notes) (number - 1) []) d ∥₁) }
        ensures noted { IfSome result (λ d. IsNotedEnd pass.old.notes d pass.new.notes) }
        ensures wishes { IfSome result (λ d. wished_in pass.new.notes ≡ wished_in self.old.notes) }
        ensures front { IfSome result (λ d. pass.new.front ≡ self.old.kernel.machine.minutes) }
        ensures seen { IfSome result (λ d. HasSeen pass.old pass.new) }
        ensures acts { IfSome result (λ d. pass.new.acts ≡ next_act pass.old.acts) }
        ensures waits { IfNone result (pass.new ≡ pass.old) }
        ensures legal { IsLegalMachine self.old.kernel.machine }
        ensures kernel { self.new.kernel ≡ self.old.kernel }
        ensures comms { self.new.comms ≡ self.old.comms }
    {
        match self.take(number, is_first) {
            Some(done) => Some(self.tell(pass, done)),
            None => None,
        }
    }

    /// Tells a pass of an end that was taken, which is noted.
    fn tell(&mut self, pass: &mut Pass<L>, done: Done) -> Done
        ensures same { result ≡ done }
        ensures noted { IsNotedEnd pass.old.notes done pass.new.notes }
        ensures wishes { wished_in pass.new.notes ≡ wished_in self.old.notes }
        ensures front { pass.new.front ≡ self.old.kernel.machine.minutes }
        ensures seen { HasSeen pass.old pass.new }
        ensures acts { pass.new.acts ≡ next_act pass.old.acts }
        ensures legal { IsLegalMachine self.old.kernel.machine }
        ensures kernel { self.new.kernel ≡ self.old.kernel }
        ensures comms { self.new.comms ≡ self.old.comms }
        ensures pending_results { self.new.pending_results ≡ self.old.pending_results }
    {
        self.see(pass);
        let done = self.note_end(done);
        pass.act();
        self.see(pass);
        done
    }

    /// Notes what is told of an end.
    fn note_end(&mut self, done: Done) -> Done
        ensures same { result ≡ done }
        ensures noted { self.new.notes ≡ self.old.notes ++ Told done ∷ [] }
        ensures wishes { wished_in self.new.notes ≡ wished_in self.old.notes }
        ensures kernel { self.new.kernel ≡ self.old.kernel }
        ensures comms { self.new.comms ≡ self.old.comms }
        ensures pending_results { self.new.pending_results ≡ self.old.pending_results }
    {
        let State { notes, .. } = self;
        note_told(notes, done)
    }

    /// `done`, of which the pass is still to be told.
    fn take(&mut self, number: u64, is_first: bool) -> Option<Done>
        ensures number { IfSome result (λ d. d.number ≡ number) }
        ensures end { IfSome result (HasEnd self.old.kernel.machine.minutes) }
        ensures told { IfSome result (λ d. IsTold self.old.kernel.machine.minutes self.old.pending_results.items number d self.new.pending_results.items) }
        ensures none { IfNone result (self.new.pending_results.items ≡ self.old.pending_results.items) }
        ensures unended { IfNone result (is_first ≡ false → self.old.under_way ≡ None → EndsNowhere self.old.kernel.machine.minutes number) }
        // Of what is settled the end is told, whatever is under way.
        ensures settled { IfNone result (is_first ≡ false → number ≤ self.old.settled → EndsNowhere self.old.kernel.machine.minutes number) }
        // To the first all is told that is settled and was not told.
        ensures first { IfNone result (is_first ≡ true → WasTold self.old.settled self.old.pending_results.items number) }
        ensures made { IfSome result (λ d. is_first ≡ true → ∥ WereMade self.old.kernel.machine.minutes d.number d.outcome
            (get_or (wished_in self.old.notes) (number - 1) []) (option_map string_bytes d.shown) d.values.items ∥₁) }
        ensures once { IfSome result (λ d. ∥ IsToldOnce self.old.kernel.machine.minutes (get_or (wished_in self.old.notes) (number - 1) []) d ∥₁) }
        ensures notes { self.new.notes ≡ self.old.notes }
        ensures legal { IsLegalMachine self.old.kernel.machine }
        ensures kernel { self.new.kernel ≡ self.old.kernel }
        ensures comms { self.new.comms ≡ self.old.comms }
    {
        show_legal(&self.kernel);
        if is_first {
            fetch_first(self.alloc, &self.kernel, &mut self.pending_results, number)
        } else {
            fetch(self.alloc, &self.kernel, &mut self.pending_results, number)
        }
    }

    /// How many results are settled, those of the first jobs: the number of the job that was settled last.
    pub fn settled(&self) -> u64
        ensures { result ≡ self.now.settled }
    {
        self.settled
    }

    /// The next of the passes that are still to be given, with no posts and no acts, which has seen the minutes; `None` where all are given.
    pub fn pass(&mut self, passes: &mut Passes<L>) -> Option<Pass<L>>
        ensures pass { IfSome result (λ p. p ≡ pass_of (passes.old + 1) 0 0 self.old.kernel.machine.minutes self.old.notes) }
        ensures lane { IfSome result (λ p. (1 ≤ p.lane) × (p.lane ≤ PASSES)) }
        ensures given { IfSome result (λ p. passes.new ≡ passes.old + 1) }
        ensures none { IfNone result ((passes.old ≡ PASSES) × (passes.new ≡ passes.old)) }
        ensures legal { IsLegalMachine self.old.kernel.machine }
        ensures kernel { self.new.kernel ≡ self.old.kernel }
        ensures comms { self.new.comms ≡ self.old.comms }
        ensures pending_results { self.new.pending_results ≡ self.old.pending_results }
    {
        show_legal(&self.kernel);
        let State { history, notes, .. } = self;
        passes.next(history, notes)
    }

    /// How many minutes there are.
    pub fn seen(&self) -> usize
        ensures seen { result ≡ length self.now.kernel.machine.minutes }
        ensures legal { IsLegalMachine self.now.kernel.machine }
    {
        show_legal(&self.kernel);
        self.kernel.minutes().len()
    }

    /// Whether the kernel has nothing to do.
    pub fn is_idle(&self) -> bool
        ensures { IsTrue result ↔ (phase_of self.now.kernel.machine.state.job self.now.kernel.machine.queue ≡ Idle) }
    {
        self.kernel.phase() == Phase::Idle
    }

    /// Whether the kernel is shut.
    pub fn is_closing(&self) -> bool
        ensures { result ≡ self.now.kernel.machine.closing }
    {
        self.kernel.is_closing()
    }

    /// Where memory is taken from.
    pub fn alloc(&self) -> Global {
        self.alloc
    }

    /// Answers a question: `ask_on` over the kernel and the comms.
    pub fn ask(&self, ask: Ask<'_>) -> Result<Answer, HallFault>
        ensures answer { IfOk result (IsAnswer self.now.kernel.machine self.now.comms ask.entry) }
        ensures legal { IsLegalMachine self.now.kernel.machine }
        ensures refusal { IfErr result (λ f. f ≡ HallFault.Memory) }
    {
        show_legal(&self.kernel);
        ask_on(self.alloc, &self.kernel, &self.comms, ask)
    }

    /// Opens or closes a comm for a pass, whose act it is, and tells whether it did: `comm_on` over the comms. Those that are open then are the last of the
    /// notes that the pass has seen then.
    pub fn comm(&mut self, pass: &mut Pass<L>, change: CommChange<'_>) -> Result<bool, HallFault>
        ensures change { IsNotedChange pass.old.notes change.entry result pass.new.notes }
        ensures seen { HasSeen pass.old pass.new }
        ensures acts { pass.new.acts ≡ next_act pass.old.acts }
        ensures front { pass.new.front ≡ self.old.kernel.machine.minutes }
        ensures legal { IsLegalMachine self.old.kernel.machine }
        ensures kernel { self.new.kernel ≡ self.old.kernel }
        ensures pending_results { self.new.pending_results ≡ self.old.pending_results }
    {
        self.see(pass);
        let told = self.change(change);
        pass.act();
        self.see(pass);
        told
    }

    /// Opens or closes a comm, and notes those that are open then.
    fn change(&mut self, change: CommChange<'_>) -> Result<bool, HallFault>
        ensures change { IsChange self.old.comms change.entry result self.new.comms }
        ensures before { comms_in self.old.notes ≡ self.old.comms }
        ensures noted { self.new.notes ≡ self.old.notes ++ Changed self.new.comms ∷ [] }
        ensures kernel { self.new.kernel ≡ self.old.kernel }
        ensures pending_results { self.new.pending_results ≡ self.old.pending_results }
    {
        let State {
            comms,
            notes,
            alloc,
            ..
        } = self;
        let mut open = mem::replace(comms, Comms::new(*alloc));
        let told = comm_on(&mut open, change);
        *comms = note_comms(notes, open);
        told
    }

    /// Refuses later posts, for who has the passes that are still to be given. What is handed out has seen it in the notes.
    pub fn shut(&mut self, _passes: &Passes<L>) -> Front<Note, Beside<L>>
        ensures seen { has_shutdown result ≡ true }
        ensures shut { self.new.kernel.machine ≡ shut self.old.kernel.machine }
        ensures noted { has_shutdown self.new.notes ≡ true }
        ensures comms { self.new.comms ≡ self.old.comms }
        ensures pending_results { self.new.pending_results ≡ self.old.pending_results }
    {
        self.close_now()
    }

    /// Refuses later posts, which is an act of the pass. It has seen it then in the notes.
    pub fn shut_by(&mut self, pass: &mut Pass<L>)
        ensures seen { HasSeen pass.old pass.new }
        ensures acts { pass.new.acts ≡ next_act pass.old.acts }
        ensures noted { has_shutdown pass.new.notes ≡ true }
        ensures front { pass.new.front ≡ self.new.kernel.machine.minutes }
        ensures legal { IsLegalMachine self.new.kernel.machine }
        ensures shut { self.new.kernel.machine ≡ shut self.old.kernel.machine }
        ensures comms { self.new.comms ≡ self.old.comms }
        ensures pending_results { self.new.pending_results ≡ self.old.pending_results }
    {
        let _seen = self.close_now();
        pass.act();
        self.see(pass);
    }

    /// Refuses later posts, which is noted. What is handed out has seen it.
    fn close_now(&mut self) -> Front<Note, Beside<L>>
        ensures seen { has_shutdown result ≡ true }
        ensures shut { self.new.kernel.machine ≡ shut self.old.kernel.machine }
        ensures noted { has_shutdown self.new.notes ≡ true }
        ensures comms { self.new.comms ≡ self.old.comms }
        ensures pending_results { self.new.pending_results ≡ self.old.pending_results }
    {
        let State { kernel, notes, .. } = self;
        kernel.shut();
        note_shutdown(notes);
        notes.front()
    }

    /// Compares the minutes with what the frontends came away with. All of it is spent, the kernel too where something is missing or
    /// untrue: as `PassMissing` where the posts of the passes don't add up to those of the minutes, else as `TicketUnknown` with a
    /// number at which a ticket or an end doesn't stand, which two tickets share, or which is smaller than that of an earlier post of
    /// its pass. Either way what each pass has seen is a beginning of these minutes, and of the notes beside them. It takes no memory.
    pub fn close(
        self,
        passes: Vec<Pass<L>>,
        mut tickets: Vec<Ticket>,
        mut dones: Vec<Done>,
    ) -> Result<Minutes<W>, AuditFault>
        ensures minutes { IfOk result (λ m. m ≡ self.kernel.machine) }
        ensures audited { IfOk result (λ m. Audited self.kernel.machine.minutes passes.items tickets.items dones.items) }
        ensures fault { IfErr result (IsAuditFault self.kernel.machine.minutes passes.items tickets.items dones.items) }
        ensures fronts { All (λ p. IsPrefix p.front self.kernel.machine.minutes) passes.items }
        ensures notes { All (λ p. IsPrefix p.notes self.notes) passes.items }
        ensures legal { IsLegalMachine self.kernel.machine }
    {
        show_legal(&self.kernel);
        let State {
            kernel,
            mut book,
            mut history,
            mut notes,
            ..
        } = self;
        let audited = audit(kernel.minutes(), &passes, &mut tickets, &mut dones);
        show_all(passes, &mut book, &mut history, &mut notes);
        match audited {
            Ok(()) => Ok(Minutes { kernel }),
            Err(fault) => {
                kernel.discard();
                Err(fault)
            }
        }
    }

    /// Discards what lies under the lock, the kernel by `Kernel::discard`.
    pub fn discard(self) {
        let State { kernel, .. } = self;
        kernel.discard();
    }
}

/// All that stands in a list, which is empty then.
fn taken<T>(alloc: Global, from: &mut Vec<T>) -> Vec<T>
    ensures { result ≡ from.old }
{
    mem::replace(from, Vec::new(alloc))
}

/// Why a post is refused for which there is no memory.
fn refusal_of<W: Ledger>(kernel: &Kernel<W>) -> PostFault
    ensures { IsRefusal kernel.now.machine result }
{
    kernel.post_fault().unwrap_or(PostFault::Memory)
}

/// Does nothing: its contract says that a kernel's state and minutes are legal.
fn show_legal<W: Ledger>(kernel: &Kernel<W>)
    ensures { IsLegalMachine kernel.now.machine }
{
    let _ = kernel.world();
    let _ = kernel.minutes();
}
