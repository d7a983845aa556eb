//! The hall that threads share.
ghost use Rattle.std.specs.Prelude.{◌≡◌, ℕ, ◌+◌, ◌-◌, ◌^◌, ◌≤◌, ◌↔◌, ◌⊎◌, [], List, IfOk, IfErr, OnErr, All, true, false, get_or, option_map, string_bytes};
ghost use mathlib.Core.List.{IsPrefix};
ghost use Rattle.hall_state.specs.Runs.{Machine};
ghost use Rattle.hall_state.specs.LegalMinutes.{IsLegalMachine};
ghost use Rattle.hall_state.specs.Answer.{IsAnswer};
ghost use Rattle.hall_state.specs.Minutes.{posted_in};
ghost use Rattle.hall_state.specs.Request.{request_of};
ghost use Rattle.hall_state.specs.Notes.{wished_in, has_shutdown, comms_in, IsNotedQuestion, IsNotedChange, IsNotedEnd};
ghost use Rattle.hall_state.specs.Course.{IsKernelSeen};
ghost use Rattle.hall_state.specs.note.Note.{Note};
ghost use Rattle.hall_state.specs.Passes.{ticket_of, next_act, AreLegal, HasSeen, AreInOneOrder, HaveOneNumbering, HasPosted};
ghost use Rattle.hall_state.specs.PendingResults.{WereMade, IsToldOnce};
ghost use Rattle.hall_state.specs.Turns.{IsTurn};
ghost use Rattle.hall_state.specs.declared.limit.TheConstants.{PASSES, PARTS_OF_POSTS};
ghost use Rattle.hall_state.specs.Ends.{HasEnd};
ghost use Rattle.kernel_hall.specs.Refused.{IsRefused};
ghost use Rattle.hall_state.specs.Audit.{Audited, IsAuditFault};

use crate::ends::Ends;
use crate::entrance::Entrance;
use crate::spin::{LOOKS_FOR_POST, watch};
use hall_state::{
    Answer, Ask, AuditFault, Beside, CommChange, Done, Entry, Front, HallFault, HistoryName, Job,
    Kernel, Minutes, NewHistory, Note, Pass, Passes, PostFault, State, Ticket, Turn, Wish, judge,
    room_for,
};
use kernel_bell::{Bell, RunnerSeat};
use std::alloc::Global;
use std::marker::Model;
use std::sync::ledger::{Blank, Ledger};
use std::sync::{Condvar, Mutex, Wait};

/// One kernel for many threads. Each lock is held for one event of the kernel, or for one piece of what is made of a job that has ended. Contracts
/// see which bell it has. The type parameters name the ledger of the kernel's writes, and that of the posts with the history of the minutes and the bell: a
/// program picks each once.
#[derive(Drop)]
pub struct Hall<W: Ledger, L: HistoryName> {
    state: Mutex<State<W, L>>,
    /// Where frontends come to the lock.
    entrance: Entrance,
    /// Something was posted, or the kernel was shut.
    moved: Condvar,
    ended: Ends,
    bell: Bell,
    alloc: Global,
}

impl<W: Ledger, L: HistoryName> Model for Hall<W, L> {
    ghost use Rattle.std.specs.Prelude.{◌≡◌};
    ghost use Rattle.atomic_table.specs.Seated.{TableId, table_id_coded};

    ghost Value = { TableId };

    ghost coded = { table_id_coded };

    ghost view = { λ h. h.bell };

    ghost invariant = { λ h. h.bell ≡ L.bell };
}

impl<W: Ledger, L: HistoryName> Hall<W, L> {
    /// A hall round an open kernel with no minutes, where no comm is open, with all the passes that it is to give. It takes no memory. The posts are counted in
    /// the ledger that is opened by this blank, its minutes become this history, and what is noted beside them the other one; its bell is the one that the type
    /// names. All parts of that ledger are with the passes, so the hall posts nothing but for a pass that was given and is handed in.
    pub fn new(
        alloc: Global,
        blank: Blank,
        history: NewHistory<Entry>,
        notes: NewHistory<Note>,
        kernel: Kernel<W>,
        bell: Bell,
    ) -> (Hall<W, L>, Passes<L>)
        requires name { blank.name ≡ L.name }
        requires parts { (blank.parts ≡ PARTS_OF_POSTS) × (blank.parts ≡ L.parts) }
        requires history { history ≡ L.history }
        requires notes { notes ≡ L.beside }
        requires bell { bell ≡ L.bell }
        requires fresh { kernel.machine.minutes ≡ [] }
        requires open { kernel.machine.closing ≡ false }
        ensures hall { result.0 ≡ bell }
        ensures passes { result.1 ≡ 0 }
    {
        let (book, rest) = blank.open::<L>();
        let state = State::new(alloc, kernel, book, history, notes);
        let hall = Hall {
            state: Mutex::new(state),
            entrance: Entrance::new(),
            moved: Condvar::new(),
            ended: Ends::new(),
            bell,
            alloc,
        };
        (hall, Passes::new(rest))
    }

    /// The bell, which is rung outside the lock.
    pub fn bell(&self) -> &Bell
        ensures { result.now ≡ self.now }
    {
        &self.bell
    }

    /// The next of the passes that were made with the hall, on the next lane, with no posts, which has seen the minutes. It takes no memory, and is refused as
    /// `NoPass` once all [`PASSES`](crate::PASSES) are given.
    pub fn pass<R: Wait>(&self, rt: &R, passes: &mut Passes<L>) -> Result<Pass<L>, HallFault>
        ensures new { IfOk result (λ p. (p.posts ≡ 0) × (p.acts ≡ 0)) }
        ensures legal { IfOk result (λ p. AreLegal p.front) }
        ensures lane { IfOk result (λ p. (1 ≤ p.lane) × (p.lane ≤ PASSES)) }
        ensures next { IfOk result (λ p. (p.lane ≡ passes.old + 1) × (passes.new ≡ passes.old + 1)) }
        ensures refusal { IfErr result (λ f. f ≡ HallFault.NoPass) }
        ensures none { OnErr result ((passes.old ≡ PASSES) × (passes.new ≡ passes.old)) }
    {
        match self.entrance.enter(rt, &self.state).pass(passes) {
            Some(pass) => Ok(pass),
            None => Err(HallFault::NoPass),
        }
    }

    /// Posts a job. The pass comes back, and has counted it. Its post stands in the minutes that it has seen now, with the ticket's number, and its wishes
    /// are noted under it. A refused post drops the job and the wishes; the refusal is that of the kernel whose minutes the pass has seen now, which
    /// closes where the pass has seen a shutdown.
    pub fn post<R: Wait>(
        &self,
        rt: &R,
        mut pass: Pass<L>,
        job: Job,
        wishes: Vec<Wish>,
    ) -> Result<(Ticket, Pass<L>), (PostFault, Pass<L>)>
        ensures ticket { IfOk result (λ r. r.0 ≡ ticket_of pass r.0.number job) }
        ensures posted { IfOk result (λ r. HasPosted pass (request_of job) wishes.items r.0.number r.1) }
        ensures refused { IfErr result (λ r. HasSeen pass r.1) }
        ensures refusal { IfErr result (λ r. IsRefused r.1 r.0) }
        ensures acts { IfOk result (λ r. r.1.acts ≡ pass.acts) }
        ensures no_acts { IfErr result (λ r. r.1.acts ≡ pass.acts) }
    {
        let Ok(copy) = job.try_clone() else {
            let fault = self.entrance.enter(rt, &self.state).refuse(&mut pass);
            return Err((fault, pass));
        };
        match self.send(rt, &mut pass, copy, wishes) {
            Ok(number) => Ok((
                Ticket {
                    lane: pass.lane(),
                    nth: pass.posts(),
                    number,
                    job,
                },
                pass,
            )),
            Err(fault) => Err((fault, pass)),
        }
    }

    /// Posts a job, whose number it answers, and tells the worker. The room for the values of its wishes is made, and written to, before the lock is taken. The
    /// wishes of a refused post are let go of with the lock free.
    fn send<R: Wait>(
        &self,
        rt: &R,
        pass: &mut Pass<L>,
        job: Job,
        mut wishes: Vec<Wish>,
    ) -> Result<u64, PostFault>
        ensures posted { IfOk result (λ n. HasPosted pass.old (request_of job) wishes.items n pass.new) }
        ensures refused { OnErr result (HasSeen pass.old pass.new) }
        ensures refusal { IfErr result (IsRefused pass.new) }
        ensures acts { pass.new.acts ≡ pass.old.acts }
    {
        let Ok(mut room) = room_for(self.alloc, wishes.len()) else {
            return Err(self.entrance.enter(rt, &self.state).refuse(pass));
        };
        let number = self
            .entrance
            .enter(rt, &self.state)
            .post(pass, job, &mut wishes, &mut room)?;
        self.moved.notify_all();
        Ok(number)
    }

    /// One turn of the runner: under the lock one slice of at most `m` steps, with one look at the bell, or one begin. It is `Worn`, and
    /// does nothing, where the bell's serials are used up. After it all is there that is told of a job that it ended, which takes the lock once more for
    /// each piece of many user expressions, and gives way before each.
    pub fn turn<R: Wait>(&self, rt: &R, runner: &mut RunnerSeat, m: u64) -> Turn
        requires own { runner.old.bell ≡ self.now }
        ensures worn { (result ≡ Turn.Worn) ↔ (runner.old.knows.serial ≡ 2 ^ 64 - 1) }
        ensures same { result ≡ Turn.Worn → runner.new ≡ runner.old }
        ensures turn { (result ≡ Turn.Worn) ⊎ ((k k' : Machine) × IsLegalMachine k × IsTurn k runner.old m result k' runner.new) }
        ensures bell { runner.new.bell ≡ runner.old.bell }
    {
        let (turn, is_making) = self.turn_on(rt, runner, m);
        if is_making {
            self.make_all(rt);
        }
        turn
    }

    /// Makes all that is left of a job that has ended, in pieces, between which others have the lock.
    fn make_all<R: Wait>(&self, rt: &R) {
        for _ in rt.forever() {
            self.give_way();
            if !self.make(rt) {
                break;
            }
        }
    }

    /// Wakes those who wait for one of the jobs behind the first number, up to the last one.
    fn wake_all(&self, first: u64, last: u64) {
        for number in first..last {
            self.ended.wake(number + 1);
        }
    }

    /// `turn`, and whether something is still made for a job that has ended: `make` has to be called then.
    fn turn_on<R: Wait>(&self, rt: &R, runner: &mut RunnerSeat, m: u64) -> (Turn, bool)
        requires own { runner.old.bell ≡ self.now }
        ensures worn { (result.0 ≡ Turn.Worn) ↔ (runner.old.knows.serial ≡ 2 ^ 64 - 1) }
        ensures same { result.0 ≡ Turn.Worn → runner.new ≡ runner.old }
        ensures turn { (result.0 ≡ Turn.Worn) ⊎ ((k k' : Machine) × IsLegalMachine k × IsTurn k runner.old m result.0 k' runner.new) }
        ensures bell { runner.new.bell ≡ runner.old.bell }
    {
        if runner.serial() == u64::MAX {
            return (Turn::Worn, false);
        }
        let mut state = self.state.lock(rt);
        let before = state.settled();
        let turn = state.turn(&self.bell, runner, m);
        let is_making = state.is_making();
        let settled = state.settled();
        if settled != before {
            drop(state);
            self.wake_all(before, settled);
        }
        (turn, is_making)
    }

    /// Makes some more of the values of a job that has ended; whether more may be left. Once all are there who waits for the job is woken. The memory of the
    /// user expressions is let go of behind the lock.
    fn make<R: Wait>(&self, rt: &R) -> bool {
        let mut spent = None;
        let mut state = self.state.lock(rt);
        if state.make(&mut spent) {
            return true;
        }
        let number = state.settled();
        drop(state);
        self.ended.wake(number);
        false
    }

    /// Waits until the ticket's job has ended, and answers what came of it, which is an act of the pass. The end stands in the minutes that the pass has seen
    /// now, and all that is told is the last of the notes. The shown text and the values go to the first wait for it: they are those of the wishes that are
    /// noted under the ticket's number, as the job ended. A later one is told none. Most jobs end before a thread is asleep, so it watches for a while first.
    pub fn wait<R: Wait>(&self, rt: &R, pass: &mut Pass<L>, ticket: &Ticket) -> Done
        ensures number { result.number ≡ ticket.now.number }
        ensures end { HasEnd pass.new.front result }
        ensures once { ∥ IsToldOnce pass.new.front (get_or (wished_in pass.new.notes) (ticket.now.number - 1) []) result ∥₁ }
        ensures seen { HasSeen pass.old pass.new }
        ensures noted { IsNotedEnd pass.old.notes result pass.new.notes }
        ensures acts { pass.new.acts ≡ next_act pass.old.acts }
        ensures legal { AreLegal pass.new.front }
    {
        self.end_of(rt, pass, ticket.number, false)
    }

    /// `post` and `wait` in one, for who keeps no ticket: posts a job, waits until it has ended, and answers what came of it. Post and end stand in the
    /// minutes that the pass has seen now; the shown text and the values of these wishes are those of the kernel as the job ended. All that is told is the last
    /// of the notes that the pass has seen now, so nothing of what was kept for this job is left out; and it is the one act of the pass. A refused post drops
    /// the job and the wishes; the refusal is that of the kernel whose minutes the pass has seen now, which closes where the pass has seen a shutdown.
    pub fn run<R: Wait>(
        &self,
        rt: &R,
        pass: &mut Pass<L>,
        job: Job,
        wishes: Vec<Wish>,
    ) -> Result<Done, PostFault>
        ensures posted { IfOk result (λ done. HasPosted pass.old (request_of job) wishes.items done.number pass.new) }
        ensures end { IfOk result (λ done. HasEnd pass.new.front done) }
        ensures made { IfOk result
            (λ done. ∥ WereMade pass.new.front done.number done.outcome wishes.items (option_map string_bytes done.shown) done.values.items ∥₁) }
        ensures noted { IfOk result (λ done. IsNotedEnd pass.old.notes done pass.new.notes) }
        ensures acts { IfOk result (λ done. pass.new.acts ≡ next_act pass.old.acts) }
        ensures refused { OnErr result (HasSeen pass.old pass.new) }
        ensures no_acts { OnErr result (pass.new.acts ≡ pass.old.acts) }
        ensures refusal { IfErr result (IsRefused pass.new) }
    {
        let number = self.send(rt, pass, job, wishes)?;
        Ok(self.end_of(rt, pass, number, true))
    }

    /// Waits until the job of this number has ended, whose end the pass has seen then. Where it asks as the first, what was made as the job ended goes
    /// along, of the wishes that are noted of its post; nobody else waits for a job that is run so, or it would wait on. Else that goes along, or nothing of
    /// it.
    fn end_of<R: Wait>(&self, rt: &R, pass: &mut Pass<L>, number: u64, is_first: bool) -> Done
        ensures number { result.number ≡ number }
        ensures end { HasEnd pass.new.front result }
        ensures seen { HasSeen pass.old pass.new }
        ensures legal { AreLegal pass.new.front }
        ensures made { is_first ≡ true → ∥ WereMade pass.new.front result.number result.outcome
            (get_or (wished_in pass.new.notes) (number - 1) []) (option_map string_bytes result.shown) result.values.items ∥₁ }
        ensures once { ∥ IsToldOnce pass.new.front (get_or (wished_in pass.new.notes) (number - 1) []) result ∥₁ }
        ensures noted { IsNotedEnd pass.old.notes result pass.new.notes }
        ensures acts { pass.new.acts ≡ next_act pass.old.acts }
    {
        let seen = self.ended.wakings(number);
        let mut state = self.entrance.enter(rt, &self.state);
        if let Some(done) = state.done(pass, number, is_first) {
            return done;
        }
        drop(state);
        self.ended.watch(number, seen);
        let mut state = self.entrance.enter(rt, &self.state);
        for _ in rt.forever() {
            if let Some(done) = state.done(pass, number, is_first) {
                return done;
            }
            state = self.ended.wait(rt, number, state);
        }
        unreachable!()
    }

    /// Answers a question: `ask_on` under the lock, of the kernel whose minutes the pass has seen now, and of the comms that were open then: what it had seen
    /// is a beginning of them, and all its posts are among them. That kernel stands where the notes have led it that the pass has seen now, each turn of the
    /// runner among them and the question last: so an answer is of that moment, in the midst of a job too, and not of an earlier one. The question is no act:
    /// it shuts nothing, changes no comm, and takes nothing of what is to be told of an end. Whether code can be executed as it stands is told with the lock
    /// free. The only refusal is `Memory`.
    pub fn ask<R: Wait>(
        &self,
        rt: &R,
        pass: &mut Pass<L>,
        ask: Ask<'_>,
    ) -> Result<Answer, HallFault>
        ensures answer { IfOk result (λ answer. (k : Machine) × IsKernelSeen pass.new k × IsAnswer k (comms_in pass.new.notes) ask.entry answer) }
        ensures seen { HasSeen pass.old pass.new }
        ensures acts { pass.new.acts ≡ pass.old.acts }
        ensures noted { IsNotedQuestion pass.old.notes pass.new.notes }
        ensures own { pass.new.posts ≤ posted_in pass.new.front }
        ensures refusal { IfErr result (λ f. f ≡ HallFault.Memory) }
    {
        let mut state = self.entrance.enter(rt, &self.state);
        state.take_question(pass);
        match ask {
            // The text alone tells, so others have the lock meanwhile.
            Ask::IsComplete { code } => {
                let alloc = state.alloc();
                let seen = state.seen();
                drop(state);
                Ok(judge(alloc, seen, code))
            }
            ask => state.ask(ask),
        }
    }

    /// Opens or closes a comm, and tells whether it did: `comm_on` under the lock, over the comms that were open then. The change is the last of the notes that
    /// the pass has seen now, and the one act of the pass. The only refusal is `Memory`, of an opening.
    pub fn comm<R: Wait>(
        &self,
        rt: &R,
        pass: &mut Pass<L>,
        change: CommChange<'_>,
    ) -> Result<bool, HallFault>
        ensures change { IsNotedChange pass.old.notes change.entry result pass.new.notes }
        ensures seen { HasSeen pass.old pass.new }
        ensures acts { pass.new.acts ≡ next_act pass.old.acts }
        ensures legal { AreLegal pass.new.front }
        ensures refusal { IfErr result (λ f. f ≡ HallFault.Memory) }
    {
        self.entrance.enter(rt, &self.state).comm(pass, change)
    }

    /// Shows the minutes and the notes to two passes, of any two frontends. Of what the two had seen one is a beginning of the other: there is one order for
    /// both, of the posts and ends and of what is noted beside them, and a number is of one post.
    pub fn in_one_order<R: Wait>(&self, rt: &R, a: &mut Pass<L>, b: &mut Pass<L>)
        ensures order { AreInOneOrder a.old b.old }
        ensures numbers { HaveOneNumbering a.old b.old }
        ensures first { HasSeen a.old a.new }
        ensures second { HasSeen b.old b.new }
        ensures acts { (a.new.acts ≡ a.old.acts) × (b.new.acts ≡ b.old.acts) }
    {
        self.entrance.enter(rt, &self.state).in_one_order(a, b);
    }

    /// From now on each post is refused, and each job that is taken: for who has the passes that are still to be given, so no frontend calls it. It interrupts
    /// nothing, and takes no memory. What is handed out has seen the shutdown in the notes of this hall.
    pub fn shut<R: Wait>(&self, rt: &R, passes: &Passes<L>) -> Front<Note, Beside<L>>
        ensures { has_shutdown result ≡ true }
    {
        let seen = self.entrance.enter(rt, &self.state).shut(passes);
        self.moved.notify_all();
        seen
    }

    /// `shut` for a frontend, whose pass has seen the shutdown then, the one act of it: so each later post of it is refused as `Closing`.
    pub fn shut_by<R: Wait>(&self, rt: &R, pass: &mut Pass<L>)
        ensures seen { HasSeen pass.old pass.new }
        ensures shut { has_shutdown pass.new.notes ≡ true }
        ensures acts { pass.new.acts ≡ next_act pass.old.acts }
        ensures legal { AreLegal pass.new.front }
    {
        self.entrance.enter(rt, &self.state).shut_by(pass);
        self.moved.notify_all();
    }

    /// Ends the hall, once its threads are joined, and compares its minutes with what the frontends came away with: `State::close` of the
    /// kernel. All that it is handed is spent either way. What each of the passes has seen is a beginning of these minutes, and of one list of notes. It takes
    /// no memory.
    pub fn close(
        self,
        passes: Vec<Pass<L>>,
        tickets: Vec<Ticket>,
        dones: Vec<Done>,
    ) -> Result<Minutes<W>, AuditFault>
        ensures legal { IfOk result (λ m. IsLegalMachine m) }
        ensures audited { IfOk result (λ m. Audited m.minutes passes.items tickets.items dones.items) }
        ensures fronts { IfOk result (λ m. All (λ p. IsPrefix p.front m.minutes) passes.items) }
        ensures noted { (notes : List Note) × All (λ p. IsPrefix p.notes notes) passes.items }
        ensures fault { IfErr result (λ f. (k : Machine) × IsLegalMachine k × All (λ p. IsPrefix p.front k.minutes) passes.items
            × IsAuditFault k.minutes passes.items tickets.items dones.items f) }
    {
        let Hall { state, .. } = self;
        state.into_inner().close(passes, tickets, dones)
    }

    /// Discards the hall, with its kernel and its minutes, as `Kernel::discard` does a kernel.
    pub fn discard(self) {
        let Hall { state, .. } = self;
        state.into_inner().discard();
    }

    /// What the worker does behind a slice, with the lock free: frontends that came to the lock while it ran get it first.
    pub(crate) fn give_way(&self) {
        self.entrance.give_way();
    }

    /// Waits until there is something to do. False where the kernel is shut and nothing is left. Where posts come one upon another the next is
    /// there before a thread is asleep, so it watches for a while first.
    pub(crate) fn wait_for_work<R: Wait>(&self, rt: &R) -> bool {
        let seen = self.moved.notifications();
        if is_at_rest(&self.state.lock(rt)) {
            watch(&self.moved, seen, LOOKS_FOR_POST);
        }
        let mut state = self.state.lock(rt);
        for _ in rt.forever() {
            if !state.is_idle() {
                return true;
            }
            if state.is_closing() {
                return false;
            }
            state = self.moved.wait(rt, state);
        }
        unreachable!()
    }
}

/// Whether nothing is to be done, and posts may still come.
fn is_at_rest<W: Ledger, L: HistoryName>(state: &State<W, L>) -> bool {
    state.is_idle() && !state.is_closing()
}
