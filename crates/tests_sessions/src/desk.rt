//! A desk that has no kernel behind it: it judges code, takes down what it is called for, keeps what is published, and refuses jobs.
use kernel_board::Broadcast;
use kernel_message::Stamp;
use kernel_server::{
    Answer, Ask, CommChange, Content, Desk, Done, HallFault, HistoryAsk, Job, PostFault, Wish,
    is_complete,
};
use std::alloc::{AllocError, Global};
use tests_rows::Sheet;

/// The desk without a kernel. The comm `c` is open.
#[derive(Drop)]
pub(crate) struct NoKernel {
    alloc: Global,
    pub kept: Vec<Broadcast>,
    /// Whether it finds no memory for an answer.
    pub is_without_memory: bool,
    /// What it was called for, each in a line.
    pub calls: Sheet,
}

impl NoKernel {
    /// A desk that was called for nothing.
    pub(crate) fn new(alloc: Global) -> NoKernel {
        NoKernel {
            alloc,
            kept: Vec::new(alloc),
            is_without_memory: false,
            calls: Sheet::new(alloc),
        }
    }
}

/// What is answered to a question.
fn content(alloc: Global, ask: Ask<'_>) -> Content {
    match ask {
        Ask::IsComplete { code } => Content::Completeness(is_complete(alloc, code)),
        Ask::IsOpen { id } => Content::IsOpen(id == "c"),
        _ => Content::Inspection(None),
    }
}

/// Writes a question.
fn write_question(ask: Ask<'_>, calls: &mut Sheet) {
    calls.write("\n  asked: ");
    match ask {
        Ask::Complete { code, cursor } => calls.show(&("complete", code, cursor)),
        Ask::Inspect { code, cursor } => calls.show(&("inspect", code, cursor)),
        Ask::IsComplete { code } => calls.show(&("judge", code)),
        Ask::History(asked) => write_history(asked, calls),
        Ask::Comms => calls.write("comms"),
        Ask::IsOpen { id } => calls.show(&("open", id)),
        Ask::State => calls.write("state"),
    }
}

/// Writes a question for the history.
fn write_history(asked: HistoryAsk, calls: &mut Sheet) {
    match asked {
        HistoryAsk::Tail(n) => calls.show(&("tail", n)),
        HistoryAsk::Range {
            session,
            start,
            stop,
        } => calls.show(&("range", session, start, stop)),
    }
}

impl Desk for NoKernel {
    ghost leads = { λ old call new. Unit {0} };

    fn job(&mut self, job: Job, _wishes: Vec<Wish>) -> Result<Done, PostFault> {
        self.calls.write("\n  posted: ");
        self.calls.show(&job);
        Err(PostFault::Closing)
    }

    fn ask(&mut self, ask: Ask<'_>) -> Result<Answer, HallFault> {
        write_question(ask, &mut self.calls);
        if self.is_without_memory {
            return Err(HallFault::Memory);
        }
        Ok(Answer {
            seen: 0,
            content: content(self.alloc, ask),
        })
    }

    fn comm(&mut self, _change: CommChange<'_>) -> Result<bool, HallFault> {
        Ok(false)
    }

    fn ring(&mut self) {
        self.calls.write("\n  rung");
    }

    fn shut(&mut self) {
        self.calls.write("\n  shut");
    }

    fn publish(&mut self, broadcast: Broadcast) {
        if self.kept.push(broadcast).is_err() {
            self.calls.refuse();
        }
    }

    fn wake(&mut self) {}

    fn broadcasts(&mut self, alloc: Global) -> Result<Vec<Broadcast>, AllocError> {
        let mut kept = Vec::new(alloc);
        for broadcast in &self.kept {
            kept.push(broadcast.clone()?)?;
        }
        Ok(kept)
    }

    fn date(&mut self, _stamp: &mut Stamp) {}
}
