//! Rows of schedules: the calls of a new kernel. `cell`, `silent` and `unstored` post a cell, `undo`, `redo` and `goto` a move; `begin`,
//! `slice` with a number of steps, `ask` (a slice that asks to stop) and `shut` are the further calls. `world` gives the shown
//! world, `minutes` the counter, the phase and the minutes, and `events` runs a whole list of events. `repeat` makes calls so often, and
//! gives the last answers. `sweep` and `fault` are told by the module `sweeps`. Other rows are questions.
ghost use Rattle.std.specs.Prelude.{◌≡◌, ◌<◌};

use crate::questions::tell_question;
use crate::subject::{Subject, tell_rows};
use crate::sweeps::sweep;
use crate::values::write_value;
use kernel_core::{CellText, Event, Job, Kernel, run_events};
use std::alloc::{AllocError, Global};
use std::marker::Brand;
use std::sync::ledger::{Blank, Ledger};
use tests_rows::{Sheet, cut, number, written};

/// Makes the calls on a new kernel, and writes each with its answer.
pub(crate) fn tell(calls: &str, sheet: &mut Sheet) {
    match String::from_str(sheet.alloc(), calls) {
        Ok(calls) => tell_calls(&calls, sheet),
        Err(_) => sheet.refuse(),
    }
}

/// Makes the calls on a new kernel, and writes each with its answer.
fn tell_calls(calls: &String, sheet: &mut Sheet) {
    tell_in::<Brand>(Blank::new(2), calls, sheet);
}

/// Makes the calls on a new kernel over this ledger, and writes each with its answer.
fn tell_in<L: Ledger>(blank: Blank, calls: &String, sheet: &mut Sheet)
    requires name { blank.name ≡ L.name }
    requires parts { blank.parts ≡ L.parts }
    requires two { 1 < L.parts }
{
    match Kernel::<L>::new(sheet.alloc(), blank) {
        Ok(mut kernel) => {
            tell_rows(&mut kernel, calls, sheet);
            kernel.discard();
        }
        Err(_) => sheet.refuse(),
    }
}

impl<L: Ledger> Subject for Kernel<L> {
    fn answer(&mut self, call: &str, sheet: &mut Sheet) {
        let (word, rest) = cut(call);
        match word {
            "sweep" => sweep(self, rest, false, sheet),
            "fault" => sweep(self, rest, true, sheet),
            "repeat" => repeat(self, rest, sheet),
            _ => make(self, word, rest, sheet),
        }
    }
}

/// Makes calls so often, and writes the last answers.
fn repeat<L: Ledger>(kernel: &mut Kernel<L>, row: &str, sheet: &mut Sheet) {
    let (times, calls) = cut(row);
    for _ in 1..number(times) {
        make_untold(kernel, calls, sheet);
    }
    make_all(kernel, calls, sheet);
}

/// Makes calls with a semicolon between them, whose answers nobody is told.
pub(crate) fn make_untold<L: Ledger>(kernel: &mut Kernel<L>, calls: &str, sheet: &mut Sheet) {
    let mut untold = Sheet::new(sheet.alloc());
    make_all(kernel, calls, &mut untold);
    if untold.finish().is_err() {
        sheet.refuse();
    }
}

/// Makes calls with a semicolon between them, and writes each answer behind a blank.
fn make_all<L: Ledger>(kernel: &mut Kernel<L>, calls: &str, sheet: &mut Sheet) {
    for call in calls.split(';') {
        let (word, rest) = cut(call);
        sheet.write(" ");
        make(kernel, word, rest, sheet);
    }
}

/// Makes a call, and writes its answer.
fn make<L: Ledger>(kernel: &mut Kernel<L>, word: &str, rest: &str, sheet: &mut Sheet) {
    match word {
        "begin" => sheet.show(&kernel.begin()),
        "slice" => slice(kernel, rest, false, sheet),
        "ask" => slice(kernel, rest, true, sheet),
        "shut" => shut(kernel, sheet),
        "events" => tell_events(kernel, sheet),
        "cell" | "silent" | "unstored" | "undo" | "redo" | "goto" => {
            post(kernel, word, rest, sheet)
        }
        _ => view(kernel, word, rest, sheet),
    }
}

/// Takes a number of steps, asked to stop or not.
fn slice<L: Ledger>(kernel: &mut Kernel<L>, steps: &str, asked: bool, sheet: &mut Sheet) {
    sheet.show(&kernel.slice(number(steps) as u64, asked));
}

/// Shuts a kernel, and tells whether it is closing.
fn shut<L: Ledger>(kernel: &mut Kernel<L>, sheet: &mut Sheet) {
    kernel.shut();
    sheet.show(&kernel.is_closing());
}

/// Posts the job of a call.
fn post<L: Ledger>(kernel: &mut Kernel<L>, word: &str, rest: &str, sheet: &mut Sheet) {
    match job_of(sheet.alloc(), word, rest) {
        Ok(job) => sheet.show(&kernel.post(7, job)),
        Err(_) => sheet.refuse(),
    }
}

/// The job of a call: a cell with a text, or a move with a number.
fn job_of(alloc: Global, word: &str, rest: &str) -> Result<Job, AllocError> {
    let number = rest.parse::<u32>().unwrap_or(0);
    match word {
        "undo" => Ok(Job::Undo(number)),
        "redo" => Ok(Job::Redo(number)),
        "goto" => Ok(Job::Goto(number)),
        _ => Ok(Job::Cell {
            code: CellText::new(alloc, written(alloc, rest)?)?,
            silent: word == "silent",
            store: word != "unstored",
        }),
    }
}

/// What is seen of a kernel.
fn view<L: Ledger>(kernel: &Kernel<L>, word: &str, rest: &str, sheet: &mut Sheet) {
    match word {
        "world" => tell_world(kernel, sheet),
        "minutes" => tell_minutes(kernel, sheet),
        _ => tell_question(kernel, word, rest, sheet),
    }
}

/// The shown world: the position, and each name with its value.
fn tell_world<L: Ledger>(kernel: &Kernel<L>, sheet: &mut Sheet) {
    sheet.show(&kernel.position());
    let world = kernel.world();
    for i in 0..world.len() {
        let (name, value) = world.entry(i);
        sheet.write(" ");
        sheet.write(name);
        sheet.write("=");
        write_value(value, sheet);
    }
}

/// The counter, the phase, and the entries of the minutes.
fn tell_minutes<L: Ledger>(kernel: &Kernel<L>, sheet: &mut Sheet) {
    sheet.show(&kernel.counter());
    sheet.write(" ");
    sheet.show(&kernel.phase());
    for entry in kernel.minutes() {
        sheet.write("; ");
        sheet.show(entry);
    }
}

/// The answers to a list of events.
fn tell_events<L: Ledger>(kernel: &mut Kernel<L>, sheet: &mut Sheet) {
    match job_of(sheet.alloc(), "cell", "int x x += 5") {
        Ok(job) => run_all(kernel, job, sheet),
        Err(_) => sheet.refuse(),
    }
}

/// The answers to a list of events, the first of which posts this job.
fn run_all<L: Ledger>(kernel: &mut Kernel<L>, job: Job, sheet: &mut Sheet) {
    let events = [
        Event::Post(1, job),
        Event::Begin,
        Event::Slice(9, false),
        Event::Post(2, Job::Redo(1)),
        Event::Begin,
    ];
    sheet.show(&run_events(sheet.alloc(), kernel, &events));
}
