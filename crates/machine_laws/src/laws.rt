//! The main theorem, over every run of the machine. `run_events` gives such runs, and each state of a kernel is legal.
//! The functions do nothing: their contracts are the laws.
ghost use Rattle.machine_laws.specs.Determined.{StepIsDetermined, RunIsDetermined, OneWorldIsShown};
ghost use Rattle.machine_laws.specs.Theorems.{NewIsLegal, StaysLegal, GoesBackForItsReason, JobsEnd, OnlyAskedSlicesStop, UndoesAll, ShutRefusesJobs};
ghost use Rattle.machine_laws.specs.Theorems.{KeepsLegalMinutes, OneAccount};
ghost use Rattle.machine_laws.specs.Travels.{UndoGoesUp, RedoGoesDown, GotoGoesThere, RedoGivesBack, SettlesOnTime, NeverFaults};
ghost use Rattle.machine_laws.specs.Travels.{IsMirrored, PathGivesWorld, UndoGoesUpThePath, RedoGoesDownFavourites};
ghost use Rattle.machine_laws.specs.OverTime.{NodesStay, SameNodeSameWorld, UndoGivesBack, RedoGivesBackWorld, GotoGivesBack};
ghost use Rattle.machine_laws.specs.CountedSteps.{TakesOneNumber, StepsAreCounted};
ghost use Rattle.machine_laws.specs.Counters.{EndTellsCounted, CounterNeverFalls, CountedIsNext, NoCounterTwice, CounterIsOfBegun, EndsWithinCounter};

/// A new machine is legal: its tree is, and no job is open.
pub fn new_is_legal_law()
    ensures { NewIsLegal }
{}

/// Each run from a legal state leads to a legal state. So the laws below hold at every state of a kernel.
pub fn stays_legal_law()
    ensures { StaysLegal }
{}

/// In each legal state in which a job goes back, it stands no further on than where it turned, and it turned there for its reason: it
/// was asked to while the code went on, or the next step of the code met the fault.
pub fn goes_back_for_its_reason_law()
    ensures { GoesBackForItsReason }
{}

/// A job that is taken ends so, whatever posts, interrupts, slices and shutdowns come; one that is taken while the kernel closes is
/// refused. A cell that ends as `Ran` is a new node with the
/// world to which it leads; any other end leaves all as before it, and tells why. A travel is refused whole, or ends after `j`
/// cells: it says `All` exactly where these are all, and `NoMemory` only on the way down, in front of a cell that declares names.
pub fn jobs_end_law()
    ensures { JobsEnd }
{}

/// Only an asked slice stops a job before its end: where one ends as `Interrupted`, or a travel as `Asked`, some slice since
/// its begin was asked.
pub fn only_asked_slices_stop_law()
    ensures { OnlyAskedSlicesStop }
{}

/// An undo of `k` cells that is taken where there are as many, and before a shutdown, ends as `Undid(k, All)` unless some slice since its begin was asked.
pub fn undoes_all_law()
    ensures { UndoesAll }
{}

/// `j` cells of an undo lead `j` nodes up, and change the position alone.
pub fn undo_goes_up_law()
    ensures { UndoGoesUp }
{}

/// `j` cells of a redo lead `j` favourites down, and change the position alone.
pub fn redo_goes_down_law()
    ensures { RedoGoesDown }
{}

/// A goto goes up with no favourite changed, and then down the path to its node.
pub fn goto_goes_there_law()
    ensures { GotoGoesThere }
{}

/// A redo of `k` cells that follows an undo of `k` cells, both to the end, gives all back.
pub fn redo_gives_back_law()
    ensures { RedoGivesBack }
{}

/// Nodes stay: through any run, whatever posts, interrupts, faults and shutdowns come, each node that there was has the same parent, cell, steps
/// and world. So where a machine that stood idle at a node stands idle there again, it shows the same world, as a whole value.
pub fn nodes_stay_law()
    ensures stay { NodesStay }
    ensures same { SameNodeSameWorld }
{}

/// What a travel gives back, over time. A machine stood idle at a node, and whatever came since: an undo of `k` cells that is taken where
/// that node is the `k`-th above and ends as `All` leaves the machine idle at that node, and shows the world that was shown then, each name, value
/// and procedure of it. So does a redo of `k` cells that is taken where it is the `k`-th favourite below, and a goto to it, that end so.
pub fn undo_gives_back_law()
    ensures undo { UndoGivesBack }
    ensures redo { RedoGivesBackWorld }
    ensures goto { GotoGivesBack }
{}

/// The code of an undo or a redo leads to the world due, in exactly as many steps as the cell took. In every legal state in
/// which it goes on the last of them is still to be taken, and the cell settles in the slice that takes it.
pub fn settles_on_time_law()
    ensures { SettlesOnTime }
{}

/// The number of steps that a slice takes or goes back is the only one, and the counts of the open job tell it: onward the count
/// after less that before, or where the cell is done the steps of its node less that before; back the count before less that after, or
/// where the job settles back the whole count.
pub fn steps_of_slices_law()
    ensures one { TakesOneNumber }
    ensures counted { StepsAreCounted }
{}

/// Undo and redo of an accepted cell never meet a fault.
pub fn never_faults_law()
    ensures { NeverFaults }
{}

/// The inverted code leads back through the same worlds, in as many steps.
pub fn is_mirrored_law()
    ensures { IsMirrored }
{}

/// The world of a node is the one that the cells on its path from the root give, and no other.
pub fn path_gives_world_law()
    ensures { PathGivesWorld }
{}

/// An undo of `k` cells can go exactly where at least `k` cells stand on the path from the root to the position.
pub fn undo_goes_up_the_path_law()
    ensures { UndoGoesUpThePath }
{}

/// A redo of `k` cells can go exactly where at least `k` favourites stand below the position, each below the one before.
pub fn redo_goes_down_favourites_law()
    ensures { RedoGoesDownFavourites }
{}

/// Where neither tells want of memory, two steps for one event from one legal machine give the same answer, and lead to the
/// same machine.
pub fn step_is_determined_law()
    ensures { StepIsDetermined }
{}

/// Where no answer tells want of memory, the answers to a list of events and the machine after it are the only ones.
pub fn run_is_determined_law()
    ensures { RunIsDetermined }
{}

/// The world that a state shows is the only one: so what is told of the shown world is told of this one alone.
pub fn one_world_is_shown_law()
    ensures { OneWorldIsShown }
{}

/// A shutdown interrupts nothing. From then on the kernel closes: each post is refused as `Closing`, so no job is posted any more;
/// by `jobs_end_law` each job that is taken is refused too.
pub fn shut_refuses_jobs_law()
    ensures { ShutRefusesJobs }
{}

/// The minutes of each machine that is reached are legal, and give its tree, position, favourites and counter, save what the open
/// job has done.
pub fn keeps_legal_minutes_law()
    ensures { KeepsLegalMinutes }
{}

/// Entries give one account only: who reads the minutes knows the tree, the position, the favourites and the counter.
pub fn one_account_law()
    ensures { OneAccount }
{}

/// The execution counter numbers the cells that are not silent and are to be stored, in the order of their posts. In legal minutes each
/// end carries the number of such cells that had begun by then; along the minutes these numbers never fall; such a cell carries one more
/// than how many came before it, and no two carry the same. The counter of the kernel is the number of those that have begun, and no end
/// carries more.
pub fn counters_number_cells_law()
    ensures told { EndTellsCounted }
    ensures rising { CounterNeverFalls }
    ensures next { CountedIsNext }
    ensures unlike { NoCounterTwice }
    ensures now { CounterIsOfBegun }
    ensures within { EndsWithinCounter }
{}
