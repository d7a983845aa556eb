//! The laws of the kernel machine's runs: what comes of any list of posts, begins, slices with interrupts, and a shutdown. Each function does
//! nothing, and its contract is a law over the definitions of `kernel_machine`.
//!
//! - `Theorems`: each state that is reached is legal, how jobs end, what stops one, what a shutdown does, and that the minutes give the tree,
//!   the position and the counter. `Travels`: where undo, redo and goto lead and in how many steps, and that a node has the world of its path.
//! - `OverTime`: nodes stay as they are through any run, so an undo, a redo or a goto back to a node gives the world of then.
//! - `CountedSteps`: the counts of the open job tell how many steps a slice takes. `Counters`: the execution counter numbers the cells.
//! - `Determined`: want of memory aside each answer is the only one, and a state shows one world.
//!
//! The kernel's code runs this machine, so the layers above it may rely on these laws. That a run can be taken back, in as many steps, is the
//! theorem of `janus_meaning` on the language (Yokoyama and Glück 2007; Yokoyama, Axelsen and Glück 2008).
//!
//! A goto is refused, where no shutdown came before, exactly where there is no such node. On its way down each node that it comes to
//! becomes the favourite of the one above it, and no other favourite changes. A shutdown interrupts nothing.
#![tactic(auto)]

pub mod laws;
