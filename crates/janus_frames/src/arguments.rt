//! The arguments of a call, made of the numbers of their slots.

ghost use Rattle.std.specs.Prelude.{◌≡◌, ◌≤◌, length};
ghost use Rattle.janus_meaning.specs.Limit.{parameter_limit};
ghost use Rattle.janus_frames.specs.Calls.{slots_of};

use crate::args::Args;

impl Args {
    /// These slots, at most 16.
    pub fn of(slots: &[u16]) -> Args
        requires { length slots.now ≤ parameter_limit }
        ensures { slots_of result ≡ slots.now }
    {
        let mut all = [0u16; 16];
        let count = slots.len();
        for i in 0..count {
            all[i] = slots[i];
        }
        Args { slots: all, count }
    }

    /// The slots.
    #[inline(always)]
    pub fn slots(&self) -> &[u16]
        ensures { result.now ≡ slots_of self.now }
    {
        &self.slots[..self.count]
    }
}
