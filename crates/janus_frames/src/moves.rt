//! Values that are moved from the frame of a caller to that of a call, and back.

ghost use Rattle.std.specs.Prelude.{◌≡◌, ◌<◌, ◌≤◌, ◌+◌, ◌-◌, ℕ, length, cond, true, false, slice_index};
ghost use Rattle.janus_meaning.specs.Store.{Lent};
ghost use Rattle.janus_memory.specs.Memory.{Plain, content_at, val_at};
ghost use Rattle.janus_frames.specs.Cells.{has, AreApart, AreBelow};
ghost use Rattle.janus_frames.specs.Inside.{HoldsAlike};

use janus_memory::{Memory, Moves};
use std::sync::ledger::Ledger;

/// Moves the values of the arguments out of the frame that stands from `base` up to `top`, into a new one behind it: the first argument stands on
/// top.
#[inline(always)]
pub(crate) fn lend<L: Ledger>(
    memory: &mut Memory<L>,
    moves: &Moves<L>,
    base: usize,
    top: usize,
    args: &[u16],
)
    requires order { base ≤ top }
    requires room { top + length args.now ≤ length memory.old.numbers }
    requires low { AreBelow (top - base) args.now }
    requires apart { AreApart args.now }
    requires above { (p : ℕ) → top ≤ p → content_at memory.old p ≡ Plain }
    ensures alike { HoldsAlike memory.old memory.new }
    ensures before { (p : ℕ) → p < base → val_at memory.new p ≡ val_at memory.old p }
    ensures frame { (k : ℕ) → k < top - base → val_at memory.new (base + k) ≡ cond (has args.now k) Lent (val_at memory.old (base + k)) }
    ensures moved { (i : ℕ) → i < length args.now →
        val_at memory.new (top + (length args.now - (i + 1))) ≡ val_at memory.old (base + slice_index args.now i) }
    ensures above { (p : ℕ) → top + length args.now ≤ p → content_at memory.new p ≡ Plain }
{
    let count = args.len();
    for i in 0..count {
        memory.law();
        memory.lend(base + args[i] as usize, top + (count - (i + 1)), moves);
    }
}

/// Moves the values of the parameters, which stand behind the frame from `base` up to `top`, back to the arguments, which lent them.
#[inline(always)]
pub(crate) fn give_back<L: Ledger>(
    memory: &mut Memory<L>,
    moves: &Moves<L>,
    base: usize,
    top: usize,
    args: &[u16],
)
    requires order { base ≤ top }
    requires room { top + length args.now ≤ length memory.old.numbers }
    requires low { AreBelow (top - base) args.now }
    requires apart { AreApart args.now }
    requires lent { (k : ℕ) → k < top - base → has args.now k ≡ true → val_at memory.old (base + k) ≡ Lent }
    requires above { (p : ℕ) → top + length args.now ≤ p → content_at memory.old p ≡ Plain }
    ensures alike { HoldsAlike memory.old memory.new }
    ensures before { (p : ℕ) → p < base → val_at memory.new p ≡ val_at memory.old p }
    ensures frame { (k : ℕ) → k < top - base → has args.now k ≡ false → val_at memory.new (base + k) ≡ val_at memory.old (base + k) }
    ensures moved { (i : ℕ) → i < length args.now →
        val_at memory.new (base + slice_index args.now i) ≡ val_at memory.old (top + (length args.now - (i + 1))) }
    ensures above { (p : ℕ) → top ≤ p → content_at memory.new p ≡ Plain }
{
    let count = args.len();
    for i in 0..count {
        memory.law();
        memory.give_back(top + (count - (i + 1)), base + args[i] as usize, moves);
    }
}
