// Trials that can be taken back: the ring of slots that a record room is, as code over plain numbers; and, in specs/, what a series
// of steps and take-backs means for any engine (Series.antt), what an engine owes (inner/Owes.antt), and in proofs/ that demand 3 then holds.
//
//   slots_in       how many records a room holds
//   slot_start     where a slot begins
//   slot_after     the slot that the next step writes
//   slot_before    the slot that is the newest after a take-back
//   kept_after     how many records are kept after a step
//   ring_fine      whether K, kept and newest are in range

#![tactic(auto)]

ghost use Rattle.std.specs.Prelude.{◌<◌, ◌^◌};
ghost use Rattle.trials.specs.Ring.{slot_start, SlotsIn, SlotStart, SlotAfter, SlotBefore, KeptAfter, RingJudged};

pub fn slots_in(size: usize, numbers: usize) -> usize
    requires { 0 < size }
    ensures { SlotsIn size numbers result }
{
    numbers / size
}

// A slot of a lent room begins within it, so what is asked is met by `slot_within`.
pub fn slot_start(size: usize, slot: usize) -> usize
    requires { slot_start size slot < 2 ^ 64 }
    ensures { SlotStart size slot result }
{
    slot * size
}

pub fn slot_after(k: usize, newest: usize) -> usize
    requires { newest < k }
    ensures { SlotAfter k newest result }
{
    if newest + 1 < k { newest + 1 } else { 0 }
}

pub fn slot_before(k: usize, newest: usize) -> usize
    requires { newest < k }
    ensures { SlotBefore k newest result }
{
    if newest == 0 { k - 1 } else { newest - 1 }
}

pub fn kept_after(k: usize, kept: usize) -> usize
    ensures { KeptAfter k kept result }
{
    if kept < k { kept + 1 } else { k }
}

pub fn ring_fine(k: usize, kept: usize, newest: usize) -> bool
    ensures { RingJudged k kept newest result }
{
    if k == 0 {
        return false;
    }
    if k < kept {
        return false;
    }
    newest < k
}
