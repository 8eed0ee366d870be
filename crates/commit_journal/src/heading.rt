//! Reading the heads of slots.

ghost use Rattle.std.specs.Prelude.{◌≡◌, ◌^◌, length, IfOk, Some, true};
ghost use Rattle.commit_journal.specs.Causes.{OpenHasCause};
ghost use Rattle.outside.specs.Calls.{Certain, Leaves, Rests};
ghost use Rattle.outside.specs.Holding.{Held, slot_of};
ghost use Rattle.commit_journal.specs.Layout.{HaveBytes, head_of};
ghost use Rattle.commit_journal.specs.declared.head.Head.TheVariants.{Dead};
ghost use Rattle.commit_journal.specs.Opening.{HeadFits, Keeps, Surveyed};

use crate::fault::OpenError;
use crate::head::{Head, Survey};
use crate::reading::{read_bytes, settle, slot_length};
use outside::{Disk, Slot};
use std::alloc::Global;

/// What the first bytes of a slot say.
#[tactic(auto, unfolding(crate::specs::Layout::head_of))]
fn head_in(front: &[u8]) -> Head
    ensures head { result ≡ head_of front.now }
    ensures fits { HeadFits (length front.now) result }
{
    if front.is_empty() {
        return Head::Dead;
    }
    if front[0] != 1 {
        return Head::Dead;
    }
    if front.len() < 11 {
        return Head::Faulty(1);
    }
    let (start, rest) = front.split_at(2);
    let (number, _) = rest.split_at(8);
    let generation = u64::from_be_bytes([
        number[0], number[1], number[2], number[3], number[4], number[5], number[6], number[7],
    ]);
    if start[1] == 2 {
        return Head::Live(2, generation);
    }
    if start[1] != 1 {
        return Head::Faulty(1);
    }
    if generation == u64::MAX {
        return Head::Faulty(2);
    }
    Head::Live(1, generation)
}

/// The head of a slot of this length.
pub(crate) fn head_at<D: Disk>(
    alloc: Global,
    d: &mut D,
    slot: Slot,
    len: u64,
) -> Result<Head, OpenError>
    ensures head { IfOk result (λ head. (o : Held) → Certain D.state D.possible d.old o
        → length (slot_of slot o.slots) ≡ len → head ≡ head_of (slot_of slot o.slots)) }
    ensures fits { IfOk result (λ head. HeadFits len head) }
    ensures rests { Rests D.state D.possible d.old d.new }
    ensures cause { OpenHasCause (D.state d.old) (D.state d.new) result }
{
    let front = read_bytes(alloc, d, slot, 0, len.min(11) as usize)?;
    Ok(head_in(&front))
}

/// Makes both slots certain, and reads their heads.
pub(crate) fn survey<D: Disk>(alloc: Global, d: &mut D) -> Result<Survey, OpenError>
    ensures crash { (o : Held) → Certain D.state D.possible d.old o → HaveBytes o.slots
        → Leaves D.state D.possible d.old d.new (Keeps o) }
    ensures found { IfOk result (λ s. (o : Held) → (D.state d.old).held ≡ Some o
        → Surveyed D.state D.possible d.new o s) }
    ensures first { IfOk result (λ s. HeadFits s.first_len s.first) }
    ensures second { IfOk result (λ s. HeadFits s.second_len s.second) }
    ensures cause { OpenHasCause (D.state d.old) (D.state d.new) result }
{
    settle(d)?;
    let first_len = slot_length(d, Slot::First)?;
    let first = head_at(alloc, d, Slot::First, first_len)?;
    let second_len = slot_length(d, Slot::Second)?;
    let second = head_at(alloc, d, Slot::Second, second_len)?;
    Ok(Survey {
        first,
        first_len,
        second,
        second_len,
    })
}

/// Whether a head is that of a slot that isn't live.
fn is_dead(head: Head) -> bool
    ensures { result ≡ true → head ≡ Dead }
{
    match head {
        Head::Dead => true,
        Head::Faulty(_) => false,
        Head::Live(_, _) => false,
    }
}

/// Whether no slot is live.
pub(crate) fn is_blank(survey: Survey) -> bool
    ensures first { result ≡ true → survey.first ≡ Dead }
    ensures second { result ≡ true → survey.second ≡ Dead }
{
    is_dead(survey.first) && is_dead(survey.second)
}
