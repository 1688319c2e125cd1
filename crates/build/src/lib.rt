// The build: an index made from its members.
#![tactic(auto)]

ghost use Rattle.std.specs.Prelude.{◌≡◌, ◌*◌, ◌≤◌, length, replicate, IfOk};
ghost use Rattle.lists.specs.Size.{Accepted, work_per_place};
ghost use Rattle.build.specs.Checked.{counts_checked, places_per_member};
ghost use Rattle.build.specs.Built.{Built};
ghost use Rattle.build.specs.Filled.{slot_of};
ghost use Rattle.build.specs.Laws.{Lawful, OrderFree};

mod columns;
mod members;
mod parts;

use codes::Code;
use fault::Fault;
use lists::{WorkGuard, checked_size_with_work};
use parts::build_parts;
use slots::Slot;

// A member of an index: a code, and the entry that it leads to.
#[derive(Clone, Copy, PartialEq, Eq, Debug)]
pub struct Member<C, V> {
    pub code: C,
    pub entry: V,
}

// The slot that holds a member.
impl<C, V> From<Member<C, V>> for Slot<C, V> {
    fn from(member: Member<C, V>) -> Slot<C, V>
        ensures { result ≡ slot_of member }
    {
        Slot {
            full: true,
            code: member.code,
            entry: member.entry,
        }
    }
}

// The places that an index has for each member, at least.
const PLACES_PER_MEMBER: usize = 8;

// The size of the index, if the lists, of these lengths, are long enough for it and it takes so many members.
fn checked_counts(
    r: u32,
    members: usize,
    first: usize,
    second: usize,
    slots: usize,
    work: usize,
) -> Result<usize, Fault>
    ensures value { result ≡ counts_checked r members first second slots work }
    ensures accepted { IfOk result (λ n. Accepted r first second slots n × (work_per_place * n ≤ work) × (places_per_member * members ≤ n)) }
{
    let size = checked_size_with_work(r, first, second, slots, work)?;
    if members == 0 {
        return Err(Fault::NoMembers);
    }
    if members > size / PLACES_PER_MEMBER {
        return Err(Fault::TooManyMembers { members });
    }
    Ok(size)
}

// Builds an index of half width r from its members, and answers their number and the shared pairs: the pairs of members
// with one first place. It sets the first 2^r of both lists and of the slots, and lets the rest be. Each member stands in
// the slot at its place; the other slots are marked empty, and keep code and entry. Refusals come in the order of their
// numbers. The work list is all zeros after every call; a refused call changes nothing else.
pub fn build<C: Code, V: Copy>(
    r: u32,
    members: &[Member<C, V>],
    first: &mut [u16],
    second: &mut [u16],
    slots: &mut [Slot<C, V>],
    work: &mut [u32],
) -> Result<(usize, u64), Fault>
    ensures zero { work.new ≡ replicate (length work.old) 0 }
    ensures built { Built C.Code.front_of C.Code.back_of r members.now first.old second.old slots.old (length work.old) result first.new second.new slots.new }
    ensures law { Lawful C.Code.front_of C.Code.back_of r members.now (length first.old) (length second.old) (length slots.old) (length work.old) result }
    ensures order { OrderFree C.Code.front_of C.Code.back_of r members.now first.old second.old slots.old (length work.old) result first.new second.new slots.new }
{
    let guard = WorkGuard { work };
    let words = guard.work.len();
    let n = members.len();
    let size = checked_counts(r, n, first.len(), second.len(), slots.len(), words)?;
    let pairs = build_parts(r, size, members, first, second, slots, guard.work)?;
    Ok((n, pairs))
}

#[cfg(test)]
mod tests;
