// A build of counted members, on parts of the work list.
ghost use Rattle.std.specs.Prelude.{◌≡◌, ◌*◌, ◌≤◌, length};
ghost use Rattle.lists.specs.Size.{Accepted, work_per_place};
ghost use Rattle.build.specs.Built.{first_list, if_ok, second_list, slot_list};
ghost use Rattle.build.specs.Steps.{pairs_answer};

use crate::Member;
use crate::columns::{check, set_lists};
use crate::members::{empty, fill, write_halves};
use codes::Code;
use fault::Fault;
use slots::Slot;

// The first parts of the work list are two columns for the halves and one for the places. The lists are set only after
// the checks.
// Columns, since the lent work list holds plain words, and the library takes no memory.
// Each list is a parameter of its own, as in every call of the library.
#[tactic(auto, using(crate::proofs::Crossing::refused))]
pub(crate) fn build_parts<C: Code, V: Copy>(
    r: u32,
    size: usize,
    members: &[Member<C, V>],
    first: &mut [u16],
    second: &mut [u16],
    slots: &mut [Slot<C, V>],
    work: &mut [u32],
) -> Result<u64, Fault>
    requires accepted { Accepted r (length first.old) (length second.old) (length slots.old) size }
    requires few { length members.now ≤ size }
    requires work { work_per_place * size ≤ length work.old }
    ensures answer { result ≡ pairs_answer C.Code.front_of C.Code.back_of r members.now size }
    ensures first { first.new ≡ if_ok result (first_list C.Code.front_of C.Code.back_of r members.now first.old) first.old }
    ensures second { second.new ≡ if_ok result (second_list C.Code.front_of C.Code.back_of r members.now second.old) second.old }
    ensures slots { slots.new ≡ if_ok result (slot_list C.Code.front_of C.Code.back_of r members.now slots.old) slots.old }
{
    let n = members.len();
    let (fronts, rest) = work.split_at_mut(n);
    let (backs, rest) = rest.split_at_mut(n);
    let (places, rest) = rest.split_at_mut(n);
    write_halves(members, fronts, backs);
    check(size, fronts, backs, rest)?;
    let pairs = set_lists(r, fronts, backs, first, second, places, rest);
    empty(size, slots);
    fill(members, places, slots);
    Ok(pairs)
}
