// Loops over the members and the slots: halves into columns, marks taken off, members into slots.
ghost use Rattle.std.specs.Prelude.{◌≡◌, ◌≤◌, length};
ghost use Rattle.displace.specs.Columns.{Below};
ghost use Rattle.build.specs.Filled.{emptied, filled};
ghost use Rattle.build.specs.Steps.{column};

use crate::Member;
use codes::Code;
use slots::Slot;

// Writes the halves of the members to two columns.
#[tactic(auto, using(crate::proofs::Halves::column_more), unfolding(crate::specs::Steps::column))]
pub(crate) fn write_halves<C: Code, V>(
    members: &[Member<C, V>],
    fronts: &mut [u32],
    backs: &mut [u32],
)
    requires fronts { length fronts.old ≡ length members.now }
    requires backs { length backs.old ≡ length members.now }
    ensures fronts { fronts.new ≡ column C.Code.front_of members.now }
    ensures backs { backs.new ≡ column C.Code.back_of members.now }
{
    // Not a zip with iter_mut: a proof has no name for what such a zip writes, so what the columns hold stays open.
    for (i, member) in members.iter().enumerate() {
        fronts[i] = member.code.front();
        backs[i] = member.code.back();
    }
}

// Marks the first slots empty, as many as the index has places. They keep their codes and entries.
#[tactic(auto, using(crate::proofs::Filling::emptied_more, crate::proofs::Filling::emptied_part))]
pub(crate) fn empty<C: Copy, V: Copy>(size: usize, slots: &mut [Slot<C, V>])
    requires { size ≤ length slots.old }
    ensures { slots.new ≡ emptied size slots.old }
{
    for slot in &mut slots[..size] {
        slot.full = false;
    }
}

// Writes each member to the slot at its place.
pub(crate) fn fill<C: Copy, V: Copy>(
    members: &[Member<C, V>],
    places: &[u32],
    slots: &mut [Slot<C, V>],
)
    requires long { length places.now ≡ length members.now }
    requires within { Below (length slots.old) places.now }
    ensures { slots.new ≡ filled places.now members.now slots.old }
{
    for (member, place) in members.iter().zip(places) {
        slots[*place as usize] = Slot::from(*member);
    }
}
