// The slots of an index: looking up, replacing, removing and inserting a code.
#![tactic(auto)]

ghost use Rattle.std.specs.Prelude.{◌≡◌, ◌<◌, length, IfOk, Some, Ok};
ghost use Rattle.std.specs.List.{slice_get};
ghost use Rattle.lists.specs.Size.{and_then};
ghost use Rattle.slots.specs.Calls.{holds_code, slot_for, look_up, replacing, removing, inserting, Changed};
ghost use Rattle.slots.specs.Local.{Local};

use codes::Code;
use fault::Fault;

mod lent;

pub use lent::Slots;

// One slot: whether it is full, and the code and entry that it holds or last held. Only the mark says whether it is empty.
// No Option: an emptied slot keeps its code and entry, which is a rule of the project.
#[derive(Clone, Copy, PartialEq, Eq, Debug)]
pub struct Slot<C, V> {
    pub full: bool,
    pub code: C,
    pub entry: V,
}

impl<C: Code, V: Copy> Slot<C, V> {
    // Whether the slot holds a code: it is full, and the halves are the same.
    fn holds(&self, code: &C) -> bool
        ensures { result ≡ holds_code C.Code.front_of C.Code.back_of code.now self.now }
    {
        self.full && self.code.front() == code.front() && self.code.back() == code.back()
    }
}

// Every call takes r and the lent lists one by one, as a box holds them: a rule of the project.

// Looks a code up: its place and its entry, or none if it is not there.
#[tactic(auto, using(crate::proofs::Locality::lookup_local))]
pub fn lookup<C: Code, V: Copy>(
    r: u32,
    first: &[u16],
    second: &[u16],
    slots: &[Slot<C, V>],
    code: C,
) -> Result<Option<(usize, V)>, Fault>
    ensures value { result ≡ look_up C.Code.front_of C.Code.back_of r code first.now second.now slots.now }
    ensures local { Local C.Code.front_of C.Code.back_of r code first.now second.now slots.now (look_up C.Code.front_of C.Code.back_of r code) }
{
    let (place, slot) = find(r, first, second, slots, code)?;
    Ok(slot.holds(&code).then_some((place, slot.entry)))
}

// Gives a code that is there another entry, and answers the old one.
#[tactic(auto, using(crate::proofs::Locality::replace_local))]
pub fn replace<C: Code, V: Copy>(
    r: u32,
    first: &[u16],
    second: &[u16],
    slots: &mut [Slot<C, V>],
    code: C,
    entry: V,
) -> Result<V, Fault>
    ensures done { Changed slots.old slots.new result (replacing C.Code.front_of C.Code.back_of r code entry first.now second.now slots.old) }
    ensures local { Local C.Code.front_of C.Code.back_of r code first.now second.now slots.old (replacing C.Code.front_of C.Code.back_of r code entry) }
{
    let (place, slot) = find(r, first, second, slots, code)?;
    if !slot.holds(&code) {
        return Err(Fault::NotFound { place });
    }
    slots[place] = Slot { entry, ..slot };
    Ok(slot.entry)
}

// Takes a code out: its slot is marked empty, and its entry is the answer.
#[tactic(auto, using(crate::proofs::Locality::remove_local))]
pub fn remove<C: Code, V: Copy>(
    r: u32,
    first: &[u16],
    second: &[u16],
    slots: &mut [Slot<C, V>],
    code: C,
) -> Result<V, Fault>
    ensures done { Changed slots.old slots.new result (removing C.Code.front_of C.Code.back_of r code first.now second.now slots.old) }
    ensures local { Local C.Code.front_of C.Code.back_of r code first.now second.now slots.old (removing C.Code.front_of C.Code.back_of r code) }
{
    let (place, slot) = find(r, first, second, slots, code)?;
    if !slot.holds(&code) {
        return Err(Fault::NotFound { place });
    }
    slots[place] = Slot {
        full: false,
        ..slot
    };
    Ok(slot.entry)
}

// Puts a code with its entry into the empty slot at its place, and answers the place.
#[tactic(auto, using(crate::proofs::Locality::insert_local))]
pub fn insert<C: Code, V: Copy>(
    r: u32,
    first: &[u16],
    second: &[u16],
    slots: &mut [Slot<C, V>],
    code: C,
    entry: V,
) -> Result<usize, Fault>
    ensures done { Changed slots.old slots.new result (inserting C.Code.front_of C.Code.back_of r code entry first.now second.now slots.old) }
    ensures local { Local C.Code.front_of C.Code.back_of r code first.now second.now slots.old (inserting C.Code.front_of C.Code.back_of r code entry) }
{
    let (place, slot) = find(r, first, second, slots, code)?;
    if slot.holds(&code) {
        return Err(Fault::Found { place });
    }
    if slot.full {
        return Err(Fault::PlaceTaken { place });
    }
    slots[place] = Slot {
        full: true,
        code,
        entry,
    };
    Ok(place)
}

// The place of a code, and the slot that is there.
fn find<C: Code, V: Copy>(
    r: u32,
    first: &[u16],
    second: &[u16],
    slots: &[Slot<C, V>],
    code: C,
) -> Result<(usize, Slot<C, V>), Fault>
    ensures slot { slot_for C.Code.front_of C.Code.back_of r code first.now second.now slots.now ≡ and_then result (λ p. Ok (p.0, Some p.1)) }
    ensures within { IfOk result (λ p. p.0 < length slots.now) }
{
    let place = lists::place(r, first, second, slots.len(), code.front(), code.back())?;
    Ok((place, slots[place]))
}

#[cfg(test)]
mod tests;
