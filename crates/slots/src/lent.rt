// A list of slots that is lent: the calls with a code as its methods.
ghost use Rattle.std.specs.Prelude.{◌≡◌};
ghost use Rattle.slots.specs.Calls.{look_up, replacing, removing, inserting, Changed};
ghost use Rattle.slots.specs.Local.{Local};

use crate::Slot;
use codes::Code;
use fault::Fault;

// The slots of an index, for as long as they are lent. Its methods hand the list to the functions, whose promises they
// repeat: a form that the project asks for.
#[derive(Drop)]
pub struct Slots<'a, C, V> {
    slots: &'a mut [Slot<C, V>],
}

impl<'a, C: Code, V: Copy> Slots<'a, C, V> {
    // Over a list of slots.
    pub fn over(list: &'a mut [Slot<C, V>]) -> Slots<'a, C, V>
        ensures lent { result.slots.ghost_name ≡ list.entry.ghost_name }
        ensures same { result.slots.now ≡ list.old }
    {
        Slots { slots: list }
    }

    // Looks a code up: its place and its entry, or none if it is not there.
    pub fn lookup(
        &self,
        r: u32,
        first: &[u16],
        second: &[u16],
        code: C,
    ) -> Result<Option<(usize, V)>, Fault>
        ensures value { result ≡ look_up C.Code.front_of C.Code.back_of r code first.now second.now self.now.slots.now }
        ensures local { Local C.Code.front_of C.Code.back_of r code first.now second.now self.now.slots.now (look_up C.Code.front_of C.Code.back_of r code) }
    {
        crate::lookup(r, first, second, self.slots, code)
    }

    // Gives a code that is there another entry, and answers the old one.
    pub fn replace(
        &mut self,
        r: u32,
        first: &[u16],
        second: &[u16],
        code: C,
        entry: V,
    ) -> Result<V, Fault>
        ensures done { Changed self.old.slots.now self.new.slots.now result (replacing C.Code.front_of C.Code.back_of r code entry first.now second.now self.old.slots.now) }
        ensures lent { self.new.slots.ghost_name ≡ self.old.slots.ghost_name }
        ensures local { Local C.Code.front_of C.Code.back_of r code first.now second.now self.old.slots.now (replacing C.Code.front_of C.Code.back_of r code entry) }
    {
        crate::replace(r, first, second, self.slots, code, entry)
    }

    // Takes a code out: its slot is marked empty, and its entry is the answer.
    pub fn remove(&mut self, r: u32, first: &[u16], second: &[u16], code: C) -> Result<V, Fault>
        ensures done { Changed self.old.slots.now self.new.slots.now result (removing C.Code.front_of C.Code.back_of r code first.now second.now self.old.slots.now) }
        ensures lent { self.new.slots.ghost_name ≡ self.old.slots.ghost_name }
        ensures local { Local C.Code.front_of C.Code.back_of r code first.now second.now self.old.slots.now (removing C.Code.front_of C.Code.back_of r code) }
    {
        crate::remove(r, first, second, self.slots, code)
    }

    // Puts a code with its entry into the empty slot at its place, and answers the place.
    pub fn insert(
        &mut self,
        r: u32,
        first: &[u16],
        second: &[u16],
        code: C,
        entry: V,
    ) -> Result<usize, Fault>
        ensures done { Changed self.old.slots.now self.new.slots.now result (inserting C.Code.front_of C.Code.back_of r code entry first.now second.now self.old.slots.now) }
        ensures lent { self.new.slots.ghost_name ≡ self.old.slots.ghost_name }
        ensures local { Local C.Code.front_of C.Code.back_of r code first.now second.now self.old.slots.now (inserting C.Code.front_of C.Code.back_of r code entry) }
    {
        crate::insert(r, first, second, self.slots, code, entry)
    }
}
