// The lists of an index: its size, the lengths that it asks for, the place of a code, and the guard over the work list.
#![tactic(auto)]

ghost use Rattle.std.specs.Prelude.{◌≡◌, ◌*◌, ◌^◌, ◌<◌, ◌≤◌, length, replicate, IfOk, Ok, nat_le, nat_lt, slice_index};
ghost use Rattle.fault.specs.declared.Fault.TheVariants.{ShortList, LargeHalf, LargeDisplacement};
ghost use Rattle.lists.specs.Size.{refuse, size_of, checked_size_of, checked_size_with_work_of, work_per_place, Accepted};
ghost use Rattle.lists.specs.Place.{place_of};

use fault::{Displacements, Fault, Half, List};

// The words of the work list that a build or a load asks for each place.
pub const WORK_PER_PLACE: usize = 8;

// N, the number of places of an index: 2^r, where the half width r is the number of bits that a half of a code may have.
pub fn size(r: u32) -> Result<usize, Fault>
    ensures { result ≡ size_of r }
{
    if !(4..=16).contains(&r) {
        return Err(Fault::HalfWidth { r });
    }
    Ok(1 << r)
}

// The size of an index, if its lists have these lengths at least.
// The lengths stay parameters and make no struct: by rule of the project each list is lent by itself.
pub fn checked_size(r: u32, first: usize, second: usize, slots: usize) -> Result<usize, Fault>
    ensures value { result ≡ checked_size_of r first second slots }
    ensures accepted { IfOk result (λ n. Accepted r first second slots n) }
{
    let n = size(r)?;
    long_enough(List::First, first, n)?;
    long_enough(List::Second, second, n)?;
    long_enough(List::Slots, slots, n)?;
    Ok(n)
}

// The same for a call that is lent a work list too.
pub fn checked_size_with_work(
    r: u32,
    first: usize,
    second: usize,
    slots: usize,
    work: usize,
) -> Result<usize, Fault>
    ensures value { result ≡ checked_size_with_work_of r first second slots work }
    ensures accepted { IfOk result (λ n. Accepted r first second slots n × (work_per_place * n ≤ work)) }
{
    let n = checked_size(r, first, second, slots)?;
    long_enough(List::Work, work, WORK_PER_PLACE * n)?;
    Ok(n)
}

// Refuses a list of fewer than `least` elements.
fn long_enough(list: List, len: usize, least: usize) -> Result<(), Fault>
    ensures { result ≡ refuse (nat_lt len least) (ShortList list len) (Ok tt) }
{
    if len < least {
        return Err(Fault::ShortList { list, len });
    }
    Ok(())
}

// The place of a code, given its front and back half and the length of the slot list: the number of its slot.
// What the first list has at the front half displaces the back half: that is the first place.
// What the second list has at the first place displaces the front half: that is the place.
#[tactic(auto, unfolding(crate::specs::Place::place_of))]
pub fn place(
    r: u32,
    first: &[u16],
    second: &[u16],
    slots: usize,
    front: u32,
    back: u32,
) -> Result<usize, Fault>
    ensures value { result ≡ place_of r first.now second.now slots front back }
    ensures within { IfOk result (λ p. (p < 2 ^ r) × (p < slots)) }
{
    let n = checked_size(r, first.len(), second.len(), slots)?;
    let front = half_within(Half::Front, front, n)?;
    let back = half_within(Half::Back, back, n)?;
    let first_place = back ^ displacement(Displacements::First, first, front, n)?;
    Ok(front ^ displacement(Displacements::Second, second, first_place, n)?)
}

// A half, if it is below n.
fn half_within(half: Half, number: u32, n: usize) -> Result<usize, Fault>
    ensures { result ≡ refuse (nat_le n number) (LargeHalf half 0) (Ok number) }
{
    below(n, number as usize, Fault::LargeHalf { half, position: 0 })
}

// The displacement that a list holds at an index, if it is below n.
fn displacement(
    list: Displacements,
    displacements: &[u16],
    index: usize,
    n: usize,
) -> Result<usize, Fault>
    requires { index < length displacements.now }
    ensures { result ≡ refuse (nat_le n (slice_index displacements.now index)) (LargeDisplacement list index) (Ok (slice_index displacements.now index)) }
{
    let displacement = usize::from(displacements[index]);
    below(n, displacement, Fault::LargeDisplacement { list, index })
}

// A number below n; else the fault.
fn below(n: usize, number: usize, fault: Fault) -> Result<usize, Fault>
    ensures { result ≡ refuse (nat_le n number) fault (Ok number) }
{
    if number < n { Ok(number) } else { Err(fault) }
}

// The lent work list while a build or a load uses it: at the guard's end all of it is 0.
pub struct WorkGuard<'a> {
    pub work: &'a mut [u32],
}

impl Drop for WorkGuard<'_> {
    fn drop(self)
        ensures { self.exit.0.now ≡ replicate (length self.entry.work.now) 0 }
    {
        let Self { work } = self;
        work.fill(0);
    }
}
