// Many calls on one index, each with its answer, and the law that holds over all of them.
// By a rule of the project a call on an index takes the half width, both lists and the slots one by one.
#![tactic(auto)]

ghost use Rattle.std.specs.Prelude.{◌≡◌, length, replicate};
ghost use Rattle.ledger.specs.Run.{answers_room, Ran, Served};
ghost use Rattle.ledger.specs.Law.{RunLaw, ServeLaw};

mod calls;

use build::{Member, build};
use calls::carry_out_all;
use codes::Code;
use fault::Fault;
use lists::WorkGuard;
use slots::Slot;

// A call on an index.
#[derive(Clone, Copy, PartialEq, Eq, Debug)]
pub enum Call<C, V> {
    Lookup(C),
    Replace(C, V),
    Remove(C),
    Insert(C, V),
}

// What an accepted call answers: a lookup the place and the entry, if the code is there; a replace and a remove the entry
// that was there; an insert the place.
#[derive(Clone, Copy, PartialEq, Eq, Debug)]
pub enum Answer<V> {
    LookedUp(Option<(usize, V)>),
    Replaced(V),
    Removed(V),
    Inserted(usize),
}

// The outcome of a call: its answer, or the refusal.
pub type Outcome<V> = Result<Answer<V>, Fault>;

// Refuses a number of answers that is less than the number of calls.
fn room(calls: usize, answers: usize) -> Result<(), Fault>
    ensures { result ≡ answers_room calls answers }
{
    if answers < calls {
        return Err(Fault::ShortOutput { needed: calls });
    }
    Ok(())
}

// Carries out calls on an index, one after another, and leaves the answer to each at its position. Where the list of
// answers is too short it refuses by 12 with the number needed, and changes nothing.
// On an index that a build or an earlier run left, the ledger law goes on to hold (clause law): a ledger is a list of codes
// with entries that is fed each call and whether it was accepted, and nothing of the index.
pub fn run<C: Code, V: Copy>(
    r: u32,
    first: &[u16],
    second: &[u16],
    slots: &mut [Slot<C, V>],
    calls: &[Call<C, V>],
    answers: &mut [Outcome<V>],
) -> Result<(), Fault>
    ensures ran { Ran C.Code.front_of C.Code.back_of r first.now second.now calls.now slots.old answers.old result slots.new answers.new }
    ensures law { RunLaw C.Code.front_of C.Code.back_of r first.now second.now slots.old calls.now result slots.new answers.new }
{
    room(calls.len(), answers.len())?;
    carry_out_all(r, first, second, slots, calls, answers);
    Ok(())
}

// Builds an index of half width r from its members and then carries out calls on it, one after another, leaving the answer
// to each at its position. It answers as the build does. Where the list of answers is too short it refuses by 12 with the
// number needed, before anything else; the build's refusals follow. The work list is all zeros after every call; a refused
// call changes nothing else.
// The ledger law (clause law): the ledger starts as the members and is fed each call and whether it was accepted, and
// nothing of the index. After every call exactly its codes are found, with its entries, each alone in its place, and every
// answer is the one that the ledger before its call asks for.
pub fn serve<C: Code, V: Copy>(
    r: u32,
    members: &[Member<C, V>],
    first: &mut [u16],
    second: &mut [u16],
    slots: &mut [Slot<C, V>],
    work: &mut [u32],
    calls: &[Call<C, V>],
    answers: &mut [Outcome<V>],
) -> Result<(usize, u64), Fault>
    ensures zero { work.new ≡ replicate (length work.old) 0 }
    ensures served { Served C.Code.front_of C.Code.back_of r members.now calls.now first.old second.old slots.old (length work.old) answers.old result first.new second.new slots.new answers.new }
    ensures law { ServeLaw C.Code.front_of C.Code.back_of r members.now calls.now slots.old result first.new second.new slots.new answers.new }
{
    let guard = WorkGuard { work };
    room(calls.len(), answers.len())?;
    let counts = build(r, members, first, second, slots, guard.work)?;
    carry_out_all(r, first, second, slots, calls, answers);
    Ok(counts)
}

#[cfg(test)]
mod tests;
