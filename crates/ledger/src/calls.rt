// Calls carried out one after another.
// r, both lists and the slots stay parameters: as a method of a struct of them `carry_out` is not covered by the borrow checker,
// and takes six clauses for two. `Slots` has the slots alone.
ghost use Rattle.std.specs.Prelude.{◌≡◌, ◌≤◌, ◌++◌, length, drop};
ghost use Rattle.ledger.specs.Run.{answer_to, answers_to, slots_after_call, slots_after_calls};

use crate::{Answer, Call, Outcome};
use codes::Code;
use slots::Slot;

// Carries out one call.
fn carry_out<C: Code, V: Copy>(
    r: u32,
    first: &[u16],
    second: &[u16],
    slots: &mut [Slot<C, V>],
    call: Call<C, V>,
) -> Outcome<V>
    ensures answer { result ≡ answer_to C.Code.front_of C.Code.back_of r first.now second.now slots.old call }
    ensures after { slots.new ≡ slots_after_call C.Code.front_of C.Code.back_of r first.now second.now slots.old call }
{
    Ok(match call {
        Call::Lookup(code) => Answer::LookedUp(slots::lookup(r, first, second, slots, code)?),
        Call::Replace(code, entry) => {
            Answer::Replaced(slots::replace(r, first, second, slots, code, entry)?)
        }
        Call::Remove(code) => Answer::Removed(slots::remove(r, first, second, slots, code)?),
        Call::Insert(code, entry) => {
            Answer::Inserted(slots::insert(r, first, second, slots, code, entry)?)
        }
    })
}

// Carries out every call in turn, and leaves its answer at its position.
pub(crate) fn carry_out_all<C: Code, V: Copy>(
    r: u32,
    first: &[u16],
    second: &[u16],
    slots: &mut [Slot<C, V>],
    calls: &[Call<C, V>],
    answers: &mut [Outcome<V>],
)
    requires { length calls.now ≤ length answers.old }
    ensures slots { slots.new ≡ slots_after_calls C.Code.front_of C.Code.back_of r first.now second.now slots.old calls.now }
    ensures answers { answers.new ≡ answers_to C.Code.front_of C.Code.back_of r first.now second.now slots.old calls.now ++ drop (length calls.now) answers.old }
{
    // An answer is written at its index: of a list that a zip lent out by iter_mut, the proof knows no element afterwards.
    for (i, call) in calls.iter().enumerate() {
        answers[i] = carry_out(r, first, second, slots, *call);
    }
}
