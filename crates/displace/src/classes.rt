// How the classes get their displacements.
ghost use Rattle.std.specs.Prelude.{◌≡◌, ℕ, ◌*◌, ◌^◌, ◌<◌, Bool, List, ◌++◌, length, replicate};
ghost use Rattle.displace.specs.Columns.{displacements};
ghost use Rattle.displace.specs.Passes.{Passable, Taken, Tests, passing};

use crate::chains::Chains;
use crate::counters::Counters;

// Sets the displacement of every class whose number of members passes the test.
// Its parts stay parameters, and the length of the group stands at each function: in one struct behind `&mut`, that the chains
// stay as they are would have to be said in turn.
// Not inlined: the walk over all classes then keeps what it counts in registers.
#[inline(never)]
fn pass<F: Fn(usize) -> bool>(
    test: F,
    chains: &Chains,
    group: &mut [u32],
    counters: &mut Counters,
    out: &mut [u16],
)
    requires callable { F.IsAlwaysCallable test }
    requires answers { (takes : ℕ → Bool) × Tests (F.post test) takes }
    requires same { counters.old.r ≡ chains.now.columns.r }
    requires group { length group.old ≡ length chains.now.columns.class.now }
    requires classes { length out.old ≡ 2 ^ chains.now.columns.r }
    requires room { let columns = chains.now.columns in
        Passable columns.r columns.class.now columns.moved.now counters.old.counts.now out.old }
    ensures same { counters.new.r ≡ counters.old.r }
    ensures taken { let columns = chains.now.columns in
        (takes : ℕ → Bool) (cs : List ℕ) → Tests (F.post test) takes
        → Taken columns.r columns.class.now columns.moved.now cs counters.old.counts.now out.old
        → Taken columns.r columns.class.now columns.moved.now
        (passing takes columns.class.now columns.moved.now (2 ^ columns.r) ++ cs) counters.new.counts.now out.new }
{
    for (v, d) in out.iter_mut().enumerate() {
        let start = chains.gather(v, group);
        let members = &group[start..];
        if test(members.len()) {
            *d = counters.settle(members);
        }
    }
}

// Sets the displacement of every class: first of those of two members or more, then of those of one.
pub(crate) fn take_classes(
    chains: &Chains,
    group: &mut [u32],
    counters: &mut Counters,
    out: &mut [u16],
)
    requires same { counters.old.r ≡ chains.now.columns.r }
    requires fresh { counters.old.counts.now ≡ replicate (2 * 2 ^ chains.now.columns.r) 0 }
    requires group { length group.old ≡ length chains.now.columns.class.now }
    requires classes { length out.old ≡ 2 ^ chains.now.columns.r }
    ensures { let columns = chains.now.columns in out.new ≡ displacements columns.r columns.class.now columns.moved.now }
{
    out.fill(0);
    pass(|members| members >= 2, chains, group, counters, out);
    pass(|members| members == 1, chains, group, counters, out);
}
