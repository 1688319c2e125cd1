// The checks and both rounds on the columns of halves.
ghost use Rattle.std.specs.Prelude.{◌≡◌, ◌+◌, ◌^◌, ◌<◌, ◌≤◌, true, length};
ghost use Rattle.displace.specs.Columns.{written};
ghost use Rattle.rounds.specs.Halves.{Ready, firsts, pairs_of, places_of, seconds};
ghost use Rattle.build.specs.Checked.{columns_checked};

use checks::{large_half, repeated};
use fault::Fault;
use rounds::rounds;

// Refuses halves of size or more, and codes that come twice.
#[tactic(auto, using(crate::proofs::Checking::large_refused, crate::proofs::Checking::repeated_refused))]
pub(crate) fn check(
    size: usize,
    fronts: &[u32],
    backs: &[u32],
    work: &mut [u32],
) -> Result<(), Fault>
    requires equal { length backs.now ≡ length fronts.now }
    requires few { length fronts.now < 2 ^ 32 }
    requires some { 0 < size }
    requires work { size + length fronts.now ≤ length work.old }
    ensures { result ≡ columns_checked size fronts.now backs.now }
{
    large_half(size, fronts, backs)?;
    let (heads, links) = work.split_at_mut(size);
    repeated(fronts, backs, heads, links)
}

// Sets both lists, in their first 2^r, and the place of each member, and answers the shared pairs, on lists that fit.
pub(crate) fn set_lists(
    r: u32,
    fronts: &[u32],
    backs: &[u32],
    first: &mut [u16],
    second: &mut [u16],
    places: &mut [u32],
    work: &mut [u32],
) -> u64
    requires ready { Ready r fronts.now backs.now (length first.old) (length second.old) (length places.old) (length work.old) }
    requires places { length places.old ≡ length fronts.now }
    ensures pairs { result ≡ pairs_of r fronts.now backs.now }
    ensures first { first.new ≡ written true (2 ^ r) (firsts r fronts.now backs.now) first.old }
    ensures second { second.new ≡ written true (2 ^ r) (seconds r fronts.now backs.now) second.old }
    ensures places { places.new ≡ places_of r fronts.now backs.now }
{
    rounds(r, fronts, backs, first, second, places, work).unwrap()
}
