// Both rounds over two columns of halves: the two lists of displacements, the place of each member, and the shared pairs.
#![tactic(auto)]

ghost use Rattle.std.specs.Prelude.{◌≡◌, ◌^◌, length, is_ok};
ghost use Rattle.std.specs.Result.{OkIff};
ghost use Rattle.displace.specs.Columns.{written};
ghost use Rattle.rounds.specs.Halves.{Ready, firsts, pairs_of, places_of, seconds};

pub use displace::Unfit;
use displace::round;
use members::Members;

mod columns;
mod members;

// Sets both lists of displacements, in their first 2^r, and the place of each member, and answers the shared pairs.
// If the lists do not fit, it says so, and leaves them as they were. What work holds after is not told.
pub fn rounds(
    r: u32,
    fronts: &[u32],
    backs: &[u32],
    first: &mut [u16],
    second: &mut [u16],
    places: &mut [u32],
    work: &mut [u32],
) -> Result<u64, Unfit>
    ensures answer { OkIff result
        (Ready r fronts.now backs.now (length first.old) (length second.old) (length places.old) (length work.old))
        (pairs_of r fronts.now backs.now) }
    ensures first { first.new ≡ written (is_ok result) (2 ^ r) (firsts r fronts.now backs.now) first.old }
    ensures second { second.new ≡ written (is_ok result) (2 ^ r) (seconds r fronts.now backs.now) second.old }
    ensures places { places.new ≡ written (is_ok result) (length fronts.now) (places_of r fronts.now backs.now) places.old }
{
    let n = fronts.len();
    if r > 16 || second.len() < 1usize << r || places.len() < n {
        return Err(Unfit);
    }
    round(r, fronts, backs, first, work)?;
    let members = Members { r, fronts, backs };
    let pairs = members.finish(first, second, &mut places[..n], work);
    Ok(pairs)
}
