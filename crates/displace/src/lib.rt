// One round of the rule on two columns of numbers: every class gets its displacement.
#![tactic(auto)]

ghost use Rattle.std.specs.Prelude.{◌≡◌, ◌^◌, Some, codes, length, is_ok};
ghost use Rattle.displace.specs.Columns.{Exactly, Ready, displacements, written};

use chains::Chains;
use classes::take_classes;
use columns::Columns;
use counters::{Counters, power};
use std::error::Error;
use std::fmt;

mod chains;
mod classes;
mod columns;
mod counters;

// The lists do not fit r or each other, or they are too short.
#[derive(Clone, Copy, PartialEq, Eq, Debug)]
pub struct Unfit;

impl fmt::Display for Unfit {
    ghost output = { λ _. Some (codes "the lists do not fit") };

    fn fmt<W: fmt::Write>(&self, f: &mut fmt::Formatter<W>) -> fmt::Result {
        write!(f, "the lists do not fit")
    }
}

impl Error for Unfit {}

// Sets the displacement of every class, in the first 2^r of out. If the lists do not fit, it says so and leaves out as it was.
// What work holds after is not told.
pub fn round(
    r: u32,
    class: &[u32],
    moved: &[u32],
    out: &mut [u16],
    work: &mut [u32],
) -> Result<(), Unfit>
    ensures answer { Exactly (is_ok result) (Ready r class.now moved.now (length out.old) (length work.old)) }
    ensures after { out.new ≡ written (is_ok result) (2 ^ r) (displacements r class.now moved.now) out.old }
{
    let n = class.len();
    if r > 16 || n > power(r) {
        return Err(Unfit);
    }
    let size = power(r);
    // Before the columns are read: lists that are too short are refused in the same time, however long the columns are.
    if out.len() < size || work.len() < 3 * size + 2 * n {
        return Err(Unfit);
    }
    let columns = Columns::new(r, class, moved)?;
    let (counters, rest) = work.split_at_mut(2 * size);
    let (heads, rest) = rest.split_at_mut(size);
    let (links, rest) = rest.split_at_mut(n);
    let chains = Chains::new(columns, heads, links);
    let mut counters = Counters::new(r, counters);
    take_classes(&chains, &mut rest[..n], &mut counters, &mut out[..size]);
    Ok(())
}
