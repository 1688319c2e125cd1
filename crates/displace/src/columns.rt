// Two columns that a round can be made on.
ghost use Rattle.std.specs.Prelude.{◌≡◌, ◌^◌, ◌<◌, length, MatchResult};
ghost use Rattle.displace.specs.Columns.{Below, ColumnsFit, Exactly};

use crate::Unfit;
use crate::counters::power;

// Whether all numbers are below the limit.
fn are_below(limit: usize, numbers: &[u32]) -> bool
    ensures { Exactly result (Below limit numbers.now) }
{
    numbers.iter().all(|x| (*x as usize) < limit)
}

// The class and the moved number of each row. Two columns and no list of pairs: lent work memory holds numbers alone.
#[derive(Clone, Copy)]
pub(crate) struct Columns<'a> {
    pub(crate) r: u32,
    pub(crate) class: &'a [u32],
    pub(crate) moved: &'a [u32],
    ghost fit: { ColumnsFit r class.now moved.now },
}

impl<'a> Columns<'a> {
    // The columns, if they fit r and each other.
    pub(crate) fn new(r: u32, class: &'a [u32], moved: &'a [u32]) -> Result<Columns<'a>, Unfit>
        ensures { MatchResult result
            (λ columns. (columns.r ≡ r) × (columns.class.now ≡ class.now) × (columns.moved.now ≡ moved.now))
            (λ _. ColumnsFit r class.now moved.now → ⊥) }
    {
        if r > 16 || class.len() != moved.len() {
            return Err(Unfit);
        }
        let size = power(r);
        if class.len() > size || !are_below(size, class) || !are_below(size, moved) {
            return Err(Unfit);
        }
        Ok(Columns { r, class, moved })
    }
}
