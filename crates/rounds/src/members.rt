// The steps of both rounds, on members with two halves that are known to fit.
ghost use Rattle.std.specs.Prelude.{◌≡◌, ◌+◌, ◌*◌, ◌^◌, ◌≤◌, true, length, take};
ghost use Rattle.displace.specs.Columns.{Below, ColumnsFit, written};
ghost use Rattle.rounds.specs.Halves.{firsts, first_places, pairs_of, places_of, seconds};

use crate::columns::{count_shared, move_all};
use displace::round;

// The halves of each member. Two columns and no list of pairs: lent work memory holds numbers alone.
#[derive(Clone, Copy)]
pub(crate) struct Members<'a> {
    pub(crate) r: u32,
    pub(crate) fronts: &'a [u32],
    pub(crate) backs: &'a [u32],
    ghost fit: { ColumnsFit r fronts.now backs.now },
}

// Each step is a method, so that it is proved by itself. What the places hold and how long the lists are stands at each of
// them: in a struct around these lists their ghost names would stand there, which is no plainer.
impl Members<'_> {
    // The first place of each member.
    fn place_first(&self, first: &[u16], places: &mut [u32])
        requires first { take (2 ^ self.now.r) first.now ≡ firsts self.now.r self.now.fronts.now self.now.backs.now }
        requires long { length places.old ≡ length self.now.fronts.now }
        ensures placed { places.new ≡ first_places self.now.r self.now.fronts.now self.now.backs.now }
        ensures within { Below (2 ^ self.now.r) places.new }
    {
        places.copy_from_slice(self.fronts);
        move_all(self.backs, first, places);
    }

    // The pairs of members with one first place.
    fn shared_pairs(&self, places: &[u32], counters: &mut [u32]) -> u64
        requires placed { places.now ≡ first_places self.now.r self.now.fronts.now self.now.backs.now }
        requires few { length places.now ≤ 65536 }
        requires within { Below (length counters.old) places.now }
        ensures { result ≡ pairs_of self.now.r self.now.fronts.now self.now.backs.now }
    {
        count_shared(places, counters)
    }

    // The second round, over the first places.
    fn second_round(&self, places: &[u32], second: &mut [u16], work: &mut [u32])
        requires placed { places.now ≡ first_places self.now.r self.now.fronts.now self.now.backs.now }
        requires second { 2 ^ self.now.r ≤ length second.old }
        requires work { 3 * 2 ^ self.now.r + 2 * length self.now.fronts.now ≤ length work.old }
        ensures begins { take (2 ^ self.now.r) second.new ≡ seconds self.now.r self.now.fronts.now self.now.backs.now }
        ensures after { second.new ≡ written true (2 ^ self.now.r) (seconds self.now.r self.now.fronts.now self.now.backs.now) second.old }
    {
        round(self.r, places, self.fronts, second, work).unwrap();
    }

    // The place of each member, from the first places.
    fn place_last(&self, second: &[u16], places: &mut [u32])
        requires placed { places.old ≡ first_places self.now.r self.now.fronts.now self.now.backs.now }
        requires second { take (2 ^ self.now.r) second.now ≡ seconds self.now.r self.now.fronts.now self.now.backs.now }
        ensures { places.new ≡ places_of self.now.r self.now.fronts.now self.now.backs.now }
    {
        move_all(self.fronts, second, places);
    }

    // The second list, the places and the shared pairs, once the first list stands.
    pub(crate) fn finish(
        &self,
        first: &[u16],
        second: &mut [u16],
        places: &mut [u32],
        work: &mut [u32],
    ) -> u64
        requires first { take (2 ^ self.now.r) first.now ≡ firsts self.now.r self.now.fronts.now self.now.backs.now }
        requires second { 2 ^ self.now.r ≤ length second.old }
        requires places { length places.old ≡ length self.now.fronts.now }
        requires work { 3 * 2 ^ self.now.r + 2 * length self.now.fronts.now ≤ length work.old }
        ensures pairs { result ≡ pairs_of self.now.r self.now.fronts.now self.now.backs.now }
        ensures second { second.new ≡ written true (2 ^ self.now.r) (seconds self.now.r self.now.fronts.now self.now.backs.now) second.old }
        ensures places { places.new ≡ places_of self.now.r self.now.fronts.now self.now.backs.now }
    {
        self.place_first(first, places);
        let size = 1usize << self.r;
        let pairs = self.shared_pairs(places, &mut work[..size]);
        self.second_round(places, second, work);
        self.place_last(second, places);
        pairs
    }
}
