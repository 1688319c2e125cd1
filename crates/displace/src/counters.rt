// Counters of the results so far, in heap layout: index 2^w + v counts those whose lowest w bits are v.
ghost use Rattle.std.specs.Prelude.{◌≡◌, ℕ, ◌+◌, ◌*◌, ◌%◌, ◌^◌, ◌<◌, ◌≤◌, List, ◌∷◌, length, replicate, if◌then◌else◌, nat_lt};
ghost use Rattle.rule.specs.Choose.{choose};
ghost use Rattle.displace.specs.Counts.{Counts, Room, Settles, shown};

// 2^w: how many counters the lowest w bits have, and the index of the first of them.
pub(crate) fn power(w: u32) -> usize
    requires { w ≤ 16 }
    ensures value { result ≡ 2 ^ w }
    ensures within { (0 < result) × (result ≤ 65536) }
{
    1 << w
}

// The index of the counter of the results that agree with x in their lowest w bits, among the counters of any r from w on.
fn index(w: u32, x: u32) -> usize
    requires { w ≤ 16 }
    ensures value { result ≡ 2 ^ w + x % 2 ^ w }
    ensures within { (r : ℕ) → w ≤ r → result < 2 * 2 ^ r }
{
    let size = power(w);
    size + (x as usize & (size - 1))
}

// The counters of the lowest 0 to r bits.
#[derive(Drop)]
pub(crate) struct Counters<'a> {
    r: u32,
    counts: &'a mut [u32],
    ghost width: { r ≤ 16 },
    ghost long: { length counts.now ≡ 2 * 2 ^ r },
}

impl<'a> Counters<'a> {
    // Counters of no results.
    pub(crate) fn new(r: u32, counts: &'a mut [u32]) -> Counters<'a>
        requires width { r ≤ 16 }
        requires long { length counts.old ≡ 2 * 2 ^ r }
        ensures width { result.r ≡ r }
        ensures none { result.counts.now ≡ replicate (2 * 2 ^ r) 0 }
    {
        counts.fill(0);
        Counters { r, counts }
    }

    // The pairs of a member of the class, displaced by d, and a result so far that agree in w bits.
    // That the members are few stands at each function: a struct around one slice for this alone is no plainer.
    fn pairs(&self, w: u32, d: u32, class: &[u32]) -> u64
        requires width { w ≤ self.now.r }
        requires few { length class.now < 2 ^ 32 }
        ensures { result ≡ shown w d class.now self.now.counts.now }
    {
        class
            .iter()
            .map(|m| u64::from(self.counts[index(w, m ^ d)]))
            .sum()
    }

    // Counts one more result.
    fn enter(&mut self, y: u32)
        requires { Room self.old.r 1 self.old.counts.now }
        ensures same { self.new.r ≡ self.old.r }
        ensures counted { (ys : List ℕ) → Counts self.old.r ys self.old.counts.now → Counts self.old.r (y ∷ ys) self.new.counts.now }
    {
        // Lent once for all bits, which shows in the time of a build.
        let counts = &mut *self.counts;
        for w in 0..=self.r {
            counts[index(w, y)] += 1;
        }
    }

    // Bit k of a displacement, set exactly if that leaves fewer pairs in k + 1 bits; and the pairs that are left.
    fn pick(&self, k: u32, d: u32, class: &[u32]) -> (u32, u64)
        requires width { k < self.now.r }
        requires low { d < 2 ^ k }
        requires few { length class.now < 2 ^ 32 }
        ensures bit { result.0 ≡ (if nat_lt (shown (k + 1) (d + 2 ^ k) class.now self.now.counts.now)
            (shown (k + 1) d class.now self.now.counts.now) then d + 2 ^ k else d) }
        ensures left { result.1 ≡ shown (k + 1) result.0 class.now self.now.counts.now }
    {
        let high = d + (1 << k);
        let clear = self.pairs(k + 1, d, class);
        let set = self.pairs(k + 1, high, class);
        if set < clear { (high, set) } else { (d, clear) }
    }

    // The displacement of a class, chosen bit by bit from the lowest. Once no pair is left no later bit can be set.
    fn choose(&self, class: &[u32]) -> u32
        requires { length class.now < 2 ^ 32 }
        ensures within { result < 2 ^ self.now.r }
        ensures chosen { (ys : List ℕ) → Counts self.now.r ys self.now.counts.now → result ≡ choose self.now.r class.now ys }
    {
        let mut d = 0;
        for k in 0..self.r {
            let (picked, left) = self.pick(k, d, class);
            d = picked;
            if left == 0 {
                return d;
            }
        }
        d
    }

    // Chooses the displacement of a class, and counts its results.
    // Inlined into both passes: a call for every class shows in the time of a build.
    #[inline(always)]
    pub(crate) fn settle(&mut self, class: &[u32]) -> u16
        requires { Room self.old.r (length class.now) self.old.counts.now }
        ensures same { self.new.r ≡ self.old.r }
        ensures settled { Settles self.old.r class.now result self.old.counts.now self.new.counts.now }
    {
        let d = self.choose(class);
        for m in class {
            self.enter(m ^ d);
        }
        d as u16
    }
}
