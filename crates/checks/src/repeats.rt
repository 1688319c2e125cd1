// The search for a code that comes twice.
ghost use Rattle.std.specs.Prelude.{◌≡◌, ◌^◌, ◌<◌, ◌≤◌, length, option_map};
ghost use Rattle.fault.specs.declared.Fault.TheVariants.{RepeatedCode};
ghost use Rattle.checks.specs.Checks.{refused, repeated_in};
ghost use Rattle.checks.specs.Steps.{bucket_of, code_at};

use fault::Fault;

// The bucket of a code, below the number of buckets. It spreads codes well where that number is a power of two.
fn bucket(buckets: usize, front: u32, back: u32) -> usize
    requires { 0 < buckets }
    ensures value { result ≡ bucket_of buckets front back }
    ensures within { result < buckets }
{
    (front as usize ^ back as usize) & (buckets - 1)
}

// The codes of the members as two columns: row i is a code, with the front half and the back half that stand there.
#[derive(Clone, Copy)]
pub(crate) struct Codes<'a> {
    pub(crate) fronts: &'a [u32],
    pub(crate) backs: &'a [u32],
    ghost equal: { length backs.now ≡ length fronts.now },
}

impl Codes<'_> {
    // Whether the code with these halves stands at position j.
    fn stands_at(&self, j: usize, front: u32, back: u32) -> bool
        requires { j < length self.now.fronts.now }
        ensures { result ≡ code_at self.now.fronts.now self.now.backs.now j front back }
    {
        self.fronts[j] == front && self.backs[j] == back
    }

    // Refuses the lowest position whose code came before. Each position is compared with the earlier ones of its bucket
    // alone, which are chained: heads have one more than the last position of each bucket, links one more than the position
    // before. The chains are words of the lent work list, since the library takes no memory: 0 stands for no position.
    // Loops over positions that a label leaves with the answer: a rule of the project.
    pub(crate) fn search(&self, heads: &mut [u32], links: &mut [u32]) -> Result<(), Fault>
        requires few { length self.now.fronts.now < 2 ^ 32 }
        requires heads { 0 < length heads.old }
        requires links { length self.now.fronts.now ≤ length links.old }
        ensures { result ≡ refused (option_map RepeatedCode (repeated_in self.now.fronts.now self.now.backs.now)) }
    {
        heads.fill(0);
        'search: {
            for (position, (front, back)) in self.fronts.iter().zip(self.backs).enumerate() {
                let v = bucket(heads.len(), *front, *back);
                let mut row = heads[v] as usize;
                while row > 0 {
                    if self.stands_at(row - 1, *front, *back) {
                        break 'search Err(Fault::RepeatedCode { position });
                    }
                    row = links[row - 1] as usize;
                }
                links[position] = heads[v];
                heads[v] = position as u32 + 1;
            }
            Ok(())
        }
    }
}
