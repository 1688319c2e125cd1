// The rows of each class as a chain from the last row to the first.
ghost use Rattle.std.specs.Prelude.{◌≡◌, ◌^◌, ◌<◌, ◌≤◌, length, drop};
ghost use Rattle.displace.specs.Columns.{group_of};
ghost use Rattle.displace.specs.Rows.{Headed, Linked};

use crate::columns::Columns;

// The rows of the columns, linked: heads have the last row of each class, links the row before of the same class.
// A row is told by one more than its number, and 0 is none: lent work memory holds numbers alone, and nothing here allocates.
#[derive(Clone, Copy)]
pub(crate) struct Chains<'a> {
    columns: Columns<'a>,
    heads: &'a [u32],
    links: &'a [u32],
    ghost classes: { length heads.now ≡ 2 ^ columns.r },
    ghost rows: { length links.now ≡ length columns.class.now },
    ghost headed: { Headed columns.class.now (length columns.class.now) heads.now },
    ghost linked: { Linked columns.class.now (length columns.class.now) links.now },
}

impl<'a> Chains<'a> {
    // Links the rows.
    pub(crate) fn new(
        columns: Columns<'a>,
        heads: &'a mut [u32],
        links: &'a mut [u32],
    ) -> Chains<'a>
        requires classes { length heads.old ≡ 2 ^ columns.r }
        requires rows { length links.old ≡ length columns.class.now }
        ensures { result.columns ≡ columns.entry }
    {
        heads.fill(0);
        // Counted, not zipped with `links.iter_mut()`: after a zip nothing is known of the elements, and `linked` stays open.
        for (i, c) in columns.class.iter().enumerate() {
            let v = *c as usize;
            links[i] = heads[v];
            heads[v] = i as u32 + 1;
        }
        Chains {
            columns,
            heads,
            links,
        }
    }

    // Copies the moved numbers of class v to the end of group, in the order of the rows, and tells where they begin.
    pub(crate) fn gather(&self, v: usize, group: &mut [u32]) -> usize
        requires within { v < 2 ^ self.now.columns.r }
        requires long { length group.old ≡ length self.now.columns.class.now }
        ensures within { result ≤ length group.new }
        ensures gathered { drop result group.new ≡ group_of v self.now.columns.class.now self.now.columns.moved.now }
    {
        // The index falls by hand with the walk: over the group in reverse, the loop would leave in the middle all the same.
        let mut start = group.len();
        let mut row = self.heads[v] as usize;
        while row > 0 {
            start -= 1;
            group[start] = self.columns.moved[row - 1];
            row = self.links[row - 1] as usize;
        }
        start
    }
}
