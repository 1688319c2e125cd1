// Loops over whole columns: results of a round, and rows with the same number.
ghost use Rattle.std.specs.Prelude.{◌≡◌, ◌≤◌, length};
ghost use Rattle.displace.specs.Columns.{Below};
ghost use Rattle.rounds.specs.Halves.{moved_by, shared_rows};

// Turns the class of each row into its result: its moved number, displaced by what its class has.
pub(crate) fn move_all(moved: &[u32], displacements: &[u16], classes: &mut [u32])
    requires long { length moved.now ≡ length classes.old }
    requires within { Below (length displacements.now) classes.old }
    ensures { classes.new ≡ moved_by displacements.now classes.old moved.now }
{
    // Counted, not zipped: after a zip with `iter_mut` nothing is known of the elements, and the result stays open.
    for (i, c) in classes.iter_mut().enumerate() {
        *c = moved[i] ^ u32::from(displacements[*c as usize]);
    }
}

// The pairs of rows that hold the same number.
pub(crate) fn count_shared(rows: &[u32], counters: &mut [u32]) -> u64
    requires few { length rows.now ≤ 65536 }
    requires within { Below (length counters.old) rows.now }
    ensures { result ≡ shared_rows rows.now }
{
    counters.fill(0);
    let mut pairs = 0;
    for x in rows {
        let at = *x as usize;
        pairs += u64::from(counters[at]);
        counters[at] += 1;
    }
    pairs
}
