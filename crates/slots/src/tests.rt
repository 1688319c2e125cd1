// Examples: a pattern and a chart row through the lent slots.
use crate::{Slot, Slots};
use codes::{ChartEntry, Pattern, Rods, Row, Shelf, Stroke};
use fault::{Displacements, Fault};

#[test]
fn a_pattern(rt: HostRuntime) {
    let mut first = [0; 16];
    let second = [2; 16];
    let code = Pattern::new(3, 5);
    let mut list = [Slot {
        full: false,
        code: Pattern::new(0, 0),
        entry: Shelf(0),
    }; 16];
    let mut slots = Slots::over(&mut list);
    assert_eq!(rt; slots.insert(4, &first, &second, code, Shelf(7)), Ok(1));
    assert_eq!(rt;
        slots.insert(4, &first, &second, Pattern::new(3, 6), Shelf(8)),
        Err(Fault::PlaceTaken { place: 1 })
    );
    assert_eq!(rt;
        slots.replace(4, &first, &second, code, Shelf(8)),
        Ok(Shelf(7))
    );
    assert_eq!(rt;
        slots.lookup(4, &first, &second, code),
        Ok(Some((1, Shelf(8))))
    );
    first[3] = 16;
    assert_eq!(rt;
        slots.lookup(4, &first, &second, code),
        Err(Fault::LargeDisplacement {
            list: Displacements::First,
            index: 3,
        })
    );
}

#[test]
fn a_row(rt: HostRuntime) {
    let first = [0; 16];
    let second = [0; 16];
    let code = Row {
        round: -2,
        stake: 5,
    };
    let entry = ChartEntry {
        stroke: Stroke::Waling,
        rods: Rods::Three,
    };
    let mut list = [Slot {
        full: false,
        code: Row { round: 0, stake: 0 },
        entry,
    }; 16];
    let mut slots = Slots::over(&mut list);
    assert_eq!(rt; slots.lookup(4, &first, &second, code), Ok(None));
    assert_eq!(rt; slots.insert(4, &first, &second, code, entry), Ok(3));
    assert_eq!(rt;
        slots.insert(4, &first, &second, code, entry),
        Err(Fault::Found { place: 3 })
    );
    assert_eq!(rt; slots.remove(4, &first, &second, code), Ok(entry));
    assert_eq!(rt;
        slots.remove(4, &first, &second, code),
        Err(Fault::NotFound { place: 3 })
    );
}
