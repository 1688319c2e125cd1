// Examples of each kind of code and of its entry.
use super::*;
use std::test::Fail;

fn row(round: i16, stake: u16) -> Row {
    Row { round, stake }
}

#[test]
fn rounds_fold(rt: HostRuntime) {
    assert_eq!(rt; row(-2, 0).front(), 3);
    assert_eq!(rt; row(2047, 0).front(), 4094);
    assert_eq!(rt; row(-2048, 7).front(), 4095);
    assert_eq!(rt; row(-2048, 7).back(), 7);
}

#[test]
fn rows_out_of_range_are_no_cells(rt: HostRuntime) {
    assert_eq!(rt; Cell::try_from(row(2048, 0)).ok(), None);
    assert_eq!(rt; Cell::try_from(row(0, 512)).ok(), None);
    assert_eq!(rt; row(2048, 0).front(), 4096 + 65_536);
    assert_eq!(rt; row(0, 512).front(), 65_536);
    assert_eq!(rt; Row::from_halves(4096 + 65_536, 0), Some(row(2048, 0)));
    assert_eq!(rt; Row::from_halves(4096, 0), None);
}

#[test]
fn cells_give_their_row_back(rt: HostRuntime) -> Result<(), Fail> {
    let Ok(cell) = Cell::try_from(row(-1, 511)) else {
        return Err(Fail::new("no cell"));
    };
    assert_eq!(rt; Row::from(cell), row(-1, 511));
    assert_eq!(rt; (cell.front(), cell.back()), (1, 511));
    Ok(())
}

#[test]
fn entries_have_numbers(rt: HostRuntime) {
    let entry = ChartEntry {
        stroke: Stroke::Waling,
        rods: Rods::Three,
    };
    assert_eq!(rt; entry.number(), 35);
    assert_eq!(rt; ChartEntry::from_number(35), Some(entry));
    assert_eq!(rt; ChartEntry::from_number(0), None);
    assert_eq!(rt; ChartEntry::from_number(16), None);
    assert_eq!(rt; ChartEntry::from_number(80), None);
    assert_eq!(rt; ChartEntry::from_number(81), None);
    assert_eq!(rt; Shelf::from_number(7), Some(Shelf(7)));
}

#[test]
fn patterns_have_halves(rt: HostRuntime) {
    let pattern = Pattern::new(3, 5);
    assert_eq!(rt; (pattern.front(), pattern.back()), (3, 5));
    assert_eq!(rt; Pattern::from_halves(3, 5), Some(pattern));
    assert_eq!(rt; Pattern::from_halves(65_536, 0), None);
    assert_eq!(rt; Pattern::from_halves(0, 65_536), None);
}

#[test]
fn codes_are_shown(rt: HostRuntime) -> Result<(), Fail> {
    let pattern = format!(in rt.alloc(); "{}", Pattern::new(3, 65_535))?;
    assert!(rt; pattern.as_str() == "3.65535");
    let before = format!(in rt.alloc(); "{}", row(-2, 7))?;
    assert!(rt; before.as_str() == "-2.7");
    let after = format!(in rt.alloc(); "{}", row(2047, 0))?;
    assert!(rt; after.as_str() == "2047.0");
    Ok(())
}
