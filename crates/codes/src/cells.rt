// Cells of a chart: made from a row after a check, they give their row back, and their two halves without a test.
ghost use Rattle.std.specs.Prelude.{◌≡◌, ◌<◌, ◌≤◌, pos, negsuc, ◌≤ℤ◌, Some};

use crate::Row;
use std::error::Error;
use std::fmt;

// A cell of a chart: a row whose round and stake are in range, so that its halves need no test.
#[derive(Clone, Copy, PartialEq, Eq, Debug)]
pub struct Cell {
    round: i16,
    stake: u16,
    ghost low: { negsuc 2047 ≤ℤ round },
    ghost high: { round ≤ℤ pos 2047 },
    ghost few: { stake ≤ 511 },
}

// A row that is no cell.
#[derive(Clone, Copy, PartialEq, Eq, Debug)]
pub struct OutOfRange(pub Row);

impl fmt::Display for OutOfRange {
    ghost use Rattle.codes.specs.Cells.{no_cell};

    ghost output = { λ e. Some (no_cell e) };

    fn fmt<W: fmt::Write>(&self, f: &mut fmt::Formatter<W>) -> fmt::Result {
        write!(f, "row {} is out of range", self.0)
    }
}

impl Error for OutOfRange {}

// The cell of a row, if the row is in range.
impl TryFrom<Row> for Cell {
    type Error = OutOfRange;

    ghost use Rattle.codes.specs.Cells.{Checked};

    ghost try_from_gives = { Checked };

    fn try_from(row: Row) -> Result<Cell, OutOfRange> {
        if !row.in_range() {
            return Err(OutOfRange(row));
        }
        Ok(Cell {
            round: row.round,
            stake: row.stake,
        })
    }
}

// The row of a cell.
impl From<Cell> for Row {
    ghost use Rattle.codes.specs.Cells.{row_in};

    ghost from_gives = { λ c w. w ≡ row_in c };

    fn from(cell: Cell) -> Row {
        Row {
            round: cell.round,
            stake: cell.stake,
        }
    }
}

impl Cell {
    ghost use Rattle.codes.specs.Cells.{row_in};
    ghost use Rattle.codes.specs.Rows.{row_front, row_back};

    // The front half of the cell's row.
    pub fn front(&self) -> u32
        ensures half { result ≡ row_front (row_in self.now) }
        ensures small { result < 4096 }
    {
        Row::from(*self).folded()
    }

    // The back half of the cell's row.
    pub fn back(&self) -> u32
        ensures half { result ≡ row_back (row_in self.now) }
        ensures small { result < 512 }
    {
        u32::from(self.stake)
    }
}
