// Rows of a chart: their two halves, how they are made from them, and how they are shown.
ghost use Rattle.std.specs.Int.Signed.{mag};
ghost use Rattle.std.specs.Prelude.{◌≡◌, ◌^◌, ◌<◌, Some};

use crate::{Code, FiledCode};
use std::fmt;

// A row of a chart: a round, one turn of weaving about the basket, counted up and down from round 0, and a stake, the
// upright that is woven around there. Any round and stake of 16 bits make a row, in range or not.
#[derive(Clone, Copy, PartialEq, Eq, Debug)]
pub struct Row {
    pub round: i16,
    pub stake: u16,
    ghost round_fits: { mag round < 2 ^ 15 },
    ghost stake_fits: { stake < 2 ^ 16 },
}

impl Row {
    ghost use Rattle.codes.specs.Rows.{folded, in_range, candidate};

    // Whether the row is in range, that is a cell: its round from -2048 to 2047 and its stake at most 511.
    pub fn in_range(&self) -> bool
        ensures { result ≡ in_range self.now }
    {
        (-2048..=2047).contains(&self.round) && self.stake <= 511
    }

    // The round as a natural number: 0, -1, 1, -2, 2 and so on are 0, 1, 2, 3, 4.
    pub(crate) fn folded(&self) -> u32
        ensures { result ≡ folded self.now.round }
    {
        let twice = 2 * u32::from(self.round.unsigned_abs());
        if self.round < 0 { twice - 1 } else { twice }
    }

    // The only row that can have these halves.
    fn candidate(front: u32, back: u32) -> Row
        ensures { result ≡ candidate front back }
    {
        let folded = front % 65_536;
        let half = (folded / 2) as i16;
        Row {
            round: if folded % 2 == 0 { half } else { -1 - half },
            stake: (back % 65_536) as u16,
        }
    }
}

impl Code for Row {
    ghost use Rattle.codes.specs.Rows.{row_front, row_back};
    ghost use Rattle.codes.specs.RowLaws.{same_halves};

    ghost front_of = { row_front };

    ghost back_of = { row_back };

    ghost same = { λ x y f b. same_halves x y f b };

    fn front(&self) -> u32 {
        let folded = self.folded();
        if self.in_range() {
            folded
        } else {
            folded + 65_536
        }
    }

    fn back(&self) -> u32 {
        u32::from(self.stake)
    }
}

impl FiledCode for Row {
    ghost use Rattle.codes.specs.Rows.{row_of};
    ghost use Rattle.codes.specs.RowLaws.{made_row};

    ghost KIND = { 1 };

    ghost code_of = { row_of };

    ghost made = { λ f b. made_row f b };

    const KIND: u32 = 1;

    fn from_halves(front: u32, back: u32) -> Option<Row> {
        let row = Row::candidate(front, back);
        (row.front() == front && row.back() == back).then_some(row)
    }
}

// ROUND.STAKE in decimal, with a - before a negative round.
impl fmt::Display for Row {
    ghost use Rattle.codes.specs.Rows.{shown};

    ghost output = { λ w. Some (shown w) };

    fn fmt<W: fmt::Write>(&self, f: &mut fmt::Formatter<W>) -> fmt::Result {
        write!(f, "{}.{}", self.round, self.stake)
    }
}
