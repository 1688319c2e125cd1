// The entry that goes with a pattern code: a shelf number.
ghost use Rattle.codes.specs.Shelves.{shelf_number, shelf_of};
ghost use Rattle.std.proofs.Common.{rules};

use crate::FiledEntry;

// The number of the shelf that a pattern is kept on: any number of 32 bits.
#[derive(Clone, Copy, PartialEq, Eq, Debug)]
pub struct Shelf(pub u32);

impl FiledEntry for Shelf {
    ghost number_of = { shelf_number };

    ghost entry_of = { shelf_of };

    ghost same = { Prim.search rules };

    ghost made = { Prim.search rules };

    fn number(&self) -> u32 {
        self.0
    }

    fn from_number(number: u32) -> Option<Shelf> {
        Some(Shelf(number))
    }
}
