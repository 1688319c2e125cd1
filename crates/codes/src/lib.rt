// The kinds of code that an index holds, and their entries: what each means, and how each is made again.
#![tactic(auto)]

ghost use Rattle.std.specs.Prelude.{◌≡◌, ℕ, Option};
ghost use Rattle.codes.specs.Makings.{MadeCode, MadeEntry};

mod cells;
mod entries;
mod patterns;
mod rows;
mod shelves;
#[cfg(test)]
mod tests;

pub use cells::{Cell, OutOfRange};
pub use entries::{ChartEntry, Rods, Stroke, UnknownRods, UnknownStroke};
pub use patterns::Pattern;
pub use rows::Row;
pub use shelves::Shelf;

// A code means two whole numbers, its halves: a front half and a back half. Codes with equal halves are the same code.
pub trait Code: Copy {
    ghost front_of: { Self → ℕ };

    ghost back_of: { Self → ℕ };

    fn front(&self) -> u32
        ensures { result ≡ front_of self.now };

    fn back(&self) -> u32
        ensures { result ≡ back_of self.now };

    ghost same: { (x y : Self) → front_of x ≡ front_of y → back_of x ≡ back_of y → x ≡ y };
}

// A code that is kept in a file: its kind is the number that stands for its type there, and it is made again from its
// halves. The kind is no enum, since any crate may add one. Making is no `TryFrom`, as for an entry below.
pub trait FiledCode: Code {
    const KIND: u32;

    ghost KIND: { ℕ };

    // The code with these two halves, if there is one.
    ghost code_of: { ℕ → ℕ → Option Self };

    fn from_halves(front: u32, back: u32) -> Option<Self>
        ensures { result ≡ code_of front back };

    ghost made: { (f b : ℕ) → MadeCode Self.Code.front_of Self.Code.back_of f b (code_of f b) };
}

// An entry that is kept in a file: it has a number, and is made again from it. These are methods and no `From` and
// `TryFrom`, whose contracts relate a value to a result, where the laws below need the functions.
pub trait FiledEntry: Copy {
    ghost number_of: { Self → ℕ };

    // The entry with this number, if there is one.
    ghost entry_of: { ℕ → Option Self };

    fn number(&self) -> u32
        ensures { result ≡ number_of self.now };

    fn from_number(number: u32) -> Option<Self>
        ensures { result ≡ entry_of number };

    ghost same: { (x y : Self) → number_of x ≡ number_of y → x ≡ y };

    ghost made: { (n : ℕ) → MadeEntry number_of n (entry_of n) };
}
