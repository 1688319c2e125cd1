// How numbers and codes stand in a script, and what a new index of each kind of code holds. A script is read as bytes: its
// words are digits and a few marks, and a line that is no text is bad as any other.
use codes::{ChartEntry, Code, FiledEntry, Pattern, Rods, Row, Shelf, Stroke};
use slots::Slot;
use std::fmt;

// A kind of code with a written form, and with entries that go with its codes.
pub trait Scripted: Code + fmt::Display {
    type Entry: FiledEntry;

    // The code that a word writes. It is no `FromStr`: that trait and the codes are of other crates, and this form is the script's.
    fn read(word: &[u8]) -> Option<Self>;

    // A slot of a new index.
    fn blank() -> Slot<Self, Self::Entry>;
}

// FRONT.BACK, each below 65,536.
impl Scripted for Pattern {
    type Entry = Shelf;

    fn read(word: &[u8]) -> Option<Pattern> {
        let (front, back) = split_once(word, b'.')?;
        Some(Pattern::new(number(front)?, number(back)?))
    }

    fn blank() -> Slot<Pattern, Shelf> {
        Slot {
            full: false,
            code: Pattern::new(0, 0),
            entry: Shelf(0),
        }
    }
}

// ROUND.STAKE, the round from -32,768 to 32,767 with a - before a negative one, the stake below 65,536.
impl Scripted for Row {
    type Entry = ChartEntry;

    fn read(word: &[u8]) -> Option<Row> {
        let (round, stake) = split_once(word, b'.')?;
        Some(Row {
            round: read_round(round)?,
            stake: number(stake)?,
        })
    }

    fn blank() -> Slot<Row, ChartEntry> {
        Slot {
            full: false,
            code: Row { round: 0, stake: 0 },
            entry: ChartEntry {
                stroke: Stroke::Randing,
                rods: Rods::One,
            },
        }
    }
}

// A round in decimal digits, behind a - if it is below 0.
fn read_round(word: &[u8]) -> Option<i16> {
    let Some(digits) = word.strip_prefix(b"-") else {
        return number(word);
    };
    let below: u16 = number(digits)?;
    if below == 0 {
        return None;
    }
    i16::try_from(-i32::from(below)).ok()
}

// The number that decimal digits write, if the type has it. Not by `parse`, which wants text: that shows in a script's time.
pub fn number<T: TryFrom<u64>>(digits: &[u8]) -> Option<T>
where
    T::Error: Drop,
{
    if digits.is_empty() {
        return None;
    }
    let mut n: u64 = 0;
    for digit in digits {
        if !digit.is_ascii_digit() {
            return None;
        }
        n = n.checked_mul(10)?.checked_add(u64::from(*digit - b'0'))?;
    }
    T::try_from(n).ok()
}

// What stands before the first such byte, and what stands behind it.
fn split_once(bytes: &[u8], byte: u8) -> Option<(&[u8], &[u8])> {
    let mut parts = bytes.splitn(2, |b| *b == byte);
    Some((parts.next()?, parts.next()?))
}
