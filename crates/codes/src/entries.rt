// The entry that goes with a cell of a chart: a stroke and its rods.
ghost use Rattle.std.specs.Prelude.{◌≡◌, Some, ok_or};
ghost use Rattle.codes.specs.Entries.{stroke_number, stroke_of, rods_number, rods_of, no_stroke, no_rods, entry_number, chart_entry_of};
ghost use Rattle.codes.specs.EntryLaws.{same_entry, made_entry};

use crate::FiledEntry;
use std::error::Error;
use std::fmt;

// A stroke: the way of weaving at a stake.
#[derive(Clone, Copy, PartialEq, Eq, Debug)]
pub enum Stroke {
    Randing = 0,
    Slewing,
    Waling,
    Pairing,
    Fitching,
}

// How many rods, the flexible weavers, are worked together at a stake.
#[derive(Clone, Copy, PartialEq, Eq, Debug)]
pub enum Rods {
    One = 1,
    Two,
    Three,
    Four,
    Five,
    Six,
    Seven,
    Eight,
    Nine,
    Ten,
    Eleven,
    Twelve,
    Thirteen,
    Fourteen,
    Fifteen,
}

// What stands in a cell of a chart: a stroke and its rods.
#[derive(Clone, Copy, PartialEq, Eq, Debug)]
pub struct ChartEntry {
    pub stroke: Stroke,
    pub rods: Rods,
}

// A number that no stroke has.
#[derive(Clone, Copy, PartialEq, Eq, Debug)]
pub struct UnknownStroke(pub u32);

// A number of rods that are not worked together.
#[derive(Clone, Copy, PartialEq, Eq, Debug)]
pub struct UnknownRods(pub u32);

impl fmt::Display for UnknownStroke {
    ghost output = { λ e. Some (no_stroke e) };

    fn fmt<W: fmt::Write>(&self, f: &mut fmt::Formatter<W>) -> fmt::Result {
        write!(f, "no stroke has the number {}", self.0)
    }
}

impl fmt::Display for UnknownRods {
    ghost output = { λ e. Some (no_rods e) };

    fn fmt<W: fmt::Write>(&self, f: &mut fmt::Formatter<W>) -> fmt::Result {
        write!(f, "no rods have the number {}", self.0)
    }
}

impl Error for UnknownStroke {}

impl Error for UnknownRods {}

// The number of a stroke, from 0 to 4.
impl From<Stroke> for u32 {
    ghost from_gives = { λ s n. n ≡ stroke_number s };

    fn from(stroke: Stroke) -> u32 {
        stroke as u32
    }
}

// The stroke with a number, if there is one.
impl TryFrom<u32> for Stroke {
    type Error = UnknownStroke;

    ghost try_from_gives = { λ n r. r ≡ ok_or (stroke_of n) (record { 0 = n }) };

    fn try_from(number: u32) -> Result<Stroke, UnknownStroke> {
        match number {
            0 => Ok(Stroke::Randing),
            1 => Ok(Stroke::Slewing),
            2 => Ok(Stroke::Waling),
            3 => Ok(Stroke::Pairing),
            4 => Ok(Stroke::Fitching),
            _ => Err(UnknownStroke(number)),
        }
    }
}

// How many rods, from 1 to 15.
impl From<Rods> for u32 {
    ghost from_gives = { λ r n. n ≡ rods_number r };

    fn from(rods: Rods) -> u32 {
        rods as u32
    }
}

// The case of so many rods, if there is one.
impl TryFrom<u32> for Rods {
    type Error = UnknownRods;

    ghost try_from_gives = { λ n r. r ≡ ok_or (rods_of n) (record { 0 = n }) };

    fn try_from(number: u32) -> Result<Rods, UnknownRods> {
        match number {
            1 => Ok(Rods::One),
            2 => Ok(Rods::Two),
            3 => Ok(Rods::Three),
            4 => Ok(Rods::Four),
            5 => Ok(Rods::Five),
            6 => Ok(Rods::Six),
            7 => Ok(Rods::Seven),
            8 => Ok(Rods::Eight),
            9 => Ok(Rods::Nine),
            10 => Ok(Rods::Ten),
            11 => Ok(Rods::Eleven),
            12 => Ok(Rods::Twelve),
            13 => Ok(Rods::Thirteen),
            14 => Ok(Rods::Fourteen),
            15 => Ok(Rods::Fifteen),
            _ => Err(UnknownRods(number)),
        }
    }
}

impl FiledEntry for ChartEntry {
    ghost number_of = { entry_number };

    ghost entry_of = { chart_entry_of };

    ghost same = { λ x y h. same_entry x y h };

    ghost made = { λ n. made_entry n };

    fn number(&self) -> u32 {
        16 * u32::from(self.stroke) + u32::from(self.rods)
    }

    fn from_number(number: u32) -> Option<ChartEntry> {
        let stroke = Stroke::try_from(number / 16).ok()?;
        let rods = Rods::try_from(number % 16).ok()?;
        Some(ChartEntry { stroke, rods })
    }
}
