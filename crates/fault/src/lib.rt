// The refusals: every call of the library that does not carry out its task answers one of these.
#![tactic(auto)]

ghost use Rattle.std.specs.Prelude.{◌≡◌, Some, Decides};
ghost use Rattle.fault.specs.Table.{number_of, layer_of, letter_of, part_of, spot_of, has_same_numbers, NumbersTell};
ghost use Rattle.fault.specs.Words.{in_words, as_refused};
ghost use Rattle.std.specs.Cmp.Rules.{comparing};
ghost use Rattle.std.proofs.Common.{rules};
ghost use Rattle.std.specs.Cmp as Keys;

use std::error::Error;
use std::fmt;

// One of the lists that a call is lent.
#[derive(Clone, Copy, PartialEq, Eq, Debug)]
pub enum List {
    First = 1,
    Second,
    Slots,
    Work,
}

// One of the two lists of displacements. Not `List`: no refusal of a displacement can name the slots or the work list.
#[derive(Clone, Copy, PartialEq, Eq, Debug)]
pub enum Displacements {
    First = 1,
    Second,
}

// One of the two numbers that a code stands for.
#[derive(Clone, Copy, PartialEq, Eq, Debug)]
pub enum Half {
    Front = 1,
    Back,
}

// What a file's numbers are made into.
#[derive(Clone, Copy, PartialEq, Eq, Debug)]
pub enum Made {
    Code = 1,
    Entry,
}

// The part of the library that refused.
#[derive(Clone, Copy, PartialEq, Eq, Debug)]
pub enum Layer {
    Groups,
    Kinds,
    Lists,
    Build,
    Slots,
    File,
}

// The eighteen refusals, in the order of their numbers, 1 to 18.
#[derive(Clone, Copy, Debug)]
pub enum Fault {
    // The half width r is outside 4 to 16.
    HalfWidth { r: u32 },
    // A list is shorter than r asks.
    ShortList { list: List, len: usize },
    // A build without members.
    NoMembers,
    // A build with more members than r takes.
    TooManyMembers { members: usize },
    // A half is 2^r or more.
    LargeHalf { half: Half, position: usize },
    // A code stands at an earlier position too.
    RepeatedCode { position: usize },
    // A displacement that was read is 2^r or more.
    LargeDisplacement { list: Displacements, index: usize },
    // A replace or remove of a code that is not there.
    NotFound { place: usize },
    // An insert of a code that is there.
    Found { place: usize },
    // An insert where another code has the place.
    PlaceTaken { place: usize },
    // A full slot holds a code that does not fit r or has another place.
    Misplaced { slot: usize },
    // The output is too short.
    ShortOutput { needed: usize },
    // The bytes end within a number, or before it.
    EndOfBytes { len: usize },
    // A number that is not in its shortest form, or too large.
    MalformedNumber { offset: usize },
    // A number of a file outside its range.
    OutOfRange { offset: usize },
    // Halves that no code has, or a number that no entry has.
    NotMade { made: Made, offset: usize },
    // A place that is not above the one before.
    PlaceNotRising { offset: usize },
    // Bytes after the last member.
    BytesLeft { offset: usize },
}

impl Fault {
    // The refusal's number, 1 to 18.
    pub fn number(self) -> u32
        ensures { result ≡ number_of self }
    {
        match self {
            Fault::HalfWidth { .. } => 1,
            Fault::ShortList { .. } => 2,
            Fault::NoMembers => 3,
            Fault::TooManyMembers { .. } => 4,
            Fault::LargeHalf { .. } => 5,
            Fault::RepeatedCode { .. } => 6,
            Fault::LargeDisplacement { .. } => 7,
            Fault::NotFound { .. } => 8,
            Fault::Found { .. } => 9,
            Fault::PlaceTaken { .. } => 10,
            Fault::Misplaced { .. } => 11,
            Fault::ShortOutput { .. } => 12,
            Fault::EndOfBytes { .. } => 13,
            Fault::MalformedNumber { .. } => 14,
            Fault::OutOfRange { .. } => 15,
            Fault::NotMade { .. } => 16,
            Fault::PlaceNotRising { .. } => 17,
            Fault::BytesLeft { .. } => 18,
        }
    }

    // The layer that refused.
    pub fn layer(self) -> Layer
        ensures { result ≡ layer_of self }
    {
        match self {
            Fault::EndOfBytes { .. } | Fault::MalformedNumber { .. } => Layer::Groups,
            Fault::LargeHalf { .. } | Fault::NotMade { .. } => Layer::Kinds,
            Fault::HalfWidth { .. } | Fault::ShortList { .. } | Fault::LargeDisplacement { .. } =>
                Layer::Lists,
            Fault::NoMembers | Fault::TooManyMembers { .. } | Fault::RepeatedCode { .. } =>
                Layer::Build,
            Fault::NotFound { .. } | Fault::Found { .. } | Fault::PlaceTaken { .. } => Layer::Slots,
            Fault::Misplaced { .. }
            | Fault::ShortOutput { .. }
            | Fault::OutOfRange { .. }
            | Fault::PlaceNotRising { .. }
            | Fault::BytesLeft { .. } => Layer::File,
        }
    }

    // What was refused within the call: the number of a list, a half, a code or an entry; else 0.
    pub fn part(self) -> u32
        ensures { result ≡ part_of self }
    {
        match self {
            Fault::ShortList { list, .. } => list as u32,
            Fault::LargeHalf { half, .. } => half as u32,
            Fault::LargeDisplacement { list, .. } => list as u32,
            Fault::NotMade { made, .. } => made as u32,
            _ => 0,
        }
    }

    // Where it was refused: a position, an index, a place, an offset, a length or a count.
    pub fn spot(self) -> u64
        ensures { result ≡ spot_of self }
    {
        match self {
            Fault::HalfWidth { r } => u64::from(r),
            Fault::NoMembers => 0,
            Fault::ShortList { len: spot, .. }
            | Fault::TooManyMembers { members: spot }
            | Fault::LargeHalf { position: spot, .. }
            | Fault::RepeatedCode { position: spot }
            | Fault::LargeDisplacement { index: spot, .. }
            | Fault::NotFound { place: spot }
            | Fault::Found { place: spot }
            | Fault::PlaceTaken { place: spot }
            | Fault::Misplaced { slot: spot }
            | Fault::ShortOutput { needed: spot }
            | Fault::EndOfBytes { len: spot }
            | Fault::MalformedNumber { offset: spot }
            | Fault::OutOfRange { offset: spot }
            | Fault::NotMade { offset: spot, .. }
            | Fault::PlaceNotRising { offset: spot }
            | Fault::BytesLeft { offset: spot } => spot as u64,
        }
    }
}

impl Layer {
    // The letter by which the layer goes.
    pub fn letter(self) -> char
        ensures { result ≡ letter_of self }
    {
        match self {
            Layer::Groups => 'G',
            Layer::Kinds => 'K',
            Layer::Lists => 'L',
            Layer::Build => 'B',
            Layer::Slots => 'S',
            Layer::File => 'F',
        }
    }
}

// Number, part and spot tell a refusal whole. Not derived: a derive has no clauses that say so (one that skips a field would
// pass the check), and with it the equality of two options of refusals met the search's limit.
impl PartialEq for Fault {
    ghost eq = { has_same_numbers };

    ghost laws = { Keys.partial_equiv_from_equiv (Prim.search (comparing, rules)) };

    fn eq(&self, other: &Fault) -> bool
        ensures value { result ≡ has_same_numbers self.now other.now }
        ensures same { Decides result (self.now ≡ other.now) }
        ensures tells { NumbersTell }
    {
        self.number() == other.number()
            && self.part() == other.part()
            && self.spot() == other.spot()
    }
}

impl Eq for Fault {
    ghost laws = { Prim.search (comparing, rules) };
}

// The refusal in plain words, with its spot.
impl fmt::Display for Fault {
    ghost output = { λ f. Some (in_words f) };

    fn fmt<W: fmt::Write>(&self, f: &mut fmt::Formatter<W>) -> fmt::Result {
        match *self {
            Fault::HalfWidth { r } => write!(f, "the half width is not in 4 to 16: {r}"),
            Fault::ShortList { len, .. } => {
                write!(f, "list {} is too short: {len} elements", self.part())
            }
            Fault::NoMembers => write!(f, "there are too few members: {}", self.spot()),
            Fault::TooManyMembers { members } => {
                write!(
                    f,
                    "there are too many members for the half width: {members}"
                )
            }
            Fault::LargeHalf {
                half: Half::Front,
                position,
            } => write!(
                f,
                "the front half is too large for the half width: position {position}"
            ),
            Fault::LargeHalf {
                half: Half::Back,
                position,
            } => write!(
                f,
                "the back half is too large for the half width: position {position}"
            ),
            Fault::RepeatedCode { position } => {
                write!(f, "the code came before: position {position}")
            }
            Fault::LargeDisplacement { index, .. } => write!(
                f,
                "list {} holds too large a displacement: index {index}",
                self.part()
            ),
            Fault::NotFound { place } => write!(f, "the code is not there: place {place}"),
            Fault::Found { place } => write!(f, "the code is there already: place {place}"),
            Fault::PlaceTaken { place } => {
                write!(f, "another code has the place: place {place}")
            }
            Fault::Misplaced { slot } => {
                write!(
                    f,
                    "the slot holds a code that belongs elsewhere: slot {slot}"
                )
            }
            Fault::ShortOutput { needed } => {
                write!(f, "the output is too short: needed are {needed} bytes")
            }
            Fault::EndOfBytes { len } => {
                write!(f, "the bytes end too early: there are {len} bytes")
            }
            Fault::MalformedNumber { offset } => write!(
                f,
                "the number is too large or not in its shortest form: byte {offset}"
            ),
            Fault::OutOfRange { offset } => {
                write!(f, "the number is out of its range: byte {offset}")
            }
            Fault::NotMade {
                made: Made::Code,
                offset,
            } => { write!(f, "no code has these halves: byte {offset}") }
            Fault::NotMade {
                made: Made::Entry,
                offset,
            } => { write!(f, "no entry has this number: byte {offset}") }
            Fault::PlaceNotRising { offset } => {
                write!(f, "the place is not above the one before: byte {offset}")
            }
            Fault::BytesLeft { offset } => write!(f, "bytes are left over: byte {offset}"),
        }
    }
}

impl Error for Fault {}

// The line that a program prints of a refusal: `refused NUMBER PART SPOT`.
#[derive(Clone, Copy, Debug)]
pub struct Refused(pub Fault);

impl fmt::Display for Refused {
    ghost output = { λ x. Some (as_refused x.0) };

    fn fmt<W: fmt::Write>(&self, f: &mut fmt::Formatter<W>) -> fmt::Result {
        let fault = self.0;
        write!(
            f,
            "refused {} {} {}",
            fault.number(),
            fault.part(),
            fault.spot()
        )
    }
}

#[cfg(test)]
mod tests;
