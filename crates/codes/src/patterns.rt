// Pattern codes: their two halves, how they are made from them, and how they are shown.
ghost use Rattle.std.specs.Prelude.{◌≡◌, ◌^◌, ◌<◌, Some};
ghost use Rattle.std.proofs.Common.{rules, arith};

use crate::{Code, FiledCode};
use std::fmt;

// The code of a pattern: 32 bits, the upper 16 its front half and the lower 16 its back half.
#[derive(Clone, Copy, PartialEq, Eq, Debug)]
pub struct Pattern {
    bits: u32,
    ghost fits: { bits < 2 ^ 32 },
}

impl Pattern {
    ghost use Rattle.codes.specs.Patterns.{upper, lower};

    // The pattern with these two halves.
    pub fn new(front: u16, back: u16) -> Pattern
        ensures front { upper result ≡ front }
        ensures back { lower result ≡ back }
    {
        Pattern {
            bits: u32::from(front) * 65_536 + u32::from(back),
        }
    }
}

impl Code for Pattern {
    ghost use Rattle.codes.specs.Patterns.{upper, lower};
    ghost use Rattle.codes.specs.PatternLaws.{same_halves};

    ghost front_of = { upper };

    ghost back_of = { lower };

    ghost same = { λ x y f b. same_halves x y f b };

    fn front(&self) -> u32 {
        self.bits / 65_536
    }

    fn back(&self) -> u32 {
        self.bits % 65_536
    }
}

impl FiledCode for Pattern {
    ghost use Rattle.codes.specs.Patterns.{pattern_of};

    ghost KIND = { 0 };

    ghost code_of = { pattern_of };

    ghost made = { first_of (Prim.search rules, Prim.grind (arith, Self.row.coded.inj)) };

    const KIND: u32 = 0;

    #[tactic(auto, using(crate::specs::PatternLaws::own_pattern))]
    fn from_halves(front: u32, back: u32) -> Option<Pattern> {
        let front = u16::try_from(front).ok()?;
        let back = u16::try_from(back).ok()?;
        Some(Pattern::new(front, back))
    }
}

// FRONT.BACK in decimal.
impl fmt::Display for Pattern {
    ghost use Rattle.codes.specs.Patterns.{shown};

    ghost output = { λ p. Some (shown p) };

    fn fmt<W: fmt::Write>(&self, f: &mut fmt::Formatter<W>) -> fmt::Result {
        write!(f, "{}.{}", self.front(), self.back())
    }
}
