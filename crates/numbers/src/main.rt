// Shows the numbers that a file holds: reads its bytes from standard input and prints each number with its offset.
#![tactic(auto)]

ghost use Rattle.std.specs.Prelude.{◌≡◌, IfOk};
ghost use Rattle.numbers.specs.Scan.{first_refusal};

use fault::{Fault, Refused};
use std::io;
use std::io::{BufWriter, Read, Write};
use varint::Number;

// The longest input that is read: 16 MiB.
const LONGEST: usize = 0x100_0000;

fn main(rt: HostRuntime) -> io::Result<()> {
    let mut bytes = Vec::new(rt.alloc());
    rt.stdin().take(LONGEST as u64 + 1).read_to_end(&mut bytes)?;
    let mut out = BufWriter::new(rt.alloc(), rt.stdout())?;
    if bytes.len() > LONGEST {
        writeln!(out, "too long")?;
        return out.flush();
    }
    let refused = list(bytes.as_slice(), &mut out)?;
    out.flush()?;
    match refused {
        Some(fault) => eprintln!(rt; "{fault}"),
        None => Ok(()),
    }
}

// The numbers that some bytes hold from an offset on, each with its offset, up to the first refusal.
#[derive(Drop)]
struct Numbers<'a> {
    bytes: &'a [u8],
    at: usize,
}

impl Iterator for Numbers<'_> {
    ghost use Rattle.std.specs.Iterator.{at_most};
    ghost use Rattle.numbers.specs.Numbers.{bytes_left, TakesNumber};

    type Item = Result<(usize, Number), Fault>;

    ghost next_gives = { TakesNumber };

    ghost remaining = { λ s. at_most (bytes_left s) };

    fn next(&mut self) -> Option<Self::Item> {
        if self.at >= self.bytes.len() {
            return None;
        }
        let at = self.at;
        let read = varint::read(self.bytes, at);
        self.at = read.map_or(self.bytes.len(), |(_, next)| next);
        Some(read.map(|(number, _)| (at, number)))
    }
}

// Prints every number up to the first refusal, which it answers: it is what was found, and only the output fails.
#[tactic(auto, using(crate::proofs::Scans::scanned_more, crate::proofs::Scans::scanned_end))]
fn list<W: Write>(bytes: &[u8], out: &mut W) -> io::Result<Option<Fault>>
    ensures { IfOk result (λ refused. refused ≡ first_refusal bytes.now) }
{
    let numbers = Numbers { bytes, at: 0 };
    // A counter stays, since `enumerate` leaves no count behind for the closing line.
    let mut count: usize = 0;
    for number in numbers {
        match number {
            Ok((at, number)) => writeln!(out, "{at} {number}")?,
            Err(fault) => {
                writeln!(out, "{}", Refused(fault))?;
                return Ok(Some(fault));
            }
        }
        count += 1;
    }
    let len = bytes.len();
    writeln!(out, "{count} numbers in {len} bytes")?;
    Ok(None)
}
