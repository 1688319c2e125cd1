// Numbers in groups of seven bits: their length, writing and reading.
#![tactic(auto)]

ghost use Rattle.std.specs.Prelude.{◌≡◌, ◌+◌, ◌≤◌, length, IfOk, Ok};
ghost use Rattle.std.specs.Iterator.{YieldsFirst, item_count};
ghost use Rattle.varint.specs.Groups.{groups};
ghost use Rattle.varint.specs.Calls.{read_at, Stands, Back, put_at, write_answer, written, Fewest};

use fault::Fault;

// A number of a file.
pub type Number = u32;

// The groups that may follow a number's first.
const MORE_GROUPS: usize = 4;

// The largest group that may stand after all of these.
const TOP_GROUP: u8 = 0x0F;

// Gives the groups of a number, lowest first.
#[derive(Drop)]
struct Groups {
    // What is left of the number; none once its last group is given.
    rest: Option<Number>,
}

impl Groups {
    ghost use Rattle.varint.specs.Groups.{groups_left};

    fn of(n: Number) -> Self
        ensures { groups_left result ≡ groups n }
    {
        Groups { rest: Some(n) }
    }
}

impl Iterator for Groups {
    ghost use Rattle.varint.specs.Groups.{groups_left};

    type Item = u8;

    ghost next_gives = { YieldsFirst groups_left };

    ghost remaining = { item_count groups_left };

    #[tactic(auto, using(crate::proofs::Forms::groups_last, crate::proofs::Forms::groups_more))]
    fn next(&mut self) -> Option<u8> {
        let rest = self.rest?;
        if rest < 128 {
            self.rest = None;
            return Some(rest as u8);
        }
        self.rest = Some(rest / 128);
        Some((rest % 128 + 128) as u8)
    }
}

// How many bytes a number takes.
#[tactic(auto, using(crate::proofs::Forms::length_groups))]
pub fn len(n: Number) -> usize
    ensures value { result ≡ length (groups n) }
    ensures shortest { Fewest n }
{
    Groups::of(n).count()
}

// Writes a number at an offset, and answers the offset behind it.
#[tactic(auto, using(crate::proofs::Writes::put_at_more))]
pub fn write(out: &mut [u8], at: usize, n: Number) -> Result<usize, Fault>
    ensures value { result ≡ write_answer (length out.old) at n }
    ensures after { out.new ≡ written out.old at n }
    ensures back { IfOk result (λ end. read_at out.new at ≡ Ok (n, end)) }
{
    let end = at.saturating_add(len(n));
    if end > out.len() {
        return Err(Fault::ShortOutput { needed: end });
    }
    // Not a zip with iter_mut: after it nothing is known of the elements, and the clause `after` stays open.
    for (i, group) in Groups::of(n).enumerate() {
        out[at + i] = group;
    }
    Ok(end)
}

// Reads the number at an offset, and answers it with the offset behind it.
#[tactic(auto, using(crate::proofs::Reading::reads_back))]
pub fn read(bytes: &[u8], at: usize) -> Result<(Number, usize), Fault>
    ensures value { result ≡ read_at bytes.now at }
    ensures shortest { IfOk result (λ p. Stands bytes.now at p.0 p.1) }
    ensures back { Back bytes.now at result }
{
    read_groups(bytes, at)
}

// Reads group after group, lowest first. A function of its own: what `read` promises follows from this clause alone, and not
// from each way out of the loop.
#[tactic(auto, using(crate::proofs::Steps::group_steps))]
fn read_groups(bytes: &[u8], at: usize) -> Result<(Number, usize), Fault>
    ensures { result ≡ read_at bytes.now at }
{
    let groups = bytes.get(at..).unwrap_or(&[]);
    let mut value: Number = 0;
    for (earlier, &group) in groups.iter().enumerate() {
        let too_large = earlier == MORE_GROUPS && group > TOP_GROUP;
        let padded = earlier > 0 && group == 0;
        if too_large || padded {
            return Err(Fault::MalformedNumber { offset: at });
        }
        value += Number::from(group % 128) << (7 * earlier);
        if group < 128 {
            return Ok((value, at + earlier + 1));
        }
    }
    Err(Fault::EndOfBytes { len: bytes.len() })
}

#[cfg(test)]
mod tests;
