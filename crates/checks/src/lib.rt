// The checks of a build's members, on two columns of halves: halves that are too large, and codes that come twice.
// The halves stand in two columns, since the lent work list holds plain words, and the library takes no memory.
// Each column is a parameter of its own, since both checks answer for columns of unlike lengths too.
#![tactic(auto)]

ghost use Rattle.std.specs.Prelude.{◌≡◌, length, Ok, option_map};
ghost use Rattle.fault.specs.declared.Fault.TheVariants.{RepeatedCode};
ghost use Rattle.checks.specs.Checks.{large_in, refused, repeated_in, Room};

use fault::{Fault, Half};
use repeats::Codes;

mod repeats;

// Refuses the lowest position with a half of n or more.
pub fn large_half(n: usize, fronts: &[u32], backs: &[u32]) -> Result<(), Fault>
    ensures { result ≡ refused (large_in n fronts.now backs.now) }
{
    for (position, (front, back)) in fronts.iter().zip(backs).enumerate() {
        if *front as usize >= n {
            return Err(Fault::LargeHalf {
                half: Half::Front,
                position,
            });
        }
        if *back as usize >= n {
            return Err(Fault::LargeHalf {
                half: Half::Back,
                position,
            });
        }
    }
    Ok(())
}

// Refuses the lowest position whose code came before, if the columns are equally long and the lists lent suffice. Where they
// do not, nothing is searched and nothing refused. What heads and links hold after is not told.
pub fn repeated(
    fronts: &[u32],
    backs: &[u32],
    heads: &mut [u32],
    links: &mut [u32],
) -> Result<(), Fault>
    ensures found { Room (length fronts.now) (length backs.now) (length heads.old) (length links.old) → result ≡ refused (option_map RepeatedCode (repeated_in fronts.now backs.now)) }
    ensures unfit { (Room (length fronts.now) (length backs.now) (length heads.old) (length links.old) → ⊥) → result ≡ Ok tt }
{
    let n = fronts.len();
    // A position, and one more, is held in 32 bits.
    if backs.len() != n || n > u32::MAX as usize || heads.is_empty() || links.len() < n {
        return Ok(());
    }
    Codes { fronts, backs }.search(heads, links)
}
