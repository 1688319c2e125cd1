// One index in memory, and the commands on it.
use crate::stop::Stop;
use crate::text::Scripted;
use crate::words::Words;
use build::Member;
use codes::FiledEntry;
use fault::{Fault, List};
use slots::Slot;
use std::alloc::{AllocError, Global};
use std::io::Write;

// The longest list that a script may ask for.
const LONGEST: usize = 0x10_0000;

#[derive(Drop)]
pub struct Index<C: Scripted> {
    r: u32,
    lists: Lists<C>,
    members: Vec<Member<C, C::Entry>>,
    heap: Global,
}

// The lists that the library's calls are lent.
#[derive(Drop)]
struct Lists<C: Scripted> {
    first: Vec<u16>,
    second: Vec<u16>,
    slots: Vec<Slot<C, C::Entry>>,
    work: Vec<u32>,
}

impl<C: Scripted> Lists<C> {
    // Lists of these lengths: all zeros, and all slots empty.
    fn new(
        heap: Global,
        first: usize,
        second: usize,
        slots: usize,
        work: usize,
    ) -> Result<Lists<C>, AllocError> {
        Ok(Lists {
            first: vec![in heap; 0; first]?,
            second: vec![in heap; 0; second]?,
            slots: vec![in heap; C::blank(); slots]?,
            work: vec![in heap; 0; work]?,
        })
    }

    // The lists of displacements, and the slots to be written.
    fn lend(&mut self) -> (&[u16], &[u16], &mut [Slot<C, C::Entry>]) {
        (
            self.first.as_slice(),
            self.second.as_slice(),
            self.slots.as_mut_slice(),
        )
    }
}

impl<C: Scripted> Index<C> {
    // An index without members whose lists have just the lengths that r asks for.
    pub fn new(heap: Global, r: u32) -> Result<Index<C>, AllocError> {
        let n = lists::size(r).unwrap_or(16);
        Ok(Index {
            r,
            lists: Lists::new(heap, n, n, n, lists::WORK_PER_PLACE * n)?,
            members: Vec::new(heap),
            heap,
        })
    }

    // Carries out one command. No table of closures: the commands differ in what they take and in whether they print.
    pub fn command<W: Write>(
        &mut self,
        verb: &[u8],
        words: Words,
        out: &mut W,
    ) -> Result<(), Stop> {
        match verb {
            b"lengths" => self.lengths(words),
            b"r" => {
                self.r = words.last()?;
                Ok(())
            }
            b"member" => self.member(words),
            b"clear" => {
                words.done()?;
                self.members.clear();
                Ok(())
            }
            b"build" => {
                words.done()?;
                self.build(out)
            }
            b"lookup" => self.lookup(words, out),
            b"replace" => self.replace(words, out),
            b"remove" => self.remove(words, out),
            b"insert" => self.insert(words, out),
            b"list" => {
                words.done()?;
                self.list(out)
            }
            b"poke" => self.poke(words),
            b"peek" => self.peek(words, out),
            b"work" => {
                words.done()?;
                self.work(out)
            }
            _ => Err(Stop::Bad),
        }
    }

    // Makes the lists anew with these lengths.
    fn lengths(&mut self, mut words: Words) -> Result<(), Stop> {
        let first = words.at_most(LONGEST)?;
        let second = words.at_most(LONGEST)?;
        let slots = words.at_most(LONGEST)?;
        let work = words.at_most(LONGEST)?;
        words.done()?;
        // One list after another, so that no more than one of them stands twice.
        let heap = self.heap;
        let lists = &mut self.lists;
        lists.first = vec![in heap; 0; first]?;
        lists.second = vec![in heap; 0; second]?;
        lists.slots = vec![in heap; C::blank(); slots]?;
        lists.work = vec![in heap; 0; work]?;
        Ok(())
    }

    // One more member at the end.
    fn member(&mut self, mut words: Words) -> Result<(), Stop> {
        let code = words.code()?;
        let entry = words.entry()?;
        words.done()?;
        self.members.push(Member { code, entry })?;
        Ok(())
    }

    // Builds the index from the member list.
    fn build<W: Write>(&mut self, out: &mut W) -> Result<(), Stop> {
        let (members, shared) = build::build(
            self.r,
            self.members.as_slice(),
            self.lists.first.as_mut_slice(),
            self.lists.second.as_mut_slice(),
            self.lists.slots.as_mut_slice(),
            self.lists.work.as_mut_slice(),
        )?;
        writeln!(out, "built {members} {shared}")?;
        Ok(())
    }

    // Looks a code up.
    fn lookup<W: Write>(&self, mut words: Words, out: &mut W) -> Result<(), Stop> {
        let code: C = words.code()?;
        words.done()?;
        let lists = &self.lists;
        let (first, second) = (lists.first.as_slice(), lists.second.as_slice());
        match slots::lookup(self.r, first, second, lists.slots.as_slice(), code)? {
            Some((place, entry)) => writeln!(out, "found {place} {}", entry.number())?,
            None => writeln!(out, "absent")?,
        }
        Ok(())
    }

    // Gives a code another entry.
    fn replace<W: Write>(&mut self, mut words: Words, out: &mut W) -> Result<(), Stop> {
        let code: C = words.code()?;
        let entry = words.entry()?;
        words.done()?;
        let (first, second, slots) = self.lists.lend();
        let old = slots::replace(self.r, first, second, slots, code, entry)?;
        writeln!(out, "replaced {}", old.number())?;
        Ok(())
    }

    // Takes a code out.
    fn remove<W: Write>(&mut self, mut words: Words, out: &mut W) -> Result<(), Stop> {
        let code: C = words.code()?;
        words.done()?;
        let (first, second, slots) = self.lists.lend();
        let entry = slots::remove(self.r, first, second, slots, code)?;
        writeln!(out, "removed {}", entry.number())?;
        Ok(())
    }

    // Puts a code with its entry into the empty slot at its place.
    fn insert<W: Write>(&mut self, mut words: Words, out: &mut W) -> Result<(), Stop> {
        let code: C = words.code()?;
        let entry = words.entry()?;
        words.done()?;
        let (first, second, slots) = self.lists.lend();
        let place = slots::insert(self.r, first, second, slots, code, entry)?;
        writeln!(out, "inserted {place}")?;
        Ok(())
    }

    // Prints every full slot of the index.
    fn list<W: Write>(&self, out: &mut W) -> Result<(), Stop> {
        let slots = self.places()?;
        // A sum, and no `filter` with `count`, which takes half as long again for each slot or word.
        let full: usize = slots.iter().map(|slot| usize::from(slot.full)).sum();
        writeln!(out, "{} {full}", self.r)?;
        for (place, slot) in slots.iter().enumerate() {
            if slot.full {
                writeln!(
                    out,
                    "{place} {} {} {}",
                    slot.code.front(),
                    slot.code.back(),
                    slot.entry.number()
                )?;
            }
        }
        Ok(())
    }

    // The slots of the index's places, if the slot list has them.
    fn places(&self) -> Result<&[Slot<C, C::Entry>], Fault> {
        let slots = self.lists.slots.as_slice();
        slots.get(..lists::size(self.r)?).ok_or(Fault::ShortList {
            list: List::Slots,
            len: slots.len(),
        })
    }

    // Writes an element of a list.
    fn poke(&mut self, mut words: Words) -> Result<(), Stop> {
        let list = words.word()?;
        let at = words.at_most(LONGEST)?;
        match list {
            b"first" => set(&mut self.lists.first, at, words.last()?),
            b"second" => set(&mut self.lists.second, at, words.last()?),
            b"work" => set(&mut self.lists.work, at, words.last()?),
            b"slot" => {
                let full = words.mark()?;
                let code = words.code()?;
                let entry = words.entry()?;
                words.done()?;
                set(&mut self.lists.slots, at, Slot { full, code, entry })
            }
            _ => Err(Stop::Bad),
        }
    }

    // Prints an element of a list.
    fn peek<W: Write>(&self, mut words: Words, out: &mut W) -> Result<(), Stop> {
        let list = words.word()?;
        let at = words.at_most(LONGEST)?;
        words.done()?;
        match list {
            b"first" => writeln!(out, "{}", self.lists.first.get(at).ok_or(Stop::Bad)?)?,
            b"second" => writeln!(out, "{}", self.lists.second.get(at).ok_or(Stop::Bad)?)?,
            b"slot" => {
                let slot = self.lists.slots.get(at).ok_or(Stop::Bad)?;
                let mark = if slot.full { "full" } else { "empty" };
                writeln!(out, "{mark} {} {}", slot.code, slot.entry.number())?;
            }
            _ => return Err(Stop::Bad),
        }
        Ok(())
    }

    // Prints whether the work list is all zeros; a sum, as above.
    fn work<W: Write>(&self, out: &mut W) -> Result<(), Stop> {
        let dirty: usize = self.lists.work.iter().map(|x| usize::from(*x != 0)).sum();
        match dirty {
            0 => writeln!(out, "zeros")?,
            _ => writeln!(out, "dirty {dirty}")?,
        }
        Ok(())
    }
}

// Writes the element at an index of a list.
fn set<T: Copy>(list: &mut Vec<T>, at: usize, x: T) -> Result<(), Stop> {
    *list.get_mut(at).ok_or(Stop::Bad)? = x;
    Ok(())
}
