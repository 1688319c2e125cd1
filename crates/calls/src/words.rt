// The words of a line, parted by single spaces, and what they write.
ghost use Rattle.std.specs.Prelude.{◌≤◌, IfOk};

use crate::stop::Stop;
use crate::text::{Scripted, number};
use codes::FiledEntry;

// What is left of a line; none once its last word is taken.
#[derive(Drop)]
pub struct Words<'a>(Option<&'a [u8]>);

impl<'a> Words<'a> {
    pub fn new(line: &'a [u8]) -> Words<'a> {
        Words(Some(line))
    }

    // The next word.
    pub fn word(&mut self) -> Result<&'a [u8], Stop> {
        let rest = self.0.ok_or(Stop::Bad)?;
        let mut parts = rest.splitn(2, |b| *b == b' ');
        let word = parts.next().ok_or(Stop::Bad)?;
        self.0 = parts.next();
        Ok(word)
    }

    // The next word as a number.
    pub fn number<T: TryFrom<u64>>(&mut self) -> Result<T, Stop>
    where
        T::Error: Drop,
    {
        number(self.word()?).ok_or(Stop::Bad)
    }

    // The next word as a number that is at most so large.
    pub fn at_most(&mut self, most: usize) -> Result<usize, Stop>
        ensures { IfOk result (λ n. n ≤ most) }
    {
        let n = self.number()?;
        if n > most {
            return Err(Stop::Bad);
        }
        Ok(n)
    }

    // The last word as a number.
    pub fn last<T: TryFrom<u64>>(mut self) -> Result<T, Stop>
    where
        T: Drop,
        T::Error: Drop,
    {
        let n = self.number()?;
        self.done()?;
        Ok(n)
    }

    // The next word as a code.
    pub fn code<C: Scripted>(&mut self) -> Result<C, Stop> {
        C::read(self.word()?).ok_or(Stop::Bad)
    }

    // The next word as the number of an entry.
    pub fn entry<V: FiledEntry>(&mut self) -> Result<V, Stop> {
        V::from_number(self.number()?).ok_or(Stop::Bad)
    }

    // The next word as the mark of a slot, `full` or `empty`.
    pub fn mark(&mut self) -> Result<bool, Stop> {
        match self.word()? {
            b"full" => Ok(true),
            b"empty" => Ok(false),
            _ => Err(Stop::Bad),
        }
    }

    // Refuses a line with words left.
    pub fn done(self) -> Result<(), Stop> {
        if self.0.is_some() {
            return Err(Stop::Bad);
        }
        Ok(())
    }
}
