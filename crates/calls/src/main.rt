// Carries out a script of calls on one index, a command to a line, and prints one line for each that answers.
#![tactic(auto)]

use codes::{Pattern, Row};
use fault::Refused;
use index::Index;
use std::alloc::Global;
use std::io;
use std::io::{BufWriter, Read, Write};
use stop::Stop;
use words::Words;

mod index;
mod stop;
mod text;
mod words;

// The index in memory, by the kind of its codes: no `dyn`, since its commands are generic in where they write.
#[derive(Drop)]
enum Held {
    Patterns(Index<Pattern>),
    Chart(Index<Row>),
}

fn main(rt: HostRuntime) -> io::Result<()> {
    let heap = rt.alloc();
    let mut script = Vec::new(heap);
    rt.stdin().read_to_end(&mut script)?;
    let mut out = BufWriter::new(heap, rt.stdout())?;
    run(heap, script.as_slice(), &mut out)?;
    out.flush()
}

// Carries out every line in turn.
fn run<W: Write>(heap: Global, script: &[u8], out: &mut W) -> io::Result<()> {
    let mut held = Held::Patterns(Index::new(heap, 4)?);
    if script.is_empty() {
        return Ok(());
    }
    // The last line may stand without its end.
    let lines = script.strip_suffix(b"\n").unwrap_or(script);
    for line in lines.split(|b| *b == b'\n') {
        match command(heap, &mut held, line, out) {
            Ok(()) => {}
            Err(Stop::Bad) => writeln!(out, "bad")?,
            Err(Stop::Refused(fault)) => writeln!(out, "{}", Refused(fault))?,
            Err(Stop::Io(error)) => return Err(error),
        }
    }
    Ok(())
}

// Carries out one line. The two first words are told from the others by a `match`: a table of closures is no plainer for two.
fn command<W: Write>(heap: Global, held: &mut Held, line: &[u8], out: &mut W) -> Result<(), Stop> {
    let mut words = Words::new(line);
    match words.word()? {
        b"patterns" => {
            *held = Held::Patterns(Index::new(heap, words.last()?)?);
            Ok(())
        }
        b"chart" => {
            *held = Held::Chart(Index::new(heap, words.last()?)?);
            Ok(())
        }
        verb => match held {
            Held::Patterns(index) => index.command(verb, words, out),
            Held::Chart(index) => index.command(verb, words, out),
        },
    }
}
