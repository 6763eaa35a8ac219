// The program: reads requests on standard input and writes an answer to each on standard output. It ends with an error where a
// read or a write failed.
#![tactic(auto)]

mod answers;
mod arrays;
mod check;
mod filter;
mod flist;
mod late;
mod nohap;
mod orders;
mod phase;
mod priors;
mod rates;
mod requests;
mod run;

use arrays::{BASES, WORDS};
use protocol::input::Reader;
use protocol::output::Writer;
use std::io;

fn main(rt: HostRuntime) -> io::Result<()> {
    let mut reader = Reader::new(rt.stdin());
    let mut output = Writer::new(rt.stdout());
    let mut words = [0; WORDS];
    let mut bases = [0; BASES];
    if let Err(found) = requests::answer_all(&mut reader, &mut output, &mut words, &mut bases) {
        answers::unreadable(&mut output, found);
        output.flush();
    }
    reader.finish()?;
    output.finish()
}
