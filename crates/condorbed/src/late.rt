// `arrive`: `{words i32}` `<bases u8>` `<phase u8>` `<haplotypes u8>` `{likelihoods i64}` `{counts i32}` total fragment strand
// `<calls i32>`; `depart`: the same up to the fragment.
use crate::answers::{Done, first_line};
use crate::arrays::{CALLS, COUNTS, HAPLOTYPES, LIKELIHOODS, ONES};
use crate::requests::Request;
use protocol::input::{Reader, Unreadable};
use protocol::output::Writer;
use steps::LogProb;
use variants_and_fragments::Refusal;

// The parts that both requests have after the case.
struct Parts<'a> {
    phase: &'a [u8],
    haplotypes: &'a [u8],
    likelihoods: &'a mut [i64],
    counts: &'a mut [i32],
    total: LogProb,
    fragment: u32,
}

// Reads them into the arrays.
fn read_parts<'a>(
    reader: &mut Reader,
    phase: &'a mut [u8],
    haplotypes: &'a mut [u8],
    likelihoods: &'a mut [i64],
    counts: &'a mut [i32],
) -> Result<Parts<'a>, Unreadable> {
    let phase = reader.slice(phase)?;
    let haplotypes = reader.slice(haplotypes)?;
    let likelihoods = reader.slice(likelihoods)?;
    let counts = reader.slice(counts)?;
    let total = LogProb(reader.read()?);
    let fragment = reader.read()?;
    Ok(Parts {
        phase,
        haplotypes,
        likelihoods,
        counts,
        total,
        fragment,
    })
}

// The answer to an arrival. The arrays are named here and in `depart`, since no function can hand out slices of its own.
#[inline(never)]
pub fn arrive(request: Request<'_>) -> Result<(), Unreadable> {
    let Request {
        reader,
        output,
        words,
        bases,
    } = request;
    let mut phase = [0; ONES];
    let mut haplotypes = [0; HAPLOTYPES];
    let mut likelihoods = [0; LIKELIHOODS];
    let mut counts = [0; COUNTS];
    let mut calls = [0; CALLS];
    let Parts {
        phase,
        haplotypes,
        likelihoods,
        counts,
        total,
        fragment,
    } = read_parts(
        reader,
        &mut phase,
        &mut haplotypes,
        &mut likelihoods,
        &mut counts,
    )?;
    let (strand, calls) = (reader.read()?, reader.slice(&mut calls)?);
    let answer = late_reads::arrive(
        words,
        bases,
        phase,
        haplotypes,
        likelihoods,
        counts,
        total,
        fragment,
        strand,
        calls,
    );
    print_answer(output, answer, words, likelihoods, counts);
    Ok(())
}

// The same for a departure.
#[inline(never)]
pub fn depart(request: Request<'_>) -> Result<(), Unreadable> {
    let Request {
        reader,
        output,
        words,
        bases,
    } = request;
    let mut phase = [0; ONES];
    let mut haplotypes = [0; HAPLOTYPES];
    let mut likelihoods = [0; LIKELIHOODS];
    let mut counts = [0; COUNTS];
    let Parts {
        phase,
        haplotypes,
        likelihoods,
        counts,
        total,
        fragment,
    } = read_parts(
        reader,
        &mut phase,
        &mut haplotypes,
        &mut likelihoods,
        &mut counts,
    )?;
    let answer = late_reads::depart(
        words,
        bases,
        phase,
        haplotypes,
        likelihoods,
        counts,
        total,
        fragment,
    );
    print_answer(output, answer, words, likelihoods, counts);
    Ok(())
}

// `unsettled` and the new total.
impl Done for LogProb {
    fn line(self, output: &mut Writer) {
        output.text(b"done unsettled ");
        output.number(self.0);
        output.byte(b'\n');
    }
}

// The first line, and one line for each slice that the operation can write.
fn print_answer(
    output: &mut Writer,
    answer: Result<LogProb, Refusal>,
    words: &[i32],
    likelihoods: &[i64],
    counts: &[i32],
) {
    first_line(output, answer);
    output.line(words);
    output.line(likelihoods);
    output.line(counts);
}
