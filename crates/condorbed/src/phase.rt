// `phase`: `<words i32>` `<bases u8>` `<phase u8>` `<sets i32>` `[haplotypes u8]` `[phased u8]` `[names u32]`.
use crate::answers::first_line;
use crate::arrays::{Fill, HAPLOTYPES, ONES};
use crate::requests::Request;
use protocol::input::Unreadable;

// The answer to the request.
#[inline(never)]
pub fn answer(request: Request<'_>) -> Result<(), Unreadable> {
    let Request {
        reader,
        output,
        words,
        bases,
    } = request;
    let mut phase = [0; ONES];
    let mut sets = [0; ONES];
    let mut haplotypes = [u8::FILL; HAPLOTYPES];
    let mut phased = [u8::FILL; ONES];
    let mut names = [u32::FILL; ONES];
    let phase = reader.slice(&mut phase)?;
    let sets = reader.slice(&mut sets)?;
    let haplotypes = reader.front(&mut haplotypes)?;
    let phased = reader.front(&mut phased)?;
    let names = reader.front(&mut names)?;
    let answer = haplotype_assembly::given_phase(
        words, bases, phase, sets, haplotypes, phased, names,
    );
    first_line(output, answer);
    output.line(haplotypes);
    output.line(phased);
    output.line(names);
    Ok(())
}
