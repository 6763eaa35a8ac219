// `nohap`: `<words i32>` `<bases u8>` six rates `[variants i32]` `[quals f64]` `[gqs f64]`.
use crate::answers::first_line;
use crate::arrays::{ANSWERS, Fill, ONES};
use crate::rates::read_rates;
use crate::requests::Request;
use protocol::input::Unreadable;

// The answer to the request. quals and gqs have no struct: it would be taken apart in the one call that they go to.
#[inline(never)]
pub fn answer(request: Request<'_>) -> Result<(), Unreadable> {
    let Request {
        reader,
        output,
        words,
        bases,
    } = request;
    let mut variants = [i32::FILL; ANSWERS];
    let mut quals = [f64::FILL; ONES];
    let mut gqs = [f64::FILL; ONES];
    let rates = read_rates(reader)?;
    let variants = reader.front(&mut variants)?;
    let quals = reader.front(&mut quals)?;
    let gqs = reader.front(&mut gqs)?;
    let answer = no_haplotypes::call_genotypes_no_haplotypes(
        words, bases, rates, variants, quals, gqs,
    );
    first_line(output, answer);
    output.line(variants);
    output.line(quals);
    output.line(gqs);
    Ok(())
}
