// `priors`: `<words i32>` `<bases u8>` six rates `[priors i64]`.
use crate::answers::first_line;
use crate::arrays::{Fill, PAIRS};
use crate::rates::read_rates;
use crate::requests::Request;
use protocol::input::Unreadable;

// The answer to the request.
#[inline(never)]
pub fn answer(request: Request<'_>) -> Result<(), Unreadable> {
    let Request {
        reader,
        output,
        words,
        bases,
    } = request;
    let mut priors = [i64::FILL; PAIRS];
    let rates = read_rates(reader)?;
    let priors = reader.front(&mut priors)?;
    let answer = genotype_probs::genotype_priors(words, bases, rates, priors);
    first_line(output, answer);
    output.line(priors);
    Ok(())
}
