// `run`: `<words i32>` `<bases u8>` six rates `<phase u8>` `<sets i32>` `<orders u32>` limit `[haplotypes u8]`
// `[likelihoods i64]` `[posteriors i64]` `[quals f64]` `[gqs f64]`.
use crate::answers::{Done, first_line};
use crate::arrays::{Fill, HAPLOTYPES, LIKELIHOODS, ONES, ORDERS, PAIRS};
use crate::rates::read_rates;
use crate::requests::Request;
use protocol::input::Unreadable;
use protocol::output::Writer;
use with_haplotypes::RoundAnswer;

// The answer to the request. The five slices that are written have no struct: it would be taken apart in the one call that they go to.
#[inline(never)]
pub fn answer(request: Request<'_>) -> Result<(), Unreadable> {
    let Request {
        reader,
        output,
        words,
        bases,
    } = request;
    let mut phase = [0; ONES];
    let mut sets = [0; ONES];
    let mut orders = [0; ORDERS];
    let mut haplotypes = [u8::FILL; HAPLOTYPES];
    let mut likelihoods = [i64::FILL; LIKELIHOODS];
    let mut posteriors = [i64::FILL; PAIRS];
    let mut quals = [f64::FILL; ONES];
    let mut gqs = [f64::FILL; ONES];
    let rates = read_rates(reader)?;
    let phase = reader.slice(&mut phase)?;
    let sets = reader.slice(&mut sets)?;
    let orders = reader.slice(&mut orders)?;
    let limit = reader.read()?;
    let haplotypes = reader.front(&mut haplotypes)?;
    let likelihoods = reader.front(&mut likelihoods)?;
    let posteriors = reader.front(&mut posteriors)?;
    let quals = reader.front(&mut quals)?;
    let gqs = reader.front(&mut gqs)?;
    let answer = with_haplotypes::call_genotypes_with_haplotypes(
        words,
        bases,
        rates,
        phase,
        sets,
        orders,
        limit,
        haplotypes,
        likelihoods,
        posteriors,
        quals,
        gqs,
    );
    first_line(output, answer);
    output.line(haplotypes);
    output.line(likelihoods);
    output.line(posteriors);
    output.line(quals);
    output.line(gqs);
    Ok(())
}

// `SWEEPS settled START END SOURCE`, or `unsettled` in place of `settled`.
impl Done for RoundAnswer {
    fn line(self, output: &mut Writer) {
        output.text(b"done ");
        output.number(self.sweeps);
        output.text(if self.settled {
            b" settled "
        } else {
            b" unsettled "
        });
        output.number(self.start.0);
        output.byte(b' ');
        output.number(self.end.0);
        output.byte(b' ');
        output.number(self.source.0);
        output.byte(b'\n');
    }
}
