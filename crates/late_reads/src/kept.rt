// What both operations test first: the case with its haplotypes, the phase bytes, the slices, and the values lent.
ghost use Rattle.std.specs.Prelude.{◌≡◌, IfOk};
ghost use Rattle.variants_and_fragments.specs.Refusals.{answered};
ghost use Rattle.late_reads.specs.Values.{values};
ghost use Rattle.late_reads.specs.LateReads.{late_input, kept_outcome};
ghost use Rattle.late_reads.specs.Inner.Ready.{ReadyCase};

use crate::ranges::in_range;
use steps::LogProb;
use variants_and_fragments::{CaseWords, Refusal, check_case_and_haplotypes, long_enough};

// A case that is accepted, with its phase bytes and haplotypes.
#[derive(Clone, Copy)]
pub struct Ready<'a> {
    pub case: CaseWords<'a>,
    pub phase: &'a [u8],
    pub haplotypes: &'a [u8],
    pub ghost ready: { ReadyCase case.laid.words.now case.laid.sizes phase.now haplotypes.now },
}

// The case, or the first refusal: 1 to 5, 7, 10, and 10 at place 0. The seven come one by one, as C lends them: in one struct, the likelihoods and
// the counts would be lent for as long as the answer, which holds the words, is read, and the callers write them meanwhile.
pub fn check_kept<'a>(
    words: &'a [i32],
    bases: &'a [u8],
    phase: &'a [u8],
    haplotypes: &'a [u8],
    likelihoods: &[i64],
    counts: &[i32],
    total: LogProb,
) -> Result<Ready<'a>, Refusal>
    ensures outcome { answered (λ ready. ready.case.laid.sizes) result ≡ kept_outcome (late_input words.now bases.now phase.now haplotypes.now (values likelihoods.now counts.now total.0)) }
    ensures lent { IfOk result (λ ready. (ready.case.laid.words.now ≡ words.now) × (ready.phase.now ≡ phase.now) × (ready.haplotypes.now ≡ haplotypes.now)) }
{
    let case = check_case_and_haplotypes(words, bases, haplotypes)?;
    let s = case.laid.sizes;
    if phase.len() != s.n {
        return Err(Refusal::Phase(s.n));
    }
    long_enough(&[
        (2 * s.n, haplotypes.len()),
        (2 * s.f, likelihoods.len()),
        (10 * s.n, counts.len()),
    ])?;
    if !in_range(s, likelihoods, counts, total) {
        return Err(Refusal::Short(0));
    }
    Ok(Ready {
        case: case.accepted_words(),
        phase,
        haplotypes,
    })
}
