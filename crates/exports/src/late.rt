// Reads that come late: a fragment arrives or departs.
ghost use Rattle.std.specs.Prelude.{◌≡◌};
ghost use Rattle.late_reads.specs.Values.{values};
ghost use Rattle.late_reads.specs.LateReads.{late_input, late_slices, outcome_of};
ghost use Rattle.exports.specs.Answers.{late_numbers};
ghost use Rattle.exports.specs.Promises.{Arrives, Departs};

use crate::answers::{Answer, LateAnswer};
use late_reads::{arrive, depart};
use steps::LogProb;
use variants_and_fragments::Refusal;

// The numbers of an answer.
fn late_answer(answer: Result<LogProb, Refusal>) -> LateAnswer
    ensures { result ≡ late_numbers (outcome_of answer) }
{
    let Answer { number, place } = Answer::from(answer);
    let LogProb(total) = answer.unwrap_or(LogProb(0));
    LateAnswer {
        number,
        place,
        settled: false,
        total,
    }
}

// `arrive`.
#[unsafe(no_mangle)]
pub extern "C" fn condorbed_arrive(
    words: &mut [i32],
    bases: &[u8],
    phase: &[u8],
    haplotypes: &[u8],
    likelihoods: &mut [i64],
    counts: &mut [i32],
    total: i64,
    fragment: u32,
    strand: i32,
    calls: &[i32],
) -> LateAnswer
    ensures { Arrives (late_input words.old bases.now phase.now haplotypes.now (values likelihoods.old counts.old total)) fragment strand calls.now result (late_slices words.new likelihoods.new counts.new) }
{
    late_answer(arrive(
        words,
        bases,
        phase,
        haplotypes,
        likelihoods,
        counts,
        LogProb(total),
        fragment,
        strand,
        calls,
    ))
}

// `depart`.
#[unsafe(no_mangle)]
pub extern "C" fn condorbed_depart(
    words: &mut [i32],
    bases: &[u8],
    phase: &[u8],
    haplotypes: &[u8],
    likelihoods: &mut [i64],
    counts: &mut [i32],
    total: i64,
    fragment: u32,
) -> LateAnswer
    ensures { Departs (late_input words.old bases.now phase.now haplotypes.now (values likelihoods.old counts.old total)) fragment result (late_slices words.new likelihoods.new counts.new) }
{
    late_answer(depart(
        words,
        bases,
        phase,
        haplotypes,
        likelihoods,
        counts,
        LogProb(total),
        fragment,
    ))
}
