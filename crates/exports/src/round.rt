// One round of calling genotypes with haplotypes.
ghost use Rattle.with_haplotypes.specs.Round.{round_input};
ghost use Rattle.std.specs.Prelude.{◌≡◌};
ghost use Rattle.with_haplotypes.specs.Promise.{round_slices, outcome_of};
ghost use Rattle.exports.specs.Inputs.{rates_of};
ghost use Rattle.exports.specs.Answers.{round_numbers};
ghost use Rattle.exports.specs.Promises.{CallGenotypesWithHaplotypes};

use crate::answers::{Answer, RoundAnswer};
use crate::inputs::Rates;
use steps::LogProb;
use variants_and_fragments::Refusal;
use with_haplotypes::call_genotypes_with_haplotypes;

// What a round that is refused has.
const NO_ROUND: with_haplotypes::RoundAnswer = with_haplotypes::RoundAnswer {
    sweeps: 0,
    settled: false,
    start: LogProb(0),
    end: LogProb(0),
    source: LogProb(0),
};

// `call_genotypes_with_haplotypes`.
#[unsafe(no_mangle)]
pub extern "C" fn condorbed_call_genotypes_with_haplotypes(
    words: &[i32],
    bases: &[u8],
    rates: Rates,
    phase: &[u8],
    sets: &[i32],
    orders: &[u32],
    limit: u32,
    haplotypes: &mut [u8],
    likelihoods: &mut [i64],
    posteriors: &mut [i64],
    quals: &mut [f64],
    gqs: &mut [f64],
) -> RoundAnswer
    ensures { CallGenotypesWithHaplotypes (round_input words.now bases.now (rates_of rates) phase.now orders.now limit) sets.now (round_slices haplotypes.old likelihoods.old posteriors.old quals.old gqs.old) result (round_slices haplotypes.new likelihoods.new posteriors.new quals.new gqs.new) }
{
    let answer = call_genotypes_with_haplotypes(
        words,
        bases,
        rates.into(),
        phase,
        sets,
        orders,
        limit,
        haplotypes,
        likelihoods,
        posteriors,
        quals,
        gqs,
    );
    round_answer(answer)
}

// The numbers of an answer.
fn round_answer(answer: Result<with_haplotypes::RoundAnswer, Refusal>) -> RoundAnswer
    ensures { result ≡ round_numbers (outcome_of answer) }
{
    let Answer { number, place } = Answer::from(answer);
    let r = answer.unwrap_or(NO_ROUND);
    RoundAnswer {
        number,
        place,
        sweeps: r.sweeps,
        settled: r.settled,
        start: r.start.0,
        end: r.end.0,
        source: r.source.0,
    }
}
