// One round of calling genotypes with haplotypes, after HapCUT2: document 01, sections 6 and 7.
#![tactic(auto)]

ghost use Rattle.std.specs.Prelude.{◌≡◌, ◌&&◌, leb};
ghost use Rattle.variants_and_fragments.specs.Refusals.{answered, unless, done};
ghost use Rattle.with_haplotypes.specs.Round.{round_input};
ghost use Rattle.with_haplotypes.specs.Promise.{max_limit, round_slices, outcome_of, CalledWithHaplotypes};

use crate::reads::AcceptedRound;
use call_genotypes::run::Orders;
use genotype_probs::Rates;
use haplotype_assembly::phase::check_phase;
use shuffle::check_orders;
use steps::LogProb;
use variants_and_fragments::{Refusal, check_case, long_enough};

mod accepted;
mod finals;
mod normalized;
mod reads;
mod run;
mod scratch;

// How many sweeps were made, whether the last one changed nothing, the phased totals at the start and at the end, and the source's total
// at the end, over all variants and usable calls.
#[derive(Clone, Copy)]
pub struct RoundAnswer {
    pub sweeps: usize,
    pub settled: bool,
    pub start: LogProb,
    pub end: LogProb,
    pub source: LogProb,
}

// The most sweeps that may be asked for.
const MAX_LIMIT: u32 = 1000000;

// Number 9: the limit is in 1..1000000.
#[tactic(auto, unfolding(variants_and_fragments::specs::Refusals::unless))]
fn check_limit(limit: u32) -> Result<(), Refusal>
    ensures { answered (λ x. x) result ≡ unless (leb 1 limit && leb limit max_limit) 9 limit (done tt) }
{
    if !(1..=MAX_LIMIT).contains(&limit) {
        return Err(Refusal::Limit(limit as usize));
    }
    Ok(())
}

// Calls genotypes with haplotypes, in one round: sweeps from the given phase, by the lent orders in turn, until one changes nothing or
// the limit is reached. Writes the haplotypes (2 per variant), the likelihoods (2 per fragment), each variant's latest posteriors (9 per
// variant), its quality and its genotype's quality.
pub fn call_genotypes_with_haplotypes(
    words: &[i32],
    bases: &[u8],
    rates: Rates,
    phase: &[u8],
    sets: &[i32],
    orders: &[u32],
    limit: u32,
    haplotypes: &mut [u8],
    likelihoods: &mut [i64],
    posteriors: &mut [i64],
    quals: &mut [f64],
    gqs: &mut [f64],
) -> Result<RoundAnswer, Refusal>
    ensures { CalledWithHaplotypes (round_input words.now bases.now rates phase.now orders.now limit) sets.now (round_slices haplotypes.old likelihoods.old posteriors.old quals.old gqs.old) (outcome_of result) (round_slices haplotypes.new likelihoods.new posteriors.new quals.new gqs.new) }
{
    let case = check_case(words, bases)?;
    let rates = rates.accepted()?;
    let n = case.laid.sizes.n;
    let f = case.laid.sizes.f;
    check_phase(n, phase, sets)?;
    let m = check_orders(orders, n)?;
    check_limit(limit)?;
    long_enough(&[
        (2 * n, haplotypes.len()),
        (2 * f, likelihoods.len()),
        (9 * n, posteriors.len()),
        (n, quals.len()),
        (n, gqs.len()),
    ])?;
    let limit = limit as usize;
    let round = AcceptedRound {
        case,
        rates,
        phase,
        orders: Orders {
            entries: orders,
            n,
            m,
        },
        limit,
    };
    Ok(round.call(haplotypes, likelihoods, posteriors, quals, gqs))
}
