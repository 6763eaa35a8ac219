// Priors and posteriors of genotypes, and the qualities of a call: document 01, sections 3, 4 (as amended by request 4) and 7.
#![tactic(auto)]

ghost use Rattle.std.specs.Prelude.{◌≡◌};
ghost use Rattle.variants_and_fragments.specs.Refusals.{outcome_of};
ghost use Rattle.genotype_probs.specs.Answers.{GenotypePriors};

use crate::case_priors::make_priors;
pub use accepted::AcceptedRates;
use steps::LogProb;
use variants_and_fragments::{Refusal, check_case, long_enough};

mod accepted;
pub mod case_priors;
mod letters;
pub mod posteriors;
mod priors;
pub mod table;

// The rates from which the priors are made.
#[derive(Clone, Copy)]
pub struct Rates {
    pub hom_snv: LogProb,
    pub het_snv: LogProb,
    pub hom_indel: LogProb,
    pub het_indel: LogProb,
    pub ts: LogProb,
    pub tv: LogProb,
}

// Writes the priors of a case's genotypes, nine places per variant: k × k row-major, then zeros. Refused with number 1 to 5, 6 or 10.
pub fn genotype_priors(
    words: &[i32],
    bases: &[u8],
    rates: Rates,
    priors: &mut [i64],
) -> Result<(), Refusal>
    ensures { GenotypePriors words.now bases.now rates priors.old (outcome_of result) priors.new }
{
    let case = check_case(words, bases)?;
    let accepted = rates.accepted()?;
    long_enough(&[(9 * case.laid.sizes.n, priors.len())])?;
    make_priors(&case, accepted, priors);
    Ok(())
}
