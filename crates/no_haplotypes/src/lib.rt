// Calling genotypes without haplotypes: document 01, section 4, as amended by requests 4 and 5.
#![tactic(auto)]

ghost use Rattle.std.specs.Prelude.{◌≡◌, ◌*◌, ◌≤◌, length};
ghost use Rattle.variants_and_fragments.specs.Refusals.{outcome_of};
ghost use Rattle.no_haplotypes.specs.NoHaplotypes.{call_slices, CalledNoHaplotypes};
ghost use Rattle.no_haplotypes.specs.Inner.Piles.{Piled};
ghost use Rattle.no_haplotypes.specs.Inner.Calling.{PriorsIn, VariantsCalled, AcceptedCalled};

use crate::calls::Piles;
use genotype_probs::case_priors::make_priors;
use genotype_probs::{AcceptedRates, Rates};
use pileup::grouped::Groups;
use pileup::piles::pile_calls;
use variants_and_fragments::layout::{MAX_CALLS, MAX_FRAGMENTS, MAX_VARIANTS};
use variants_and_fragments::{Case, CaseWords, Refusal, check_case, long_enough};

mod answer;
mod calls;
mod tally;

// Calls all variants: each variant's nine priors become its posteriors. The caller lends `variants`, `quals` and `gqs` apart: a struct of the three
// would hold them by `&mut`, and each contract would have to say that each loan is the same one.
fn call_variants(
    piles: &Piles<'_>,
    post: &mut [i64],
    variants: &mut [i32],
    quals: &mut [f64],
    gqs: &mut [f64],
)
    requires priors_in { PriorsIn post.old piles.now.case.laid.sizes.n }
    requires n_in_bounds { (13 * piles.now.case.laid.sizes.n ≤ length variants.old) × (piles.now.case.laid.sizes.n ≤ length quals.old) × (piles.now.case.laid.sizes.n ≤ length gqs.old) }
    ensures { VariantsCalled piles.now.case.laid.words.now piles.now.case.laid.sizes.n post.old variants.old quals.old gqs.old variants.new quals.new gqs.new }
{
    for v in 0..piles.case.laid.sizes.n {
        let answer = piles.calls(v).answer(&mut post[9 * v..9 * v + 9]);
        variants[13 * v..13 * v + 13].copy_from_slice(&answer.words);
        quals[v] = answer.qual.0;
        gqs[v] = answer.gq.0;
    }
}

// The piles of a case, where each ends, and how many calls at each variant are ambiguous. The rows are scratch that is gone before the variants are
// called.
fn pile_up(case: &CaseWords<'_>, ambiguous: &mut [usize], ends: &mut [usize], words: &mut [u64])
    requires { (case.now.laid.sizes.n ≤ length ambiguous.old) × (case.now.laid.sizes.n ≤ length ends.old) × (case.now.laid.sizes.c ≤ length words.old) }
    ensures { Piled case.now.laid.words.now case.now.laid.sizes ambiguous.new ends.new words.new }
{
    let mut rows = [0u64; MAX_CALLS];
    let mut row_ends = [0usize; MAX_FRAGMENTS];
    pile_calls(case, &mut rows, &mut row_ends, ambiguous, words, ends);
}

// Calls the variants of a case at accepted rates.
fn call_accepted(
    case: &Case<'_>,
    rates: AcceptedRates,
    variants: &mut [i32],
    quals: &mut [f64],
    gqs: &mut [f64],
)
    requires { (13 * case.now.laid.sizes.n ≤ length variants.old) × (case.now.laid.sizes.n ≤ length quals.old) × (case.now.laid.sizes.n ≤ length gqs.old) }
    ensures { AcceptedCalled case.now.laid.words.now case.now.bases.now rates.rates case.now.laid.sizes.n variants.old quals.old gqs.old variants.new quals.new gqs.new }
{
    let mut ambiguous = [0usize; MAX_VARIANTS];
    let mut ends = [0usize; MAX_VARIANTS];
    let mut words = [0u64; MAX_CALLS];
    let accepted = case.accepted_words();
    pile_up(&accepted, &mut ambiguous, &mut ends, &mut words);
    let mut post = [0i64; 9 * MAX_VARIANTS];
    make_priors(case, rates, &mut post);
    let piles = Piles {
        case: accepted,
        by_variant: Groups {
            words: &words,
            ends: &ends,
        },
        ambiguous: &ambiguous,
    };
    call_variants(&piles, &mut post, variants, quals, gqs);
}

// Calls genotypes without haplotypes: writes 13 words per variant, its quality and its genotype's quality.
pub fn call_genotypes_no_haplotypes(
    words: &[i32],
    bases: &[u8],
    rates: Rates,
    variants: &mut [i32],
    quals: &mut [f64],
    gqs: &mut [f64],
) -> Result<(), Refusal>
    ensures { CalledNoHaplotypes words.now bases.now rates (call_slices variants.old quals.old gqs.old) (outcome_of result) (call_slices variants.new quals.new gqs.new) }
{
    let case = check_case(words, bases)?;
    let accepted = rates.accepted()?;
    let n = case.laid.sizes.n;
    long_enough(&[(13 * n, variants.len()), (n, quals.len()), (n, gqs.len())])?;
    call_accepted(&case, accepted, variants, quals, gqs);
    Ok(())
}
