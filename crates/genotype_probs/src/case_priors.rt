// The priors of a case's genotypes at accepted rates.
ghost use Rattle.std.specs.Prelude.{◌≡◌, ◌*◌, ◌≤◌, length};
ghost use Rattle.variants_and_fragments.specs.Decode.{decode};
ghost use Rattle.variants_and_fragments.specs.Written.{written};
ghost use Rattle.genotype_probs.specs.Priors.{prior_at};

use crate::AcceptedRates;
use crate::priors::write_priors;
use crate::table::PriorTable;
use variants_and_fragments::Case;

// Writes the priors of all variants, nine places each.
pub fn make_priors(case: &Case<'_>, rates: AcceptedRates, priors: &mut [i64])
    requires { 9 * case.now.laid.sizes.n ≤ length priors.old }
    ensures { priors.new ≡ written (prior_at rates.rates (decode case.now.laid.words.now case.now.bases.now)) (9 * case.now.laid.sizes.n) priors.old }
{
    let mut table = PriorTable::zeros();
    table.fill(rates);
    write_priors(&case.with_alleles(), &table, priors);
}
