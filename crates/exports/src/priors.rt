// The priors of a case's genotypes.
ghost use Rattle.exports.specs.Promises.{GenotypePriors};

use crate::answers::Answer;
use crate::inputs::Rates;
use genotype_probs::genotype_priors;

// `genotype_priors`.
#[unsafe(no_mangle)]
pub extern "C" fn condorbed_genotype_priors(
    words: &[i32],
    bases: &[u8],
    rates: Rates,
    priors: &mut [i64],
) -> Answer
    ensures { GenotypePriors words.now bases.now rates priors.old result priors.new }
{
    Answer::from(genotype_priors(words, bases, rates.into(), priors))
}
