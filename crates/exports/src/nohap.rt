// Calling genotypes without haplotypes.
ghost use Rattle.no_haplotypes.specs.NoHaplotypes.{call_slices};
ghost use Rattle.exports.specs.Promises.{CallGenotypesNoHaplotypes};

use crate::answers::Answer;
use crate::inputs::Rates;
use no_haplotypes::call_genotypes_no_haplotypes;

// `call_genotypes_no_haplotypes`.
#[unsafe(no_mangle)]
pub extern "C" fn condorbed_call_genotypes_no_haplotypes(
    words: &[i32],
    bases: &[u8],
    rates: Rates,
    variants: &mut [i32],
    quals: &mut [f64],
    gqs: &mut [f64],
) -> Answer
    ensures { CallGenotypesNoHaplotypes words.now bases.now rates (call_slices variants.old quals.old gqs.old) result (call_slices variants.new quals.new gqs.new) }
{
    Answer::from(call_genotypes_no_haplotypes(words, bases, rates.into(), variants, quals, gqs))
}
