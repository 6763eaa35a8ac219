// The filters of a case's variants.
ghost use Rattle.exports.specs.Promises.{VarFilter};

use crate::answers::Answer;
use crate::inputs::DensityParameters;
use var_filter::var_filter;

// `var_filter`.
#[unsafe(no_mangle)]
pub extern "C" fn condorbed_var_filter(
    words: &[i32],
    bases: &[u8],
    quals: &[f64],
    density: DensityParameters,
    max_depth: u32,
    filters: &mut [u8],
) -> Answer
    ensures { VarFilter words.now bases.now quals.now density max_depth filters.old result filters.new }
{
    Answer::from(var_filter(words, bases, quals, density.into(), max_depth, filters))
}
