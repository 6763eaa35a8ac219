// The given phase of a case.
ghost use Rattle.haplotype_assembly.specs.GivenPhase.{phase_slices};
ghost use Rattle.exports.specs.Promises.{GivenPhase};

use crate::answers::Answer;
use haplotype_assembly::given_phase;

// `given_phase`.
#[unsafe(no_mangle)]
pub extern "C" fn condorbed_given_phase(
    words: &[i32],
    bases: &[u8],
    phase: &[u8],
    sets: &[i32],
    haplotypes: &mut [u8],
    phased: &mut [u8],
    names: &mut [u32],
) -> Answer
    ensures { GivenPhase words.now bases.now phase.now sets.now (phase_slices haplotypes.old phased.old names.old) result (phase_slices haplotypes.new phased.new names.new) }
{
    Answer::from(given_phase(words, bases, phase, sets, haplotypes, phased, names))
}
