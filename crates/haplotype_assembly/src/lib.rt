// The given phase of document 01, section 5, and the fragment lines of section 7.
#![tactic(auto)]

ghost use Rattle.std.specs.Prelude.{◌≡◌};
ghost use Rattle.variants_and_fragments.specs.Refusals.{answered, outcome_of};
ghost use Rattle.haplotype_assembly.specs.GivenPhase.{phase_slices, GivenPhase};
ghost use Rattle.haplotype_assembly.specs.FlistBuffer.{FlistBuffer};
ghost use Rattle.haplotype_assembly.specs.FlistBuffer as buffered;

use crate::flist::Flist;
use crate::phase::{PhasedCase, check_phase, write_phase};
use pileup::grouped::Groups;
use pileup::rows::make_rows;
use variants_and_fragments::layout::{MAX_CALLS, MAX_FRAGMENTS, MAX_VARIANTS};
use variants_and_fragments::{Refusal, check_case, long_enough};

mod flist;
mod lines;
mod numbers;
pub mod phase;
mod tally;

// The given phase of a case: each genotype ordered by its byte, the phased flags and the set names.
pub fn given_phase(
    words: &[i32],
    bases: &[u8],
    phase: &[u8],
    sets: &[i32],
    haplotypes: &mut [u8],
    phased: &mut [u8],
    names: &mut [u32],
) -> Result<(), Refusal>
    ensures { GivenPhase words.now bases.now phase.now sets.now (phase_slices haplotypes.old phased.old names.old) (outcome_of result) (phase_slices haplotypes.new phased.new names.new) }
{
    let case = check_case(words, bases)?.accepted_words();
    let n = case.laid.sizes.n;
    check_phase(n, phase, sets)?;
    long_enough(&[
        (2 * n, haplotypes.len()),
        (n, phased.len()),
        (n, names.len()),
    ])?;
    write_phase(&case, phase, haplotypes, phased);
    PhasedCase { case, phase, sets }.write_names(names);
    Ok(())
}

// How many bytes and lines fragment lines have.
#[derive(Clone, Copy)]
pub struct Counted {
    pub bytes: usize,
    pub lines: usize,
}

// The fragment lines of a case, one after the other from the start of the buffer; answers how many bytes and lines it wrote.
pub fn generate_flist_buffer(
    words: &[i32],
    bases: &[u8],
    single_reads: bool,
    buffer: &mut [u8],
) -> Result<Counted, Refusal>
    ensures { FlistBuffer words.now bases.now single_reads buffer.old (buffered.outcome_of result) buffer.new }
{
    let case = check_case(words, bases)?.accepted_words();
    let mut rows = [0u64; MAX_CALLS];
    let mut ends = [0usize; MAX_FRAGMENTS];
    let mut counts = [0usize; MAX_VARIANTS];
    make_rows(&case, &mut rows, &mut ends, &mut counts, &mut []);
    let flist = Flist {
        case,
        rows: Groups {
            words: &rows,
            ends: &ends,
        },
        single: single_reads,
    };
    let counted = flist.count();
    long_enough(&[(counted.bytes, buffer.len())])?;
    flist.write(buffer);
    Ok(counted)
}
