// A round past its checks: it prepares, runs and finishes.
ghost use Rattle.with_haplotypes.specs.Round.{run_of};
ghost use Rattle.with_haplotypes.specs.Promise.{round_slices};
ghost use Rattle.with_haplotypes.specs.Inner.Steps.{RoundRoom, RoundMade};
ghost use Rattle.with_haplotypes.specs.Inner.Reads.{input_of};

use crate::RoundAnswer;
use crate::finals::write_finals;
use crate::normalized::normalize_all;
use crate::reads::{AcceptedRound, FlaggedReads, RunReads};
use haplotype_assembly::phase::write_phase;
use likelihoods::sweep_case::write_allele_counts;
use variants_and_fragments::layout::MAX_VARIANTS;

impl AcceptedRound<'_> {
    // The run from section 5's haplotypes and phased variants, and the final answers from the latest posteriors. The five slices that are written stay
    // parameters: a struct of them would have each contract say besides that the five loans stay the same.
    pub fn call(
        &self,
        haplotypes: &mut [u8],
        likelihoods: &mut [i64],
        posteriors: &mut [i64],
        quals: &mut [f64],
        gqs: &mut [f64],
    ) -> RoundAnswer
        requires { RoundRoom self.now.case.laid.sizes (round_slices haplotypes.old likelihoods.old posteriors.old quals.old gqs.old) }
        ensures { RoundMade (run_of (input_of self.now)) self.now.case.laid.sizes (round_slices haplotypes.old likelihoods.old posteriors.old quals.old gqs.old) result (round_slices haplotypes.new likelihoods.new posteriors.new quals.new gqs.new) }
    {
        let n = self.case.laid.sizes.n;
        let f = self.case.laid.sizes.f;
        let mut counts = [0u8; MAX_VARIANTS];
        let ks = &mut counts[..n];
        write_allele_counts(&self.case.with_variants(), ks);
        let mut ph = [0u8; MAX_VARIANTS];
        write_phase(&self.case.accepted_words(), self.phase, haplotypes, &mut ph);
        let flagged = FlaggedReads {
            case: self.case,
            rates: self.rates,
            orders: self.orders,
            limit: self.limit,
            ks,
            ph: &ph,
        };
        let reads = RunReads {
            flagged: &flagged,
            phase: self.phase,
        };
        let answer = reads.flagged.run(
            &mut haplotypes[..2 * n],
            &mut likelihoods[..2 * f],
            posteriors,
        );
        normalize_all(ks, posteriors);
        write_finals(&self.case.laid, posteriors, quals, gqs);
        answer
    }
}
