// The sweeps from given haplotypes, and the totals before and after them.
ghost use Rattle.std.specs.Prelude.{◌≡◌, ◌/◌, ◌≤◌, length, replicate};
ghost use Rattle.pileup.specs.Inner.Packed.{group_start};
ghost use Rattle.sweeps.specs.Sweeps.{total_of};
ghost use Rattle.likelihoods.specs.Inner.Likelihoods.{CallsIn, EndsIn, flagged};
ghost use Rattle.likelihoods.specs.Inner.Totals.{PriorsIn, held_case, standing_total};
ghost use Rattle.call_genotypes.specs.Inner.Scores.{sweep_state};
ghost use Rattle.with_haplotypes.specs.Inner.Reads.{prepared_given, prepared_promise};

use crate::RoundAnswer;
use crate::reads::PreparedRun;
use call_genotypes::reads::SweepReads;
use call_genotypes::run::run_sweeps;
use likelihoods::likelihoods::{Haplotypes, ReadRows, Standing};
use likelihoods::totals::{PairPriors, standing_total, total};
use steps::LogProb;
use variants_and_fragments::layout::MAX_VARIANTS;

impl PreparedRun<'_> {
    // The total of these haplotypes over the phased variants, of the likelihoods that stand.
    fn phased_total(&self, hap: &[u8], standing: &Standing<'_>) -> LogProb
        requires { PriorsIn (length self.now.ks.now) self.now.ks.now self.now.pri.now hap.now self.now.ph.now }
        ensures { result.0 ≡ standing_total (length self.now.ks.now) (length standing.now.lik.now / 2) self.now.ks.now self.now.pri.now standing.now.lik.now hap.now self.now.ph.now }
    {
        let priors = PairPriors {
            ks: self.ks,
            pri: self.pri,
            on: Haplotypes { hap, mask: self.ph },
        };
        standing_total(&priors, standing)
    }

    // The total of these haplotypes over all variants, recomputed from the rows.
    fn source_total(&self, hap: &[u8]) -> LogProb
        requires rows_in { CallsIn self.now.rows.words.now (group_start self.now.rows.ends.now (length self.now.rows.ends.now)) hap.now (replicate 1024 1) × EndsIn self.now.rows.ends.now (length self.now.rows.ends.now) × (length self.now.rows.ends.now ≤ 4096) }
        requires priors_in { PriorsIn (length self.now.ks.now) self.now.ks.now self.now.pri.now hap.now (replicate 1024 1) }
        ensures { result.0 ≡ total_of (held_case (length self.now.ks.now) (length self.now.rows.ends.now) self.now.ks.now self.now.pri.now self.now.rows.words.now self.now.rows.ends.now (replicate 1024 1)) (flagged (replicate 1024 1)) hap.now }
    {
        let all = [1u8; MAX_VARIANTS];
        let on = Haplotypes { hap, mask: &all };
        let priors = PairPriors {
            ks: self.ks,
            pri: self.pri,
            on,
        };
        let rows = ReadRows {
            rows: self.rows,
            on,
        };
        total(&priors, &rows)
    }

    // The run from the haplotypes that stand in hap: the phased totals are those of the likelihoods that stand, the source's is recomputed from
    // the rows.
    pub fn sweep(&self, hap: &mut [u8], lik: &mut [i64], post: &mut [i64]) -> RoundAnswer
        requires { prepared_given self.now (sweep_state hap.old lik.old post.old) }
        ensures { prepared_promise self.now (sweep_state hap.old lik.old post.old) (sweep_state hap.new lik.new post.new) result }
    {
        let rows = ReadRows {
            rows: self.rows,
            on: Haplotypes { hap, mask: self.ph },
        };
        rows.write_likelihoods(lik);
        let start = self.phased_total(hap, &Standing { lik });
        let reads = SweepReads {
            ks: self.ks,
            ph: self.ph,
            pri: self.pri,
            piles: self.piles,
        };
        let r = run_sweeps(&reads, &self.orders, self.limit, hap, lik, post);
        let end = self.phased_total(hap, &Standing { lik });
        let source = self.source_total(hap);
        RoundAnswer {
            sweeps: r.sweeps,
            settled: r.settled,
            start,
            end,
            source,
        }
    }
}
