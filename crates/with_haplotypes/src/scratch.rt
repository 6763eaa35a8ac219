// A run with scratch of its own.
ghost use Rattle.std.specs.Prelude.{◌*◌, ◌≤◌};
ghost use Rattle.call_genotypes.specs.Inner.Scores.{sweep_state};
ghost use Rattle.with_haplotypes.specs.Inner.Steps.{SomePhased};
ghost use Rattle.with_haplotypes.specs.Inner.Reads.{phased_given, run_promise};

use crate::RoundAnswer;
use crate::reads::{FlaggedReads, PreparedRun};
use genotype_probs::case_priors::make_priors;
use pileup::grouped::Groups;
use pileup::piles::pile_calls;
use variants_and_fragments::layout::{MAX_CALLS, MAX_FRAGMENTS, MAX_VARIANTS};

// A case of at most so many records, fragments and variants is small.
const FEW_CALLS: usize = 1024;

const FEW_FRAGMENTS: usize = 512;

const FEW_VARIANTS: usize = 128;

// Nine priors for each variant.
const PRIORS: usize = 9 * MAX_VARIANTS;

const FEW_PRIORS: usize = 9 * FEW_VARIANTS;

impl FlaggedReads<'_> {
    // The run with scratch of these lengths; NINE is a parameter too, since no const argument is computed. Ambiguous calls are counted nowhere: a run
    // does not read them.
    fn run_in<
        const RECORDS: usize,
        const FRAGMENTS: usize,
        const VARIANTS: usize,
        const NINE: usize,
    >(&self, hap: &mut [u8], lik: &mut [i64], post: &mut [i64]) -> RoundAnswer
        requires some_phased { SomePhased (phased_given self.now (sweep_state hap.old lik.old post.old)) }
        requires lengths { (RECORDS ≤ 16384) × (FRAGMENTS ≤ 4096) × (VARIANTS ≤ 1024) × (NINE ≤ 9216) }
        requires room { (self.now.case.laid.sizes.c ≤ RECORDS) × (self.now.case.laid.sizes.f ≤ FRAGMENTS) × (self.now.case.laid.sizes.n ≤ VARIANTS) × (9 * self.now.case.laid.sizes.n ≤ NINE) }
        ensures { run_promise self.now (sweep_state hap.old lik.old post.old) (sweep_state hap.new lik.new post.new) result }
    {
        let case = &self.case;
        let mut rows = [0u64; RECORDS];
        let mut fragment_ends = [0usize; FRAGMENTS];
        let row_ends = &mut fragment_ends[..case.laid.sizes.f];
        let mut piles = [0u64; RECORDS];
        let mut pile_ends = [0usize; VARIANTS];
        pile_calls(
            &case.accepted_words(),
            &mut rows,
            row_ends,
            &mut [],
            &mut piles,
            &mut pile_ends,
        );
        let mut pri = [0i64; NINE];
        make_priors(case, self.rates, &mut pri);
        let prepared = PreparedRun {
            orders: self.orders,
            limit: self.limit,
            ks: self.ks,
            ph: self.ph,
            rows: Groups {
                words: &rows,
                ends: row_ends,
            },
            piles: Groups {
                words: &piles,
                ends: &pile_ends,
            },
            pri: &pri,
        };
        prepared.sweep(hap, lik, post)
    }

    // The run with scratch as long as the largest case needs, or less of it, which costs a small case less to clear.
    pub fn run(&self, hap: &mut [u8], lik: &mut [i64], post: &mut [i64]) -> RoundAnswer
        requires { SomePhased (phased_given self.now (sweep_state hap.old lik.old post.old)) }
        ensures { run_promise self.now (sweep_state hap.old lik.old post.old) (sweep_state hap.new lik.new post.new) result }
    {
        let s = self.case.laid.sizes;
        if s.c <= FEW_CALLS && s.n <= FEW_VARIANTS && s.f <= FEW_FRAGMENTS {
            return self.run_in::<FEW_CALLS, FEW_FRAGMENTS, FEW_VARIANTS, FEW_PRIORS>(
                hap, lik, post,
            );
        }
        self.run_in::<MAX_CALLS, MAX_FRAGMENTS, MAX_VARIANTS, PRIORS>(hap, lik, post)
    }
}
