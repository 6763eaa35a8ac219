// Totals of a pair of haplotypes over the flagged variants, recomputed from the rows or from the likelihoods that stand. The three sums are
// loops: std's `sum` of signed numbers has no bound to offer.
ghost use Rattle.std.specs.Prelude.{◌≡◌, ◌/◌, ◌^◌, ◌<◌, ◌≤◌, nat_abs, length};
ghost use Rattle.variants_and_fragments.specs.Sums.{sum_to};
ghost use Rattle.sweeps.specs.Sweeps.{total_of};
ghost use Rattle.steps.specs.Logs.{mix_of};
ghost use Rattle.likelihoods.specs.Inner.Likelihoods.{flagged};
ghost use Rattle.likelihoods.specs.Inner.Totals.{PriorsIn, held_case, prior_share, fragment_share, standing_share, standing_total};

use crate::likelihoods::{Haplotypes, ReadLikelihoods, ReadRows, Standing};
use crate::pair::Pair;
use steps::LogProb;
use steps::one_plus::ln_one_plus_exp;

// Each variant's number of alleles and its nine priors, and the haplotypes.
#[derive(Clone, Copy)]
pub struct PairPriors<'r, 'h> {
    pub ks: &'r [u8],
    pub pri: &'r [i64],
    pub on: Haplotypes<'h>,
    pub ghost priors_in: { PriorsIn (length ks.now) ks.now pri.now on.hap.now on.mask.now },
}

impl PairPriors<'_, '_> {
    // What variant v adds: the prior of its pair where its flag is 1.
    fn share(&self, v: usize) -> LogProb
        requires { v < length self.now.ks.now }
        ensures { (result.0 ≡ prior_share self.now.ks.now self.now.pri.now self.now.on.hap.now self.now.on.mask.now v) × (nat_abs result.0 ≤ 2 ^ 21) }
    {
        let counts = self.on.mask[v] == 1;
        if counts {
            let k = self.ks[v] as usize;
            let pair = Pair::at(self.on.hap, v);
            return LogProb(self.pri[9 * v + (pair.first * k + pair.second)]);
        }
        LogProb(0)
    }

    // The priors of all variants. At the loop's head those of the first v are added.
    fn total(&self) -> LogProb
        ensures { (result.0 ≡ sum_to (length self.now.ks.now) (prior_share self.now.ks.now self.now.pri.now self.now.on.hap.now self.now.on.mask.now)) × (nat_abs result.0 ≤ 2 ^ 39) }
    {
        let mut sum = LogProb(0);
        for v in 0..self.ks.len() {
            sum.0 += self.share(v).0;
        }
        sum
    }
}

// ln_add_exp of a read's two likelihoods less 4,096 each: the second, and what the first adds to it. `LogProb::mix` is the same by the knots,
// which take longer than the lines.
fn mixed(r: ReadLikelihoods) -> LogProb
    requires { (nat_abs r.first.0 ≤ 2 ^ 34) × (nat_abs r.second.0 ≤ 2 ^ 34) }
    ensures { result.0 ≡ mix_of r.first.0 r.second.0 }
{
    let rise = ln_one_plus_exp(r.first.0 - r.second.0);
    LogProb(r.second.0 - 4096 + rise)
}

// The mixed likelihoods of the reads. At the loop's head those of the first f are added. `mixes_total` is no plainer with this loop in common: all rows
// together keep this sum within 2^39, and a loop over any reads' likelihoods knows no more than the range of each.
fn fragments_total(reads: &ReadRows<'_, '_>) -> LogProb
    requires { length reads.now.rows.ends.now ≤ 4096 }
    ensures { (result.0 ≡ sum_to (length reads.now.rows.ends.now) (fragment_share reads.now.rows.words.now reads.now.rows.ends.now reads.now.on.hap.now reads.now.on.mask.now)) × (nat_abs result.0 ≤ 2 ^ 39) }
{
    let mut sum = LogProb(0);
    for f in 0..reads.rows.ends.len() {
        sum.0 += mixed(reads.read_likelihoods(f)).0;
    }
    sum
}

// The total of the haplotypes over the flagged variants: their priors plus, per read, its mixed likelihoods.
pub fn total(priors: &PairPriors<'_, '_>, reads: &ReadRows<'_, '_>) -> LogProb
    requires few { length reads.now.rows.ends.now ≤ 4096 }
    requires same { (reads.now.on.hap.now ≡ priors.now.on.hap.now) × (reads.now.on.mask.now ≡ priors.now.on.mask.now) }
    ensures { (result.0 ≡ total_of (held_case (length priors.now.ks.now) (length reads.now.rows.ends.now) priors.now.ks.now priors.now.pri.now reads.now.rows.words.now reads.now.rows.ends.now priors.now.on.mask.now) (flagged priors.now.on.mask.now) priors.now.on.hap.now) × (nat_abs result.0 ≤ 2 ^ 40) }
{
    let x = priors.total();
    let y = fragments_total(reads);
    LogProb(x.0 + y.0)
}

// The mixed likelihoods of the reads, two of each, as they stand. At the loop's head those of the first f are added.
fn mixes_total(standing: &Standing<'_>) -> LogProb
    ensures { (result.0 ≡ sum_to (length standing.now.lik.now / 2) (standing_share standing.now.lik.now)) × (nat_abs result.0 ≤ 2 ^ 45) }
{
    let mut sum = LogProb(0);
    for f in 0..standing.lik.len() / 2 {
        sum.0 += mixed(ReadLikelihoods::at(standing.lik, f)).0;
    }
    sum
}

// The total over the flagged variants, of the likelihoods that stand: their priors plus, per read, its mixed likelihoods. `total` has another second sum;
// a function for the addition that both make would be longer, with its contract, than both.
pub fn standing_total(priors: &PairPriors<'_, '_>, standing: &Standing<'_>) -> LogProb
    ensures { result.0 ≡ standing_total (length priors.now.ks.now) (length standing.now.lik.now / 2) priors.now.ks.now priors.now.pri.now standing.now.lik.now priors.now.on.hap.now priors.now.on.mask.now }
{
    let x = priors.total();
    let y = mixes_total(standing);
    LogProb(x.0 + y.0)
}
