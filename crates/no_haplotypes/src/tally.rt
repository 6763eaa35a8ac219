// What one pass over a variant's calls adds up, the qualities, what each allele gains on them and the calls by strand and allele; and the posteriors from that.
ghost use Rattle.std.specs.Prelude.{◌≡◌, ◌*◌, ◌/◌, ◌%◌, ◌<◌, ◌≤◌, ◌^◌, ℕ, pos, nat_abs, ◌+ℤ◌, length, map, get_or};
ghost use Rattle.pileup.specs.Inner.Packed.{RowIn, RowsIn, row_from, unpacked};
ghost use Rattle.no_haplotypes.specs.Inner.Tally.{SumsIn, CallAdded, Tallied, pair_gain, NinePriors, Scored, PosteriorsMade};

use crate::calls::Calls;
use genotype_probs::posteriors::normalize;
use pileup::row::Row;
use steps::LogProb;
use variants_and_fragments::CaseWords;
use variants_and_fragments::layout::direction_of;

// What an allele gains on the sum of qual where both alleles of a pair match it, and where one does.
#[derive(Clone, Copy)]
pub struct Gain {
    pub both: i64,
    pub one: i64,
}

// The sum of qual, what each allele gains on it, and the calls that show each allele, forward and reverse: by allele first, since the compiler makes
// a jump of a strand that picks one of two rows.
#[derive(Clone, Copy)]
pub struct Tally {
    pub total: LogProb,
    pub gains: [Gain; 3],
    pub counts: [[usize; 2]; 3],
}

impl Tally {
    // Adds one call. The strand's direction, 0 or 1, is the place of its counts: an enum would be turned into that place again.
    fn add(&mut self, case: &CaseWords<'_>, row: Row)
        requires row_in { RowIn case.now.laid.sizes.n case.now.laid.sizes.f (row_from row) }
        requires sums_in { SumsIn self.old }
        ensures { CallAdded case.now.laid.words.now case.now.laid.sizes (row_from row) self.old self.new }
    {
        let x = row.allele;
        let q = row.qual.0;
        let mixed = row.qual.mix(row.one_minus_qual).0;
        let strand = direction_of(case.laid.strand(row.fragment));
        self.total.0 += q;
        self.counts[x][strand] += 1;
        let gain = &mut self.gains[x];
        gain.both += row.one_minus_qual.0 - q;
        gain.one += mixed - q;
    }

    // Adds up usable calls, each as the word of its row, whichever rows these are.
    pub fn of(case: &CaseWords<'_>, usable: &[u64]) -> Tally
        requires { RowsIn case.now.laid.sizes.n case.now.laid.sizes.f usable.now 0 (length usable.now) }
        ensures { Tallied case.now.laid.words.now case.now.laid.sizes (map unpacked usable.now) result }
    {
        let mut tally = Tally {
            total: LogProb(0),
            gains: [Gain { both: 0, one: 0 }; 3],
            counts: [[0; 2]; 3],
        };
        for word in usable {
            tally.add(case, Row::unpack(*word));
        }
        tally
    }

    // What the calls add to the prior of the pair (i, j).
    fn pair_gain(&self, i: usize, j: usize) -> LogProb
        requires sums_in { SumsIn self.now }
        requires pair_in { (i < 3) × (j < 3) }
        ensures { (result.0 ≡ pair_gain self.now i j) × (nat_abs result.0 ≤ 2 ^ 36) }
    {
        let total = self.total.0;
        let gains = &self.gains;
        if i == j {
            return LogProb(total + gains[i].both);
        }
        LogProb(total + gains[i].one + gains[j].one)
    }

    // Adds what the calls add to each of the k × k priors of a variant with k alleles.
    pub fn score(&self, k: usize, post: &mut [i64])
        requires sums_in { SumsIn self.now }
        requires k_in { (1 ≤ k) × (k ≤ 3) }
        requires priors_in { NinePriors post.old }
        ensures { Scored self.now k post.old post.new }
    {
        for p in 0..k * k {
            post[p] += self.pair_gain(p / k, p % k).0;
        }
    }
}

// Turns the nine priors of variant v into its posteriors by these usable calls, whichever rows they are. Answers what they add up to.
pub fn write_posteriors(case: &CaseWords<'_>, v: usize, usable: &[u64], post: &mut [i64]) -> Tally
    requires variant_in { v < case.now.laid.sizes.n }
    requires rows_in { RowsIn case.now.laid.sizes.n case.now.laid.sizes.f usable.now 0 (length usable.now) }
    requires priors_in { NinePriors post.old }
    ensures { PosteriorsMade case.now.laid.words.now case.now.laid.sizes (map unpacked usable.now) v post.old post.new result }
{
    let tally = Tally::of(case, usable);
    let k = case.laid.allele_count(v);
    tally.score(k, post);
    normalize(post, k);
    tally
}

// A variant's calls, and what they add up to.
#[derive(Clone, Copy)]
pub struct Summed<'a> {
    pub calls: Calls<'a>,
    pub tally: Tally,
    pub ghost tallied: { Tallied calls.case.laid.words.now calls.case.laid.sizes (map unpacked calls.usable.now) tally },
    pub ghost sums_in: { SumsIn tally },
}
