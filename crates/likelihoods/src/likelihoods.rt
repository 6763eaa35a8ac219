// Likelihoods of the reads on the two haplotypes, from the rows by fragment.
ghost use Rattle.std.specs.Prelude.{◌≡◌, ◌+◌, ◌*◌, ◌^◌, ◌<◌, ◌≤◌, pos, nat_abs, length, get_or, set};
ghost use Rattle.pileup.specs.Inner.Packed.{group_start, row_from, unpacked};
ghost use Rattle.sweeps.specs.Sweeps.{call_term};
ghost use Rattle.variants_and_fragments.specs.Written.{written};
ghost use Rattle.likelihoods.specs.Inner.Held.{Within};
ghost use Rattle.likelihoods.specs.Inner.Likelihoods.{CallIn, CallsIn, EndsIn, LikelihoodsAre, row_call, flagged, allele_on, call_share, likelihood_at};

use pileup::grouped::Groups;
use pileup::row::Row;
use steps::LogProb;

// A read's likelihoods on the two haplotypes.
#[derive(Clone, Copy)]
pub struct ReadLikelihoods {
    pub first: LogProb,
    pub second: LogProb,
}

impl ReadLikelihoods {
    // Those of read f, in a slice with two for each read.
    pub fn at(lik: &[i64], f: usize) -> ReadLikelihoods
        requires { 2 * f + 1 < length lik.now }
        ensures { (result.first.0 ≡ get_or lik.now (2 * f) (pos 0)) × (result.second.0 ≡ get_or lik.now (2 * f + 1) (pos 0)) }
    {
        ReadLikelihoods {
            first: LogProb(lik[2 * f]),
            second: LogProb(lik[2 * f + 1]),
        }
    }

    // Puts them there.
    pub fn put(self, lik: &mut [i64], f: usize)
        requires { 2 * f + 1 < length lik.old }
        ensures { lik.new ≡ set (set lik.old (2 * f) self.first.0) (2 * f + 1) self.second.0 }
    {
        let first = self.first.0;
        let second = self.second.0;
        lik[2 * f] = first;
        lik[2 * f + 1] = second;
    }
}

// The likelihoods of all reads as they stand, two of each.
#[derive(Clone, Copy)]
pub struct Standing<'a> {
    pub lik: &'a [i64],
    pub ghost within: { Within (2 ^ 32) lik.now },
    pub ghost few: { length lik.now ≤ 8192 },
}

// Two haplotypes, and a flag per variant: 1 where the variant counts.
#[derive(Clone, Copy)]
pub struct Haplotypes<'a> {
    pub hap: &'a [u8],
    pub mask: &'a [u8],
}

// One read's usable calls as rows, and the haplotypes.
#[derive(Clone, Copy)]
pub struct ReadCalls<'r, 'h> {
    pub rows: &'r [u64],
    pub on: Haplotypes<'h>,
    pub ghost calls_in: { CallsIn rows.now (length rows.now) on.hap.now on.mask.now },
}

// All reads' usable calls as rows, a group for each read, and the haplotypes. That there are at most 4,096 reads is no ghost field: the methods ask for
// no such limit, and would then.
#[derive(Clone, Copy)]
pub struct ReadRows<'r, 'h> {
    pub rows: Groups<'r>,
    pub on: Haplotypes<'h>,
    pub ghost calls_in: { CallsIn rows.words.now (group_start rows.ends.now (length rows.ends.now)) on.hap.now on.mask.now },
    pub ghost ends_in: { EndsIn rows.ends.now (length rows.ends.now) },
}

// A row's one_minus_qual where it shows the allele `own`, and its qual otherwise.
pub fn call_term(row: Row, own: usize) -> LogProb
    ensures { result.0 ≡ call_term (row_call (row_from row)) own }
{
    if row.allele == own {
        row.one_minus_qual
    } else {
        row.qual
    }
}

// x, where the flag is 1. The product keeps the compiler from making a jump of the test of the allele, which no machine can guess; so the flag
// is a byte here and no bool.
fn weighed(flag: u8, x: LogProb) -> LogProb
    requires { nat_abs x.0 ≤ 262144 }
    ensures { flag ≡ 1 → result.0 ≡ x.0 }
{
    LogProb(flag as i64 * x.0)
}

impl Haplotypes<'_> {
    // What a row's call adds to its read's likelihood on haplotype h: nothing at a variant whose flag is not 1. It takes the row's word: where the
    // caller unpacks it for both haplotypes, the product above goes, the test is a jump, and the largest run takes 1.70 ms for 1.51. late_reads' `share`
    // is of a call that may not be usable, by the case's phase, where this goes by `mask`; both contracts say `call_term`.
    fn call_share(&self, word: u64, h: usize) -> LogProb
        requires { CallIn (row_call (unpacked word)) self.now.hap.now self.now.mask.now × (h < 2) }
        ensures { (result.0 ≡ call_share (flagged self.now.mask.now) (allele_on self.now.hap.now h) (row_call (unpacked word))) × (nat_abs result.0 ≤ 262144) }
    {
        let row = Row::unpack(word);
        let v = row.variant;
        let flag = self.mask[v];
        let qual = weighed(flag, row.qual);
        let one_minus_qual = weighed(flag, row.one_minus_qual);
        let held = Row {
            qual,
            one_minus_qual,
            ..row
        };
        let y = call_term(held, self.hap[2 * v + h] as usize);
        let counts = flag == 1;
        if counts { y } else { LogProb(0) }
    }
}

impl ReadCalls<'_, '_> {
    // The read's likelihoods. At the loop's head those of its rows so far are added.
    pub fn likelihoods(&self) -> ReadLikelihoods
        ensures { LikelihoodsAre self.now.rows.now 0 (length self.now.rows.now) self.now.on.hap.now self.now.on.mask.now result }
    {
        let mut first = LogProb(0);
        let mut second = LogProb(0);
        for word in self.rows {
            first.0 += self.on.call_share(*word, 0).0;
            second.0 += self.on.call_share(*word, 1).0;
        }
        ReadLikelihoods { first, second }
    }
}

impl ReadRows<'_, '_> {
    // The likelihoods of read f.
    pub fn read_likelihoods(&self, f: usize) -> ReadLikelihoods
        requires { f < length self.now.rows.ends.now }
        ensures { LikelihoodsAre self.now.rows.words.now (group_start self.now.rows.ends.now f) (get_or self.now.rows.ends.now f 0) self.now.on.hap.now self.now.on.mask.now result }
    {
        let read = ReadCalls {
            rows: self.rows.group(f),
            on: self.on,
        };
        read.likelihoods()
    }

    // Writes the two likelihoods of each read. At the loop's head those of the first f are written.
    #[tactic(auto, unfolding(variants_and_fragments::specs::Written::written))]
    pub fn write_likelihoods(&self, lik: &mut [i64])
        requires { 2 * length self.now.rows.ends.now ≤ length lik.old }
        ensures { lik.new ≡ written (likelihood_at self.now.rows.words.now self.now.rows.ends.now self.now.on.hap.now self.now.on.mask.now) (2 * length self.now.rows.ends.now) lik.old }
    {
        for f in 0..self.rows.ends.len() {
            self.read_likelihoods(f).put(lik, f);
        }
    }
}
