// Tables of k × k log probabilities, row-major, each in nine places, and the qualities that they give.
ghost use Rattle.std.specs.Prelude.{◌≡◌, ◌+◌, ◌*◌, ◌<◌, ◌≤◌, ◌^◌, pos, nat_abs, length, get_or};
ghost use Rattle.steps.specs.Inner.Logs.{log_of, size};
ghost use Rattle.variants_and_fragments.specs.Decode.{tabulate};
ghost use Rattle.genotype_probs.specs.Inner.Posteriors.{TableIn};
ghost use Rattle.genotype_probs.specs.Posteriors.{entry_at, row_sum, table_sum, normalized, post_at, max_genotype, genotype_of, qual_of, is_other, other_sum, gq_of};

use steps::phred::capped_phred;
use steps::{LogProb, PHREDProb};

// A pair of allele numbers.
#[derive(Clone, Copy)]
pub struct Genotype(pub u8, pub u8);

impl Genotype {
    // The genotype of row-major number p, of k alleles.
    #[tactic(auto, unfolding(crate::specs::Posteriors::genotype_of))]
    pub fn numbered(k: usize, p: usize) -> Self
        requires { (1 ≤ k) × (k ≤ 3) × (p < k * k) }
        ensures { result ≡ genotype_of k p }
    {
        Genotype((p / k) as u8, (p % k) as u8)
    }
}

// A table of k × k entries, row-major, in nine places.
#[derive(Clone, Copy)]
pub struct Table<'a> {
    pub post: &'a [i64],
    pub k: usize,
    pub ghost table_in: { TableIn post.now k },
}

// A place p is a number below k × k of the table that it is handed to, and no type of its own: that would hold a table, and each call would have
// to say that it is this one.
impl Table<'_> {
    // Entry (i, j).
    fn entry(&self, i: usize, j: usize) -> LogProb
        requires { (i < self.now.k) × (j < self.now.k) }
        ensures { (result.0 ≡ entry_at self.now.post.now self.now.k i j) × (nat_abs result.0 ≤ 2 ^ 40) }
    {
        LogProb(self.post[i * self.k + j])
    }

    // The sum of row i.
    fn row_sum(&self, i: usize) -> LogProb
        requires { i < self.now.k }
        ensures { (result.0 ≡ row_sum self.now.post.now self.now.k i) × (nat_abs result.0 ≤ 2 ^ 40 + 12288) }
    {
        let start = i * self.k;
        LogProb::ln_sum_exp(&self.post[start..start + self.k])
    }

    // The sum of row sums.
    pub fn table_sum(&self) -> LogProb
        ensures { (result.0 ≡ table_sum self.now.post.now self.now.k) × (nat_abs result.0 ≤ 2 ^ 40 + 24576) }
    {
        let mut sum = self.row_sum(0);
        for i in 1..self.k {
            sum = sum.ln_add_exp(self.row_sum(i));
        }
        sum
    }

    // What is compared of the pair of row-major number p.
    fn post_of(&self, phased: bool, p: usize) -> LogProb
        requires { p < self.now.k * self.now.k }
        ensures { result.0 ≡ post_at phased self.now.post.now self.now.k p }
    {
        let i = p / self.k;
        let j = p % self.k;
        let x = self.entry(i, j);
        if phased | (i == j) {
            return x;
        }
        x.ln_add_exp(self.entry(j, i))
    }

    // The row-major number of the genotype that is kept: the first maximum. It makes its values as it goes, where call_genotypes' `first_max` is
    // given a slice of them: one function for both would take a closure whose contract says what `post_of` says.
    pub fn max_genotype(&self, phased: bool) -> usize
        ensures value { result ≡ max_genotype phased self.now.post.now self.now.k }
        ensures inside { result < self.now.k * self.now.k }
    {
        let mut best = 0;
        let mut top = self.post_of(phased, 0);
        for p in 1..self.k * self.k {
            let x = self.post_of(phased, p);
            if top < x {
                best = p;
                top = x;
            }
        }
        best
    }

    // The genotype of row-major number p.
    pub fn genotype(&self, p: usize) -> Genotype
        requires { p < self.now.k * self.now.k }
        ensures { result ≡ genotype_of self.now.k p }
    {
        Genotype::numbered(self.k, p)
    }

    // The quality of its variant.
    pub fn qual(&self) -> PHREDProb
        ensures { result.0 ≡ qual_of self.now.post.now }
    {
        qual_of(self.post)
    }

    // ln_sum_exp over the pairs other than p and its mirror m.
    fn other_sum(&self, p: usize) -> LogProb
        requires { p < self.now.k * self.now.k }
        ensures { (log_of result.0 ≡ other_sum self.now.post.now self.now.k p) × (size (log_of result.0) ≤ 2 ^ 41) }
    {
        let m = p % self.k * self.k + p / self.k;
        let mut sum = LogProb::ln_zero();
        for q in 0..self.k * self.k {
            if is_other(p, m, q) {
                sum = sum.ln_add_exp(LogProb(self.post[q]));
            }
        }
        sum
    }

    // The quality of the called genotype, of row-major number p: Phred of the sum over the other pairs, capped.
    pub fn gq(&self, p: usize) -> PHREDProb
        requires { p < self.now.k * self.now.k }
        ensures { result.0 ≡ gq_of self.now.post.now self.now.k p }
    {
        capped_phred(self.other_sum(p))
    }
}

// The quality of a variant: Phred of the entry of pair (0, 0), capped.
pub fn qual_of(post: &[i64]) -> PHREDProb
    requires { (0 < length post.now) × (nat_abs (get_or post.now 0 (pos 0)) ≤ 2 ^ 40) }
    ensures { result.0 ≡ qual_of post.now }
{
    capped_phred(LogProb(post[0]))
}

// q is neither the pair p nor its mirror m.
#[tactic(auto, unfolding(crate::specs::Posteriors::is_other))]
fn is_other(p: usize, m: usize, q: usize) -> bool
    ensures { result ≡ is_other p m q }
{
    q != p && q != m
}

// Subtracts the sum of row sums from each of the k × k entries, and writes zeros past them.
pub fn normalize(post: &mut [i64], k: usize)
    requires { TableIn post.old k }
    ensures { post.new ≡ tabulate 9 (normalized post.old k) }
{
    let total = Table { post, k }.table_sum();
    let entries = k * k;
    for x in &mut post[0..entries] {
        *x -= total.0;
    }
    post[entries..9].fill(0);
}
