// The scores of one variant's pairs.
ghost use Rattle.std.specs.Prelude.{◌≡◌, true, ℕ, ◌+◌, ◌-◌, ◌*◌, ◌^◌, ◌<◌, ◌≤◌, length, get_or, pos, nat_abs, ◌+ℤ◌, ◌-ℤ◌, ◌*ℤ◌};
ghost use Rattle.std.proofs.lemmas.List.Edits.{sets};
ghost use Rattle.variants_and_fragments.specs.Inner.Sums.{DownTo};
ghost use Rattle.pileup.specs.Inner.Packed.{row_from, rows_at};
ghost use Rattle.genotype_probs.specs.Posteriors.{first_maximum};
ghost use Rattle.likelihoods.specs.Inner.Held.{Within};
ghost use Rattle.call_genotypes.specs.Inner.Reads.{reads_of};
ghost use Rattle.call_genotypes.specs.Inner.Scores.{value_of, mix_value, is_far, row_mixes, turn, RowFits, PileFits, AlleleSums, SumsWithin, sums_at, rise_of, pair_rise, below_first, scores_of, ScoresRoom, Some, sweep_state, VisitStart, Scored};

use crate::reads::SweepReads;
use likelihoods::likelihoods::{ReadLikelihoods, Standing};
use likelihoods::pair::Pair;
use pileup::row::Row;
use steps::LogProb;
use steps::one_plus::ln_one_plus_exp;

// Of a call: its gap, and ln(1 + exp(d)) for how far its read's first likelihood is above the second, if the first haplotype alone has the
// call's allele, if the second alone has it, and if neither or both have it.
#[derive(Clone, Copy, Default)]
pub struct Mixes {
    pub first: i64,
    pub second: i64,
    pub gap: i64,
    pub neither: i64,
}

impl Mixes {
    // Adds those of one more call.
    fn add(&mut self, call: Mixes)
        requires { (w : ℕ) → (nat_abs (value_of self.old w) ≤ 2 ^ 49) × (nat_abs (value_of call w) ≤ 2 ^ 35) }
        ensures { (w : ℕ) → value_of self.new w ≡ value_of self.old w +ℤ value_of call w }
    {
        self.first += call.first;
        self.second += call.second;
        self.gap += call.gap;
        self.neither += call.neither;
    }
}

// The sums of the four numbers over a pile's calls of each allele: with them a pair's score takes a few additions, and no second walk over the
// calls.
#[derive(Clone, Copy)]
pub struct Sums {
    pub of: [Mixes; 3],
    pub ghost within: { SumsWithin (2 ^ 50) of },
}

// Whether ln(1 + exp(..)) is straight at d and as far around it as a gap goes: 313,472 is 51,328, from where on A is 0, and 262,144, the
// largest gap.
#[tactic(auto, unfolding(crate::specs::Inner::Scores::is_far))]
fn is_far(d: i64) -> bool
    ensures { result ≡ is_far d }
{
    !(-313472..=313472).contains(&d)
}

// The four numbers of a call with the gap g, for such a d. Both arms are at hand, so no jump is made of the sign, which no machine can guess.
fn far_mixes(d: i64, g: i64) -> Mixes
    requires { (is_far d ≡ true) × (nat_abs d ≤ 2 ^ 33 + 2 ^ 20) × (nat_abs g ≤ 262144) }
    ensures { (w : ℕ) → value_of result w ≡ mix_value d g w }
{
    let m = d.max(0);
    let y = if d < 0 { 0 } else { g };
    Mixes {
        first: m + y,
        second: m - y,
        gap: g,
        neither: m,
    }
}

// The same for any d. Of a read with many calls nearly every d is far.
fn mixes_of(d: i64, g: i64) -> Mixes
    requires { (nat_abs d ≤ 2 ^ 33 + 2 ^ 20) × (nat_abs g ≤ 262144) }
    ensures { (w : ℕ) → value_of result w ≡ mix_value d g w }
{
    if is_far(d) {
        return far_mixes(d, g);
    }
    let first = ln_one_plus_exp(d + g);
    let second = ln_one_plus_exp(d - g);
    let neither = ln_one_plus_exp(d);
    Mixes {
        first,
        second,
        gap: g,
        neither,
    }
}

// How far o is above q. No `Sub`: it would have no range to offer, and is no LogProb.
fn gap(q: LogProb, o: LogProb) -> i64
    requires { DownTo 262144 q.0 × DownTo 262144 o.0 }
    ensures { (result ≡ o.0 -ℤ q.0) × (nat_abs result ≤ 262144) }
{
    o.0 - q.0
}

// How far the distance of a read's likelihoods moves when the own terms of a call of allele x are taken away: `turns` says how often, and
// which way, by the call's gap.
fn turned(turns: &[i64; 4], x: usize, g: i64) -> i64
    requires { (x < 4) × (nat_abs (get_or turns.now x (pos 0)) ≤ 1) × (nat_abs g ≤ 2 ^ 19) }
    ensures { (result ≡ get_or turns.now x (pos 0) *ℤ g) × (nat_abs result ≤ 2 ^ 19) }
{
    turns[x] * g
}

// How far l is above b, and y more.
fn distance(l: LogProb, b: LogProb, y: i64) -> i64
    requires { (nat_abs l.0 ≤ 2 ^ 32) × (nat_abs b.0 ≤ 2 ^ 32) × (nat_abs y ≤ 2 ^ 19) }
    ensures { result ≡ (l.0 -ℤ b.0) +ℤ y }
{
    l.0 - b.0 + y
}

// The four numbers of a row's call.
fn call_mixes(row: Row, standing: &Standing<'_>, turns: &[i64; 4]) -> Mixes
    requires row_fits { RowFits standing.now.lik.now (row_from row) }
    requires within { Within 1 turns.now }
    ensures { (w : ℕ) → value_of result w ≡ row_mixes turns.now standing.now.lik.now (row_from row) w }
{
    let g = gap(row.qual, row.one_minus_qual);
    let read = ReadLikelihoods::at(standing.lik, row.fragment);
    let d = distance(read.first, read.second, turned(turns, row.allele, g));
    mixes_of(d, g)
}

// The sums of the four numbers of a pile's calls. At the loop's head the calls so far are in them.
fn score_calls(pile: &[u64], standing: &Standing<'_>, turns: &[i64; 4]) -> Sums
    requires pile_fits { PileFits standing.now.lik.now pile.now 0 (length pile.now) }
    requires within { Within 1 turns.now }
    ensures { AlleleSums (row_mixes turns.now standing.now.lik.now) (rows_at pile.now 0 (length pile.now)) result.of }
{
    let mut of = [Mixes::default(); 3];
    for word in pile {
        let row = Row::unpack(*word);
        let mixes = call_mixes(row, standing, turns);
        of[row.allele].add(mixes);
    }
    Sums { of }
}

// Each allele's turn at a variant that is at this pair: nothing at an unphased one, whose calls are not in the likelihoods.
fn turns_of(phased: bool, pair: Pair) -> [i64; 4]
    requires { (pair.first < 3) × (pair.second < 3) }
    ensures { (x : ℕ) → get_or result x (pos 0) ≡ turn phased pair.first pair.second x }
{
    let mut turns = [0i64; 4];
    if phased {
        turns[pair.first] -= 1;
        turns[pair.second] += 1;
    }
    turns
}

impl Sums {
    // How far a score rises, by the sums of allele x, if the first haplotype has x and the second has not.
    fn first_rise(&self, x: usize) -> i64
        requires { x < 3 }
        ensures { (result ≡ rise_of (sums_at self.now.of x) 0) × (nat_abs result ≤ 2 ^ 51) }
    {
        self.of[x].first - self.of[x].neither
    }

    // The same if the second has it and the first has not.
    fn second_rise(&self, x: usize) -> i64
        requires { x < 3 }
        ensures { (result ≡ rise_of (sums_at self.now.of x) 1) × (nat_abs result ≤ 2 ^ 52) }
    {
        self.of[x].second - self.of[x].neither + self.of[x].gap
    }

    // How far the score of (i, j) is above the one where neither haplotype has a call's allele.
    fn pair_rise(&self, i: usize, j: usize) -> i64
        requires { (i < 3) × (j < 3) }
        ensures { result ≡ pair_rise self.now.of i j }
    {
        if i == j {
            self.of[i].gap
        } else {
            self.first_rise(i) + self.second_rise(j)
        }
    }

    // What brings the score of v's first pair to 0.
    fn below_first(&self, pri: &[i64], v: usize) -> i64
        requires { (v < 1024) × (9 * v < length pri.now) × (nat_abs (get_or pri.now (9 * v) (pos 0)) ≤ 2 ^ 21) }
        ensures { (result ≡ below_first pri.now self.now.of v) × (nat_abs result ≤ 2 ^ 53) }
    {
        0 - (pri[9 * v] + self.of[0].gap)
    }

    // The score of (i, j), whose prior stands at `at`.
    fn pair_score(&self, pri: &[i64], base: i64, at: usize, i: usize, j: usize) -> LogProb
        requires { (at < length pri.now) × (nat_abs (get_or pri.now at (pos 0)) ≤ 2 ^ 21) × (nat_abs base ≤ 2 ^ 53) × (i < 3) × (j < 3) }
        ensures { result.0 ≡ (get_or pri.now at (pos 0) +ℤ base) +ℤ pair_rise self.now.of i j }
    {
        LogProb(pri[at] + base + self.pair_rise(i, j))
    }

    // Writes the k by k scores at 9 * v, row after row. At the outer loop's head i rows of them are written, at the inner's j more.
    fn write_scores(&self, pri: &[i64], post: &mut [i64], base: i64, v: usize, k: usize)
        requires { ScoresRoom pri.now post.old v k × (nat_abs base ≤ 2 ^ 53) }
        ensures { post.new ≡ sets post.old (9 * v) (scores_of pri.now self.now.of base v k) }
    {
        for i in 0..k {
            for j in 0..k {
                let at = 9 * v + (i * k + j);
                let score = self.pair_score(pri, base, at, i, j).0;
                post[at] = score;
            }
        }
    }
}

// The first of the greatest numbers. At the loop's head b is the first of the greatest among the first g, and `best` is number b. Both are chosen
// without a jump, which no machine could guess; so this is no `max_by_key`.
pub fn first_max(s: &[i64]) -> usize
    ensures { result ≡ first_maximum (λ g. get_or s.now g (pos 0)) (length s.now) }
{
    if s.is_empty() {
        return 0;
    }
    let mut b: usize = 0;
    let mut best: i64 = s[0];
    for g in 1..s.len() {
        let x = s[g];
        b = if best < x { g } else { b };
        best = if best < x { x } else { best };
    }
    b
}

// Writes at 9 * v how far the scores of v's pairs are above that of the first: normalising takes a common part away.
pub fn scores(reads: &SweepReads<'_>, hap: &[u8], lik: &[i64], post: &mut [i64], v: usize)
    requires some { Some (λ C. VisitStart C (reads_of reads.now) (sweep_state hap.now lik.now post.old) v) }
    ensures { Scored (reads_of reads.now) (sweep_state hap.now lik.now post.old) v post.new }
{
    let k = reads.ks[v] as usize;
    let phased = reads.ph[v] != 0;
    let old = Pair::at(hap, v);
    let turns = turns_of(phased, old);
    let sums = score_calls(reads.pile(v), &Standing { lik }, &turns);
    let base = sums.below_first(reads.pri, v);
    sums.write_scores(reads.pri, post, base, v, k);
}
