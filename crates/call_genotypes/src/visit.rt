// Visits: the first pair with the greatest score is taken, and the likelihoods follow.
ghost use Rattle.std.specs.Prelude.{◌≡◌, ◌+◌, ◌*◌, ◌/◌, ◌^◌, ◌<◌, ◌≤◌, length, get_or, set, pos, nat_abs, ◌+ℤ◌, ◌-ℤ◌};
ghost use Rattle.pileup.specs.Inner.Packed.{row_from, rows_at};
ghost use Rattle.sweeps.specs.Sweeps.{call_term};
ghost use Rattle.likelihoods.specs.Inner.Held.{Within};
ghost use Rattle.call_genotypes.specs.Inner.Reads.{reads_of};
ghost use Rattle.call_genotypes.specs.Inner.Scores.{PileFits, Some, sweep_state, VisitStart};
ghost use Rattle.call_genotypes.specs.Inner.Visits.{BestPair, Moved, Movable, PutFrom, VisitedFrom, SweepStart, SweptFrom};

use crate::reads::SweepReads;
use crate::score::{first_max, scores};
use likelihoods::likelihoods::call_term;
use likelihoods::pair::Pair;
use pileup::row::Row;

// What a row's call adds to a likelihood when its variant's allele goes from old to new.
fn change(row: Row, old: usize, new: usize) -> i64
    requires { (nat_abs row.qual.0 ≤ 2 ^ 18) × (nat_abs row.one_minus_qual.0 ≤ 2 ^ 18) }
    ensures { result ≡ call_term (row_from row).call new -ℤ call_term (row_from row).call old }
{
    call_term(row, new).0 - call_term(row, old).0
}

// Adds y to the likelihood at i.
fn shift(lik: &mut [i64], i: usize, y: i64)
    requires { (i < length lik.old) × (nat_abs (get_or lik.old i (pos 0)) ≤ 2 ^ 35) × (nat_abs y ≤ 2 ^ 19) }
    ensures { lik.new ≡ set lik.old i (get_or lik.old i (pos 0) +ℤ y) }
{
    lik[i] += y;
}

// Moves the likelihoods of a pile's calls on haplotype `side`, whose allele at the pile's variant goes from old to new. At the loop's head those
// of the calls so far are moved.
fn move_liks(pile: &[u64], lik: &mut [i64], side: usize, old: usize, new: usize)
    requires { PileFits lik.old pile.now 0 (length pile.now) × Within (2 ^ 34) lik.old × (side ≤ 1) }
    ensures { Moved side old new (rows_at pile.now 0 (length pile.now)) lik.old lik.new }
{
    for word in pile {
        let row = Row::unpack(*word);
        let at = 2 * row.fragment + side;
        shift(lik, at, change(row, old, new));
    }
}

// Puts a pair at v, and moves the likelihoods on both haplotypes: at an unphased v they stay.
fn put_pair(reads: &SweepReads<'_>, hap: &mut [u8], lik: &mut [i64], v: usize, new: Pair)
    requires some { Some (λ C. Movable C reads.now.ph.now reads.now.piles.ends.now reads.now.piles.words.now hap.old lik.old v) }
    requires first_bound { (new.first < 3) × (new.second < 3) }
    ensures { PutFrom reads.now.ph.now reads.now.piles.ends.now reads.now.piles.words.now hap.old lik.old v new hap.new lik.new }
{
    let old = Pair::at(hap, v);
    new.put(hap, v);
    if reads.ph[v] != 0 {
        let pile = reads.pile(v);
        move_liks(pile, lik, 0, old.first, new.first);
        move_liks(pile, lik, 1, old.second, new.second);
    }
}

// The row of pair number b: b / k, without a division, which takes longer than two tests.
fn row_of(b: usize, k: usize) -> usize
    requires { (k ≤ 3) × (b < 3 * k) }
    ensures { result ≡ b / k }
{
    usize::from(k <= b) + usize::from(2 * k <= b)
}

// The first of v's k by k pairs with the greatest score.
fn best_pair(post: &[i64], v: usize, k: usize) -> Pair
    requires { (v < 1024) × (1 ≤ k) × (k ≤ 3) × (9 * v + 9 ≤ length post.now) }
    ensures { BestPair post.now v k result }
{
    let at = 9 * v;
    let b = first_max(&post[at..at + k * k]);
    let first = row_of(b, k);
    Pair {
        first,
        second: b - first * k,
    }
}

// One visit of v: whether its pair changed.
pub fn visit(
    reads: &SweepReads<'_>,
    hap: &mut [u8],
    lik: &mut [i64],
    post: &mut [i64],
    v: usize,
) -> bool
    requires some { Some (λ C. VisitStart C (reads_of reads.now) (sweep_state hap.old lik.old post.old) v) }
    ensures { VisitedFrom (reads_of reads.now) (sweep_state hap.old lik.old post.old) v (sweep_state hap.new lik.new post.new) result }
{
    scores(reads, hap, lik, post, v);
    let old = Pair::at(hap, v);
    let new = best_pair(post, v, reads.ks[v] as usize);
    let same = old == new;
    if same {
        return false;
    }
    put_pair(reads, hap, lik, v, new);
    true
}

// One sweep in the given order: whether a visit changed its pair. At the loop's head the visits so far are made.
pub fn sweep(
    reads: &SweepReads<'_>,
    order: &[u32],
    hap: &mut [u8],
    lik: &mut [i64],
    post: &mut [i64],
) -> bool
    requires some { Some (λ C. SweepStart C (reads_of reads.now) (sweep_state hap.old lik.old post.old) order.now) }
    ensures { SweptFrom (reads_of reads.now) (sweep_state hap.old lik.old post.old) order.now (sweep_state hap.new lik.new post.new) result }
{
    let mut changed = false;
    for v in order {
        if visit(reads, hap, lik, post, *v as usize) {
            changed = true;
        }
    }
    changed
}
