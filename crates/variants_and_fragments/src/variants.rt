// The check of the variant records and of haplotypes: number 2 of document 01's table, as amended by request 1.
ghost use Rattle.std.specs.Prelude.{◌≡◌, [], ◌<◌, IfOk};
ghost use Rattle.variants_and_fragments.specs.Refusals.{answered};
ghost use Rattle.variants_and_fragments.specs.Layout.{prior_pos0_at, haplotype_ok, variant_ok};
ghost use Rattle.variants_and_fragments.specs.Inner.Layout.{length_test};
ghost use Rattle.variants_and_fragments.specs.Inner.Answers.{variants_outcome};

use crate::faults::first_fault;
use crate::layout::{MAX_ALLELE_LENGTH, MAX_ALLELES};
use crate::{Laid, Refusal, WithVariants};

// The position that variant v's may not fall below.
pub fn prior_pos0(laid: &Laid<'_>, v: usize) -> i32
    requires { v < laid.now.sizes.n }
    ensures { result ≡ prior_pos0_at laid.now.words.now v }
{
    if v == 0 { 0 } else { laid.pos0_word(v - 1) }
}

// The length x of allele j of k is right: 1..64 where present, 0 where absent.
pub fn length_ok(j: usize, k: usize, x: usize) -> bool
    ensures { result ≡ length_test j k x }
{
    if j < k {
        (1..=MAX_ALLELE_LENGTH).contains(&x)
    } else {
        x == 0
    }
}

// Haplotype i of variant v, 0 or 1, is below its allele count k, where the slice goes so far.
pub fn haplotype_ok(laid: &Laid<'_>, haplotypes: &[u8], v: usize, i: usize) -> bool
    requires { (v < laid.now.sizes.n) × (i < 2) }
    ensures { result ≡ haplotype_ok laid.now.words.now haplotypes.now v i }
{
    match haplotypes.get(2 * v + i) {
        Some(allele) => usize::from(*allele) < laid.allele_count(v),
        None => true,
    }
}

// Variant v's record is right.
fn record_ok(laid: &Laid<'_>, v: usize) -> bool
    requires { v < laid.now.sizes.n }
    ensures { result ≡ variant_ok laid.now.words.now [] v }
{
    let p = laid.pos0_word(v);
    let q = prior_pos0(laid, v);
    let dp = laid.depth_word(v);
    let a = laid.genotype(v, 0);
    let b = laid.genotype(v, 1);
    let k = laid.allele_count(v);
    let l0 = length_ok(0, k, laid.allele_length(v, 0));
    let l1 = length_ok(1, k, laid.allele_length(v, 1));
    let l2 = length_ok(2, k, laid.allele_length(v, 2));
    (0 <= p)
        & ((q <= p)
            & ((0 <= dp)
                & ((1..=MAX_ALLELES).contains(&k) & ((a < k) & ((b < k) & (l0 & (l1 & l2)))))))
}

// Variant v's record and its haplotypes are right.
pub fn variant_ok(laid: &Laid<'_>, haplotypes: &[u8], v: usize) -> bool
    requires { v < laid.now.sizes.n }
    ensures { result ≡ variant_ok laid.now.words.now haplotypes.now v }
{
    let ok = record_ok(laid, v);
    let first = haplotype_ok(laid, haplotypes, v, 0);
    let second = haplotype_ok(laid, haplotypes, v, 1);
    ok & (first & second)
}

// Every variant's record and haplotypes are right; the place of a fault is the first variant that has one.
pub fn check_variants<'a>(laid: &Laid<'a>, haplotypes: &[u8]) -> Result<WithVariants<'a>, Refusal>
    ensures outcome { answered (λ _. tt) result ≡ variants_outcome laid.now.words.now haplotypes.now laid.now.sizes }
    ensures same { IfOk result (λ known. known.laid ≡ laid.now) }
{
    match first_fault(0, laid.sizes.n, |v| variant_ok(laid, haplotypes, v)) {
        Some(v) => Err(Refusal::Variant(v)),
        None => Ok(WithVariants { laid: *laid }),
    }
}
