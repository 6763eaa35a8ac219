// The program's arrays. Each has the largest need of an operation and SPARE more, so that a slice one too long can be shown, but for
// two: orders have no largest need, and get 65,536 entries, 64 orders at N = 1,024; fragment lines get 10 bytes per fragment and 8 per
// call, and lines of ten blocks or more can need up to 239 bytes more than that (docs/FORMAT.md, "The program's arrays"). The
// arrays that an operation writes are filled: bytes 170, integers 77, f64 77.0.
ghost use Rattle.std.specs.Prelude.{pos, from_bits};
ghost use Rattle.std.specs.Float.{binary64};

use variants_and_fragments::layout::{
    CALL_WORDS, FRAGMENT_WORDS, HEAD_WORDS, MAX_ALLELE_LENGTH, MAX_ALLELES, MAX_CALLS,
    MAX_FRAGMENTS, MAX_VARIANTS, VARIANT_WORDS,
};

// ---- how long the arrays are

const SPARE: usize = 16;

pub const WORDS: usize = HEAD_WORDS
    + VARIANT_WORDS * MAX_VARIANTS
    + FRAGMENT_WORDS * MAX_FRAGMENTS
    + CALL_WORDS * MAX_CALLS
    + SPARE;

pub const BASES: usize = MAX_ALLELES * MAX_ALLELE_LENGTH * MAX_VARIANTS + SPARE;

// One element per variant.
pub const ONES: usize = MAX_VARIANTS + SPARE;

// The pairs of a variant's alleles.
pub const PAIRS: usize = MAX_ALLELES * MAX_ALLELES * MAX_VARIANTS + SPARE;

// The 13 values per variant that `nohap` writes.
pub const ANSWERS: usize = 13 * MAX_VARIANTS + SPARE;

// Two alleles per variant.
pub const HAPLOTYPES: usize = 2 * MAX_VARIANTS + SPARE;

// Two likelihoods per fragment, one for each haplotype.
pub const LIKELIHOODS: usize = 2 * MAX_FRAGMENTS + SPARE;

// Ten counts per variant.
pub const COUNTS: usize = 10 * MAX_VARIANTS + SPARE;

// The calls of an arriving read, at most one per variant, four words each.
pub const CALLS: usize = 4 * MAX_VARIANTS + SPARE;

// A fragment's line: 10 bytes, and 8 per call.
pub const LINES: usize = 10 * MAX_FRAGMENTS + 8 * MAX_CALLS + SPARE;

pub const ORDERS: usize = 65536;

// ---- what the arrays that an operation writes are filled with

pub trait Fill: Copy {
    ghost FILL: { Self };

    const FILL: Self;
}

impl Fill for u8 {
    ghost FILL = { 170 };

    const FILL: u8 = 170;
}

impl Fill for i32 {
    ghost FILL = { pos 77 };

    const FILL: i32 = 77;
}

impl Fill for u32 {
    ghost FILL = { 77 };

    const FILL: u32 = 77;
}

impl Fill for i64 {
    ghost FILL = { pos 77 };

    const FILL: i64 = 77;
}

impl Fill for f64 {
    ghost FILL = { from_bits binary64 4635118810238550016 };

    const FILL: f64 = 77.0;
}
