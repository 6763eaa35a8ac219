// The layout of a case, the one file that knows where a word stands: the numbers of section 2 as amended by requests 1, 3 and 5, the readings of a word, a
// reader for each field, and a setter for those that arrivals and departures write.
ghost use Rattle.std.specs.Prelude.{◌≡◌, ◌+◌, ◌<◌, ◌≤◌, length, set, pos, negsuc, true};
ghost use Rattle.std.specs.Int.Signed.{le_z};
ghost use Rattle.variants_and_fragments.specs.Words.{nat_of, word, within, nat_at};
ghost use Rattle.variants_and_fragments.specs.Layout.{sizes_of, lowest_quality, head_words, variant_words, fragment_words, call_words, total_words, max_variants, max_fragments, max_calls, variant_at, fragment_at, call_at, first_field, fragment_word, cutoff_at, qual_at, one_minus_qual_at, pos0_field, depth_field, variant_word, call_word, pos0_at, depth_at, genotype_at, allele_count_at, length_at, call_variant_at, called_allele_at, first_call_at, present_at, strand_at, next_call_at, used_field, free_field, strand_field, next_field, head_set, fragment_set, call_set, call_put};
ghost use Rattle.variants_and_fragments.specs.Inner.Layout.{Sized, call_words_at};
ghost use Rattle.variants_and_fragments.specs.Inner.Chain.{record_of, first_record_at};
ghost use Rattle.variants_and_fragments.specs.Inner.Alleles.{VariantsIn};
ghost use Rattle.variants_and_fragments.specs.Case.{direction};

use crate::{CallWords, Laid, Sizes, WithVariants};

// What a word that passes no range reads as. No Option: each check tests the number against an upper bound, which NONE fails as any
// too large one does, and in accepted words none stands where nothing is tested.
pub const NONE: usize = 4294967296;

// Words of the head and of each record.
pub const HEAD_WORDS: usize = 6;

pub const VARIANT_WORDS: usize = 8;

pub const FRAGMENT_WORDS: usize = 2;

pub const CALL_WORDS: usize = 5;

// The fields, each by its place in its record: of the head.
const VARIANTS: usize = 0;

const FRAGMENTS: usize = 1;

const CALLS: usize = 2;

const CUTOFF: usize = 3;

const USED: usize = 4;

const FREE: usize = 5;

// Of a variant; the genotype has 2 words, the lengths have 3.
const POS0: usize = 0;

const DEPTH: usize = 1;

const GENOTYPE: usize = 2;

const ALLELE_COUNT: usize = 4;

const LENGTHS: usize = 5;

// Of a fragment.
const FIRST: usize = 0;

const STRAND: usize = 1;

// Of a call.
const VARIANT: usize = 0;

const ALLELE: usize = 1;

const QUAL: usize = 2;

const ONE_MINUS_QUAL: usize = 3;

const NEXT: usize = 4;

// The most of each, and the lowest cutoff and quality.
pub const MAX_VARIANTS: usize = 1024;

pub const MAX_FRAGMENTS: usize = 4096;

pub const MAX_CALLS: usize = 16384;

pub const MAX_ALLELES: usize = 3;

pub const MAX_ALLELE_LENGTH: usize = 64;

pub const LOWEST_QUALITY: i32 = -262144;

// The last strand, and the first one of muted fragments: 2 forward, 3 reverse. A number and no enum: it is
// so in the words, and the place of a count is reckoned from it (3 · (1 + direction)).
pub const MAX_STRAND: usize = 3;

pub const MUTED: usize = 2;

// The first call of a fragment that is absent.
pub const ABSENT: i32 = -1;

// A word's number, where a negative word is NONE.
pub fn nat_of(x: i32) -> usize
    ensures { result ≡ nat_of x }
{
    if x < 0 {
        return NONE;
    }
    x as usize
}

// Word i, where a negative word is NONE.
pub fn nat_at(words: &[i32], i: usize) -> usize
    requires { i < length words.now }
    ensures { result ≡ nat_at words.now i }
{
    nat_of(words[i])
}

// Word i, which is not negative, so below 2^31.
pub fn low_at(words: &[i32], i: usize) -> usize
    requires i_in_bounds { i < length words.now }
    requires i_value { le_z (pos 0) (word words.now i) ≡ true }
    ensures { (result ≡ nat_at words.now i) × (result < 2147483648) }
{
    words[i] as usize
}

// A word in −262144..0, as the cutoff and both qualities are.
#[tactic(auto, unfolding(crate::specs::Words::within))]
pub fn is_quality(z: i32) -> bool
    ensures { result ≡ within lowest_quality (pos 0) z }
{
    (LOWEST_QUALITY..=0).contains(&z)
}

// ---- where the head, a variant, a fragment and a call stand

// What the head says: N, F, C, how many records are used, the first free one or 0, and the cutoff.
pub fn read_sizes(words: &[i32]) -> Sizes
    requires { head_words ≤ length words.now }
    ensures { result ≡ sizes_of words.now }
{
    Sizes {
        n: nat_at(words, VARIANTS),
        f: nat_at(words, FRAGMENTS),
        c: nat_at(words, CALLS),
        used: nat_at(words, USED),
        free: nat_at(words, FREE),
        cutoff: words[CUTOFF],
    }
}

// The cutoff is in its range.
pub fn cutoff_ok(words: &[i32]) -> bool
    requires { head_words ≤ length words.now }
    ensures { result ≡ within lowest_quality (pos 0) (cutoff_at words.now) }
{
    is_quality(words[CUTOFF])
}

// That N is within its bound is a clause here, and below: Sizes are what the head says, and read before they are checked.

// How many words a case of these sizes has.
pub fn total_words(s: Sizes) -> usize
    requires { (s.n ≤ max_variants) × (s.f ≤ max_fragments) × (s.c ≤ max_calls) }
    ensures { result ≡ total_words s }
{
    HEAD_WORDS + VARIANT_WORDS * s.n + FRAGMENT_WORDS * s.f + CALL_WORDS * s.c
}

// Where variant v's record starts.
pub fn variant_at(v: usize) -> usize
    requires { v ≤ max_variants }
    ensures { result ≡ variant_at v }
{
    HEAD_WORDS + VARIANT_WORDS * v
}

// Where fragment f's record starts.
pub fn fragment_at(s: Sizes, f: usize) -> usize
    requires { (s.n ≤ max_variants) × (f ≤ max_fragments) }
    ensures { result ≡ fragment_at s f }
{
    HEAD_WORDS + VARIANT_WORDS * s.n + FRAGMENT_WORDS * f
}

// Where call r's record starts.
pub fn call_at(s: Sizes, r: usize) -> usize
    requires { (s.n ≤ max_variants) × ((s.f ≤ max_fragments) × ((1 ≤ r) × (r ≤ max_calls))) }
    ensures { result ≡ call_at s r }
{
    HEAD_WORDS + VARIANT_WORDS * s.n + FRAGMENT_WORDS * s.f + CALL_WORDS * (r - 1)
}

// ---- readings of a word

// What a word names as a record, and 0 where that is none of those used. No Option: 0 is none in C's words too, and each walk asks for it at once.
pub fn record_of(s: Sizes, t: usize) -> usize
    ensures { result ≡ record_of s t }
{
    let used = s.used;
    if used < t {
        return 0;
    }
    t
}

// The direction of a strand, muted or not: 0 forward, 1 reverse.
pub fn direction_of(strand: usize) -> usize
    ensures { result ≡ direction strand }
{
    strand % 2
}

// ---- the readings of a case's words

// A record is a usize, and 1 ≤ r ≤ C a clause: in a type of records each step of a walk would wrap a word's number, and its reader take it out at once.
impl Laid<'_> {
    // The cutoff.
    pub fn cutoff(&self) -> i32
        ensures { result ≡ cutoff_at self.now.words.now }
    {
        self.words[CUTOFF]
    }

    // Field k of variant v, as its word has it.
    fn variant_word(&self, v: usize, k: usize) -> i32
        requires { (v < self.now.sizes.n) × (k < variant_words) }
        ensures { result ≡ variant_word self.now.words.now v k }
    {
        self.words[variant_at(v) + k]
    }

    // Variant v's position, as its word has it.
    pub fn pos0_word(&self, v: usize) -> i32
        requires { v < self.now.sizes.n }
        ensures { result ≡ variant_word self.now.words.now v pos0_field }
    {
        self.variant_word(v, POS0)
    }

    // Variant v's depth, as its word has it.
    pub fn depth_word(&self, v: usize) -> i32
        requires { v < self.now.sizes.n }
        ensures { result ≡ variant_word self.now.words.now v depth_field }
    {
        self.variant_word(v, DEPTH)
    }

    // Allele i of variant v's genotype, i being 0 or 1.
    pub fn genotype(&self, v: usize, i: usize) -> usize
        requires { (v < self.now.sizes.n) × (i < 2) }
        ensures { result ≡ genotype_at self.now.words.now v i }
    {
        nat_of(self.variant_word(v, GENOTYPE + i))
    }

    // Variant v's number of alleles.
    pub fn allele_count(&self, v: usize) -> usize
        requires { v < self.now.sizes.n }
        ensures { result ≡ allele_count_at self.now.words.now v }
    {
        nat_of(self.variant_word(v, ALLELE_COUNT))
    }

    // The length of allele j of variant v, 0 where it has none.
    pub fn allele_length(&self, v: usize, j: usize) -> usize
        requires { (v < self.now.sizes.n) × (j < 3) }
        ensures { result ≡ length_at self.now.words.now v j }
    {
        nat_of(self.variant_word(v, LENGTHS + j))
    }

    // Field k of fragment f, as its word has it.
    fn fragment_word(&self, f: usize, k: usize) -> i32
        requires { (f < self.now.sizes.f) × (k < fragment_words) }
        ensures { result ≡ fragment_word self.now.words.now self.now.sizes f k }
    {
        self.words[fragment_at(self.sizes, f) + k]
    }

    // Fragment f is present: its first call is not negative.
    pub fn is_present(&self, f: usize) -> bool
        requires { f < self.now.sizes.f }
        ensures { result ≡ present_at self.now.words.now self.now.sizes f }
    {
        0 <= self.fragment_word(f, FIRST)
    }

    // Fragment f's first call is in −1..used.
    pub fn first_ok(&self, f: usize) -> bool
        requires { f < self.now.sizes.f }
        ensures { result ≡ within (negsuc 0) (pos self.now.sizes.used) (fragment_word self.now.words.now self.now.sizes f first_field) }
    {
        let z = self.fragment_word(f, FIRST);
        (ABSENT..=self.sizes.used as i32).contains(&z)
    }

    // The first record of fragment f's chain, or 0 where its word names none.
    pub fn first_call(&self, f: usize) -> usize
        requires { f < self.now.sizes.f }
        ensures { result ≡ first_record_at self.now.words.now self.now.sizes f }
    {
        record_of(self.sizes, nat_of(self.fragment_word(f, FIRST)))
    }

    // Fragment f's strand.
    pub fn strand(&self, f: usize) -> usize
        requires { f < self.now.sizes.f }
        ensures { result ≡ strand_at self.now.words.now self.now.sizes f }
    {
        nat_of(self.fragment_word(f, STRAND))
    }

    // Field k of call r, as its word has it.
    fn call_word(&self, r: usize, k: usize) -> i32
        requires { (1 ≤ r) × (r ≤ self.now.sizes.c) × (k < call_words) }
        ensures { result ≡ call_word self.now.words.now self.now.sizes r k }
    {
        self.words[call_at(self.sizes, r) + k]
    }

    // The variant of call r.
    pub fn call_variant(&self, r: usize) -> usize
        requires { (1 ≤ r) × (r ≤ self.now.sizes.c) }
        ensures { result ≡ call_variant_at self.now.words.now self.now.sizes r }
    {
        nat_of(self.call_word(r, VARIANT))
    }

    // The allele that record r shows.
    pub fn called_allele(&self, r: usize) -> usize
        requires { (1 ≤ r) × (r ≤ self.now.sizes.c) }
        ensures { result ≡ called_allele_at self.now.words.now self.now.sizes r }
    {
        nat_of(self.call_word(r, ALLELE))
    }

    // The quality of record r.
    pub fn qual(&self, r: usize) -> i32
        requires { (1 ≤ r) × (r ≤ self.now.sizes.c) }
        ensures { result ≡ qual_at self.now.words.now self.now.sizes r }
    {
        self.call_word(r, QUAL)
    }

    // The other quality of record r, one_minus_qual.
    pub fn one_minus_qual(&self, r: usize) -> i32
        requires { (1 ≤ r) × (r ≤ self.now.sizes.c) }
        ensures { result ≡ one_minus_qual_at self.now.words.now self.now.sizes r }
    {
        self.call_word(r, ONE_MINUS_QUAL)
    }

    // The first four words of record r.
    pub fn call_words(&self, r: usize) -> CallWords
        requires { (1 ≤ r) × (r ≤ self.now.sizes.c) }
        ensures { result ≡ call_words_at self.now.words.now self.now.sizes r }
    {
        CallWords {
            variant: self.call_word(r, VARIANT),
            allele: self.call_word(r, ALLELE),
            qual: self.call_word(r, QUAL),
            one_minus_qual: self.call_word(r, ONE_MINUS_QUAL),
        }
    }

    // The next of call r as a number: 0, a record, used or not, or NONE.
    pub fn next_call(&self, r: usize) -> usize
        requires { (1 ≤ r) × (r ≤ self.now.sizes.c) }
        ensures { result ≡ next_call_at self.now.words.now self.now.sizes r }
    {
        nat_of(self.call_word(r, NEXT))
    }

    // The record after call r in its chain, or 0 where its word names none of those used.
    pub fn next_record(&self, r: usize) -> usize
        requires { (1 ≤ r) × (r ≤ self.now.sizes.c) }
        ensures { result ≡ record_of self.now.sizes (next_call_at self.now.words.now self.now.sizes r) }
    {
        record_of(self.sizes, self.next_call(r))
    }
}

impl WithVariants<'_> {
    // The position of variant v.
    pub fn pos0(&self, v: usize) -> usize
        requires { v < self.now.laid.sizes.n }
        ensures { (result ≡ pos0_at self.now.laid.words.now v) × (result < 2147483648) }
    {
        low_at(self.laid.words, variant_at(v) + POS0)
    }

    // The depth of variant v.
    pub fn depth(&self, v: usize) -> usize
        requires { v < self.now.laid.sizes.n }
        ensures { (result ≡ depth_at self.now.laid.words.now v) × (result < 2147483648) }
    {
        low_at(self.laid.words, variant_at(v) + DEPTH)
    }
}

// ---- words that arrivals and departures write
// They take the words and the sizes: of a struct with both, each contract would have to say too that the words lent are the same.

// Sets a word of the head to a number of records or a record.
// That the head is there is a clause: a type for it would be two, of a & for read_sizes and of a &mut here.
fn put_head(words: &mut [i32], field: usize, x: usize)
    requires { (head_words ≤ length words.old) × (field < head_words) × (x ≤ max_calls) }
    ensures { words.new ≡ head_set words.old field (pos x) }
{
    words[field] = x as i32;
}

// Sets how many records are used.
pub fn put_used(words: &mut [i32], used: usize)
    requires { (head_words ≤ length words.old) × (used ≤ max_calls) }
    ensures { words.new ≡ head_set words.old used_field (pos used) }
{
    put_head(words, USED, used);
}

// Sets the first free record, or 0 for none.
pub fn put_free(words: &mut [i32], free: usize)
    requires { (head_words ≤ length words.old) × (free ≤ max_calls) }
    ensures { words.new ≡ head_set words.old free_field (pos free) }
{
    put_head(words, FREE, free);
}

// Sets fragment f's first call: a record, 0 for none, or −1 where the fragment is absent.
// The word and no Option of a record, which would ask more of a caller: any word may be written.
pub fn put_first(words: &mut [i32], s: Sizes, f: usize, first: i32)
    requires sized { Sized words.old s }
    requires f_lt_f { f < s.f }
    ensures { words.new ≡ fragment_set words.old s f first_field first }
{
    words[fragment_at(s, f) + FIRST] = first;
}

// Sets fragment f's strand.
pub fn put_strand(words: &mut [i32], s: Sizes, f: usize, strand: i32)
    requires sized { Sized words.old s }
    requires f_lt_f { f < s.f }
    ensures { words.new ≡ fragment_set words.old s f strand_field strand }
{
    words[fragment_at(s, f) + STRAND] = strand;
}

// Sets the record after record r in its chain, or 0.
pub fn put_next(words: &mut [i32], s: Sizes, r: usize, next: usize)
    requires sized { Sized words.old s }
    requires le_r { (1 ≤ r) × (r ≤ s.c) × (next ≤ max_calls) }
    ensures { words.new ≡ call_set words.old s r next_field (pos next) }
{
    words[call_at(s, r) + NEXT] = next as i32;
}

// Sets record r: a call's four words, and the record after it in its chain, or 0.
pub fn put_call(words: &mut [i32], s: Sizes, r: usize, call: CallWords, next: usize)
    requires sized { Sized words.old s }
    requires le_r { (1 ≤ r) × (r ≤ s.c) × (next ≤ max_calls) }
    ensures { words.new ≡ call_put words.old s r call next }
{
    let at = call_at(s, r);
    words[at + VARIANT] = call.variant;
    words[at + ALLELE] = call.allele;
    words[at + QUAL] = call.qual;
    words[at + ONE_MINUS_QUAL] = call.one_minus_qual;
    words[at + NEXT] = next as i32;
}
