// The given phase of an accepted case: its check, the start haplotypes, the phased flags and the set names.
ghost use Rattle.std.specs.Prelude.{◌≡◌, true, List, ℕ, suc, ◌*◌, ◌<◌, ◌≤◌, length, MatchOption};
ghost use Rattle.variants_and_fragments.specs.First.{first_fail};
ghost use Rattle.variants_and_fragments.specs.Layout.{genotype_at};
ghost use Rattle.variants_and_fragments.specs.Refusals.{done, outcome_of};
ghost use Rattle.variants_and_fragments.specs.Written.{written};
ghost use Rattle.haplotype_assembly.specs.Phase.{is_phase, ordered_first, ordered_second};
ghost use Rattle.haplotype_assembly.specs.Inner.PhaseRead.{rule_at, phased_at, flags_at, start_at, set_of, phase_name_at, NamedTo, Faultless};
ghost use Rattle.haplotype_assembly.specs.GivenPhase.{set_ok, sets_ok, phase_tests};

use variants_and_fragments::layout::MAX_VARIANTS;
use variants_and_fragments::{CaseWords, Refusal};

// A phase byte is '0' or '1'.
fn is_phase(byte: u8) -> bool
    ensures { result ≡ is_phase byte }
{
    matches!(byte, b'0' | b'1')
}

// A genotype a, b in the order of its byte: '0' gives low, high; '1' high, low; another byte leaves it.
pub fn ordered(byte: u8, a: u8, b: u8) -> (u8, u8)
    ensures { (result.0 ≡ ordered_first byte a b) × (result.1 ≡ ordered_second byte a b) }
{
    match byte {
        b'0' => (a.min(b), a.max(b)),
        b'1' => (a.max(b), a.min(b)),
        _ => (a, b),
    }
}

// Allele i of variant v's genotype, i being 0 or 1, as the byte of a haplotype.
pub fn genotype(case: &CaseWords<'_>, v: usize, i: usize) -> u8
    requires { (v < case.now.laid.sizes.n) × (i < 2) }
    ensures { result ≡ genotype_at case.now.laid.words.now v i }
{
    case.laid.genotype(v, i) as u8
}

// The phased rule without the byte.
#[tactic(auto, unfolding(crate::specs::Inner::PhaseRead::rule_at, crate::specs::Phase::phased_test))]
pub fn phased_rule(case: &CaseWords<'_>, v: usize) -> bool
    requires { v < case.now.laid.sizes.n }
    ensures { result ≡ rule_at case.now.laid.words.now v }
{
    let k = case.laid.allele_count(v);
    let a = case.laid.genotype(v, 0);
    let b = case.laid.genotype(v, 1);
    let l0 = case.laid.allele_length(v, 0);
    let l1 = case.laid.allele_length(v, 1);
    (2 <= k) & ((a != b) & ((l0 == 1) & (l1 == 1)))
}

// Variant v is phased. Here and below the case and its phase bytes stand apart: this asks for v's byte alone, so that a struct that knows of n bytes
// would ask more of callers, and one that knows of none would leave the clauses as they are.
#[tactic(auto, unfolding(crate::specs::Inner::PhaseRead::phased_at))]
pub fn is_phased(case: &CaseWords<'_>, phase: &[u8], v: usize) -> bool
    requires { (v < case.now.laid.sizes.n) × (v < length phase.now) }
    ensures { result ≡ phased_at case.now.laid.words.now phase.now v }
{
    phased_rule(case, v) & is_phase(phase[v])
}

// The start haplotypes.
pub fn write_haplotypes(case: &CaseWords<'_>, phase: &[u8], haplotypes: &mut [u8])
    requires { (case.now.laid.sizes.n ≤ length phase.now) × (2 * case.now.laid.sizes.n ≤ length haplotypes.old) }
    ensures { haplotypes.new ≡ written (start_at case.now.laid.words.now phase.now) (2 * case.now.laid.sizes.n) haplotypes.old }
{
    for v in 0..case.laid.sizes.n {
        let a = genotype(case, v, 0);
        let b = genotype(case, v, 1);
        let (first, second) = ordered(phase[v], a, b);
        haplotypes[2 * v] = first;
        haplotypes[2 * v + 1] = second;
    }
}

// The phased flags: 1 where a variant is phased, else 0. Bytes and no bools, as C reads the slice that `given_phase` writes.
pub fn write_flags(case: &CaseWords<'_>, phase: &[u8], phased: &mut [u8])
    requires { (case.now.laid.sizes.n ≤ length phase.now) × (case.now.laid.sizes.n ≤ length phased.old) }
    ensures { phased.new ≡ written (flags_at case.now.laid.words.now phase.now) case.now.laid.sizes.n phased.old }
{
    for v in 0..case.laid.sizes.n {
        phased[v] = u8::from(is_phased(case, phase, v));
    }
}

// The start haplotypes and the phased flags.
pub fn write_phase(case: &CaseWords<'_>, phase: &[u8], haplotypes: &mut [u8], phased: &mut [u8])
    requires { (case.now.laid.sizes.n ≤ length phase.now) × ((2 * case.now.laid.sizes.n ≤ length haplotypes.old) × (case.now.laid.sizes.n ≤ length phased.old)) }
    ensures haplotypes_after { haplotypes.new ≡ written (start_at case.now.laid.words.now phase.now) (2 * case.now.laid.sizes.n) haplotypes.old }
    ensures phased_after { phased.new ≡ written (flags_at case.now.laid.words.now phase.now) case.now.laid.sizes.n phased.old }
{
    write_haplotypes(case, phase, haplotypes);
    write_flags(case, phase, phased);
}

// ---- 7: the phase bytes and sets

// A set as a number, where it is one: a negative one means none.
fn set_of(set: i32) -> Option<usize>
    ensures { result ≡ set_of set }
{
    usize::try_from(set).ok()
}

// A set is negative or below n.
pub fn set_ok(set: i32, n: usize) -> bool
    ensures { result ≡ set_ok n set }
{
    match set_of(set) {
        Some(t) => t < n,
        None => true,
    }
}

// The first of n variants with a set of n or more.
pub fn first_bad_set(sets: &[i32], n: usize) -> Option<usize>
    requires { n ≤ length sets.now }
    ensures { MatchOption result (first_fail (sets_ok n sets.now) n ≡ n) (λ v. (v < n) × (v ≡ first_fail (sets_ok n sets.now) n)) }
{
    sets[..n].iter().position(|set| !set_ok(*set, n))
}

// Number 7, of n variants. The place of a fault is n where the bytes or sets are not n, else the first variant with a set of n or more.
pub fn check_phase(n: usize, phase: &[u8], sets: &[i32]) -> Result<(), Refusal>
    ensures { outcome_of result ≡ phase_tests n phase.now sets.now (done tt) }
{
    if phase.len() != n || sets.len() != n {
        return Err(Refusal::Phase(n));
    }
    match first_bad_set(sets, n) {
        Some(v) => Err(Refusal::Phase(v)),
        None => Ok(()),
    }
}

// ---- set names

// Takes variant v's name, its position from 1, into the least of its set. A set of n or more has no name.
pub fn note_name(case: &CaseWords<'_>, sets: &[i32], v: usize, least: &mut [Option<u32>])
    requires in_case { (v < case.now.laid.sizes.n) × (v < length sets.now) }
    requires named_to { NamedTo case.now.laid.words.now sets.now case.now.laid.sizes.n v least.old }
    ensures { NamedTo case.now.laid.words.now sets.now case.now.laid.sizes.n (suc v) least.new }
{
    if let Some(t) = set_of(sets[v]) {
        if t < case.laid.sizes.n {
            let name = case.with_variants().pos0(v) as u32 + 1;
            least[t] = Some(least[t].map_or(name, |other| other.min(name)));
        }
    }
}

// The least name of each set, into a slice that has none yet.
pub fn least_names(case: &CaseWords<'_>, sets: &[i32], least: &mut [Option<u32>])
    requires in_bounds { case.now.laid.sizes.n ≤ length sets.now }
    requires named_to { NamedTo case.now.laid.words.now sets.now case.now.laid.sizes.n 0 least.old }
    ensures { NamedTo case.now.laid.words.now sets.now case.now.laid.sizes.n case.now.laid.sizes.n least.new }
{
    for v in 0..case.laid.sizes.n {
        note_name(case, sets, v, least);
    }
}

// Variant v's name, off the least of each set of n variants; 0 for none, as the slice of names has it. `words` are those that the names are of: what
// they say is read off `least`.
#[tactic(auto, using(crate::proofs::Names::unnamed, crate::proofs::Names::no_set, crate::proofs::Names::its_name))]
pub fn name_at(
    words: &[i32],
    n: usize,
    phase: &[u8],
    sets: &[i32],
    least: &[Option<u32>],
    v: usize,
) -> u32
    requires in_case { (v < n) × ((v < length phase.now) × (v < length sets.now)) }
    requires set_right { sets_ok n sets.now v ≡ true }
    requires named { NamedTo words.now sets.now n n least.now }
    ensures { result ≡ phase_name_at words.now phase.now sets.now n v }
{
    if !is_phase(phase[v]) {
        return 0;
    }
    match set_of(sets[v]) {
        Some(t) => least[t].unwrap_or(0),
        None => 0,
    }
}

// The name of each of n variants, off the least of each set.
pub fn write_names(
    words: &[i32],
    n: usize,
    phase: &[u8],
    sets: &[i32],
    least: &[Option<u32>],
    names: &mut [u32],
)
    requires in_bounds { (n ≤ length phase.now) × ((n ≤ length sets.now) × (n ≤ length names.old)) }
    requires sets_right { (v : ℕ) → v < n → sets_ok n sets.now v ≡ true }
    requires named { NamedTo words.now sets.now n n least.now }
    ensures { names.new ≡ written (phase_name_at words.now phase.now sets.now n) n names.old }
{
    for v in 0..n {
        names[v] = name_at(words, n, phase, sets, least, v);
    }
}

// A case with phase bytes and sets that pass number 7.
#[derive(Clone, Copy)]
pub struct PhasedCase<'a> {
    pub case: CaseWords<'a>,
    pub phase: &'a [u8],
    pub sets: &'a [i32],
    pub ghost faultless: { Faultless case.laid.sizes.n phase.now sets.now },
}

impl PhasedCase<'_> {
    // The name of each variant.
    pub fn write_names(&self, names: &mut [u32])
        requires { self.now.case.laid.sizes.n ≤ length names.old }
        ensures { names.new ≡ written (phase_name_at self.now.case.laid.words.now self.now.phase.now self.now.sets.now self.now.case.laid.sizes.n) self.now.case.laid.sizes.n names.old }
    {
        let mut least = [None; MAX_VARIANTS];
        least_names(&self.case, self.sets, &mut least);
        let laid = self.case.laid;
        write_names(
            laid.words,
            laid.sizes.n,
            self.phase,
            self.sets,
            &least,
            names,
        );
    }
}
