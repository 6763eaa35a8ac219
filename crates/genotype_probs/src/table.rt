// The table of priors that is made from accepted rates: 36 pairs of letters for each reference base.
ghost use Rattle.std.specs.Prelude.{◌≡◌, true, cond, ◌≤◌, ◌^◌, eqb, pos, nat_abs, ◌+ℤ◌};
ghost use Rattle.std.specs.Int.Signed.{lt_z};
ghost use Rattle.genotype_probs.specs.Rates.{het_snv_rate, het_indel_rate, ts_rate, tv_rate, rate_sum};
ghost use Rattle.genotype_probs.specs.Letters.{base_number, transition_of, change};
ghost use Rattle.genotype_probs.specs.Priors.{ln_half, ln_quarter, one_minus_exp, diploid};
ghost use Rattle.genotype_probs.specs.Inner.PriorTable.{letter_value, RowMade, RowsMade, TableMade, EntriesSmall, table_value};

use crate::letters::{BASES, Base, LETTERS, Letter};
use crate::{AcceptedRates, Rates};
use steps::{LogProb, Prob};

// ln_one_minus_exp of steps below 0.
fn one_minus_exp(p: LogProb) -> LogProb
    requires { (nat_abs p.0 ≤ 2 ^ 60) × (lt_z p.0 (pos 0) ≡ true) }
    ensures { result.0 ≡ one_minus_exp p.0 }
{
    p.ln_one_minus_exp()
}

// The rate of a transition or of a transversion, from one base to another.
fn change(rates: Rates, base: Base, other: Base) -> LogProb
    ensures { result.0 ≡ cond (eqb (base_number other) (base_number (transition_of base))) (ts_rate rates) (tv_rate rates) }
{
    if other == base.transition() {
        return rates.ts;
    }
    rates.tv
}

// ln(0.5)
#[tactic(auto, using(steps::proofs::Probs::ln_half_lem))]
pub fn ln_half() -> LogProb
    ensures { result.0 ≡ ln_half }
{
    LogProb::from_prob(Prob::half())
}

// The value of D or I, from the rate of an indel: ln(0.5) and ln(0.25) are added.
#[tactic(auto, using(steps::proofs::Probs::ln_quarter_lem))]
fn indel_value(indel: LogProb) -> LogProb
    requires { nat_abs indel.0 ≤ 262144 }
    ensures { result.0 ≡ indel.0 +ℤ ln_half +ℤ ln_quarter }
{
    LogProb(indel.0 + ln_half().0 + LogProb::from_prob(Prob::quarter()).0)
}

// The value of one letter, where that of the reference base, the rate of another base and the rate of an indel are given.
fn letter_value(
    rates: AcceptedRates,
    same: LogProb,
    snv: LogProb,
    indel: LogProb,
    base: Base,
    letter: Letter,
) -> LogProb
    requires { (nat_abs snv.0 ≤ 262144) × (nat_abs indel.0 ≤ 262144) }
    ensures { result.0 ≡ letter_value rates.rates same.0 snv.0 indel.0 (change base letter) }
{
    match letter {
        Letter::Base(other) => {
            if other == base {
                return same;
            }
            LogProb(snv.0 + change(rates.rates, base, other).0)
        }
        Letter::D | Letter::I => indel_value(indel),
    }
}

// The entries of a reference base and a first letter, by the second.
#[derive(Clone, Copy)]
pub struct Row {
    pub entries: [LogProb; 6],
}

// The entries of a reference base, by the first letter.
#[derive(Clone, Copy)]
pub struct Rows {
    pub rows: [Row; 6],
}

// What the table is made from: accepted rates, and the haploid and the diploid value of the reference base.
#[derive(Clone, Copy)]
struct Values {
    rates: AcceptedRates,
    haploid: LogProb,
    diploid: LogProb,
    ghost haploid_is: { haploid.0 ≡ one_minus_exp (het_snv_rate rates.rates +ℤ het_indel_rate rates.rates) },
    ghost diploid_is: { diploid.0 ≡ one_minus_exp (rate_sum rates.rates) },
}

impl Values {
    fn of(rates: AcceptedRates) -> Self
        ensures { result.rates ≡ rates }
    {
        let six = rates.rates;
        Values {
            rates,
            haploid: one_minus_exp(LogProb(six.het_snv.0 + six.het_indel.0)),
            diploid: one_minus_exp(six.rate_sum()),
        }
    }

    // The entry of a reference base and two letters.
    fn entry(&self, base: Base, first: Letter, second: Letter) -> LogProb
        ensures { result.0 ≡ diploid self.now.rates.rates base first second }
    {
        let rates = self.rates;
        let six = rates.rates;
        if first == second {
            return letter_value(rates, self.diploid, six.hom_snv, six.hom_indel, base, first);
        }
        let a = letter_value(rates, self.haploid, six.het_snv, six.het_indel, base, first);
        let b = letter_value(
            rates,
            self.haploid,
            six.het_snv,
            six.het_indel,
            base,
            second,
        );
        LogProb(a.0 + b.0)
    }

    // The entries of a reference base and a first letter, by the second.
    fn row(&self, base: Base, first: Letter) -> Row
        ensures { RowMade self.now.rates.rates base first result }
    {
        let mut row = Row {
            entries: [LogProb(0); 6],
        };
        for second in LETTERS {
            row.entries[usize::from(second)] = self.entry(base, first, second);
        }
        row
    }

    // Writes the entries of a reference base, by both letters.
    fn fill(&self, base: Base, rows: &mut Rows)
        ensures { RowsMade self.now.rates.rates base rows.new }
    {
        for first in LETTERS {
            rows.rows[usize::from(first)] = self.row(base, first);
        }
    }
}

// A table by reference base, first letter and second letter, whose entries are small.
#[derive(Drop)]
pub struct PriorTable {
    pub bases: [Rows; 4],
    pub ghost small: { EntriesSmall bases },
}

// No entries yet.
const ZEROS: [Rows; 4] = [Rows {
    rows: [Row {
        entries: [LogProb(0); 6],
    }; 6],
}; 4];

impl PriorTable {
    // The table of accepted rates.
    pub fn new(rates: AcceptedRates) -> Self
        ensures { TableMade rates.rates result.bases }
    {
        let mut table = PriorTable::zeros();
        table.fill(rates);
        table
    }

    // A table of zeros.
    pub(crate) fn zeros() -> Self
        ensures { result.bases ≡ ZEROS }
    {
        PriorTable { bases: ZEROS }
    }

    // Makes it the table of accepted rates, where it stands: a table that is handed back is copied by C's `memcpy`, which the static library would then
    // need from outside.
    pub fn fill(&mut self, rates: AcceptedRates)
        ensures { TableMade rates.rates self.new.bases }
    {
        let values = Values::of(rates);
        for base in BASES {
            values.fill(base, &mut self.bases[usize::from(base)]);
        }
    }

    // The prior of two letters at a reference base: −4096 where they differ.
    pub(crate) fn value(&self, base: Base, first: Letter, second: Letter) -> LogProb
        ensures { result.0 ≡ table_value self.now.bases base first second }
    {
        let x = usize::from(first);
        let y = usize::from(second);
        let entry = self.bases[usize::from(base)].rows[x].entries[y];
        if x == y {
            return entry;
        }
        LogProb(entry.0 + ln_half().0)
    }
}
