// A usable call: as a struct by value, and as the one word that rows and piles hold of it.
ghost use Rattle.std.specs.Prelude.{◌≡◌, ◌+◌, ◌<◌, ◌≤◌, pos, neg_ℤ, ◌-ℤ◌};
ghost use Rattle.variants_and_fragments.specs.Inner.Words.{debt_of};
ghost use Rattle.variants_and_fragments.specs.Inner.Sums.{DownTo};
ghost use Rattle.pileup.specs.Inner.Packed.{Packable, held_row, row_from, packed, unpacked, UsableIs};

use steps::LogProb;
use variants_and_fragments::layout::MUTED;

// A call that is usable, with the number of its fragment. That its qualities lie in −262144..0 is no field: `unpack` gives a row of any word.
#[derive(Clone, Copy)]
pub struct Row {
    pub fragment: usize,
    pub variant: usize,
    pub allele: usize,
    pub qual: LogProb,
    pub one_minus_qual: LogProb,
}

// How far a quality lies below 0.
fn debt(qual: LogProb) -> u64
    requires { DownTo 262144 qual.0 }
    ensures { (result ≡ debt_of qual.0) × (result ≤ 262144) }
{
    (-qual.0) as u64
}

// The quality that lies so far below 0.
fn below(debt: u64) -> LogProb
    requires { debt < 524288 }
    ensures { result.0 ≡ neg_ℤ (pos debt) }
{
    LogProb(-(debt as i64))
}

// The quality that lies gap - 262144 over the one that lies `qual` below 0.
fn above(qual: u64, gap: u64) -> LogProb
    requires { (qual < 524288) × (gap < 1048576) }
    ensures { result.0 ≡ pos gap -ℤ pos (262144 + qual) }
{
    LogProb(gap as i64 - (262144 + qual) as i64)
}

// Rows and piles hold a call as one word: one store makes a pile of it, and one list element is one call in the proofs (docs/DECISIONS.md, "Rows,
// then piles, one word per call"). Methods and no `From`: a row past the largest case has no word.
impl Row {
    // From the lowest bits on: 10 for the variant, 2 for the allele, 19 for how far the quality lies below 0, 20 for the gap one_minus_qual - qual
    // plus 262144, so that it is not negative, and 12 for the fragment.
    pub fn pack(self) -> u64
        requires { Packable (row_from self) }
        ensures { result ≡ packed (row_from self) }
    {
        let qual = debt(self.qual);
        let gap = 262144 + qual - debt(self.one_minus_qual);
        self.variant as u64
            + 1024
                * (self.allele as u64
                    + 4 * (qual + 524288 * (gap + 1048576 * self.fragment as u64)))
    }

    // The row of a word. In one_minus_qual - qual all but the gap cancels.
    pub fn unpack(word: u64) -> Row
        ensures { result ≡ held_row (unpacked word) }
    {
        let qual = word / 4096 % 524288;
        Row {
            fragment: (word / 2251799813685248) as usize,
            variant: (word % 1024) as usize,
            allele: (word / 1024 % 4) as usize,
            qual: below(qual),
            one_minus_qual: above(qual, word / 2147483648 % 1048576),
        }
    }
}

// Whether a call is usable: its quality is below the cutoff, equality being ambiguous, and its fragment, which has this strand, votes. The strand
// is the case's number, and only compared with MUTED here: an enum would be made for that and matched at once.
pub fn usable(cutoff: i32, strand: usize, qual: i32) -> bool
    ensures { UsableIs cutoff strand qual result }
{
    (qual < cutoff) & (strand < MUTED)
}
