// A refusal's number and place, and what number 10 says of slices that are too short.
ghost use Rattle.std.specs.Prelude.{◌≡◌};
ghost use Rattle.variants_and_fragments.specs.Refusals.{done, outcome_of};
ghost use Rattle.variants_and_fragments.specs.Refusals as refusals;

use crate::Refusal;

impl Refusal {
    // A refusal's number in document 01's table; 13 and 14 are request 1's. A match: a variant that holds a place has no number to cast.
    pub fn number(self) -> usize
        ensures { result ≡ refusals.number self }
    {
        match self {
            Refusal::Head(_) => 1,
            Refusal::Variant(_) => 2,
            Refusal::Alleles(_) => 3,
            Refusal::Call(_) => 4,
            Refusal::Chain(_) => 5,
            Refusal::Rates(_) => 6,
            Refusal::Phase(_) => 7,
            Refusal::Orders(_) => 8,
            Refusal::Limit(_) => 9,
            Refusal::Short(_) => 10,
            Refusal::DensityQual(_) => 11,
            Refusal::Normalize(_) => 12,
            Refusal::Fragment(_) => 13,
            Refusal::Room(_) => 14,
        }
    }

    // A refusal's place.
    pub fn place(self) -> usize
        ensures { result ≡ refusals.place self }
    {
        match self {
            Refusal::Head(p)
            | Refusal::Variant(p)
            | Refusal::Alleles(p)
            | Refusal::Call(p)
            | Refusal::Chain(p)
            | Refusal::Rates(p)
            | Refusal::Phase(p)
            | Refusal::Orders(p)
            | Refusal::Limit(p)
            | Refusal::Short(p)
            | Refusal::DensityQual(p)
            | Refusal::Normalize(p)
            | Refusal::Fragment(p)
            | Refusal::Room(p) => p,
        }
    }
}

// Whether each slice, given as what it needs and its length, is long enough: else refused with the smallest need of one that is not.
pub fn long_enough(slices: &[(usize, usize)]) -> Result<(), Refusal>
    ensures { outcome_of result ≡ refusals.long_enough slices.now (done tt) }
{
    let mut short: Option<usize> = None;
    for (need, long) in slices {
        if long < need {
            short = Some(short.unwrap_or(*need).min(*need));
        }
    }
    match short {
        Some(need) => Err(Refusal::Short(need)),
        None => Ok(()),
    }
}
