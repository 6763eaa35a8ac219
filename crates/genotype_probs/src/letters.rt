// The letters of a pair of alleles, and the comparison of an allele with the reference.
ghost use Rattle.std.specs.Prelude.{◌≡◌, ◌<◌, length};
ghost use Rattle.genotype_probs.specs.Letters.{base_of, base_number, letter_number, transition_of};
ghost use Rattle.genotype_probs.specs.Priors.{first_letter, stop_at, compared};

// A base of an allele.
#[derive(Clone, Copy, PartialEq, Eq, Debug)]
pub enum Base {
    A,
    C,
    G,
    T,
}

// An allele that is present: it has a base.
#[derive(Clone, Copy)]
pub struct Allele<'a> {
    pub bases: &'a [u8],
    pub ghost present: { 0 < length bases.now },
}

// What an allele is beside the reference: a base, or longer (I) or shorter (D).
#[derive(Clone, Copy, PartialEq, Eq, Debug)]
pub enum Letter {
    Base(Base),
    D,
    I,
}

// What a comparison leaves: the reference base, and the allele's letter.
#[derive(Clone, Copy)]
pub struct Compared {
    pub base: Base,
    pub letter: Letter,
}

// All bases and all letters, each at its number.
pub const BASES: [Base; 4] = [Base::A, Base::C, Base::G, Base::T];

pub const LETTERS: [Letter; 6] = [
    Letter::Base(Base::A),
    Letter::Base(Base::C),
    Letter::Base(Base::G),
    Letter::Base(Base::T),
    Letter::D,
    Letter::I,
];

// The number of a base, in the order A C G T.
impl From<Base> for usize {
    ghost from_gives = { λ base n. (n ≡ base_number base) × (n < 4) };

    #[tactic(auto, using(crate::proofs::Numbers::base_low), unfolding(crate::specs::Letters::base_number))]
    fn from(base: Base) -> usize {
        base as usize
    }
}

// The number of a letter, in the order A C G T D I.
impl From<Letter> for usize {
    ghost from_gives = { λ letter n. (n ≡ letter_number letter) × (n < 6) };

    #[tactic(auto, unfolding(crate::specs::Letters::letter_number))]
    fn from(letter: Letter) -> usize {
        match letter {
            Letter::Base(base) => usize::from(base),
            Letter::D => 4,
            Letter::I => 5,
        }
    }
}

impl Base {
    // The base of an allele byte. Bases come in any order, so no jump is to be made of the tests.
    #[tactic(auto, unfolding(crate::specs::Letters::base_of))]
    pub fn of(byte: u8) -> Self
        ensures { result ≡ base_of byte }
    {
        let g = if byte == b'G' { Base::G } else { Base::T };
        let c = if byte == b'C' { Base::C } else { g };
        if byte == b'A' { Base::A } else { c }
    }

    // The other base of its transition.
    #[tactic(auto, unfolding(crate::specs::Letters::transition_of))]
    pub fn transition(self) -> Self
        ensures { result ≡ transition_of self }
    {
        match self {
            Base::A => Base::G,
            Base::G => Base::A,
            Base::C => Base::T,
            Base::T => Base::C,
        }
    }
}

// The letter that an allele has before any comparison.
#[tactic(auto, unfolding(crate::specs::Priors::first_letter))]
pub fn first_letter(reference: &[u8], allele: Allele<'_>) -> Letter
    ensures { result ≡ first_letter reference.now allele.entry.bases.now }
{
    if allele.bases.len() == reference.len() {
        return Letter::Base(Base::of(allele.bases[0]));
    }
    if reference.len() < allele.bases.len() {
        return Letter::I;
    }
    Letter::D
}

// Where the comparison of an allele with a reference of its length stops: at the first base that differs, or at the last. Document 01 asks for a
// loop that yields its index by break, which a `for` cannot, so it counts i itself.
pub fn stop_at(reference: &[u8], allele: Allele<'_>) -> usize
    requires { length allele.bases.now ≡ length reference.now }
    ensures { (result < length allele.entry.bases.now) × (result ≡ stop_at reference.now allele.entry.bases.now) }
{
    let mut i: usize = 0;
    let at = loop {
        if reference[i] != allele.bases[i] {
            break i;
        }
        if i + 1 == allele.bases.len() {
            break i;
        }
        i += 1;
    };
    at
}

// The reference base and the allele's letter, from the current reference base.
pub fn compare(reference: &[u8], allele: Allele<'_>, base: Base) -> Compared
    ensures { result ≡ compared reference.now allele.entry.bases.now base }
{
    let letter = first_letter(reference, allele);
    if letter != Letter::Base(base) {
        return Compared { base, letter };
    }
    let i = stop_at(reference, allele);
    Compared {
        base: Base::of(reference[i]),
        letter: Letter::Base(Base::of(allele.bases[i])),
    }
}
