// What the operations answer, in numbers: 0 and place 0 for done, or a refusal's number and place.
ghost use Rattle.std.specs.Prelude.{◌≡◌};
ghost use Rattle.variants_and_fragments.specs.Refusals.{answered};
ghost use Rattle.exports.specs.Answers.{numbers_of};

use variants_and_fragments::Refusal;

// The answer of an operation that returns no values.
#[repr(C)]
#[derive(Clone, Copy)]
pub struct Answer {
    pub number: usize,
    pub place: usize,
}

// The answer of the check of a case: where done, the sizes that the head gives; else these are 0.
#[repr(C)]
#[derive(Clone, Copy)]
pub struct CheckAnswer {
    pub number: usize,
    pub place: usize,
    pub n: usize,
    pub f: usize,
    pub c: usize,
    pub used: usize,
    pub free: usize,
    pub cutoff: i32,
}

// The answer of the fragment lines: where done, how many bytes and lines were written; else these are 0.
#[repr(C)]
#[derive(Clone, Copy)]
pub struct FlistAnswer {
    pub number: usize,
    pub place: usize,
    pub bytes: usize,
    pub lines: usize,
}

// The answer of a round: where done, how many sweeps were made, whether the last one changed nothing, the phased totals at
// the start and at the end, and the source's total at the end; else these are 0.
#[repr(C)]
#[derive(Clone, Copy)]
pub struct RoundAnswer {
    pub number: usize,
    pub place: usize,
    pub sweeps: usize,
    pub settled: bool,
    pub start: i64,
    pub end: i64,
    pub source: i64,
}

// The answer of an arrival or a departure: where done, that the sample is not settled, and the new phased total; else these are 0.
#[repr(C)]
#[derive(Clone, Copy)]
pub struct LateAnswer {
    pub number: usize,
    pub place: usize,
    pub settled: bool,
    pub total: i64,
}

// The number and the place of any operation's answer.
impl<T: Copy> From<Result<T, Refusal>> for Answer {
    ghost from_gives = { λ r a. a ≡ numbers_of (answered (λ x. tt) r) };

    #[tactic(auto, unfolding(crate::specs::Answers::numbers_of))]
    fn from(answer: Result<T, Refusal>) -> Answer {
        match answer {
            Ok(_) => Answer {
                number: 0,
                place: 0,
            },
            Err(x) => Answer {
                number: x.number(),
                place: x.place(),
            },
        }
    }
}
