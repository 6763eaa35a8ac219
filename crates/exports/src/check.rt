// The check of a case.
ghost use Rattle.std.specs.Prelude.{◌≡◌};
ghost use Rattle.exports.specs.Promises.{CheckCase};

use crate::answers::{Answer, CheckAnswer};
use variants_and_fragments::{Sizes, check_case};

// The sizes of a case that is refused.
const NO_SIZES: Sizes = Sizes {
    n: 0,
    f: 0,
    c: 0,
    used: 0,
    free: 0,
    cutoff: 0,
};

// `check_case`.
#[unsafe(no_mangle)]
pub extern "C" fn condorbed_check_case(words: &[i32], bases: &[u8]) -> CheckAnswer
    ensures { CheckCase words.now bases.now result }
{
    let answer = check_case(words, bases).map(
        |case| -> Sizes
            ensures { result ≡ case.entry.laid.sizes }
        { case.laid.sizes },
    );
    let Answer { number, place } = Answer::from(answer);
    let s = answer.unwrap_or(NO_SIZES);
    CheckAnswer {
        number,
        place,
        n: s.n,
        f: s.f,
        c: s.c,
        used: s.used,
        free: s.free,
        cutoff: s.cutoff,
    }
}
