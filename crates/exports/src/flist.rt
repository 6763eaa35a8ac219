// The fragment lines of a case.
ghost use Rattle.exports.specs.Promises.{GenerateFlistBuffer};

use crate::answers::{Answer, FlistAnswer};
use haplotype_assembly::{Counted, generate_flist_buffer};

// What a refusal has written.
const NOTHING: Counted = Counted { bytes: 0, lines: 0 };

// `generate_flist_buffer`.
#[unsafe(no_mangle)]
pub extern "C" fn condorbed_generate_flist_buffer(
    words: &[i32],
    bases: &[u8],
    single_reads: bool,
    buffer: &mut [u8],
) -> FlistAnswer
    ensures { GenerateFlistBuffer words.now bases.now single_reads buffer.old result buffer.new }
{
    let answer = generate_flist_buffer(words, bases, single_reads, buffer);
    let Answer { number, place } = Answer::from(answer);
    let Counted { bytes, lines } = answer.unwrap_or(NOTHING);
    FlistAnswer {
        number,
        place,
        bytes,
        lines,
    }
}
