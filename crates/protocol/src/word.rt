// The word of a request.
ghost use Rattle.std.specs.Prelude.{◌≡◌, []};
ghost use Rattle.protocol.specs.Inner.Word.{pushed_word};

use arrayvec::ArrayVec;

// How many bytes of a word are kept: one more than a request's word has at most.
const WORD_BYTES: usize = 7;

// The first bytes of a token.
#[derive(Drop)]
pub struct Word {
    bytes: ArrayVec<u8, WORD_BYTES>,
}

impl Word {
    pub fn new() -> Word
        ensures { result.bytes.items ≡ [] }
    {
        Word {
            bytes: ArrayVec::new(),
        }
    }

    // The word with the byte b after it. A word of seven bytes is no request's, and stays.
    pub fn push(mut self, b: u8) -> Word
        ensures { result.bytes.items ≡ pushed_word self.bytes.items b }
    {
        if !self.bytes.is_full() {
            self.bytes.push(b);
        }
        self
    }

    pub fn as_slice(&self) -> &[u8]
        ensures { result.now ≡ self.now.bytes.items }
    {
        self.bytes.as_slice()
    }
}
