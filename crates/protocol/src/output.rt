// Standard output through a buffer.
ghost use Rattle.std.specs.Prelude.{◌≡◌, ◌≤◌, [], ◌∷◌};
ghost use Rattle.arrayvec.specs.ArrayVec.{array_vec_len};
ghost use Rattle.protocol.specs.Inner.Print.{EndsIn};

use crate::BUFFER_BYTES;
use crate::print::{TEXT_BYTES, ToText};
use arrayvec::ArrayVec;
use std::io;
use std::io::{Stdout, Write};

// The bytes that may wait while there is room for any number.
const ROOM: usize = 65500;

// Standard output, the bytes that wait to be written, and whether a write failed, after which none is tried. std's
// `BufWriter` allocates, and this program has no heap.
#[derive(Drop)]
pub struct Writer {
    stdout: Stdout,
    waiting: ArrayVec<u8, BUFFER_BYTES>,
    outcome: io::Result<()>,
}

impl Writer {
    pub fn new(stdout: Stdout) -> Writer {
        Writer {
            stdout,
            waiting: ArrayVec::new(),
            outcome: Ok(()),
        }
    }

    // Whether no write failed.
    pub fn is_whole(&self) -> bool {
        self.outcome.is_ok()
    }

    // The error of the write that failed.
    pub fn finish(self) -> io::Result<()> {
        self.outcome
    }

    // Writes out the bytes that wait. After a write that failed nothing is written.
    pub fn flush(&mut self)
        ensures { self.new.waiting.items ≡ [] }
    {
        if self.is_whole() {
            self.outcome = self.stdout.write_all(self.waiting.as_slice());
        }
        self.waiting.clear();
    }

    // Sees to it that there is room for any number: the bytes that wait are written out where there is none.
    fn make_room(&mut self)
        ensures { array_vec_len self.new.waiting ≤ ROOM }
    {
        if self.waiting.len() > ROOM {
            self.flush();
        }
    }

    // One byte.
    pub fn byte(&mut self, b: u8)
        ensures { EndsIn self.new.waiting.items (b ∷ []) }
    {
        self.make_room();
        self.waiting.push(b);
    }

    // A text, in pieces that there is room for.
    pub fn text(&mut self, bytes: &[u8]) {
        for piece in bytes.chunks(TEXT_BYTES) {
            self.make_room();
            self.waiting.try_extend_from_slice(piece).unwrap();
        }
    }

    // A number, or another value that is printed. It and `format`, with `append` between them, are to be inlined: called, they make a line of short
    // numbers take a seventh more instructions.
    #[inline(always)]
    pub fn number<T: ToText>(&mut self, x: T)
        ensures { EndsIn self.new.waiting.items (T.text x) }
    {
        self.make_room();
        x.append(&mut self.waiting);
    }

    // A line of the elements of xs, with one space between two.
    pub fn line<T: ToText>(&mut self, xs: &[T])
        ensures { EndsIn self.new.waiting.items (10 ∷ []) }
    {
        for (i, x) in xs.iter().enumerate() {
            if i > 0 {
                self.byte(b' ');
            }
            self.number(*x);
        }
        self.byte(b'\n');
    }
}

#[cfg(test)]
mod tests {
    use super::*;
    use crate::print::tests::Ellipsis;

    #[test]
    fn writes_texts_that_are_put(rt: HostRuntime) {
        let mut writer = Writer::new(rt.stdout());
        writer.number(-12i32);
        writer.line(&[Ellipsis, Ellipsis]);
        writer.number(7u8);
        assert_eq!(rt; writer.waiting.as_slice(), b"-12... ...\n7".as_slice());
    }
}
