// The text of a value: put into a lent buffer, or added to bytes that wait. That of a number is decimal.
#![tactic(auto, using(crate::proofs::Decimal::std_decimal, crate::proofs::Decimal::std_signed))]

ghost use Rattle.std.specs.Prelude.{◌≡◌, ℕ, ◌+◌, ◌≤◌, List, [], ◌∷◌, ◌++◌, length, to_bits};
ghost use Rattle.std.specs.Float.{binary64};
ghost use Rattle.protocol.specs.declared.print.TheConstants.{TEXT_BYTES};
ghost use Rattle.arrayvec.specs.ArrayVec.{array_vec_len};
ghost use Rattle.protocol.specs.declared.TheConstants.{BUFFER_BYTES};
ghost use Rattle.protocol.specs.Inner.Print.{Put, decimal_of, signed_of};

use crate::{BUFFER_BYTES, float};
use arrayvec::ArrayVec;
use itoa::Buffer;

// The room that any number's text needs at most: twenty digits, or a sign and nineteen.
pub const TEXT_BYTES: usize = 20;

// A type whose values are printed. An impl writes `text` and `put` alone; numbers have theirs by `Formatted`.
pub trait ToText: Copy {
    // The text of a value.
    ghost text: { Self → List ℕ };

    // Puts the text into the front of out, and answers where it ends.
    fn put(self, out: &mut [u8]) -> usize
        requires { TEXT_BYTES ≤ length out.old }
        ensures { Put out.old 0 (text self) out.new result };

    // Adds the text to the bytes that wait, where there is room for any.
    fn append(self, waiting: &mut ArrayVec<u8, BUFFER_BYTES>)
        requires { array_vec_len waiting.old + TEXT_BYTES ≤ BUFFER_BYTES }
        ensures { waiting.new.items ≡ waiting.old.items ++ text self }
    {
        let mut text = [0; TEXT_BYTES];
        let end = self.put(&mut text);
        waiting.try_extend_from_slice(&text[..end]).unwrap();
    }
}

// A type of numbers, whose texts are formatted in lent digits. An impl for every `I: Integer` would overlap with that of f64, and no macro of
// a repository may write an impl: so each has its own of one line.
pub trait Formatted: Copy {
    // The text of a value.
    ghost text: { Self → List ℕ };

    // The text, which lies in the lent digits.
    fn format(self, digits: &mut Buffer) -> &str
        ensures text { result.now ≡ text self }
        ensures fits { length result.now ≤ TEXT_BYTES };

    // Puts the text into the front of out, and answers where it ends.
    fn put_digits(self, out: &mut [u8]) -> usize
        requires { TEXT_BYTES ≤ length out.old }
        ensures { Put out.old 0 (text self) out.new result }
    {
        let mut digits = Buffer::new();
        let text = self.format(&mut digits).as_bytes();
        out[..text.len()].copy_from_slice(text);
        text.len()
    }
}

// A number is printed by its digits: they are copied once, to the bytes that wait.
impl<T: Formatted> ToText for T {
    ghost text = { T.text };

    fn put(self, out: &mut [u8]) -> usize {
        self.put_digits(out)
    }

    #[inline(always)]
    fn append(self, waiting: &mut ArrayVec<u8, BUFFER_BYTES>) {
        let mut digits = Buffer::new();
        let text = self.format(&mut digits).as_bytes();
        waiting.try_extend_from_slice(text).unwrap();
    }
}

impl Formatted for u8 {
    ghost text = { decimal_of };

    #[inline(always)]
    fn format(self, digits: &mut Buffer) -> &str {
        digits.format(self)
    }
}

impl Formatted for u32 {
    ghost text = { decimal_of };

    #[inline(always)]
    fn format(self, digits: &mut Buffer) -> &str {
        digits.format(self)
    }
}

impl Formatted for u64 {
    ghost text = { decimal_of };

    #[inline(always)]
    fn format(self, digits: &mut Buffer) -> &str {
        digits.format(self)
    }
}

impl Formatted for usize {
    ghost text = { decimal_of };

    #[inline(always)]
    fn format(self, digits: &mut Buffer) -> &str {
        digits.format(self)
    }
}

impl Formatted for i32 {
    ghost text = { signed_of };

    #[inline(always)]
    fn format(self, digits: &mut Buffer) -> &str {
        digits.format(self)
    }
}

impl Formatted for i64 {
    ghost text = { signed_of };

    #[inline(always)]
    fn format(self, digits: &mut Buffer) -> &str {
        digits.format(self)
    }
}

// Its pattern.
impl Formatted for f64 {
    ghost text = { λ x. decimal_of (to_bits binary64 x) };

    #[inline(always)]
    fn format(self, digits: &mut Buffer) -> &str {
        digits.format(float::pattern(self))
    }
}

#[cfg(test)]
pub(crate) mod tests {
    use super::*;

    // A type that writes `put` alone. Its text is no number's.
    #[derive(Clone, Copy)]
    pub(crate) struct Ellipsis;

    impl ToText for Ellipsis {
        ghost text = { λ _. 46 ∷ 46 ∷ 46 ∷ [] };

        fn put(self, out: &mut [u8]) -> usize {
            out[..3].copy_from_slice(b"...");
            3
        }
    }

    #[test]
    fn puts_texts_into_the_front(rt: HostRuntime) {
        let mut out = [b'x'; TEXT_BYTES];
        assert_eq!(rt; Ellipsis.put(&mut out), 3);
        assert_eq!(rt; out[..4], b"...x"[..]);
        assert_eq!(rt; (-12i32).put(&mut out), 3);
        assert_eq!(rt; out[..4], b"-12x"[..]);
    }
}
