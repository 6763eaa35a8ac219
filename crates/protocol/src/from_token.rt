// The types that a token is read as.
ghost use Rattle.std.specs.Prelude.{◌≡◌, ℕ, List, Option};
ghost use Rattle.protocol.specs.declared.number.Number.{Number};
ghost use Rattle.protocol.specs.Text.{Reading};
ghost use Rattle.protocol.specs.Inner.State as State;
ghost use Rattle.protocol.specs.Inner.Tokens.{token_bool, token_u8, token_u32, token_u64, token_length, token_i32, token_i64, token_f64};
ghost use Rattle.protocol.specs.Inner.Reads.{Reads};

use crate::float;
use crate::number::Number;

// A type that a token is read as. An impl for every `T: TryFrom<u64>` would overlap with those of bool, i32, i64 and f64,
// and no macro of a repository may write an impl: so each has its own of one line.
pub trait FromToken: Copy {
    // What the state of a token reads as: the value that it stands for, if the type holds one.
    ghost in_state: { Number → Option Self };

    // The same of the integer that a token stands for.
    ghost of_reading: { Reading → Option Self };

    fn from_number(number: Number) -> Option<Self>
        ensures { result ≡ in_state number };

    // The bytes of a token, pushed one by one, read as the integer that they stand for.
    ghost reads: { (t : List ℕ) → Reads in_state of_reading t };
}

// A flag: 0 or 1.
impl FromToken for bool {
    ghost in_state = { State.bool_in };

    ghost of_reading = { State.bool_of };

    ghost reads = { token_bool };

    fn from_number(number: Number) -> Option<bool> {
        match number.natural()? {
            0 => Some(false),
            1 => Some(true),
            _ => None,
        }
    }
}

impl FromToken for u8 {
    ghost in_state = { State.u8_in };

    ghost of_reading = { State.u8_of };

    ghost reads = { token_u8 };

    fn from_number(number: Number) -> Option<u8> {
        u8::try_from(number.natural()?).ok()
    }
}

impl FromToken for u32 {
    ghost in_state = { State.u32_in };

    ghost of_reading = { State.u32_of };

    ghost reads = { token_u32 };

    fn from_number(number: Number) -> Option<u32> {
        u32::try_from(number.natural()?).ok()
    }
}

impl FromToken for u64 {
    ghost in_state = { State.u64_in };

    ghost of_reading = { State.u64_of };

    ghost reads = { token_u64 };

    fn from_number(number: Number) -> Option<u64> {
        number.natural()
    }
}

// A length.
impl FromToken for usize {
    ghost in_state = { State.length_in };

    ghost of_reading = { State.length_of };

    ghost reads = { token_length };

    fn from_number(number: Number) -> Option<usize> {
        usize::try_from(number.natural()?).ok()
    }
}

impl FromToken for i32 {
    ghost in_state = { State.i32_in };

    ghost of_reading = { State.i32_of };

    ghost reads = { token_i32 };

    fn from_number(number: Number) -> Option<i32> {
        i32::try_from(number.integer()?).ok()
    }
}

impl FromToken for i64 {
    ghost in_state = { State.i64_in };

    ghost of_reading = { State.i64_of };

    ghost reads = { token_i64 };

    fn from_number(number: Number) -> Option<i64> {
        number.integer()
    }
}

// The f64 of a pattern.
impl FromToken for f64 {
    ghost in_state = { State.f64_in };

    ghost of_reading = { State.f64_of };

    ghost reads = { token_f64 };

    fn from_number(number: Number) -> Option<f64> {
        Some(float::from_pattern(number.natural()?))
    }
}
