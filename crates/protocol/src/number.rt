// A number of the request stream, read a byte at a time: the state after each byte, and the integer that it is.
ghost use Rattle.std.specs.Prelude.{◌≡◌, ◌+◌, ◌-◌, ◌*◌, true};
ghost use Rattle.protocol.specs.Text.{is_space, opens_comment, is_digit};
ghost use Rattle.protocol.specs.Inner.State as State;

// Whether b is a space, a tab, a line feed or a carriage return.
#[tactic(auto, unfolding(crate::specs::Text::is_space))]
pub fn is_space(b: u8) -> bool
    ensures { result ≡ is_space b }
{
    (b == b' ') | (b == b'\t') | (b == b'\n') | (b == b'\r')
}

// Whether b opens a comment where it starts a token.
pub fn opens_comment(b: u8) -> bool
    ensures { result ≡ opens_comment b }
{
    b == b'#'
}

// What the bytes of a token so far amount to: its sign, and its size once there is a digit.
#[derive(Clone, Copy)]
pub struct Number {
    pub negative: bool,
    pub value: Option<u64>,
}

impl Number {
    // The state before the first byte of a token.
    pub fn new() -> Number
        ensures { result ≡ State.start }
    {
        Number {
            negative: false,
            value: None,
        }
    }

    // The state after one byte more; none where the token is no number, whatever follows.
    #[tactic(auto, unfolding(crate::specs::Inner::State::pushed, crate::specs::Text::is_digit))]
    pub fn push(self, b: u8) -> Option<Number>
        ensures { result ≡ State.pushed self b }
    {
        if b.is_ascii_digit() {
            self.grow(b)
        } else {
            self.sign(b)
        }
    }

    // The state after the digit b.
    fn grow(self, b: u8) -> Option<Number>
        requires { is_digit b ≡ true }
        ensures { result ≡ State.grown self (State.size self * 10 + (b - 48)) }
    {
        let tens = self.value.unwrap_or(0).checked_mul(10)?;
        let value = tens.checked_add(u64::from(b - b'0'))?;
        Some(Number {
            value: Some(value),
            ..self
        })
    }

    // The state after the byte b, which is no digit.
    #[tactic(auto, unfolding(crate::specs::Inner::State::signed))]
    fn sign(self, b: u8) -> Option<Number>
        ensures { result ≡ State.signed self b }
    {
        let first = !(self.negative | self.value.is_some());
        ((b == b'-') & first).then_some(Number {
            negative: true,
            ..self
        })
    }

    // A whole integer that is not below 0.
    pub fn natural(self) -> Option<u64>
        ensures { result ≡ State.u64_in self }
    {
        let value = self.value?;
        (!self.negative | (value == 0)).then_some(value)
    }

    // A whole integer.
    pub fn integer(self) -> Option<i64>
        ensures { result ≡ State.i64_in self }
    {
        let value = self.value?;
        if self.negative {
            0_i64.checked_sub_unsigned(value)
        } else {
            i64::try_from(value).ok()
        }
    }
}
