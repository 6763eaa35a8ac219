// The text of the request stream: tokens read from standard input, numbers and lines written to standard output.
#![tactic(auto)]

mod float;
pub mod from_token;
pub mod input;
pub mod number;
pub mod output;
pub mod print;
pub mod word;

// The bytes of a buffer.
pub const BUFFER_BYTES: usize = 65536;

// The buffer of the input.
pub type Buffer = [u8; BUFFER_BYTES];
