// Decimal numbers in a buffer.
ghost use Rattle.std.specs.Prelude.{◌≡◌, ◌+◌, ◌≤◌, length};
ghost use Rattle.haplotype_assembly.specs.Lines.{decimal};
ghost use Rattle.haplotype_assembly.specs.Inner.LinesRead.{Put};

use itoa::write_digits;

// How many digits n has: those of 0 are those of 1.
pub fn digit_count(n: usize) -> usize
    ensures { result ≡ length (decimal n) }
{
    n.max(1).ilog10() as usize + 1
}

// Writes n at `at`, and returns the place after it.
pub fn write_number(buffer: &mut [u8], at: usize, n: usize) -> usize
    requires { at + length (decimal n) ≤ length buffer.old }
    ensures { Put buffer.old buffer.new at result (decimal n) }
{
    let end = at + digit_count(n);
    write_digits(n as u64, buffer, end);
    end
}
