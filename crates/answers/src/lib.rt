// Answers as text: each function writes at a place in a lent buffer, and gives the place after what it wrote.
#![tactic(auto)]

ghost use Rattle.std.specs.Prelude.{◌+◌, ◌<◌, ◌≤◌, [], ◌∷◌, length, decimal};
ghost use Rattle.std.specs.Fmt.{signed_decimal as signed_text};
ghost use Rattle.answers.specs.Wrote.{Wrote};

use itoa::Buffer;

pub fn text(out: &mut [u8], at: usize, bytes: &[u8]) -> usize
    requires { at + length bytes.now ≤ length out.old }
    ensures { Wrote out.old out.new at result bytes.now }
{
    let end = at + bytes.len();
    out[at..end].copy_from_slice(bytes);
    end
}

// Decimal digits, with no leading zero. No number of 64 bits has more than 20.
pub fn number(out: &mut [u8], at: usize, n: u64) -> usize
    requires { at + 20 ≤ length out.old }
    ensures { Wrote out.old out.new at result (decimal n) }
{
    digits(out, at, n)
}

// The same, after a `-` for a number below 0.
pub fn signed(out: &mut [u8], at: usize, z: i64) -> usize
    requires { at + 20 ≤ length out.old }
    ensures { Wrote out.old out.new at result (signed_text z) }
{
    if z < 0 {
        let first = byte(out, at, b'-');
        digits(out, first, z.unsigned_abs())
    } else {
        digits(out, at, z.unsigned_abs())
    }
}

pub fn byte(out: &mut [u8], at: usize, value: u8) -> usize
    requires { at < length out.old }
    ensures { Wrote out.old out.new at result (value ∷ []) }
{
    out[at] = value;
    at + 1
}

fn digits(out: &mut [u8], at: usize, n: u64) -> usize
    requires { at + length (decimal n) ≤ length out.old }
    ensures { Wrote out.old out.new at result (decimal n) }
{
    let mut buffer = Buffer::new();
    text(out, at, buffer.format(n).as_bytes())
}
