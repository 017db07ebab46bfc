// The forms of answers, each written at the front of a lent buffer; the result is how long the answer is.
ghost use Rattle.std.specs.Prelude.{◌≡◌, ℕ, ◌+◌, ◌<◌, ◌≤◌, ◌++◌, length, slice_index};
ghost use Rattle.answers.specs.Wrote.{Wrote};
ghost use Rattle.commands.specs.Texts.{refused, outcome, also, box_text, return_text, period_text, drawn, Holds};

use answers::{byte, number, signed, text};
use model::{Bounds, Period, Refusal};

pub fn write_refusal(out: &mut [u8], refusal: Refusal) -> usize
    requires { 128 ≤ length out.old }
    ensures { Holds out.new result (refused refusal) }
{
    let at = text(out, 0, b"no ");
    number(out, at, u64::from(refusal.number()))
}

pub fn write_outcome(out: &mut [u8], done: Result<(), Refusal>) -> usize
    requires { 128 ≤ length out.old }
    ensures { Holds out.new result (outcome done) }
{
    match done {
        Ok(()) => text(out, 0, b"done"),
        Err(refusal) => write_refusal(out, refusal),
    }
}

// Two numbers more, each after a space.
fn write_both(out: &mut [u8], at: usize, x: i64, y: i64) -> usize
    requires { at + 42 ≤ length out.old }
    ensures wrote { Wrote out.old out.new at result (also x ++ also y) }
    ensures short { result ≤ at + 42 }
{
    let first = byte(out, at, b' ');
    let space = signed(out, first, x);
    let second = byte(out, space, b' ');
    signed(out, second, y)
}

pub fn write_bounds(out: &mut [u8], bounds: Option<Bounds>) -> usize
    requires { 128 ≤ length out.old }
    ensures { Holds out.new result (box_text bounds) }
{
    let Some(b) = bounds else {
        return text(out, 0, b"box none");
    };
    let corner = text(out, 0, b"box");
    let opposite = write_both(out, corner, b.left, b.top);
    write_both(out, opposite, b.right, b.bottom)
}

fn write_return(out: &mut [u8], p: Period) -> usize
    requires { 128 ≤ length out.old }
    ensures { Holds out.new result (return_text p) }
{
    let t = text(out, 0, b"period ");
    let shift = number(out, t, u64::from(p.t));
    write_both(out, shift, p.dx, p.dy)
}

pub fn write_period(out: &mut [u8], found: Result<Option<Period>, Refusal>) -> usize
    requires { 128 ≤ length out.old }
    ensures { Holds out.new result (period_text found) }
{
    match found {
        Ok(Some(p)) => write_return(out, p),
        Ok(None) => text(out, 0, b"period none"),
        Err(refusal) => write_refusal(out, refusal),
    }
}

// Turns cells that are given as 0 and 1 into the characters for them.
pub fn draw(cells: &mut [u8])
    requires { (k : ℕ) → k < length cells.old → slice_index cells.old k ≤ 1 }
    ensures { cells.new ≡ drawn cells.old }
{
    for cell in cells.iter_mut() {
        *cell += b'0';
    }
}
