// What a line that is typed does to a plane, and what is answered to it.
#![tactic(auto)]

mod replies;

ghost use Rattle.std.specs.Prelude.{◌≡◌, ◌≤◌, length, take};
ghost use Rattle.commands.specs.Says.{Said, Answered, answer_bytes};
ghost use Rattle.commands.specs.Ends.{bare_of};

use answers::{byte, number};
use calls::Field;
use lines::Command;
use model::Cell;
use replies::{draw, write_bounds, write_outcome, write_period, write_refusal};

// The longest answer is a row of 2^20 cells; no other has more than 128 bytes.
pub const ANSWER_BYTES: usize = (1 << 20) + 128;

// Does what a line asks for, and writes the answer to it. The line is given without its end, and the answer has none.
pub fn answer<F: Field>(field: &mut F, mem: &mut [u64], line: &[u8], out: &mut [u8]) -> usize
    requires good { F.good field.old mem.old }
    requires room { answer_bytes ≤ length out.old }
    ensures good { F.good field.new mem.new }
    ensures within { result ≤ length out.new }
    ensures said { Said line.now (F.world field.old mem.old) (take result out.new) (F.world field.new mem.new) }
{
    match Command::try_from(line) {
        Ok(Command::Rule(sets)) => write_outcome(out, field.rule(mem, sets.born, sets.stays)),
        Ok(Command::Put { at, lives }) => write_outcome(out, field.put(mem, at, lives)),
        Ok(Command::Run { n }) => write_outcome(out, field.run(mem, n)),
        Ok(Command::Cell { at }) => byte(out, 0, if field.cell(mem, at) { b'1' } else { b'0' }),
        Ok(Command::Count) => number(out, 0, field.count(mem)),
        Ok(Command::Row { from, n }) => row(field, mem, from, n, out),
        Ok(Command::Bounds) => write_bounds(out, field.bounds(mem)),
        Ok(Command::Period { bound }) => write_period(out, field.period(mem, bound)),
        Err(refusal) => write_refusal(out, refusal),
    }
}

// The plane gives the cells as 0 and 1, in the place where their characters are to stand.
fn row<F: Field>(field: &F, mem: &[u64], from: Cell, n: u32, out: &mut [u8]) -> usize
    requires good { F.good field.now mem.now }
    requires room { n ≤ length out.old }
    ensures { Answered (Command.Row from n) (F.world field.now mem.now) out.new result (F.world field.now mem.now) }
{
    let end = n as usize;
    let cells = &mut out[0..end];
    field.row(mem, from, cells);
    draw(cells);
    end
}

// A line without its end, which is a byte 10, or 13 and 10.
pub fn bare(line: &[u8]) -> &[u8]
    ensures { result.now ≡ bare_of line.now }
{
    match line.strip_suffix(b"\n") {
        Some(text) => text.strip_suffix(b"\r").unwrap_or(text),
        None => line,
    }
}
