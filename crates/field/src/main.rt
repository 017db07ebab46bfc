// Reads commands from standard input, a line each, and prints the answer to each.
#![tactic(auto)]

ghost use Rattle.std.specs.Prelude.{◌<◌, length};
ghost use Rattle.commands.specs.Says.{answer_bytes};

use calls::Field;
use commands::{ANSWER_BYTES, answer, bare};
use listplane::ListPlane;
use std::io;
use std::io::{BufRead, BufReader, Write};

// The memory that the plane is lent.
const WORDS: usize = 1 << 18;

// Answers line by line, up to the end of the input. Each answer is written at once: a person may be typing.
fn converse<F: Field>(
    rt: &HostRuntime,
    field: &mut F,
    mem: &mut [u64],
    out: &mut [u8],
) -> io::Result<()>
    requires good { F.good field.old mem.old }
    requires room { answer_bytes < length out.old }
{
    let mut input = BufReader::new(rt.alloc(), rt.stdin())?;
    let mut line = Vec::new(rt.alloc());
    for _ in 0..u64::MAX {
        line.clear();
        if input.read_until(b'\n', &mut line)? == 0 {
            break;
        }
        let end = answer(field, mem, bare(&line), &mut out[0..ANSWER_BYTES]);
        out[end] = b'\n';
        rt.stdout().write_all(&out[0..end + 1])?;
    }
    Ok(())
}

fn main(rt: HostRuntime) -> io::Result<()> {
    let heap = rt.alloc();
    let mut words = vec![in heap; 0u64; WORDS]?;
    let mut out = vec![in heap; 0u8; ANSWER_BYTES + 1]?;
    let mem = words.as_mut_slice();
    let mut field = ListPlane::open(mem);
    converse(&rt, &mut field, mem, out.as_mut_slice())
}
