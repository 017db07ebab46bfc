// What a line that is typed asks for.
#![tactic(auto)]

mod words;

ghost use Rattle.std.specs.Prelude.{◌≡◌, true, false, MatchOption};
ghost use Rattle.lines.specs.Commands.{command_of, plain_of, rule_words, put_of, run_of, cell_of, row_of, period_of, last};
ghost use Rattle.lines.specs.Left.{left};
ghost use Rattle.lines.specs.Splits.{is_line_text};
ghost use Rattle.lines.specs.Promise.{WordsRight, NumbersRight, RowsShort, Examples, Refusals};

use model::{Cell, Refusal};
use rules::RuleSets;
use std::str;
use words::Words;

#[derive(Clone, Copy, PartialEq, Eq, Debug)]
pub enum Command {
    Rule(RuleSets),
    Put { at: Cell, lives: bool },
    Run { n: u64 },
    Cell { at: Cell },
    Count,
    Row { from: Cell, n: u32 },
    Bounds,
    Period { bound: u16 },
}

const LONGEST_ROW: u32 = 1 << 20;

// Reads a line, which is given without its end: words with one space between two of them, none in front or behind.
impl TryFrom<&[u8]> for Command {
    type Error = Refusal;

    ghost try_from_gives = { λ line result. result ≡ command_of line.now };

    fn try_from(line: &[u8]) -> Result<Command, Refusal> {
        let mut words = Words::new(printable(line).ok_or(Refusal::BadForm)?);
        match words.next().ok_or(Refusal::BadForm)? {
            "rule" => rule(&mut words),
            verb => plain(verb, &mut words).ok_or(Refusal::BadForm),
        }
    }
}

// A line of printable characters of ASCII, as text.
fn printable(line: &[u8]) -> Option<&str>
    ensures { MatchOption result (is_line_text line.now ≡ false) (λ text. (is_line_text line.now ≡ true) × (text.now ≡ line.now)) }
{
    if is_text(line) {
        // Safe, since printable ASCII is UTF-8; `str::from_utf8` would go over the line once more.
        Some(unsafe { str::from_utf8_unchecked(line) })
    } else {
        None
    }
}

// Whether there are only printable characters of ASCII.
fn is_text(line: &[u8]) -> bool
    ensures { result ≡ is_line_text line.now }
{
    line.iter().all(|c| matches!(*c, b' '..=b'~'))
}

// A word that is no rule is refused as such, and not as a line of no known form.
fn rule(words: &mut Words) -> Result<Command, Refusal>
    ensures { result ≡ rule_words (left words.old) }
{
    match words.next() {
        Some(text) if !text.is_empty() && words.done() => RuleSets::parse(text.as_bytes())
            .map(Command::Rule)
            .ok_or(Refusal::BadRule),
        _ => Err(Refusal::BadForm),
    }
}

// Any other command.
fn plain(verb: &str, words: &mut Words) -> Option<Command>
    ensures { result ≡ plain_of verb.now (left words.old) }
{
    match verb {
        "put" => put(words),
        "run" => run(words),
        "cell" => cell(words),
        "count" => complete(words, Command::Count),
        "row" => row(words),
        "box" => complete(words, Command::Bounds),
        "period" => period(words),
        _ => None,
    }
}

fn put(words: &mut Words) -> Option<Command>
    ensures { result ≡ put_of (left words.old) }
{
    let at = words.cell()?;
    let lives = words.flag()?;
    complete(words, Command::Put { at, lives })
}

fn run(words: &mut Words) -> Option<Command>
    ensures { result ≡ run_of (left words.old) }
{
    let n = words.natural()?;
    complete(words, Command::Run { n })
}

fn cell(words: &mut Words) -> Option<Command>
    ensures { result ≡ cell_of (left words.old) }
{
    let at = words.cell()?;
    complete(words, Command::Cell { at })
}

fn row(words: &mut Words) -> Option<Command>
    ensures { result ≡ row_of (left words.old) }
{
    let from = words.cell()?;
    let n = u32::try_from(words.natural()?)
        .ok()
        .filter(|n| *n <= LONGEST_ROW)?;
    complete(words, Command::Row { from, n })
}

fn period(words: &mut Words) -> Option<Command>
    ensures { result ≡ period_of (left words.old) }
{
    let bound = u16::try_from(words.natural()?).ok()?;
    complete(words, Command::Period { bound })
}

// The command, if its last word was read.
fn complete(words: &Words, command: Command) -> Option<Command>
    ensures { result ≡ last command (left words.now) }
{
    words.done().then_some(command)
}

// The words of a line make up the line, a number is read from the digits that write it, and no row is too long; with
// examples.
pub fn reading_stands()
    ensures { WordsRight × NumbersRight × RowsShort × Examples × Refusals }
{}
