// The words of a line, one after the other.
ghost use Rattle.std.specs.Prelude.{◌≡◌, ◌-◌, ◌^◌, OnSome};
ghost use Rattle.std.specs.Iterator.{YieldsFirstRef, item_count};
ghost use Rattle.lines.specs.Splits.{words_of, first, rest, no_words_left};
ghost use Rattle.lines.specs.Commands.{cell_first};
ghost use Rattle.lines.specs.Left.{left};
ghost use Rattle.lines.specs.Numerals.{up_to, place_of, flag_of, IsParsed};

use model::Cell;
use std::str::FromStr;

// What is left of a line: nothing once its last word is taken.
#[derive(Drop)]
pub struct Words<'a> {
    rest: Option<&'a str>,
}

impl<'a> Words<'a> {
    pub fn new(text: &'a str) -> Words<'a>
        ensures { left result ≡ words_of text.now }
    {
        Words { rest: Some(text) }
    }

    // The next word as a number without a sign.
    pub fn natural(&mut self) -> Option<u64>
        ensures is { result ≡ first (up_to (2 ^ 64 - 1)) (left self.old) }
        ensures taken { left self.new ≡ rest (left self.old) }
    {
        number(self.next()?)
    }

    // The next two words as a cell.
    #[inline(always)]
    pub fn cell(&mut self) -> Option<Cell>
        ensures is { result ≡ cell_first (left self.old) }
        ensures taken { OnSome result (left self.new ≡ rest (rest (left self.old))) }
    {
        let x = self.place()?;
        let y = self.place()?;
        Some(Cell { x, y })
    }

    // The next word as one of the two numbers of a cell.
    #[inline(always)]
    fn place(&mut self) -> Option<i64>
        ensures is { result ≡ first place_of (left self.old) }
        ensures taken { left self.new ≡ rest (left self.old) }
    {
        let word = self.next()?;
        number(word)
    }

    // The next word as `0` or `1`.
    #[inline(always)]
    pub fn flag(&mut self) -> Option<bool>
        ensures is { result ≡ first flag_of (left self.old) }
        ensures taken { left self.new ≡ rest (left self.old) }
    {
        match self.next()? {
            "0" => Some(false),
            "1" => Some(true),
            _ => None,
        }
    }

    pub fn done(&self) -> bool
        ensures { result ≡ no_words_left (left self.now) }
    {
        self.rest.is_none()
    }
}

impl<'a> Iterator for Words<'a> {
    type Item = &'a str;

    ghost next_gives = { YieldsFirstRef left };

    ghost remaining = { item_count left };

    // Takes the next word, up to a space or the end of the line.
    fn next(&mut self) -> Option<&'a str> {
        let text = self.rest?;
        match text.as_bytes().iter().position(|c| *c == b' ') {
            Some(end) => {
                self.rest = Some(&text[end + 1..]);
                Some(&text[..end])
            }
            None => {
                self.rest = None;
                Some(text)
            }
        }
    }
}

// As Rust reads a number, but with no `+` in front.
fn number<N: FromStr>(word: &str) -> Option<N>
where
    N::Err: Drop,
    ensures { IsParsed N.from_str_gives word.now result }
{
    match word.as_bytes() {
        [b'+', ..] => None,
        _ => word.parse().ok(),
    }
}
