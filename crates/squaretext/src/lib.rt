// A rule and a square of side 16 as text, and its middle after four generations.
#![tactic(auto)]

ghost use Rattle.std.specs.Prelude.{◌≡◌, ℕ, ◌+◌, ◌*◌, ◌<◌, ◌≤◌, Decides, slice_index, Some, ◌≢◌, MatchOption, length};
ghost use Rattle.std.specs.List.{AllWithin};
ghost use Rattle.leaf.specs.Words.{cell_in};
ghost use Rattle.squaretext.specs.Asked.{first_line, next_lines, suits_place, SquareText, drawn_at, Meant, byte_of_middle, fault_text};

use leaf::{cell, leap16, with_cell};
use model::Quarters;
use rules::{Rule, RuleSets};
use std::error::Error;
use std::fmt;

// The eight lines of a middle.
pub const MIDDLE_BYTES: usize = 72;

// What is wrong with a text.
#[derive(Clone, Copy, PartialEq, Eq, Debug)]
pub enum Fault {
    NoRule,
    BadRule,
    BadSquare,
}

impl Fault {
    pub fn text(self) -> &'static str
        ensures { result.now ≡ fault_text self }
    {
        match self {
            Fault::NoRule => "the first line is no rule, as b3s23",
            Fault::BadRule => "the rule has birth from nothing",
            Fault::BadSquare => "after the rule come sixteen lines of sixteen cells, each . or o",
        }
    }
}

impl fmt::Display for Fault {
    ghost output = { λ fault. Some (fault_text fault) };

    fn fmt<W: fmt::Write>(&self, f: &mut fmt::Formatter<W>) -> fmt::Result {
        f.write_str(self.text())
    }
}

impl Error for Fault {}

// The middle of the square after four generations under the rule.
pub fn answer(input: &[u8]) -> Result<u64, Fault>
    ensures { Meant input.now result }
{
    let (line, square) = split_line(input);
    let sets = RuleSets::parse(line).ok_or(Fault::NoRule)?;
    let rule = Rule::new(sets.born, sets.stays).map_err(|_| Fault::BadRule)?;
    if !is_square(square) {
        return Err(Fault::BadSquare);
    }
    let four = Quarters {
        nw: word_at(square, 0, 0),
        ne: word_at(square, 8, 0),
        sw: word_at(square, 0, 8),
        se: word_at(square, 8, 8),
    };
    Ok(leap16(rule, four, 4))
}

// A word as eight lines.
pub fn middle_text(w: u64) -> [u8; MIDDLE_BYTES]
    ensures { (k : ℕ) → k < 72 → slice_index result k ≡ byte_of_middle w k }
{
    let mut text = [0; MIDDLE_BYTES];
    for (place, byte) in text.iter_mut().enumerate() {
        *byte = middle_byte(w, place as u32);
    }
    text
}

fn middle_byte(w: u64, place: u32) -> u8
    requires { place < 72 }
    ensures { result ≡ byte_of_middle w place }
{
    if place % 9 == 8 {
        b'\n'
    } else if cell(w, place % 9, place / 9) {
        b'o'
    } else {
        b'.'
    }
}

// The first line, and what follows it.
fn split_line(text: &[u8]) -> (&[u8], &[u8])
    ensures line { result.0.now ≡ first_line text.now }
    ensures rest { result.1.now ≡ next_lines text.now }
{
    match line_end(text) {
        Some(end) => (&text[..end], &text[end + 1..]),
        None => (text, &[]),
    }
}

fn line_end(text: &[u8]) -> Option<usize>
    ensures { MatchOption result (AllWithin (λ b. b ≢ 10) text.now 0 (length text.now)) (λ end. (end < length text.now) × (slice_index text.now end ≡ 10) × AllWithin (λ b. b ≢ 10) text.now 0 end) }
{
    text.iter().position(|b| *b == b'\n')
}

fn is_square(text: &[u8]) -> bool
    ensures { Decides result (SquareText text.now) }
{
    (text.len() == 271 || text.len() == 272)
        && text.iter().enumerate().all(|(i, b)| fits_place(i, *b))
}

fn fits_place(place: usize, byte: u8) -> bool
    ensures { result ≡ suits_place place byte }
{
    if place % 17 == 16 {
        byte == b'\n'
    } else {
        byte == b'.' || byte == b'o'
    }
}

// The word whose first cell is drawn in column x of line y.
fn word_at(square: &[u8], x: usize, y: usize) -> u64
    requires long { 271 ≤ length square.now }
    requires column { x ≤ 8 }
    requires row { y ≤ 8 }
    ensures { (u v : ℕ) → u < 8 → v < 8 → cell_in result u v ≡ drawn_at square.now (x + u) (y + v) }
{
    let mut w = 0;
    for v in 0..8u32 {
        for u in 0..8u32 {
            let lives = square[17 * (y + v as usize) + x + u as usize] == b'o';
            w = with_cell(w, u, v, lives);
        }
    }
    w
}
