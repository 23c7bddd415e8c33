// The lines of a text, by places: document 01, "Text and lines".
#![tactic(auto)]

ghost use Rattle.std.specs.Prelude.{◌≡◌, ◌+◌, ◌-◌, min, ◌≤◌, ◌<◌, length, get_or, drop, cond};
ghost use Rattle.refusal.specs.Answer.{answer_of};
ghost use Rattle.lines.specs.Bytes.{between, capital, digit, literally, begins};
ghost use Rattle.lines.specs.Lines.{end_bytes, blank, is_end, opens};
ghost use Rattle.lines.specs.Check.{check_text};
ghost use Rattle.lines.specs.Spans.{span_at, part, end_at};
ghost use Rattle.lines.specs.Lines.{ends_line};
ghost use Rattle.lines.specs.Printables.{printables};

use refusal::{Reason, Refusal};

// A line's places: its bytes are start..end, and the next line starts at next; and how it ended.
#[derive(Clone, Copy)]
pub struct Span {
    pub start: usize,
    pub end: usize,
    pub next: usize,
    pub ended: End,
}

// How a line ended; Nothing is that of a last line that does not end.
#[derive(Clone, Copy, PartialEq, Eq)]
pub enum End {
    Lf,
    CrLf,
    CrCrLf,
    Nothing,
}

impl End {
    // How many bytes it has.
    pub fn length(self) -> usize
        ensures is { result ≡ length (end_bytes self) }
        ensures most { result ≤ 3 }
    {
        match self {
            End::Lf => 1,
            End::CrLf => 2,
            End::CrCrLf => 3,
            End::Nothing => 0,
        }
    }

    // Whether it is one of the three.
    pub fn is_ended(self) -> bool
        ensures { result ≡ ends_line self }
    {
        self != End::Nothing
    }
}

pub fn capital(b: u8) -> bool
    ensures { result ≡ capital b }
{
    b.is_ascii_uppercase()
}

pub fn digit(b: u8) -> bool
    ensures { result ≡ digit b }
{
    b.is_ascii_digit()
}

fn printable(b: u8) -> bool
    ensures { result ≡ between 32 126 b }
{
    matches!(b, b' '..=b'~')
}

// The byte at i, or 0 past the end.
pub fn byte(s: &[u8], i: usize) -> u8
    ensures { result ≡ get_or s.now i 0 }
{
    s.get(i).copied().unwrap_or(0)
}

// The bytes from one place up to another, as far as the text has them.
pub fn part(text: &[u8], from: usize, to: usize) -> &[u8]
    ensures { result.now ≡ part text.now from to }
{
    text.get(from..to.min(text.len())).unwrap_or(&[])
}

// The line's end that stands at i: LF, CR LF, CR CR LF, or none.
#[tactic(auto, unfolding(crate::specs::Spans::end_at, crate::specs::Bytes::begins))]
pub fn find_ending(text: &[u8], i: usize) -> End
    ensures { result ≡ end_at (drop i text.now) }
{
    match text.get(i..).unwrap_or(&[]) {
        [b'\n', ..] => End::Lf,
        [b'\r', b'\n', ..] => End::CrLf,
        [b'\r', b'\r', b'\n', ..] => End::CrCrLf,
        _ => End::Nothing,
    }
}

// How many of the bytes at the front are printable, looked at one by one.
fn printables_singly(bytes: &[u8]) -> usize
    ensures { result ≡ printables bytes.now }
{
    bytes.iter().take_while(|b| printable(**b)).count()
}

// The same of sixty-four bytes. None of them ends the loop, so that they are looked at together, a vector at a time. The compiler unrolls a loop
// over sixteen or thirty-two, and makes a chain of tests of it.
fn printables_in_block(block: &[u8; 64]) -> u8
    ensures { result ≡ printables block.now }
{
    let mut first = 64;
    for k in 0..64 {
        let end = if printable(block[k as usize]) { 64 } else { k };
        first = first.min(end);
    }
    first
}

// How many of the bytes at the front are printable. The first four are looked at one by one: short lines end there, and sixty-four bytes would be
// looked at for nothing.
#[tactic(auto, using(crate::proofs::Scans::most, crate::proofs::Scans::printables_take))]
fn printables(bytes: &[u8]) -> usize
    ensures is { result ≡ printables bytes.now }
    ensures most { result ≤ length bytes.now }
{
    let near = printables_singly(&bytes[..bytes.len().min(4)]);
    if near < 4 {
        return near;
    }
    let (blocks, rest) = bytes[4..].as_chunks();
    let mut passed = 4;
    for block in blocks {
        let k = printables_in_block(block);
        if k < 64 {
            return passed + k as usize;
        }
        passed += 64;
    }
    passed + printables_singly(rest)
}

// The first place from `at` on whose byte is not printable, or the text's end.
fn printable_end(text: &[u8], at: usize) -> usize
    requires { at ≤ length text.now }
    ensures is { result ≡ at + printables (drop at text.now) }
    ensures most { result ≤ length text.now }
{
    at + printables(&text[at..])
}

fn line(start: usize, end: usize, next: usize, ended: End) -> Option<Span>
    ensures { result ≡ Some (record { start = start; end = end; next = next; ended = ended }) }
{
    Some(Span {
        start,
        end,
        next,
        ended,
    })
}

// The line that starts at `at`, if one starts there.
pub fn find_line(text: &[u8], at: usize) -> Option<Span>
    ensures { result ≡ span_at text.now at }
{
    if text.len() <= at {
        return None;
    }
    let mut from = at;
    loop {
        let end = printable_end(text, from);
        // The last line may be without an end: the next one would start where its bytes end.
        if text.len() <= end {
            return line(at, end, end, End::Nothing);
        }
        let ended = find_ending(text, end);
        if ended.is_ended() {
            return line(at, end, end + ended.length(), ended);
        }
        // A byte that is not printable and ends no line: the line goes on behind it.
        from = end + 1;
    }
}

pub fn is_blank(line: &[u8]) -> bool
    ensures { result ≡ blank line.now }
{
    line.iter().all(|b| *b == b' ')
}

// Whether the line begins with these bytes.
pub fn begins_with(line: &[u8], word: &[u8]) -> bool
    ensures { result ≡ begins (literally word.now) line.now }
{
    line.starts_with(word)
}

// Whether the line is exactly `$$`.
#[tactic(auto, unfolding(crate::specs::Lines::is_end, crate::specs::Bytes::exactly))]
pub fn is_end(line: &[u8]) -> bool
    ensures { result ≡ is_end line.now }
{
    matches!(line, b"$$")
}

// Whether the line opens a place code block.
#[tactic(auto, unfolding(crate::specs::Lines::opens, crate::specs::Bytes::begins))]
pub fn opens_block(line: &[u8]) -> bool
    ensures { result ≡ opens line.now }
{
    let [s, t, b'C' | b'Z', x, y, z, b'-' | b'>', ..] = *line else {
        return false;
    };
    let three_digits = digit(x) && digit(y) && digit(z);
    capital(s) && capital(t) && (three_digits || [x, y, z] == *b"ALL")
}

// Refusal 2, line by line: at most 132 printable bytes, and behind them the line's end.
pub fn check_text(text: &[u8]) -> Result<(), Refusal>
    ensures { answer_of result ≡ check_text text.now }
{
    let mut start = 0;
    while start < text.len() {
        let end = printable_end(text, start);
        if 132 < end - start {
            return Err(Reason::WrongText.at(start + 132));
        }
        let ended = find_ending(text, end);
        if !ended.is_ended() {
            return Err(Reason::WrongText.at(end));
        }
        start = end + ended.length();
    }
    Ok(())
}
