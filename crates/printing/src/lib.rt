// What the programs read and print: the time that a bulletin is read under, and the listing of a bulletin.
#![tactic(auto)]

ghost use Rattle.std.specs.Prelude.{◌≡◌, ◌<◌, ◌≤◌, length, get_or, take, IfOk, OnOk};
ghost use Rattle.std.specs.Io.KnownBytes.{Appends, Consumes, IsAtEnd};
ghost use Rattle.lines.specs.Bytes.{digit};
ghost use Rattle.sets.specs.Held.{Good};
ghost use Rattle.printing.specs.Asked.{asked_of};
ghost use Rattle.printing.specs.Answer.{refusal_line, segment_front};

use bulletin::Head;
use heading::{Bbb, Storm};
use refusal::Refusal;
use segments::Segment;
use sets::Places;
use std::io;
use std::io::{Read, Write};

// The time that a bulletin is read under.
#[derive(Clone, Copy)]
pub struct YearMonth {
    pub year: usize,
    pub month: usize,
}

fn is_digit(input: &[u8], k: usize) -> bool
    ensures { result ≡ digit (get_or input.now k 0) }
{
    lines::digit(lines::byte(input, k))
}

// The year and month that the first line names.
pub fn read_asked(input: &[u8]) -> Option<YearMonth>
    ensures { result ≡ asked_of input.now }
{
    let a = is_digit(input, 0);
    let b = is_digit(input, 1);
    let c = is_digit(input, 2);
    let d = is_digit(input, 3);
    let space = lines::byte(input, 4);
    let e = is_digit(input, 5);
    let f = is_digit(input, 6);
    let end = lines::byte(input, 7);
    if (a & b & c & d) & (space == 32) & (e & f) & (end == 10) {
        return Some(YearMonth {
            year: 100 * codes::two(input, 0) + codes::two(input, 2),
            month: codes::two(input, 5),
        });
    }
    None
}

// Reads until the buffer is full or the input ends, and answers how many bytes it put at the buffer's start.
pub fn read_full<R: Read>(input: &mut R, buf: &mut [u8]) -> io::Result<usize>
    ensures in_bounds { IfOk result (λ n. n ≤ length buf.new) }
    ensures bytes { IfOk result (λ n. Consumes (R.remaining input.old) (R.remaining input.new) (take n buf.new)) }
    ensures end { IfOk result (λ n. n < length buf.new → IsAtEnd (R.remaining input.new)) }
{
    let mut done = 0;
    while done < buf.len() {
        let n = input.read(&mut buf[done..])?;
        if n == 0 {
            return Ok(done);
        }
        done += n;
    }
    Ok(done)
}

// A write that fails answers its error, which is of I/O and no other; a front part of what was to be printed may then stand in the writer. So it is with each function
// here that prints.
pub fn say<W: Write>(out: &mut W, text: &[u8]) -> io::Result<()>
    ensures { OnOk result (Appends (W.contents out.old) (W.contents out.new) text.now) }
{
    out.write_all(text)
}

// `R`, the number and the place.
pub fn say_refusal<W: Write>(out: &mut W, r: Refusal) -> io::Result<()>
    ensures { OnOk result (Appends (W.contents out.old) (W.contents out.new) (refusal_line r)) }
{
    writeln!(out, "R {} {}", r.reason.number(), r.place)
}

fn say_bbb<W: Write>(out: &mut W, bbb: Option<Bbb>) -> io::Result<()> {
    match bbb {
        None => say(out, b"-"),
        Some(bbb) => write!(out, "{bbb}"),
    }
}

fn say_storm<W: Write>(out: &mut W, storm: Storm) -> io::Result<()> {
    match storm {
        Storm::None => say(out, b"-"),
        Storm::Found(id) => write!(out, "{id}"),
    }
}

// The line that starts at `at`, without its end.
fn say_line<W: Write>(out: &mut W, text: &[u8], at: usize) -> io::Result<()> {
    if let Some(line) = lines::find_line(text, at) {
        say(out, lines::part(text, line.start, line.end))?;
    }
    Ok(())
}

// The heading's three fields, BBB or `-`, the identifier, the storm or `-`.
fn say_head<W: Write>(out: &mut W, text: &[u8], head: Head) -> io::Result<()> {
    write!(out, "H ")?;
    say(out, lines::part(text, 0, 18))?;
    write!(out, " ")?;
    say_bbb(out, head.heading.bbb)?;
    write!(out, " ")?;
    say_line(out, text, head.identifier)?;
    write!(out, " ")?;
    say_storm(out, head.storm)?;
    writeln!(out)
}

// Takes the line ends out of the first n bytes, and answers how many bytes are left.
fn strip(block: &mut [u8], n: usize) -> usize
    requires { n ≤ length block.old }
    ensures { result ≤ n }
{
    let mut kept = 0;
    // By index: the bytes that stay move down within the same array.
    for i in 0..n {
        let b = block[i];
        if 13 < b {
            block[kept] = b;
            kept += 1;
        }
    }
    kept
}

// The written block of these places, without line ends.
fn say_block<W: Write>(out: &mut W, places: Places, purge: usize) -> io::Result<()>
    requires { Good places }
{
    let mut block = [0u8; 2048];
    let held = places.held;
    if let Ok(n) = writing::write_block(&mut block, &held[0..places.count], purge) {
        if n <= 2048 {
            let kept = strip(&mut block, n);
            say(out, &block[0..kept])?;
        }
    }
    Ok(())
}

// The front of a segment's line: its number, purge minute and count.
fn say_front<W: Write>(out: &mut W, n: usize, segment: Segment) -> io::Result<()>
    ensures { OnOk result (Appends (W.contents out.old) (W.contents out.new) (segment_front n segment)) }
{
    write!(out, "S {n} {} {} ", segment.purge, segment.count)
}

// A segment's number, purge minute, count and written block without line ends.
fn say_segment<W: Write>(
    out: &mut W,
    text: &[u8],
    issue: usize,
    number: usize,
    segment: Segment,
) -> io::Result<()> {
    say_front(out, number, segment)?;
    if let Ok(content) = reading::read_content(text, segment.start, issue) {
        say_block(out, content.places, segment.purge)?;
    }
    writeln!(out)
}

// The listing of a bulletin, read under a year and a month: nothing is printed before the whole answer is known.
pub fn list<W: Write>(out: &mut W, text: &[u8], year: usize, month: usize) -> io::Result<()> {
    match bulletin::read(text, year, month) {
        Err(r) => say_refusal(out, r),
        Ok(bulletin) => {
            let head = bulletin.head;
            let segments = bulletin.segments;
            let held = segments.held;
            say_head(out, text, head)?;
            for (i, segment) in held[..segments.count].iter().enumerate() {
                say_segment(out, text, head.issue, i + 1, *segment)?;
            }
            Ok(())
        }
    }
}
