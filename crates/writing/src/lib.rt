// The written form of a place code block: document 01, "Written form".
#![tactic(auto)]

ghost use Rattle.std.specs.Prelude.{◌≡◌, true, cond, [], ◌∷◌, ◌+◌, ◌*◌, ◌%◌, ◌≤◌, ◌<◌, length, get_or, take};
ghost use Rattle.std.proofs.lemmas.List.Edits.{sets};
ghost use Rattle.lines.specs.Lines.{end_bytes};
ghost use Rattle.calendar.specs.Calendar.{is_time};
ghost use Rattle.codes.specs.Places.{prefixes, places_end, two_bytes, three_bytes, prefix_bytes, is_set};
ghost use Rattle.codes.specs.Written.{joins, parted, new_prefix, up_to, element_of, elements_of, purge_element, written_most, written};
ghost use Rattle.writing.specs.Ink.{Open};
ghost use Rattle.writing.specs.Write.{WritesEnded, Writes};
ghost use Rattle.writing.specs.Pen.{Stored, element_most, run_from, Room, ink_most, Inked, FineState, Turned, close_most, Closed, block_most, Composed};

use calendar::Stamp;
use lines::End;
use refusal::{Reason, Refusal};

// ZZZ999 is the last place before this number.
const PLACES_END: u32 = 1352000;

// A segment has at most so many places.
const CAPACITY: usize = 120;

// A line has at most so many bytes.
const WRITTEN_MOST: usize = 66;

// A purge has so many bytes, `DDHHMM-`.
const PURGE_LENGTH: usize = 7;

// Where the next byte goes, and how many bytes its line has. How lines end is handed on beside it: in the pen it would be copied at every element.
#[derive(Clone, Copy)]
struct Pen {
    pos: usize,
    col: usize,
}

// Places that follow each other: `lo` and so many more.
#[derive(Clone, Copy)]
struct Run {
    lo: u32,
    more: u32,
}

// A run that is still open, after what the pen has written, and the prefix of its last element.
#[derive(Clone, Copy)]
struct State {
    pen: Pen,
    last: Option<usize>,
    run: Run,
}

// Whether these are the places of a segment: at least one and at most 120, strictly ascending.
fn is_set(places: &[u32]) -> bool
    ensures { result ≡ is_set places.now }
{
    let n = places.len();
    if n < 1 || CAPACITY < n {
        return false;
    }
    // By index, since a loop over pairs takes them one by one. This one has no way out, and takes several at a time.
    let mut good = true;
    for i in 1..n {
        good &= places[i - 1] < places[i];
    }
    good & (places[n - 1] < PLACES_END)
}

// Whether p is the prefix of the last element.
fn is_last(last: Option<usize>, p: u32) -> bool
    ensures { new_prefix last p ≡ cond result [] (prefix_bytes p) }
{
    last == Some(p as usize)
}

// Copies bytes to pos, and answers the place behind them. One by one: `copy_from_slice` is here a call of memmove, which the archive for C would need from outside.
pub fn put(out: &mut [u8], pos: usize, bytes: &[u8]) -> usize
    requires { pos + length bytes.now ≤ length out.old }
    ensures { Stored out.old out.new pos result bytes.now }
{
    for i in 0..bytes.len() {
        out[pos + i] = bytes[i];
    }
    pos + bytes.len()
}

fn put_two(out: &mut [u8], pos: usize, n: usize) -> usize
    requires { (pos + 2 ≤ length out.old) × (n ≤ 99) }
    ensures { Stored out.old out.new pos result (two_bytes n) }
{
    let tens = b'0' + (n / 10) as u8;
    let ones = b'0' + (n % 10) as u8;
    put(out, pos, &[tens, ones])
}

fn put_three(out: &mut [u8], pos: usize, n: u32) -> usize
    requires { (pos + 3 ≤ length out.old) × (n ≤ 999) }
    ensures { Stored out.old out.new pos result (three_bytes n) }
{
    let hundreds = b'0' + (n / 100) as u8;
    let tens = b'0' + (n / 10 % 10) as u8;
    let ones = b'0' + (n % 10) as u8;
    put(out, pos, &[hundreds, tens, ones])
}

// The third letter of a prefix.
fn kind(p: u32) -> u8
    ensures { result ≡ get_or (prefix_bytes p) 2 0 }
{
    if p % 2 == 0 {
        return b'C';
    }
    b'Z'
}

fn put_prefix(out: &mut [u8], pos: usize, p: u32) -> usize
    requires { (pos + 3 ≤ length out.old) × (p < prefixes) }
    ensures { Stored out.old out.new pos result (prefix_bytes p) }
{
    let first = b'A' + (p / 52) as u8;
    let second = b'A' + (p / 2 % 26) as u8;
    put(out, pos, &[first, second, kind(p)])
}

// The prefix, unless it is that of the last element.
fn put_new_prefix(out: &mut [u8], pos: usize, last: Option<usize>, p: u32) -> usize
    requires { (pos + 3 ≤ length out.old) × (p < prefixes) }
    ensures stored { Stored out.old out.new pos result (new_prefix last p) }
    ensures most { result ≤ pos + 3 }
{
    if is_last(last, p) {
        return pos;
    }
    put_prefix(out, pos, p)
}

// The end of a range of so many more after n; a single number has none.
fn put_end(out: &mut [u8], pos: usize, n: u32, more: u32) -> usize
    requires { (pos + 4 ≤ length out.old) × (n + more ≤ 999) }
    ensures stored { Stored out.old out.new pos result (up_to n more) }
    ensures most { result ≤ pos + 4 }
{
    if more == 0 {
        return pos;
    }
    out[pos] = b'>';
    put_three(out, pos + 1, n + more)
}

// The element of a run.
fn put_element(out: &mut [u8], pos: usize, last: Option<usize>, run: Run) -> usize
    requires room { pos + element_most ≤ length out.old }
    requires run { (run.lo < places_end) × (run.lo % 1000 + run.more ≤ 999) }
    ensures { Stored out.old out.new pos result (element_of last (run_from run.lo run.more)) }
{
    let n = run.lo % 1000;
    let number = put_new_prefix(out, pos, last, run.lo / 1000);
    let range = put_three(out, number, n);
    let end = put_end(out, range, n, run.more);
    out[end] = b'-';
    end + 1
}

fn new_prefix_length(last: Option<usize>, p: u32) -> usize
    ensures value { result ≡ length (new_prefix last p) }
    ensures most { result ≤ 3 }
{
    if is_last(last, p) {
        return 0;
    }
    3
}

// How many bytes the element of a run has, `nnn-` or `nnn>mmm-` behind its prefix.
fn element_length(last: Option<usize>, run: Run) -> usize
    ensures value { result ≡ length (element_of last (run_from run.lo run.more)) }
    ensures most { result ≤ element_most }
{
    let n = new_prefix_length(last, run.lo / 1000);
    if run.more == 0 {
        return n + 4;
    }
    n + 8
}

fn put_purge(out: &mut [u8], pos: usize, stamp: Stamp) -> usize
    requires { (pos + element_most ≤ length out.old) × (is_time stamp ≡ true) }
    ensures { Stored out.old out.new pos result (purge_element stamp) }
{
    let hour = put_two(out, pos, stamp.day);
    let minute = put_two(out, hour, stamp.hour);
    let end = put_two(out, minute, stamp.minute);
    out[end] = b'-';
    end + 1
}

fn end_line(out: &mut [u8], pos: usize, end: End) -> usize
    requires { pos + 3 ≤ length out.old }
    ensures stored { Stored out.old out.new pos result (end_bytes end) }
    ensures most { result ≤ pos + 3 }
{
    match end {
        End::Lf => put(out, pos, b"\n"),
        End::CrLf => put(out, pos, b"\r\n"),
        End::CrCrLf => put(out, pos, b"\r\r\n"),
        End::Nothing => pos,
    }
}

fn joins(p: u32, q: u32) -> bool
    requires { p < places_end }
    ensures { result ≡ joins p q }
{
    (p + 1 == q) & (p % 1000 != 0) & (q % 1000 != 0)
}

impl Run {
    // One place alone.
    fn single(lo: u32) -> Run
        ensures { result ≡ record { lo = lo; more = 0 } }
    {
        Run { lo, more: 0 }
    }
}

impl Pen {
    // Where an element of n bytes goes: in this line, or in a new one if it would carry this one too far.
    fn make_room(self, out: &mut [u8], n: usize, end: End) -> Pen
        requires { (n ≤ element_most) × (self.pos + 3 ≤ length out.old) × (self.col ≤ written_most) }
        ensures { Room end out.old out.new self result n }
    {
        if self.col + n <= WRITTEN_MOST {
            return self;
        }
        let start = end_line(out, self.pos, end);
        Pen { pos: start, col: 0 }
    }

    // Sets the element of a run in the line, or in a new one.
    fn add(self, out: &mut [u8], last: Option<usize>, run: Run, end: End) -> Pen
        requires run { (run.lo < places_end) × (run.lo % 1000 + run.more ≤ 999) }
        requires room { (self.pos + ink_most ≤ length out.old) × (self.col ≤ written_most) }
        ensures { Inked end out.old out.new self result (element_of last (run_from run.lo run.more) ∷ []) }
    {
        let n = element_length(last, run);
        let at = self.make_room(out, n, end);
        let pos = put_element(out, at.pos, last, run);
        Pen {
            pos,
            col: at.col + n,
        }
    }

    // The same of the purge.
    fn add_purge(self, out: &mut [u8], stamp: Stamp, end: End) -> Pen
        requires { (is_time stamp ≡ true) × (self.pos + ink_most ≤ length out.old) × (self.col ≤ written_most) }
        ensures { Inked end out.old out.new self result (purge_element stamp ∷ []) }
    {
        let at = self.make_room(out, PURGE_LENGTH, end);
        let pos = put_purge(out, at.pos, stamp);
        Pen {
            pos,
            col: at.col + PURGE_LENGTH,
        }
    }

    // Writes a run: one of two as two singles, any other as one element.
    fn flush(self, out: &mut [u8], last: Option<usize>, run: Run, end: End) -> Pen
        requires run { Open run.lo run.more × (run.lo + run.more < places_end) }
        requires room { (self.pos + 2 * ink_most ≤ length out.old) × (self.col ≤ written_most) }
        ensures inked { Inked end out.old out.new self result (elements_of last (parted run.lo run.more)) }
        ensures most { result.pos ≤ self.pos + 2 * ink_most }
    {
        if run.more == 1 {
            let under = (run.lo / 1000) as usize;
            let next = self.add(out, last, Run::single(run.lo), end);
            return next.add(out, Some(under), Run::single(run.lo + 1), end);
        }
        self.add(out, last, run, end)
    }
}

impl State {
    // The next place: it joins the open run, or that is written and the place opens another.
    fn turn(self, out: &mut [u8], q: u32, end: End) -> State
        requires { FineState self × (q < places_end) × (self.pen.pos + 2 * ink_most ≤ length out.old) }
        ensures { Turned end out.old out.new self result q }
    {
        let State { pen, last, run } = self;
        let Run { lo, more } = run;
        if joins(lo + more, q) {
            return State {
                pen,
                last,
                run: Run { lo, more: more + 1 },
            };
        }
        let next = pen.flush(out, last, run, end);
        let under = (lo / 1000) as usize;
        State {
            pen: next,
            last: Some(under),
            run: Run::single(q),
        }
    }

    // The open run, the purge and the line's end.
    fn close(self, out: &mut [u8], stamp: Stamp, end: End) -> usize
        requires { FineState self × (is_time stamp ≡ true) × (self.pen.pos + close_most ≤ length out.old) }
        ensures { Closed end out.old out.new self stamp result }
    {
        let a = self.pen.flush(out, self.last, self.run, end);
        let b = a.add_purge(out, stamp, end);
        end_line(out, b.pos, end)
    }
}

// Writes the block of these places and this purge to the front of out.
fn compose(out: &mut [u8], places: &[u32], stamp: Stamp, end: End) -> usize
    requires places_value { is_set places.now ≡ true }
    requires stamp_value { is_time stamp ≡ true }
    requires block_most_in_bounds { block_most ≤ length out.old }
    ensures { Composed out.old out.new (written end places.now stamp) result }
{
    let mut s = State {
        pen: Pen { pos: 0, col: 0 },
        last: None,
        run: Run::single(places[0]),
    };
    for place in &places[1..] {
        s = s.turn(out, *place, end);
    }
    s.close(out, stamp, end)
}

// Writes the block of these places and this purge minute to the front of out, its lines ending so, and answers its length. It is composed apart, so that an output that is
// too short stays as it was.
pub fn write_ended(out: &mut [u8], places: &[u32], purge: usize, end: End) -> Result<usize, Refusal>
    ensures { WritesEnded end out.old out.new places.now purge result }
{
    if !is_set(places) {
        return Err(Reason::OutOfRange.into());
    }
    let date = calendar::date_of(purge).ok_or(Reason::OutOfRange)?;
    let mut block = [0u8; 2048];
    let n = compose(&mut block, places, date.stamp, end);
    if out.len() < n {
        return Err(Reason::OutputShort.into());
    }
    out[..n].copy_from_slice(&block[..n]);
    Ok(n)
}

// The write call's block, whose lines end CR CR LF.
pub fn write_block(out: &mut [u8], places: &[u32], purge: usize) -> Result<usize, Refusal>
    ensures { Writes out.old out.new places.now purge result }
{
    write_ended(out, places, purge, End::CrCrLf)
}
