// Place code blocks, read: document 01, "Segments and place code blocks".
#![tactic(auto)]

ghost use Rattle.std.specs.Prelude.{◌≡◌, ◌+◌, ◌-◌, ◌≤◌, ◌<◌, true, cond, eqb, length, drop};
ghost use Rattle.lines.specs.Bytes.{word, begins};
ghost use Rattle.lines.specs.Lines.{prefix_form, three_digits};
ghost use Rattle.codes.specs.Places.{prefix_of, two_of, three_of};
ghost use Rattle.codes.specs.Elements.{single_form, range_form, purge_form, numbers, said};
ghost use Rattle.codes.specs.Cursor.{element_at, covered_at, Usual, purge_at, past_end, last_of_line, step_at};

use calendar::Stamp;

// What an element covers: under a prefix, the numbers from one to another, with the place behind the element. The purge and a wrong one cover nothing.
#[derive(Clone, Copy)]
struct Covered {
    prefix: usize,
    first: usize,
    last: usize,
    after: usize,
}

// The reading place: it stands at an element's first byte.
#[derive(Clone, Copy)]
pub struct Cursor {
    pub at: usize,
    pub last: Option<usize>,
}

// What the element at the reading place says, under a prefix the numbers from one to another, and the place moved past it. The numbers are as wide as places: two of 32
// bits, stored one by one and read back as one word, would stall the machine. For the same reason a loop puts its next place together from the prefix and `next.at`:
// copied, it would wait for the byte that tells which case `last` is.
#[derive(Clone, Copy)]
pub enum Step {
    Covers(usize, usize, usize, Cursor),
    // DDHHMM, and the place of its element.
    Purge(Stamp, usize),
    Wrong(usize),
}

fn less(b: u8, c: u8) -> u32
    ensures is { result ≡ b - c }
    ensures most { result ≤ 255 }
{
    if b < c { 0 } else { (b - c) as u32 }
}

// The number that three bytes spell, from byte i on.
fn three(text: &[u8], i: usize) -> usize
    requires { i + 3 ≤ length text.now }
    ensures { result ≡ three_of (drop i text.now) }
{
    let x = less(text[i], 48);
    let y = less(text[i + 1], 48);
    let z = less(text[i + 2], 48);
    (100 * x + 10 * y + z) as usize
}

// The number that two bytes spell, from byte k on.
pub fn two(e: &[u8], k: usize) -> usize
    ensures is { result ≡ two_of (drop k e.now) }
    ensures most { result ≤ 2805 }
{
    if e.len() <= k {
        return 0;
    }
    let x = less(lines::byte(e, k), 48);
    let y = less(lines::byte(e, k + 1), 48);
    (10 * x + y) as usize
}

// C is 0, Z is 1.
fn kind(f: u8) -> u32
    ensures is { result ≡ cond (eqb f 90) 1 0 }
    ensures most { result ≤ 1 }
{
    if f == 90 { 1 } else { 0 }
}

// The prefix that three bytes spell, from byte i on.
fn prefix(text: &[u8], i: usize) -> usize
    requires { i + 3 ≤ length text.now }
    ensures { result ≡ prefix_of (drop i text.now) }
{
    let s = less(text[i], 65);
    let t = less(text[i + 1], 65);
    let f = kind(text[i + 2]);
    ((26 * s + t) * 2 + f) as usize
}

// The forms of an element. None has a `-` or a byte of a line's end before its last byte: where a form stands, its element is just those bytes, and
// nothing has to look for the element's end.

// Whether three digits stand from i on.
fn digits(text: &[u8], i: usize) -> bool
    requires { i + 3 ≤ length text.now }
    ensures { result ≡ begins three_digits (drop i text.now) }
{
    lines::digit(text[i]) & lines::digit(text[i + 1]) & lines::digit(text[i + 2])
}

// `nnn-`. Its last byte tells most others.
fn is_single(text: &[u8], i: usize) -> bool
    requires { i ≤ length text.now }
    ensures { result ≡ begins single_form (drop i text.now) }
{
    if text.len() - i < 4 {
        return false;
    }
    if text[i + 3] == b'-' {
        return digits(text, i);
    }
    false
}

// `ALL-`. Few elements begin with an A.
fn is_all(text: &[u8], i: usize) -> bool
    requires { i ≤ length text.now }
    ensures { result ≡ begins (word "ALL-") (drop i text.now) }
{
    if text.len() - i < 4 {
        return false;
    }
    if text[i] == b'A' {
        return (text[i + 1] == b'L') & (text[i + 2] == b'L') & (text[i + 3] == b'-');
    }
    false
}

// `nnn>mmm-`
fn is_range(text: &[u8], i: usize) -> bool
    requires { i ≤ length text.now }
    ensures { result ≡ begins range_form (drop i text.now) }
{
    if text.len() - i < 8 {
        return false;
    }
    digits(text, i) & (text[i + 3] == b'>') & digits(text, i + 4) & (text[i + 7] == b'-')
}

// `DDHHMM-`
fn is_purge(text: &[u8], i: usize) -> bool
    requires { i ≤ length text.now }
    ensures { result ≡ begins purge_form (drop i text.now) }
{
    if text.len() - i < 7 {
        return false;
    }
    digits(text, i) & digits(text, i + 3) & (text[i + 6] == b'-')
}

// Two capitals and C or Z. Most elements are short and begin with a digit: one byte tells.
fn is_full(text: &[u8], i: usize) -> bool
    requires { i ≤ length text.now }
    ensures { result ≡ begins prefix_form (drop i text.now) }
{
    if text.len() - i < 3 {
        return false;
    }
    if lines::capital(text[i]) {
        let f = text[i + 2];
        return lines::capital(text[i + 1]) & ((f == 67) | (f == 90));
    }
    false
}

// `nnn-`, which stands at i, under the prefix p.
fn single(text: &[u8], i: usize, p: usize) -> Option<Covered>
    requires within { i ≤ length text.now }
    requires stands { begins single_form (drop i text.now) ≡ true }
    ensures { result ≡ covered_at text.now i (numbers p (element_at text.now i)) }
{
    let n = three(text, i);
    Some(Covered {
        prefix: p,
        first: n,
        last: n,
        after: i + 4,
    })
}

// `nnn>mmm-`, which stands at i, under the prefix p.
fn range(text: &[u8], i: usize, p: usize) -> Option<Covered>
    requires within { i ≤ length text.now }
    requires stands { begins range_form (drop i text.now) ≡ true }
    ensures { result ≡ covered_at text.now i (numbers p (element_at text.now i)) }
{
    let first = three(text, i);
    let last = three(text, i + 4);
    if (1 <= first) & (first < last) {
        return Some(Covered {
            prefix: p,
            first,
            last,
            after: i + 8,
        });
    }
    None
}

// `nnn`, `ALL` or `nnn>mmm`, each with its `-`, from i on, under the prefix p.
fn numbers(text: &[u8], i: usize, p: usize) -> Option<Covered>
    requires { i ≤ length text.now }
    ensures { result ≡ covered_at text.now i (numbers p (element_at text.now i)) }
{
    if is_single(text, i) {
        return single(text, i, p);
    }
    if is_all(text, i) {
        return Some(Covered {
            prefix: p,
            first: 0,
            last: 0,
            after: i + 4,
        });
    }
    if is_range(text, i) {
        return range(text, i, p);
    }
    None
}

// What the element at `at` covers under the last prefix.
fn read_any(text: &[u8], at: usize, last: Option<usize>) -> Option<Covered>
    requires { at ≤ length text.now }
    ensures { result ≡ covered_at text.now at (said last (element_at text.now at)) }
{
    // A full element's own prefix stands in front of its numbers; those of a short one stand under the last. One call reads both.
    let mut under = last;
    let mut i = at;
    if is_full(text, at) {
        under = Some(prefix(text, at));
        i = at + 3;
    }
    let p = under?;
    numbers(text, i, p)
}

// What the element at `at` covers, if it is one of the most usual: `nnn-` or `nnn>mmm-` under the last prefix p. Of any other nothing is said.
fn read_usual(text: &[u8], at: usize, p: usize) -> Option<Covered>
    requires { at ≤ length text.now }
    ensures { Usual text.now at p result }
{
    if is_single(text, at) {
        return single(text, at, p);
    }
    if is_range(text, at) {
        return range(text, at, p);
    }
    None
}

// The place of the element behind one that runs up to `after`: past the line's end, if one stands there.
fn past_end(text: &[u8], after: usize) -> usize
    ensures { result ≡ past_end text.now after }
{
    after + lines::find_ending(text, after).length()
}

// Whether an element that runs up to `after` is the last of its line.
fn is_last(text: &[u8], after: usize) -> bool
    ensures { result ≡ last_of_line text.now after }
{
    lines::find_ending(text, after).is_ended() || text.len() <= after
}

// The step over `DDHHMM-`, which stands at `at`. It must be in its ranges, and the last of its line.
fn purge(text: &[u8], at: usize) -> Step
    requires within { at ≤ length text.now }
    requires stands { begins purge_form (drop at text.now) ≡ true }
    ensures { result ≡ purge_at text.now at }
{
    let s = Stamp {
        day: two(text, at),
        hour: two(text, at + 2),
        minute: two(text, at + 4),
    };
    if calendar::is_time(s) {
        if is_last(text, at + 7) {
            return Step::Purge(s, at);
        }
        return Step::Wrong(at + 7);
    }
    Step::Wrong(at)
}

// The step over an element that covers nothing: the purge, or a wrong one.
fn read_purge(text: &[u8], at: usize) -> Step
    requires { at ≤ length text.now }
    ensures { result ≡ purge_at text.now at }
{
    if is_purge(text, at) {
        return purge(text, at);
    }
    Step::Wrong(at)
}

impl Cursor {
    pub fn step(self, text: &[u8]) -> Step
        ensures { result ≡ step_at text.now self }
    {
        let at = self.at;
        let last = self.last;
        let n = text.len();
        if n <= at {
            return Step::Wrong(n);
        }
        let Some(covered) = read_any(text, at, last) else {
            return read_purge(text, at);
        };
        let prefix = covered.prefix;
        let next = Cursor {
            at: past_end(text, covered.after),
            last: Some(prefix),
        };
        Step::Covers(prefix, covered.first, covered.last, next)
    }

    // The same step, fast for the most usual elements. It is small and for one caller: there it is part of the loop.
    pub fn quick_step(self, text: &[u8]) -> Step
        ensures { result ≡ step_at text.now self }
    {
        let at = self.at;
        let last = self.last;
        let Some(p) = last else {
            return self.step(text);
        };
        if text.len() <= at {
            return self.step(text);
        }
        let Some(usual) = read_usual(text, at, p) else {
            return self.step(text);
        };
        let prefix = usual.prefix;
        let next = Cursor {
            at: past_end(text, usual.after),
            last: Some(prefix),
        };
        Step::Covers(prefix, usual.first, usual.last, next)
    }
}
