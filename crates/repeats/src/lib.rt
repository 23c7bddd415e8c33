// The first element of a block that covers a place already covered, however many places the block has: document 02, R-3.
#![tactic(auto)]

ghost use Rattle.std.specs.Prelude.{◌≡◌, not, [], ◌+◌, ◌-◌, ◌*◌, ◌≤◌, ◌<◌, eqb, length, get_or, set};
ghost use Rattle.std.specs.Prelude.{None};
ghost use Rattle.std.specs.Int.Bits.{bit_and, bit_or};
ghost use Rattle.codes.specs.Places.{prefixes};
ghost use Rattle.codes.specs.Serving.{Low};
ghost use Rattle.codes.specs.Block.{twice_at};
ghost use Rattle.repeats.specs.Marks.{window, window_words, from_up_to, Mask, Claims, Noted};
ghost use Rattle.repeats.specs.Passes.{earlier, nearest, coverings, rising, falling, first_twice};

use codes::{Cursor, Step};

// Whether every element starts behind the end of all before it, whether every one ends before the start of all before it, and the lowest
// prefix, or PAST.
#[derive(Clone, Copy)]
struct Outline {
    rises: bool,
    falls: bool,
    lowest: usize,
}

// What is found in a window, and the prefix from which the next one starts, or PAST.
#[derive(Clone, Copy)]
struct Pass {
    found: Option<usize>,
    next: usize,
}

// Prefixes, and places of each.
const PREFIXES: usize = 1352;

const PLACES: usize = 1000;

// Behind the last place.
const PLACES_END: usize = PREFIXES * PLACES;

// A window has so many prefixes, and so many words, with a bit for each of their places.
const WINDOW: usize = 271;

const WORDS: usize = 4235;

// Past the end of every window: where no prefix is left.
const PAST: usize = PREFIXES + WINDOW;

// The bits of a word from one up.
fn bits_from(from: usize) -> u64
    requires { from < 64 }
    ensures { Mask result from 63 }
{
    u64::MAX << from
}

// The bits of a word up to one.
fn bits_to(to: usize) -> u64
    requires { to < 64 }
    ensures { Mask result 0 to }
{
    u64::MAX >> (63 - to)
}

// Marks the places of a word that a mask has, and says whether one of them was marked already.
fn claim_word(marks: &mut [u64], k: usize, mask: u64) -> bool
    requires { k < length marks.old }
    ensures is { result ≡ not (eqb (bit_and (get_or marks.old k 0) mask) 0) }
    ensures sets { marks.new ≡ set marks.old k (bit_or (get_or marks.old k 0) mask) }
{
    let word = marks[k];
    marks[k] = word | mask;
    (word & mask) != 0
}

// Marks the places from one to another, word by word, unless one of them was marked already: then it stops there and says so.
fn claim(marks: &mut [u64], from: usize, to: usize) -> bool
    requires from_le_to { from ≤ to }
    requires to_bound { to < 64 * length marks.old }
    ensures { Claims marks.old from to marks.new result }
{
    let mut mask = bits_from(from % 64);
    for k in from / 64..to / 64 {
        if claim_word(marks, k, mask) {
            return true;
        }
        mask = u64::MAX;
    }
    claim_word(marks, to / 64, mask & bits_to(to % 64))
}

// Marks the places of an element whose prefix is in the window from `low` up, and says whether one of them was marked already.
fn note(marks: &mut [u64], low: usize, prefix: usize, first: usize, last: usize) -> bool
    requires marks_len { length marks.old ≡ window_words }
    requires low { Low prefix first last }
    ensures { Noted low prefix first last marks.old marks.new result }
{
    if prefix < low || low + WINDOW <= prefix {
        return false;
    }
    let base = (prefix - low) * PLACES;
    claim(marks, base + first, base + last)
}

// The nearest prefix from `end` on, of those so far and this one.
fn nearer(next: usize, end: usize, prefix: usize) -> usize
    ensures { result ≡ nearest next end prefix }
{
    if (end..next).contains(&prefix) {
        prefix
    } else {
        next
    }
}

// The first of the elements in the window from the prefix `low` up that covers a place already covered. No element stands under a prefix
// between the window and `next`.
fn twice_under(text: &[u8], at: usize, low: usize) -> Pass
    requires { low ≤ prefixes }
    ensures is { result.found ≡ first_twice (from_up_to low result.next) [] (coverings text.now at) }
    ensures more { low + window ≤ result.next }
{
    let end = low + WINDOW;
    let mut next = PAST;
    let mut cursor = Cursor { at, last: None };
    let mut marks: [u64; WORDS] = [0; WORDS];
    while let Step::Covers(prefix, first, last, after) = cursor.step(text) {
        if note(&mut marks, low, prefix, first, last) {
            // The elements behind it are not read: their prefixes are left to the windows that follow.
            return Pass {
                found: Some(cursor.at),
                next: end,
            };
        }
        next = nearer(next, end, prefix);
        cursor = Cursor {
            at: after.at,
            last: Some(prefix),
        };
    }
    Pass { found: None, next }
}

// The one that comes first in the text.
fn first_of(a: Option<usize>, b: Option<usize>) -> Option<usize>
    ensures { result ≡ earlier a b }
{
    match (a, b) {
        (Some(x), Some(y)) => Some(x.min(y)),
        _ => a.or(b),
    }
}

// A first reading of the block: most need no other.
fn survey(text: &[u8], at: usize) -> Outline
    ensures up { result.rises ≡ rising (coverings text.now at) }
    ensures down { result.falls ≡ falling (coverings text.now at) }
    ensures quiet { None ≡ first_twice (from_up_to 0 result.lowest) [] (coverings text.now at) }
{
    let mut seen = Outline {
        rises: true,
        falls: true,
        lowest: PAST,
    };
    // One more than the highest place so far while they rise, and the lowest one while they fall.
    let mut high: usize = 0;
    let mut low = PLACES_END;
    let mut cursor = Cursor { at, last: None };
    while let Step::Covers(prefix, first, last, after) = cursor.step(text) {
        let base = prefix * PLACES;
        let from = base + first;
        let to = base + last;
        seen.rises &= high <= from;
        seen.falls &= to < low;
        seen.lowest = nearer(seen.lowest, 0, prefix);
        high = to + 1;
        low = from;
        cursor = Cursor {
            at: after.at,
            last: Some(prefix),
        };
    }
    seen
}

// The first element of the block at a place of the text that covers a place already covered. Most blocks rise, and some
// fall: they repeat nothing. Any other is read once for each window that has elements.
pub fn first_twice(text: &[u8], at: usize) -> Option<usize>
    ensures { result ≡ twice_at text.now at }
{
    let outline = survey(text, at);
    if outline.rises || outline.falls {
        return None;
    }
    let mut best = None;
    let mut low = outline.lowest;
    while low < PREFIXES {
        let pass = twice_under(text, at, low);
        best = first_of(best, pass.found);
        low = pass.next;
    }
    best
}
