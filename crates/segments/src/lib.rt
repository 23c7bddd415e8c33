// The segments of a bulletin: the search over lines, and each segment in its turn. Document 01, "Segments and place code blocks".
#![tactic(auto)]

ghost use Rattle.std.specs.Prelude.{◌≡◌, ◌≤◌, ℕ, Bool, List, length};
ghost use Rattle.std.specs.Prelude.{Some, IfOk, OnErr};
ghost use Rattle.refusal.specs.Answer.{answer_by};
ghost use Rattle.codes.specs.Places.{capacity};
ghost use Rattle.lines.specs.Spans.{span_at};
ghost use Rattle.segments.specs.Segments.{most};
ghost use Rattle.segments.specs.Search.{from_first, after_first, closes};
ghost use Rattle.segments.specs.KeptAt.{keep_at};
ghost use Rattle.segments.specs.Searching.{Tests, lines_on, found_lines, Inside, next_in};
ghost use Rattle.segments.specs.Seen.{unread, segments_for, segments_held, Sized};
ghost use Rattle.segments.specs.Listing.{Begun, Stepped, seen_from};
ghost use Rattle.segments.specs.KeptBy.{kept_one, kept_by, kept_from, KeptSome, handed_on};

use lines::{End, Span};
use refusal::{Reason, Refusal};

// Whether the line closes the MND block.
pub fn closes(line: &[u8]) -> bool
    ensures { result ≡ closes line.now }
{
    lines::is_blank(line) || lines::is_end(line)
}

// The first line from `from` on, where a line starts, that passes the test `is_sought`.
// Document 01 names this form: a labelled break yields the found line, or none.
pub fn first<F: Fn(&[u8]) -> bool>(text: &[u8], from: usize, is_sought: F) -> Option<Span>
    requires { F.IsAlwaysCallable is_sought }
    ensures is { (p : List ℕ → Bool) → Tests F.Fn is_sought p → found_lines text.now result ≡ from_first p (lines_on text.now from) }
    ensures inside { Inside text.now from result }
{
    let mut at = from;
    let found = 'search: loop {
        let Some(l) = lines::find_line(text, at) else {
            break 'search None;
        };
        if is_sought(lines::part(text, at, l.end)) {
            break 'search Some(l);
        }
        at = l.next;
    };
    found
}

// The place after the line that starts at `at`; `at` itself, where none does.
fn after_line(text: &[u8], at: usize) -> usize
    ensures { result ≡ next_in at (span_at text.now at) }
{
    lines::find_line(text, at).map_or(at, |l| l.next)
}

// The place after the first line from `from` on that passes the test `is_sought`, or the text's length.
pub fn after_first<F: Fn(&[u8]) -> bool>(text: &[u8], from: usize, is_sought: F) -> usize
    requires { F.IsAlwaysCallable is_sought }
    ensures { (p : List ℕ → Bool) → Tests F.Fn is_sought p → lines_on text.now result ≡ after_first p (lines_on text.now from) }
{
    first(text, from, is_sought).map_or(text.len(), |l| l.next)
}

// A segment: its first byte's place, where its block starts too, the place after its block's last line, the place after its `$$` line, how its first line ended, its
// purge minute and how many places it has.
#[derive(Clone, Copy)]
pub struct Segment {
    pub start: usize,
    pub block: usize,
    pub past: usize,
    pub ended: End,
    pub purge: usize,
    pub count: usize,
}

#[derive(Clone, Copy)]
pub struct Segments {
    pub held: [Segment; 8],
    pub count: usize,
}

// Keeps the places of a segment in the lent numbers from `at` on, if there is room for 120 there.
fn keep(kept: &mut [u32], at: usize, places: &[u32])
    requires { (at ≤ 960) × (length places.now ≤ capacity) }
    ensures { kept.new ≡ keep_at at places.now kept.old }
{
    if at + 120 <= kept.len() {
        kept[at..at + places.len()].copy_from_slice(places);
    }
}

// The segment that a line of the text opens; its places are kept from `at` on.
fn read_segment(
    text: &[u8],
    opening: Span,
    issue: usize,
    kept: &mut [u32],
    at: usize,
) -> Result<Segment, Refusal>
    requires start_value { span_at text.now opening.start ≡ Some opening }
    requires at_bound { at ≤ 960 }
    ensures is { Begun text.now issue opening.start result }
    ensures kept { kept.new ≡ kept_one text.now issue at result kept.old }
{
    let start = opening.start;
    let ended = opening.ended;
    let content = reading::read_content(text, start, issue)?;
    let block = after_line(text, content.place);
    let end = first(text, block, lines::is_end).ok_or(Reason::NoEnd.at(start))?;
    let places = content.places;
    let held = places.held;
    keep(kept, at, &held[0..places.count]);
    Ok(Segment {
        start,
        block,
        past: end.next,
        ended,
        purge: content.purge,
        count: places.count,
    })
}

// The next segment from `from` on, of which at most `left` may still come; its places are kept from `at` on.
fn next_segment(
    text: &[u8],
    from: usize,
    issue: usize,
    left: usize,
    kept: &mut [u32],
    at: usize,
) -> Result<Option<Segment>, Refusal>
    requires { at ≤ 960 }
    ensures is { Stepped text.now issue left from result }
    ensures kept { kept.new ≡ kept_by text.now issue at result kept.old }
{
    let Some(opening) = first(text, from, lines::opens_block) else {
        return Ok(None);
    };
    if left == 0 {
        return Err(Reason::NinthSegment.at(opening.start));
    }
    let segment = read_segment(text, opening, issue, kept, at)?;
    Ok(Some(segment))
}

// Eight segments that are all zeros.
pub fn unread() -> [Segment; 8]
    ensures { result ≡ unread }
{
    [Segment {
        start: 0,
        block: 0,
        past: 0,
        ended: End::Nothing,
        purge: 0,
        count: 0,
    }; 8]
}

// The segments from `from` on: at most eight.
pub fn read_segments(
    text: &[u8],
    from: usize,
    issue: usize,
    kept: &mut [u32],
) -> Result<Segments, Refusal>
    ensures is { answer_by segments_held result ≡ seen_from most text.now issue from }
    ensures segments { IfOk result (λ gs. gs ≡ segments_for (segments_held gs)) }
    ensures sized { IfOk result (λ gs. Sized gs) }
    ensures kept { IfOk result (λ gs. kept.new ≡ kept_from text.now issue 0 (segments_held gs) kept.old) }
    ensures refused { OnErr result (KeptSome text.now issue kept.old kept.new) }
{
    let mut held = unread();
    let mut count = 0;
    let mut at = from;
    while let Some(segment) = next_segment(text, at, issue, 8 - count, kept, 120 * count)? {
        held[count] = segment;
        count += 1;
        at = segment.past;
    }
    Ok(Segments { held, count })
}

// Hands the places of the segments on, from the numbers that they were kept in to others.
pub fn hand_on(kept: &mut [u32], own: &[u32], segments: Segments)
    requires own_len { length own.now ≡ 960 }
    requires sized { Sized segments }
    ensures { kept.new ≡ handed_on own.now (segments_held segments) kept.old }
{
    for i in 0..segments.count {
        let from = 120 * i;
        keep(kept, from, &own[from..from + segments.held[i].count]);
    }
}
