// A whole bulletin: document 01, "Text and lines" and "Segments and place code blocks".
#![tactic(auto)]

ghost use Rattle.std.specs.Prelude.{◌≡◌, length, ◌≤◌, IfOk};
ghost use Rattle.bulletin.specs.Starts.{from_line3};
ghost use Rattle.segments.specs.Search.{from_first, up_to_first, after_first, closes};
ghost use Rattle.bulletin.specs.Mnd.{office_storm};
ghost use Rattle.bulletin.specs.Bulletin.{read_bulletin};
ghost use Rattle.bulletin.specs.Report.{reported, Reads};
ghost use Rattle.bulletin.specs.View.{view_of, accepted, part_viewed};
ghost use Rattle.bulletin.specs.Kept.{KeepsPlaces};
ghost use Rattle.segments.specs.Searching.{lines_on};
ghost use Rattle.segments.specs.Seen.{Sized};
ghost use Rattle.bulletin.specs.Front.{text_checked, above_of, second_of, top_of};
ghost use Rattle.heading.specs.Paper.{paper_heading, paper_storm};
ghost use Rattle.bulletin.specs.Below.{listed_of, below_of, Answers};
ghost use Rattle.heading.specs.Storm.{is_office};
ghost use Rattle.refusal.specs.Answer.{answer_by, answer_of};

use calendar::Date;
use heading::{Heading, Storm};
use refusal::{Reason, Refusal};
use segments::{Segment, Segments};

// The storm of the MND block whose lines start at `from`.
fn read_storm(text: &[u8], from: usize) -> Result<Storm, Refusal>
    ensures { answer_by paper_storm result ≡ office_storm (from_first is_office (up_to_first closes (lines_on text.now from))) }
{
    let is_sought = |line: &[u8]| segments::closes(line) || heading::is_office(line);
    let Some(l) = segments::first(text, from, is_sought) else {
        return Ok(Storm::None);
    };
    let line = lines::part(text, l.start, l.end);
    if segments::closes(line) {
        return Ok(Storm::None);
    }
    match heading::read_storm(line) {
        Ok(storm) => Ok(storm),
        Err(reason) => Err(reason.at(l.end - 8)),
    }
}

// Where the segments start: at line 3, or after the MND block, whose lines start at `mnd`.
fn first_place(text: &[u8], third: usize, mnd: usize) -> Result<usize, Refusal>
    ensures { answer_by (lines_on text.now) result ≡ from_line3 (after_first closes (lines_on text.now mnd)) (length text.now) (lines_on text.now third) }
{
    let l = lines::find_line(text, third).ok_or(Reason::NoSegment.at(text.len()))?;
    let line = lines::part(text, third, l.end);
    if lines::is_blank(line) {
        return Ok(segments::after_first(text, mnd, segments::closes));
    }
    if lines::opens_block(line) {
        return Ok(third);
    }
    Err(Reason::WrongBlock.at(third))
}

#[derive(Clone, Copy)]
struct Top {
    heading: Heading,
    identifier: usize,
    issue: usize,
    third: usize,
}

// 1, 5 (year, month) and 2.
fn check(text: &[u8], year: usize, month: usize) -> Result<(), Refusal>
    ensures { answer_of result ≡ text_checked text.now year month }
{
    let n = text.len();
    if !((1 <= n) & (n <= 16384)) {
        return Err(Reason::WrongLength.into());
    }
    if !calendar::is_issue_month(year, month) {
        return Err(Reason::WrongTime.into());
    }
    lines::check_text(text)
}

// Line 2, which starts at `second`, and the issue: 4 and 5.
fn read_second(
    text: &[u8],
    heading: Heading,
    second: usize,
    year: usize,
    month: usize,
) -> Result<Top, Refusal>
    requires { second ≤ length text.now }
    ensures { answer_by (above_of text.now) result ≡ second_of text.now year month (lines_on text.now second) (paper_heading heading) }
{
    let two = lines::find_line(text, second).ok_or(Reason::WrongIdentifier.at(second))?;
    let name = lines::part(text, second, two.end);
    if !heading::is_identifier(name) {
        return Err(Reason::WrongIdentifier.at(second));
    }
    let stamp = heading.stamp;
    let issue = calendar::minute_of(Date { year, month, stamp }).ok_or(Reason::WrongTime)?;
    Ok(Top {
        heading,
        identifier: second,
        issue,
        third: two.next,
    })
}

// Lines 1 and 2 and the issue: 3, 4 and 5.
fn read_top(text: &[u8], year: usize, month: usize) -> Result<Top, Refusal>
    ensures { answer_by (above_of text.now) result ≡ top_of text.now year month }
{
    let one = lines::find_line(text, 0).ok_or(Reason::WrongHeading)?;
    let line = lines::part(text, 0, one.end);
    let heading = heading::read_heading(line).ok_or(Reason::WrongHeading)?;
    read_second(text, heading, one.next, year, month)
}

// What the lines above the first segment say.
#[derive(Clone, Copy)]
pub struct Head {
    pub heading: Heading,
    pub identifier: usize,
    pub issue: usize,
    pub storm: Storm,
}

// A bulletin that was read: its head and its segments.
#[derive(Clone, Copy)]
pub struct Bulletin {
    pub head: Head,
    pub segments: Segments,
}

// The segments from `from` on, under a head.
fn read_listed(text: &[u8], from: usize, head: Head, kept: &mut [u32]) -> Result<Bulletin, Refusal>
    ensures { Answers text.now (listed_of text.now from head) kept.old kept.new result }
{
    let segments = segments::read_segments(text, from, head.issue, kept)?;
    if segments.count == 0 {
        return Err(Reason::NoSegment.at(text.len()));
    }
    Ok(Bulletin { head, segments })
}

// The storm and the segments, below the top.
fn read_below(text: &[u8], top: Top, kept: &mut [u32]) -> Result<Bulletin, Refusal>
    ensures { Answers text.now (below_of text.now top) kept.old kept.new result }
{
    let third = top.third;
    let mnd = segments::after_first(text, third, lines::is_blank);
    let storm = read_storm(text, mnd)?;
    let from = first_place(text, third, mnd)?;
    let head = Head {
        heading: top.heading,
        identifier: top.identifier,
        issue: top.issue,
        storm,
    };
    read_listed(text, from, head, kept)
}

// A whole bulletin, under the year and month of its issue. While it is read, the places of segment i, counted from 0, are kept from 120 * i on, if there is room for 120 there.
fn read_into(text: &[u8], year: usize, month: usize, kept: &mut [u32]) -> Result<Bulletin, Refusal>
    ensures { Answers text.now (reported (read_bulletin text.now year month)) kept.old kept.new result }
{
    check(text, year, month)?;
    let top = read_top(text, year, month)?;
    read_below(text, top, kept)
}

// A whole bulletin, under the year and month of its issue. If it is accepted, the places of segment i, counted from 0, are in the lent numbers from 120 * i on, if there is
// room for 120 there. The other numbers stay as they were, and on a refusal all of them: so they are kept apart until the bulletin is read.
pub fn read_keeping(
    text: &[u8],
    year: usize,
    month: usize,
    kept: &mut [u32],
) -> Result<Bulletin, Refusal>
    ensures is { KeepsPlaces kept.old kept.new text.now year month result }
    ensures sized { IfOk result (λ b. Sized b.segments) }
{
    let mut own: [u32; 960] = [0; 960];
    let bulletin = read_into(text, year, month, &mut own)?;
    segments::hand_on(kept, &own, bulletin.segments);
    Ok(bulletin)
}

// The same, and no places are kept.
pub fn read(text: &[u8], year: usize, month: usize) -> Result<Bulletin, Refusal>
    ensures is { Reads text.now year month result }
    ensures sized { IfOk result (λ b. Sized b.segments) }
{
    let mut none: [u32; 1] = [0; 1];
    read_into(text, year, month, &mut none)
}

// Segment n of the bulletin, counted from 1.
pub fn find_segment(text: &[u8], year: usize, month: usize, n: usize) -> Result<Segment, Refusal>
    ensures { answer_of result ≡ view_of text.now year month n }
{
    let bulletin = read(text, year, month)?;
    let segments = bulletin.segments;
    if n < 1 {
        return Err(Reason::NoSuchSegment.into());
    }
    if segments.count < n {
        return Err(Reason::NoSuchSegment.into());
    }
    let held = segments.held;
    Ok(held[n - 1])
}

// Whether the bulletin has a segment n, or why not.
pub fn view_answer(text: &[u8], year: usize, month: usize, n: usize) -> Result<(), Refusal>
    ensures { answer_of result ≡ accepted (view_of text.now year month n) }
{
    find_segment(text, year, month, n)?;
    Ok(())
}

// Segment n as a part of the caller's own text, its `$$` line with it; empty on refusal.
pub fn view(text: &[u8], year: usize, month: usize, n: usize) -> &[u8]
    ensures { result.now ≡ part_viewed (view_of text.now year month n) text.now }
{
    match find_segment(text, year, month, n) {
        Ok(segment) => lines::part(text, segment.start, segment.past),
        Err(_) => lines::part(text, 0, 0),
    }
}
