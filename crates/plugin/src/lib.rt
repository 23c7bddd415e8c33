// The library for programs in other languages: every public call of the reader, the writer and the book, over numbers of 64 bits and lent bytes. An answer is one
// number: the crate `packing` says how, and the header include/hollgrimsa.h has the same for C.
#![tactic(auto)]

ghost use Rattle.std.specs.Prelude.{◌≡◌, length};
ghost use Rattle.refusal.specs.Answer.{answer_by};
ghost use Rattle.codes.specs.Block.{content_at};
ghost use Rattle.lines.specs.declared.End.TheVariants.{CrCrLf};
ghost use Rattle.writing.specs.Write.{write_rule, length_of, output_of};
ghost use Rattle.bulletin.specs.Bulletin.{read_bulletin};
ghost use Rattle.bulletin.specs.Report.{reported};
ghost use Rattle.bulletin.specs.View.{view_of};
ghost use Rattle.steps.specs.Calls.{on, taking, editing, read_purge, read_count, read_place, add, remove, set_purge, opening};
ghost use Rattle.steps.specs.Calls as calls;
ghost use Rattle.layout.specs.Rule.{on_bytes, value_said};
ghost use Rattle.making.specs.Make.{make_rule, made_answer, made_bytes, write_on};
ghost use Rattle.sending.specs.Send.{edited_rule};
ghost use Rattle.packing.specs.Packing.{pack, packed, nothing, plain};
ghost use Rattle.plugin.specs.Rules.{issue_in, count_in, bbb_in, identifier_in, storm_bits_in, view_bits_of, block_end_of, purge_minute_of, count_of, place_answer, place_in};

use calendar::Stamp;
use layout::Reply;
use refusal::{Reason, Refusal};

// ---- the book
// Makes a book of a bulletin.
pub fn hollgrimsa_make(book: &mut [u8], text: &[u8], year: u64, month: u64) -> u64
    ensures is { result ≡ pack nothing (made_answer (make_rule book.old text.now year month)) }
    ensures left { book.new ≡ made_bytes (make_rule book.old text.now year month) book.old }
{
    packing::pack_verdict(making::make(book, text, year as usize, month as usize))
}

// Opens a draft, and answers its number.
pub fn hollgrimsa_open(book: &mut [u8]) -> u64
    ensures is { result ≡ packed (on_bytes book.old opening).0 }
    ensures left { book.new ≡ (on_bytes book.old opening).1 }
{
    packing::pack_reply(drafts::open(book))
}

// Takes segment s into draft d.
pub fn hollgrimsa_take(book: &mut [u8], d: u64, s: u64) -> u64
    ensures is { result ≡ packed (on_bytes book.old (on d s taking)).0 }
    ensures left { book.new ≡ (on_bytes book.old (on d s taking)).1 }
{
    packing::pack_reply(drafts::take(book, d as usize, s as usize))
}

// The purge minute of draft d's copy of segment s.
pub fn hollgrimsa_read_purge(book: &[u8], d: u64, s: u64) -> u64
    ensures { result ≡ packed (on_bytes book.now (on d s (editing read_purge))).0 }
{
    packing::pack_reply(drafts::read_purge(book, d as usize, s as usize))
}

// How many places draft d's copy of segment s has.
pub fn hollgrimsa_read_count(book: &[u8], d: u64, s: u64) -> u64
    ensures { result ≡ packed (on_bytes book.now (on d s (editing read_count))).0 }
{
    packing::pack_reply(drafts::read_count(book, d as usize, s as usize))
}

// The place at index i, from 0, of draft d's copy of segment s.
pub fn hollgrimsa_read_place(book: &[u8], d: u64, s: u64, i: u64) -> u64
    ensures { result ≡ packed (on_bytes book.now (on d s (editing (read_place i)))).0 }
{
    packing::pack_reply(drafts::read_place(book, d as usize, s as usize, i as usize))
}

// Adds place p to draft d's copy of segment s, and answers whether it was there.
pub fn hollgrimsa_add(book: &mut [u8], d: u64, s: u64, p: u64) -> u64
    ensures is { result ≡ packed (on_bytes book.old (on d s (editing (add p)))).0 }
    ensures left { book.new ≡ (on_bytes book.old (on d s (editing (add p)))).1 }
{
    packing::pack_reply(edits::add(book, d as usize, s as usize, p as usize))
}

// Removes place p from draft d's copy of segment s, and answers whether it was there.
pub fn hollgrimsa_remove(book: &mut [u8], d: u64, s: u64, p: u64) -> u64
    ensures is { result ≡ packed (on_bytes book.old (on d s (editing (remove p)))).0 }
    ensures left { book.new ≡ (on_bytes book.old (on d s (editing (remove p)))).1 }
{
    packing::pack_reply(edits::remove(book, d as usize, s as usize, p as usize))
}

// Gives draft d's copy of segment s the purge minute of DD, HH and MM, and answers it.
pub fn hollgrimsa_set_purge(
    book: &mut [u8],
    d: u64,
    s: u64,
    day: u64,
    hour: u64,
    minute: u64,
) -> u64
    ensures is { result ≡ packed (on_bytes book.old (on d s (editing (set_purge (record { day = day; hour = hour; minute = minute }))))).0 }
    ensures left { book.new ≡ (on_bytes book.old (on d s (editing (set_purge (record { day = day; hour = hour; minute = minute }))))).1 }
{
    let time = Stamp {
        day: day as usize,
        hour: hour as usize,
        minute: minute as usize,
    };
    packing::pack_reply(edits::set_purge(book, d as usize, s as usize, time))
}

// Commits draft d, and answers the segments that changed.
pub fn hollgrimsa_commit(book: &mut [u8], d: u64) -> u64
    ensures is { result ≡ packed (on_bytes book.old (calls.commit d)).0 }
    ensures left { book.new ≡ (on_bytes book.old (calls.commit d)).1 }
{
    packing::pack_reply(history::commit(book, d as usize))
}

// Drops draft d.
pub fn hollgrimsa_drop(book: &mut [u8], d: u64) -> u64
    ensures is { result ≡ packed (on_bytes book.old (calls.drop d)).0 }
    ensures left { book.new ≡ (on_bytes book.old (calls.drop d)).1 }
{
    packing::pack_reply(drafts::drop(book, d as usize))
}

// Undoes the newest step, and answers its segments.
pub fn hollgrimsa_undo(book: &mut [u8]) -> u64
    ensures is { result ≡ packed (on_bytes book.old calls.undo).0 }
    ensures left { book.new ≡ (on_bytes book.old calls.undo).1 }
{
    packing::pack_reply(history::undo(book))
}

// Writes the block of segment s to the front of out, and answers its length.
pub fn hollgrimsa_write(book: &[u8], s: u64, out: &mut [u8]) -> u64
    ensures is { result ≡ pack plain (length_of (write_on book.now s (length out.old))) }
    ensures left { out.new ≡ output_of (write_on book.now s (length out.old)) out.old }
{
    packing::pack_written(making::write(book, s as usize, out))
}

// Writes the edited bulletin of a text to the front of out, each segment's block replaced by the book's, and answers its length.
pub fn hollgrimsa_write_edited(text: &[u8], book: &[u8], out: &mut [u8]) -> u64
    ensures is { result ≡ pack plain (length_of (edited_rule text.now book.now (length out.old))) }
    ensures left { out.new ≡ output_of (edited_rule text.now book.now (length out.old)) out.old }
{
    packing::pack_written(sending::write_edited(text, book, out))
}

// ---- the writer
// Writes the block of these places and this purge minute to the front of out, and answers its length.
pub fn hollgrimsa_write_block(out: &mut [u8], places: &[u32], purge: u64) -> u64
    ensures is { result ≡ pack plain (length_of (write_rule CrCrLf (length out.old) places.now purge)) }
    ensures left { out.new ≡ output_of (write_rule CrCrLf (length out.old) places.now purge) out.old }
{
    packing::pack_written(writing::write_block(out, places, purge as usize))
}

// ---- the reader: each call reads the text under a year and a month
// The issue minute.
pub fn hollgrimsa_issue(text: &[u8], year: u64, month: u64) -> u64
    ensures { result ≡ pack issue_in (reported (read_bulletin text.now year month)) }
{
    let bulletin = bulletin::read(text, year as usize, month as usize);
    packing::pack(bulletin, |b| b.head.issue)
}

// How many segments the bulletin has.
pub fn hollgrimsa_segments(text: &[u8], year: u64, month: u64) -> u64
    ensures { result ≡ pack count_in (reported (read_bulletin text.now year month)) }
{
    let bulletin = bulletin::read(text, year as usize, month as usize);
    packing::pack(bulletin, |b| b.segments.count)
}

// The heading's BBB, 0 for none.
pub fn hollgrimsa_bbb(text: &[u8], year: u64, month: u64) -> u64
    ensures { result ≡ pack bbb_in (reported (read_bulletin text.now year month)) }
{
    let bulletin = bulletin::read(text, year as usize, month as usize);
    packing::pack(bulletin, |b| packing::pack_bbb(b.head.heading.bbb))
}

// The place of the identifier.
pub fn hollgrimsa_identifier(text: &[u8], year: u64, month: u64) -> u64
    ensures { result ≡ pack identifier_in (reported (read_bulletin text.now year month)) }
{
    let bulletin = bulletin::read(text, year as usize, month as usize);
    packing::pack(bulletin, |b| b.head.identifier)
}

// The storm, 0 for none.
pub fn hollgrimsa_storm(text: &[u8], year: u64, month: u64) -> u64
    ensures { result ≡ pack storm_bits_in (reported (read_bulletin text.now year month)) }
{
    let bulletin = bulletin::read(text, year as usize, month as usize);
    packing::pack(bulletin, |b| packing::pack_storm(b.head.storm))
}

// ---- of segment n, counted from 1
// Its start and its length in the caller's own text.
pub fn hollgrimsa_view(text: &[u8], year: u64, month: u64, n: u64) -> u64
    ensures { result ≡ pack view_bits_of (view_of text.now year month n) }
{
    let segment = bulletin::find_segment(text, year as usize, month as usize, n as usize);
    packing::pack(segment, |g| packing::pack_view(g.start, g.past))
}

// The place after its block's last line.
pub fn hollgrimsa_block_end(text: &[u8], year: u64, month: u64, n: u64) -> u64
    ensures { result ≡ pack block_end_of (view_of text.now year month n) }
{
    let segment = bulletin::find_segment(text, year as usize, month as usize, n as usize);
    packing::pack(segment, |g| g.block)
}

// Its purge minute.
pub fn hollgrimsa_purge(text: &[u8], year: u64, month: u64, n: u64) -> u64
    ensures { result ≡ pack purge_minute_of (view_of text.now year month n) }
{
    let segment = bulletin::find_segment(text, year as usize, month as usize, n as usize);
    packing::pack(segment, |g| g.purge)
}

// How many places it has.
pub fn hollgrimsa_count(text: &[u8], year: u64, month: u64, n: u64) -> u64
    ensures { result ≡ pack count_of (view_of text.now year month n) }
{
    let segment = bulletin::find_segment(text, year as usize, month as usize, n as usize);
    packing::pack(segment, |g| g.count)
}

// The place at index i of the block that starts at a place of the text.
fn place_at(text: &[u8], start: usize, issue: usize, i: usize) -> Result<Reply, Refusal>
    ensures { answer_by value_said result ≡ place_answer i (content_at text.now issue start) }
{
    let content = reading::read_content(text, start, issue)?;
    let places = content.places;
    if places.count <= i {
        return Err(Reason::OutOfRange.into());
    }
    let held = places.held;
    Ok(Reply::Number(held[i] as usize))
}

// The place at index i of segment n.
fn find_place(text: &[u8], year: usize, month: usize, n: usize, i: usize) -> Result<Reply, Refusal>
    ensures { answer_by value_said result ≡ place_in text.now year month n i }
{
    let bulletin = bulletin::read(text, year, month)?;
    let segments = bulletin.segments;
    if n < 1 {
        return Err(Reason::NoSuchSegment.into());
    }
    if segments.count < n {
        return Err(Reason::NoSuchSegment.into());
    }
    let held = segments.held;
    let g = held[n - 1];
    place_at(text, g.start, bulletin.head.issue, i)
}

// Its place at index i, from 0.
pub fn hollgrimsa_place(text: &[u8], year: u64, month: u64, n: u64, i: u64) -> u64
    ensures { result ≡ packed (place_in text.now year month n i) }
{
    packing::pack_reply(find_place(text, year as usize, month as usize, n as usize, i as usize))
}
