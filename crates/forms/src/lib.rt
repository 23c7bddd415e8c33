// The new blocks of an edited bulletin, and the text with them: document 02, R-1.
#![tactic(auto)]

ghost use Rattle.std.specs.Prelude.{◌≡◌, ◌≤◌, ◌<◌, length, get_or};
ghost use Rattle.segments.specs.Seen.{segments_held, Sized};
ghost use Rattle.writing.specs.Pen.{written_block_most};
ghost use Rattle.writing.specs.Write.{output_of};
ghost use Rattle.refusal.specs.Answer.{ok};
ghost use Rattle.forms.specs.Forms.{SoundBook, Formed, RoomFor, ends_of, Laid, kept_length, filled_in, Cuttable};

use lines::End;
use segments::Segments;

// The lengths of the written forms of a book's segments, and their sum.
#[derive(Clone, Copy)]
pub struct Sizes {
    pub each: [usize; 8],
    pub total: usize,
}

// Writes the form of segment i, counted from 0, of a sound book to the front of out, and answers its length.
fn write_form(book: &[u8], i: usize, end: End, out: &mut [u8]) -> usize
    requires sound_book { SoundBook book.now }
    requires i_bound { i < get_or book.now 4 0 }
    requires written_block_most_in_bounds { written_block_most ≤ length out.old }
    ensures { Formed end book.now i out.old out.new result }
{
    let held = blocks::load(blocks::as_book(book), i + 1);
    let minute = held.purge as usize;
    writing::write_ended(out, &held.places[..held.count], minute, end).unwrap_or(0)
}

// Writes the forms of all segments of a sound book, one behind the other. The lines of each end as the first line of the segment in the text, of which there are as many.
pub fn write_forms(book: &[u8], segments: Segments, forms: &mut [u8]) -> Sizes
    requires sound_book { SoundBook book.now }
    requires count_value { (segments.count ≡ get_or book.now 4 0) × Sized segments }
    requires room_for { RoomFor segments.count forms.old }
    ensures { Laid (ends_of (segments_held segments)) book.now forms.new result }
{
    let mut each = [0; 8];
    let mut total = 0;
    for (i, segment) in segments.held[..segments.count].iter().enumerate() {
        let size = write_form(book, i, segment.ended, &mut forms[total..]);
        each[i] = size;
        total += size;
    }
    Sizes { each, total }
}

// How many bytes of the text stand outside its segments' blocks.
pub fn kept_length(text: &[u8], segments: Segments) -> usize
    requires { (length text.now ≤ 16384) × Sized segments }
    ensures is { result ≡ kept_length 0 text.now (segments_held segments) }
    ensures most { result ≤ 147456 }
{
    let mut kept = 0;
    let mut at = 0;
    for segment in &segments.held[..segments.count] {
        let before = lines::part(text, at, segment.start);
        kept += before.len();
        at = segment.block;
    }
    let tail = lines::part(text, at, text.len());
    kept + tail.len()
}

// Copies the text to the front of out, with each segment's block replaced by its form.
pub fn put_edited(text: &[u8], segments: Segments, forms: &[u8], sizes: Sizes, out: &mut [u8])
    requires cuttable { Cuttable segments forms.now sizes.each }
    requires each_in_bounds { length (filled_in text.now segments forms.now sizes.each) ≤ length out.old }
    ensures { out.new ≡ output_of (ok (filled_in text.now segments forms.now sizes.each)) out.old }
{
    let mut pos = 0;
    let mut at = 0;
    let mut form = 0;
    for (i, segment) in segments.held[..segments.count].iter().enumerate() {
        let kept = lines::part(text, at, segment.start);
        pos = writing::put(out, pos, kept);
        let next = form + sizes.each[i];
        let block = lines::part(forms, form, next);
        pos = writing::put(out, pos, block);
        form = next;
        at = segment.block;
    }
    let rest = lines::part(text, at, text.len());
    writing::put(out, pos, rest);
}
