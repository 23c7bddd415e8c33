// Make and write: document 01, "Steps".
#![tactic(auto)]

ghost use Rattle.std.specs.Prelude.{◌≡◌, true, [], ◌<◌, length};
ghost use Rattle.laws.specs.Lists.{All};
ghost use Rattle.segments.specs.Seen.{segments_held, Sized};
ghost use Rattle.layout.specs.Tests.{is_sound};
ghost use Rattle.making.specs.Fill.{contents_from, Filled, Storable, Indexed};
ghost use Rattle.making.specs.Make.{Makes, WritesOn};

use blocks::BookBytes;
use refusal::{Reason, Refusal};
use segments::Segments;

// Fills the blocks of a book whose blocks are all unused: block i + 1 with the content of segment i, whose places are kept from 120 * i on.
fn fill(book: &mut BookBytes, kept: &[u32], segments: Segments)
    requires filled { Filled [] book.old }
    requires kept_len { length kept.now ≡ 960 }
    requires sized { Sized segments × All Storable (segments_held segments) }
    ensures { Filled (contents_from 0 kept.now (segments_held segments)) book.new }
{
    for (i, segment) in segments.held[..segments.count].iter().enumerate() {
        let from = 120 * i;
        let to = from + segment.count;
        blocks::store(book, i + 1, segment.purge as u32, &kept[from..to]);
    }
}

// Writes block 0, an unused one, of a new book with n segments.
fn write_index(book: &mut BookBytes, issue: usize, n: usize)
    requires { (n < 9) × (issue < 4294967296) }
    ensures { Indexed book.old issue n book.new }
{
    blocks::put_number(book, 0, issue as u32);
    book[4] = n as u8;
    blocks::seal_block(book, 0);
}

// Makes a book of a bulletin, read under a year and a month. Reading keeps the places, so that each block of the text is read once.
pub fn make(book: &mut [u8], text: &[u8], year: usize, month: usize) -> Result<(), Refusal>
    ensures { Makes book.old book.new text.now year month result }
{
    let Some(book) = book.as_mut_array() else {
        return Err(Reason::WrongLength.into());
    };
    let mut kept: [u32; 960] = [0; 960];
    let bulletin = bulletin::read_keeping(text, year, month, &mut kept)?;
    let segments = bulletin.segments;
    blocks::clear_book(book);
    fill(book, &kept, segments);
    write_index(book, bulletin.head.issue, segments.count);
    Ok(())
}

// Writes the block of a segment of a sound book.
fn write_segment(book: &BookBytes, s: usize, out: &mut [u8]) -> Result<usize, Refusal>
    requires { is_sound book.now ≡ true }
    ensures { WritesOn book.now out.old out.new s result }
{
    if s < 1 {
        return Err(Reason::NoSuchSegment.into());
    }
    let n = usize::from(book[4]);
    if n < s {
        return Err(Reason::NoSuchSegment.into());
    }
    let held = blocks::load(book, s);
    let places = held.places;
    let count = held.count;
    let minute = held.purge as usize;
    writing::write_block(out, &places[0..count], minute)
}

// Writes the block of a segment to the front of out, and answers its length.
pub fn write(book: &[u8], s: usize, out: &mut [u8]) -> Result<usize, Refusal>
    ensures { WritesOn book.now out.old out.new s result }
{
    let Some(book) = book.as_array() else {
        return Err(Reason::WrongLength.into());
    };
    if !layout::is_sound(book) {
        return Err(Reason::NotSound.into());
    }
    write_segment(book, s, out)
}
