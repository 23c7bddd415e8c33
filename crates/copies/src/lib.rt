// What the calls of a draft share: whether a draft may work on a segment, and where its copy of the segment stands.
// For the book's own crates: a public call asks with `admit` before it asks `find_copy`.
#![tactic(auto)]

ghost use Rattle.std.specs.Prelude.{◌≡◌, length};
ghost use Rattle.refusal.specs.Answer.{answer_of};
ghost use Rattle.blocks.specs.Block.{book_length};
ghost use Rattle.steps.specs.Book.{at, draft_at};
ghost use Rattle.layout.specs.Layout.{book_of};
ghost use Rattle.copies.specs.Admission.{is_open, exists, admission};
ghost use Rattle.copies.specs.Copies.{paper_copy, copy_block, Admitted};

use refusal::{Reason, Refusal};

// Where a draft's copy of a segment stands: the block's number. Document 01 names this form: only a taken segment has a copy to work on.
#[derive(Clone, Copy)]
pub enum Found {
    Copy(usize),
    NotTaken,
}

// Whether a draft is one of the four, and open.
pub fn is_open(book: &[u8], d: usize) -> bool
    requires { length book.now ≡ book_length }
    ensures { result ≡ is_open (draft_at (book_of book.now).drafts d) }
{
    if d < 1 {
        return false;
    }
    if 4 < d {
        return false;
    }
    let state = blocks::size(book[4 * d + 4]);
    state != 0
}

// Whether a segment is one of the book's.
pub fn is_there(book: &[u8], s: usize) -> bool
    requires { length book.now ≡ book_length }
    ensures { result ≡ exists (at (book_of book.now).segments s) }
{
    if s < 1 {
        return false;
    }
    let count = blocks::size(book[4]);
    s <= count
}

// What every work of a draft on a segment asks first.
pub fn admit(book: &[u8], d: usize, in_range: bool, s: usize) -> Result<(), Refusal>
    ensures { answer_of result ≡ admission book.now d in_range s }
{
    if book.len() != 25088 {
        return Err(Reason::WrongLength.into());
    }
    if !layout::is_sound(book) {
        return Err(Reason::NotSound.into());
    }
    if !is_open(book, d) {
        return Err(Reason::NoDraft.into());
    }
    if !in_range {
        return Err(Reason::OutOfRange.into());
    }
    if !is_there(book, s) {
        return Err(Reason::NoSuchSegment.into());
    }
    Ok(())
}

// The block of a draft's copy of a segment.
pub fn find_copy(book: &[u8], d: usize, s: usize) -> Found
    requires { Admitted book.now d s }
    ensures { paper_copy result ≡ copy_block book.now d s }
{
    let first = blocks::size(book[4 * d + 5]);
    if first == s {
        return Found::Copy(2 * d + 7);
    }
    let second = blocks::size(book[4 * d + 6]);
    if second == s {
        return Found::Copy(2 * d + 8);
    }
    Found::NotTaken
}
