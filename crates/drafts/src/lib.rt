// The calls that open, fill, read and drop a draft: document 01, "Steps".
// What they share stands in `copies`, the changes of a copy in `edits`, commit and undo in `history`.
#![tactic(auto)]

ghost use Rattle.std.specs.Prelude.{◌≡◌, true, ◌≤◌, length};
ghost use Rattle.refusal.specs.Answer.{answer_by};
ghost use Rattle.blocks.specs.Block.{book_length};
ghost use Rattle.steps.specs.Book.{draft_at};
ghost use Rattle.steps.specs.Calls.{on, editing, read_purge, read_count, read_place, taking, opening, lowest};
ghost use Rattle.layout.specs.Layout.{book_of, copies_of};
ghost use Rattle.layout.specs.Rule.{on_bytes, value_said, Does};
ghost use Rattle.layout.specs.Tests.{is_sound};
ghost use Rattle.steps.specs.Calls as calls;

use copies::Found;
use layout::Reply;
use refusal::{Reason, Refusal};

// The lowest closed draft.
fn lowest_closed(book: &[u8]) -> Option<usize>
    requires { length book.now ≡ book_length }
    ensures { result ≡ lowest 1 (book_of book.now).drafts }
{
    let first = blocks::size(book[8]);
    if first == 0 {
        return Some(1);
    }
    let second = blocks::size(book[12]);
    if second == 0 {
        return Some(2);
    }
    let third = blocks::size(book[16]);
    if third == 0 {
        return Some(3);
    }
    let fourth = blocks::size(book[20]);
    if fourth == 0 {
        return Some(4);
    }
    None
}

// Opens the lowest closed draft, and answers its number.
pub fn open(book: &mut [u8]) -> Result<Reply, Refusal>
    ensures { Does book.old book.new opening result }
{
    if book.len() != 25088 {
        return Err(Reason::WrongLength.into());
    }
    if !layout::is_sound(book) {
        return Err(Reason::NotSound.into());
    }
    let d = lowest_closed(book).ok_or(Reason::AllOpen)?;
    let book = blocks::as_book_mut(book);
    moves::open_draft(book, d);
    moves::seal_index(book);
    Ok(Reply::Draft(d))
}

// Closes an open draft: what it has taken is lost.
pub fn drop(book: &mut [u8], d: usize) -> Result<Reply, Refusal>
    ensures { Does book.old book.new (calls.drop d) result }
{
    if book.len() != 25088 {
        return Err(Reason::WrongLength.into());
    }
    if !layout::is_sound(book) {
        return Err(Reason::NotSound.into());
    }
    if !copies::is_open(book, d) {
        return Err(Reason::NoDraft.into());
    }
    let book = blocks::as_book_mut(book);
    moves::close_draft(book, d);
    moves::seal_index(book);
    Ok(Reply::Done)
}

// How many segments a draft has taken.
fn count_taken(book: &[u8], d: usize) -> usize
    requires book_len { (length book.now ≡ book_length) × (1 ≤ d) × (d ≤ 4) }
    requires book_value { is_sound book.now ≡ true }
    ensures { result ≡ length (copies_of (draft_at (book_of book.now).drafts d)) }
{
    let first = blocks::size(book[4 * d + 5]);
    if first == 0 {
        return 0;
    }
    let second = blocks::size(book[4 * d + 6]);
    if second == 0 {
        return 1;
    }
    2
}

// Copies a segment into an open draft that has taken at most one.
pub fn take(book: &mut [u8], d: usize, s: usize) -> Result<Reply, Refusal>
    ensures { Does book.old book.new (on d s taking) result }
{
    copies::admit(book, d, true, s)?;
    let Found::NotTaken = copies::find_copy(book, d, s) else {
        return Err(Reason::TakenAlready.into());
    };
    let n = count_taken(book, d);
    if 2 <= n {
        return Err(Reason::TwoTaken.into());
    }
    let book = blocks::as_book_mut(book);
    moves::take_copy(book, d, n, s);
    moves::seal_index(book);
    Ok(Reply::Done)
}

// The purge minute of a draft's copy.
pub fn read_purge(book: &[u8], d: usize, s: usize) -> Result<Reply, Refusal>
    ensures { answer_by value_said result ≡ (on_bytes book.now (on d s (editing read_purge))).0 }
{
    copies::admit(book, d, true, s)?;
    let Found::Copy(k) = copies::find_copy(book, d, s) else {
        return Err(Reason::NotTaken.into());
    };
    let h = blocks::load(blocks::as_book(book), k);
    Ok(Reply::Number(h.purge as usize))
}

// The count of places of a draft's copy.
pub fn read_count(book: &[u8], d: usize, s: usize) -> Result<Reply, Refusal>
    ensures { answer_by value_said result ≡ (on_bytes book.now (on d s (editing read_count))).0 }
{
    copies::admit(book, d, true, s)?;
    let Found::Copy(k) = copies::find_copy(book, d, s) else {
        return Err(Reason::NotTaken.into());
    };
    let h = blocks::load(blocks::as_book(book), k);
    Ok(Reply::Number(h.count))
}

// The place of a draft's copy at an index from 0.
pub fn read_place(book: &[u8], d: usize, s: usize, i: usize) -> Result<Reply, Refusal>
    ensures { answer_by value_said result ≡ (on_bytes book.now (on d s (editing (read_place i)))).0 }
{
    copies::admit(book, d, true, s)?;
    let Found::Copy(k) = copies::find_copy(book, d, s) else {
        return Err(Reason::NotTaken.into());
    };
    let h = blocks::load(blocks::as_book(book), k);
    if h.count <= i {
        return Err(Reason::OutOfRange.into());
    }
    Ok(Reply::Number(h.places[i] as usize))
}
