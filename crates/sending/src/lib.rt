// The edited bulletin: document 02, R-1.
#![tactic(auto)]

ghost use Rattle.std.specs.Prelude.{◌≡◌, true};
ghost use Rattle.bulletin.specs.Bulletin.{is_length};
ghost use Rattle.forms.specs.Forms.{SoundBook, RoomFor};
ghost use Rattle.sending.specs.Send.{WritesEdited};
ghost use Rattle.sending.specs.Under.{IssueOn, Belonging};

use calendar::Date;
use refusal::{Reason, Refusal};
use segments::Segments;

// The text has been read, and belongs to the book: its edited form, if the output has room for it. The book's blocks go to a lent buffer first.
fn write_with(
    text: &[u8],
    book: &[u8],
    segments: Segments,
    forms: &mut [u8],
    out: &mut [u8],
) -> Result<usize, Refusal>
    requires text_value { is_length text.now ≡ true }
    requires sound_book { SoundBook book.now }
    requires belonging { Belonging text.now book.now segments }
    requires room_for { RoomFor segments.count forms.old }
    ensures { WritesEdited text.now book.now out.old out.new result }
{
    let sizes = forms::write_forms(book, segments, &mut *forms);
    let kept = forms::kept_length(text, segments);
    let n = kept + sizes.total;
    if out.len() < n {
        return Err(Reason::OutputShort.into());
    }
    forms::put_edited(text, segments, &*forms, sizes, &mut *out);
    Ok(n)
}

// The same with a buffer of the call's own. Most bulletins have few segments, and a small buffer is cleared in less time.
fn write_read(
    text: &[u8],
    book: &[u8],
    segments: Segments,
    out: &mut [u8],
) -> Result<usize, Refusal>
    requires text_value { is_length text.now ≡ true }
    requires sound_book { SoundBook book.now }
    requires belonging { Belonging text.now book.now segments }
    ensures { WritesEdited text.now book.now out.old out.new result }
{
    if segments.count <= 3 {
        let mut few = [0u8; 3648];
        return write_with(text, book, segments, &mut few, out);
    }
    let mut forms = [0u8; 9728];
    write_with(text, book, segments, &mut forms, out)
}

// The text is read afresh under the date of the book's issue, and belongs to the book if its issue and its count of segments agree.
fn write_dated(
    text: &[u8],
    book: &[u8],
    issue: usize,
    date: Date,
    out: &mut [u8],
) -> Result<usize, Refusal>
    requires text_value { is_length text.now ≡ true }
    requires sound_book { SoundBook book.now }
    requires issue_on { IssueOn book.now issue date }
    ensures { WritesEdited text.now book.now out.old out.new result }
{
    let bulletin = bulletin::read(text, date.year, date.month)?;
    let segments = bulletin.segments;
    let n = blocks::size(book[4]);
    let agrees = (bulletin.head.issue == issue) & (segments.count == n);
    if !agrees {
        return Err(Reason::NotBelonging.into());
    }
    write_read(text, book, segments, out)
}

// A sound book's issue has a date.
fn write_sound(text: &[u8], book: &[u8], out: &mut [u8]) -> Result<usize, Refusal>
    requires text_value { is_length text.now ≡ true }
    requires sound_book { SoundBook book.now }
    ensures { WritesEdited text.now book.now out.old out.new result }
{
    let issue = blocks::number_at(book, 0) as usize;
    let date = calendar::date_of(issue).ok_or(Reason::WrongTime)?;
    write_dated(text, book, issue, date, out)
}

// Writes the text with each segment's block replaced by the book's written form to the front of out, every other byte kept, and answers its length.
pub fn write_edited(text: &[u8], book: &[u8], out: &mut [u8]) -> Result<usize, Refusal>
    ensures { WritesEdited text.now book.now out.old out.new result }
{
    let n = text.len();
    if n < 1 {
        return Err(Reason::WrongLength.into());
    }
    if 16384 < n {
        return Err(Reason::WrongLength.into());
    }
    if book.len() != 25088 {
        return Err(Reason::WrongLength.into());
    }
    if !layout::is_sound(book) {
        return Err(Reason::NotSound.into());
    }
    write_sound(text, book, out)
}
