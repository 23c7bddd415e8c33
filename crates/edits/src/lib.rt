// The changes of a draft's copy: document 01, "Steps". `copies` tells whether a draft may work on a segment, and finds its copy.
#![tactic(auto)]

ghost use Rattle.std.specs.Prelude.{◌≡◌, true, false, ◌<◌, ◌==◌, length, position};
ghost use Rattle.std.specs.Prelude.{Some};
ghost use Rattle.codes.specs.Places.{capacity, ascends};
ghost use Rattle.codes.specs.Block.{insert};
ghost use Rattle.codes.specs.Serving.{First};
ghost use Rattle.blocks.specs.Block.{book_length, block_count, put_block};
ghost use Rattle.blocks.specs.Content.{holding};
ghost use Rattle.blocks.specs.Held.{held_content, Fits};
ghost use Rattle.steps.specs.Calls.{member, without, on, editing, add, remove, set_purge};
ghost use Rattle.layout.specs.Rule.{Does};

use blocks::Held;
use calendar::Stamp;
use copies::Found;
use layout::Reply;
use refusal::{Reason, Refusal};

// Whether p is one of the places.
fn has_place(h: &Held, p: u32) -> bool
    requires { Fits h.now }
    ensures { result ≡ member p (held_content h.now).places }
{
    h.places[..h.count].contains(&p)
}

// The first index of ascending places whose place is not less than p.
fn first_from(places: &[u32], p: u32) -> usize
    requires { ascends 0 places.now ≡ true }
    ensures { First p places.now result }
{
    places.partition_point(|place| *place < p)
}

// The content with p put in: each greater place goes on to the next index.
fn with_place(mut h: Held, p: u32) -> Held
    requires sound { Fits h }
    requires room { h.count < capacity }
    requires ascending { ascends 0 (held_content h).places ≡ true }
    requires absent { member p (held_content h).places ≡ false }
    ensures is { held_content result ≡ record { purge = h.purge; places = insert p (held_content h).places } }
    ensures fits { Fits result }
{
    let count = h.count;
    let at = first_from(&h.places[..count], p);
    h.places.copy_within(at..count, at + 1);
    h.places[at] = p;
    h.count += 1;
    h
}

// The index of p among the places, if it is one of them.
fn index_of(places: &[u32], p: u32) -> Option<usize>
    ensures { result ≡ position (λ q. q == p) places.now }
{
    places.iter().position(|place| *place == p)
}

// The content with p taken out: each later place goes down to the index before.
fn without_place(mut h: Held, p: u32) -> Held
    requires { Fits h }
    ensures is { held_content result ≡ record { purge = h.purge; places = without p (held_content h).places } }
    ensures fits { Fits result }
{
    let count = h.count;
    if let Some(at) = index_of(&h.places[..count], p) {
        h.places.copy_within(at + 1..count, at);
        h.count -= 1;
    }
    h
}

// Stores a content by value in block k.
fn store_held(book: &mut [u8], k: usize, h: Held)
    requires book_len { (length book.old ≡ book_length) × (k < block_count) }
    requires fits { Fits h }
    ensures { book.new ≡ put_block k (holding (Some (held_content h))) book.old }
{
    blocks::store(blocks::as_book_mut(book), k, h.purge, &h.places[..h.count]);
}

// Another purge minute of a draft's copy: the one that DDHHMM gives.
pub fn set_purge(book: &mut [u8], d: usize, s: usize, time: Stamp) -> Result<Reply, Refusal>
    ensures { Does book.old book.new (on d s (editing (set_purge time))) result }
{
    copies::admit(book, d, calendar::is_time(time), s)?;
    let Found::Copy(k) = copies::find_copy(book, d, s) else {
        return Err(Reason::NotTaken.into());
    };
    let h = blocks::load(blocks::as_book(book), k);
    let issue = blocks::number_at(book, 0) as usize;
    let minute = calendar::purge_of(issue, time).ok_or(Reason::WrongTime)?;
    let new = Held {
        purge: minute as u32,
        ..h
    };
    store_held(book, k, new);
    Ok(Reply::Number(minute))
}

// A place added to a draft's copy.
pub fn add(book: &mut [u8], d: usize, s: usize, p: usize) -> Result<Reply, Refusal>
    ensures { Does book.old book.new (on d s (editing (add p))) result }
{
    copies::admit(book, d, p < 1352000, s)?;
    let Found::Copy(k) = copies::find_copy(book, d, s) else {
        return Err(Reason::NotTaken.into());
    };
    let h = blocks::load(blocks::as_book(book), k);
    let place = p as u32;
    if has_place(&h, place) {
        return Ok(Reply::Was(true));
    }
    if 120 <= h.count {
        return Err(Reason::SegmentFull.into());
    }
    let new = with_place(h, place);
    store_held(book, k, new);
    Ok(Reply::Was(false))
}

// A place removed from a draft's copy.
pub fn remove(book: &mut [u8], d: usize, s: usize, p: usize) -> Result<Reply, Refusal>
    ensures { Does book.old book.new (on d s (editing (remove p))) result }
{
    copies::admit(book, d, p < 1352000, s)?;
    let Found::Copy(k) = copies::find_copy(book, d, s) else {
        return Err(Reason::NotTaken.into());
    };
    let h = blocks::load(blocks::as_book(book), k);
    let place = p as u32;
    if !has_place(&h, place) {
        return Ok(Reply::Was(false));
    }
    if h.count == 1 {
        return Err(Reason::OnlyPlace.into());
    }
    let new = without_place(h, place);
    store_held(book, k, new);
    Ok(Reply::Was(true))
}
