// Commit and undo: document 01, "Steps".
#![tactic(auto)]

ghost use Rattle.std.specs.Prelude.{◌≡◌, true, List, ℕ, ◌+◌, ◌*◌, ◌≤◌, ◌<◌, length, get_or};
ghost use Rattle.laws.specs.Lists.{All};
ghost use Rattle.blocks.specs.Block.{block_count, book_length};
ghost use Rattle.steps.specs.Book.{Copy, closed, Book, put};
ghost use Rattle.steps.specs.Calls.{with_drafts, steps_most, stored};
ghost use Rattle.layout.specs.Layout.{bytes_of, book_of, step_of};
ghost use Rattle.layout.specs.Sound.{FineDraft, Sound};
ghost use Rattle.layout.specs.Tests.{is_sound};
ghost use Rattle.layout.specs.Lies.{Lies};
ghost use Rattle.layout.specs.Rule.{Does};
ghost use Rattle.history.specs.Changing.{changed_of, AllPlaced, differing, picked, changes_in, step_in, Finds, with_stored, Leaves, PutsBack};
ghost use Rattle.moves.specs.Undo.{with_segments};
ghost use Rattle.history.specs.LastStep.{LastStep};
ghost use Rattle.steps.specs.Calls as calls;

use blocks::BookBytes;
use layout::{Changed, Reply};
use refusal::{Reason, Refusal};

// Segments, ascending, each with the block of a draft or a step that holds what the segment is to hold.
#[derive(Clone, Copy)]
enum Found {
    Nothing,
    One(usize, usize),
    Two(usize, usize, usize, usize),
}

// ---- what commit and undo share
// The segments that were found, as they are answered.
fn segments(found: Found) -> Changed
    ensures { result ≡ changed_of found }
{
    match found {
        Found::Nothing => Changed::Nothing,
        Found::One(s, _) => Changed::One(s),
        Found::Two(s, _, t, _) => Changed::Two(s, t),
    }
}

// The segments that were found hold what their blocks hold.
fn put_blocks(book: &mut BookBytes, found: Found)
    requires { AllPlaced block_count found }
    ensures { (b : Book) → Lies book.old b → (cs : List Copy) → Finds b found cs → Lies book.new (with_segments b (stored cs b.segments)) }
{
    match found {
        Found::Nothing => {}
        Found::One(s, from) => {
            moves::put_segment(book, from, s);
        }
        Found::Two(s, from, t, other) => {
            moves::put_segment(book, other, t);
            moves::put_segment(book, from, s);
        }
    }
}

// The same, and the drafts that took one of them turn stale.
fn replace(book: &mut BookBytes, found: Found)
    requires { AllPlaced block_count found }
    ensures { (b : Book) → Lies book.old b → (issue n : ℕ) → All (FineDraft issue n) b.drafts → (cs : List Copy) → Finds b found cs → Lies book.new (with_stored b cs) }
{
    put_blocks(book, found);
    let changed = segments(found);
    moves::mark_stale(book, changed);
}

// ---- commit
// Whether the copy in block k differs from segment s; byte 0 names no segment.
fn differs(book: &BookBytes, s: usize, k: usize) -> bool
    requires { (s < block_count) × (k < block_count) }
    ensures { result ≡ differing book.now s k }
{
    if s == 0 {
        return false;
    }
    let same = blocks::same_blocks(book, s, k);
    !same
}

// Which of segments x and y, with copies in blocks i and j, changed.
fn pick(a: bool, b: bool, x: usize, i: usize, y: usize, j: usize) -> Found
    ensures { result ≡ picked a b x i y j }
{
    if a {
        if b {
            if x < y {
                return Found::Two(x, i, y, j);
            }
            return Found::Two(y, j, x, i);
        }
        return Found::One(x, i);
    }
    if b {
        return Found::One(y, j);
    }
    Found::Nothing
}

// The changed segments of draft d, with the blocks of their copies.
fn changes_in(book: &BookBytes, d: usize) -> Found
    requires { (1 ≤ d) × (d ≤ 4) × (get_or book.now (5 + 4 * d) 0 ≤ 8) × (get_or book.now (6 + 4 * d) 0 ≤ 8) }
    ensures { result ≡ changes_in book.now d }
{
    let x = usize::from(book[5 + 4 * d]);
    let y = usize::from(book[6 + 4 * d]);
    let a = differs(book, x, 7 + 2 * d);
    let b = differs(book, y, 8 + 2 * d);
    pick(a, b, x, 7 + 2 * d, y, 8 + 2 * d)
}

// Closes draft d, and stores the check of block 0.
fn finish(book: &mut BookBytes, d: usize)
    requires { (1 ≤ d) × (d ≤ 4) }
    ensures { (b : Book) → Lies book.old b → book.new ≡ bytes_of (with_drafts b (put b.drafts d closed)) }
{
    moves::close_draft(book, d);
    moves::seal_index(book);
}

// Commits draft d, which is open and not stale, with the changes that were found in it: a step only if there are any.
fn commit_found(book: &mut BookBytes, d: usize, found: Found) -> Changed
    requires { (1 ≤ d) × (d ≤ 4) × (get_or book.old 24 0 ≤ steps_most) × AllPlaced 17 found }
    ensures { (b : Book) → Lies book.old b → Sound b → (cs : List Copy) → Finds b found cs → Leaves result book.new b d cs }
{
    let changed = segments(found);
    moves::push_step(book, changed);
    replace(book, found);
    finish(book, d);
    changed
}

// Commits draft d of a sound book.
fn commit_sound(book: &mut BookBytes, d: usize) -> Result<Reply, Refusal>
    requires { is_sound book.old ≡ true }
    ensures { Does book.old book.new (calls.commit d) result }
{
    if d < 1 {
        return Err(Reason::NoDraft.into());
    }
    if 4 < d {
        return Err(Reason::NoDraft.into());
    }
    let open = usize::from(book[4 + 4 * d]);
    if open == 0 {
        return Err(Reason::NoDraft.into());
    }
    let stale = usize::from(book[7 + 4 * d]);
    if stale == 1 {
        return Err(Reason::StaleDraft.into());
    }
    let found = changes_in(book, d);
    let changed = commit_found(book, d, found);
    Ok(Reply::Segments(changed))
}

// Commits draft d: its changed segments are stored, and it closes.
pub fn commit(book: &mut [u8], d: usize) -> Result<Reply, Refusal>
    ensures { Does book.old book.new (calls.commit d) result }
{
    let Some(book) = book.as_mut_array() else {
        return Err(Reason::WrongLength.into());
    };
    if !layout::is_sound(book) {
        return Err(Reason::NotSound.into());
    }
    commit_sound(book, d)
}

// ---- undo
// The segments of step r, counted from 0, with its blocks; byte 0 names no second one.
fn step_at(book: &BookBytes, r: usize) -> Found
    requires { r < steps_most }
    ensures { result ≡ step_in book.now r }
{
    let first = usize::from(book[32 + 2 * r]);
    let second = usize::from(book[33 + 2 * r]);
    if second == 0 {
        return Found::One(first, 17 + 2 * r);
    }
    Found::Two(first, 17 + 2 * r, second, 18 + 2 * r)
}

// Undoes the newest step: step r, counted from 0.
fn undo_step(book: &mut BookBytes, r: usize) -> Changed
    requires { LastStep book.old r }
    ensures { PutsBack result book.new (book_of book.old) (step_of book.old r) }
{
    let found = step_at(book, r);
    replace(book, found);
    moves::pop_step(book);
    moves::seal_index(book);
    segments(found)
}

// The newest step's blocks go back, the step goes, and drafts that took its segments turn stale.
pub fn undo(book: &mut [u8]) -> Result<Reply, Refusal>
    ensures { Does book.old book.new calls.undo result }
{
    let Some(book) = book.as_mut_array() else {
        return Err(Reason::WrongLength.into());
    };
    if !layout::is_sound(book) {
        return Err(Reason::NotSound.into());
    }
    let n = usize::from(book[24]);
    if n == 0 {
        return Err(Reason::NoStep.into());
    }
    let changed = undo_step(book, n - 1);
    Ok(Reply::Segments(changed))
}
