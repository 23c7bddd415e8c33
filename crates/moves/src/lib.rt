// Changes of a book in place: document 01, "The book". Each says what book lies in the bytes after it, if one lay in them before; the check of block 0 is stored last, by `seal_index`.
// These functions are for the book's own calls, which have tested what they hand on.
#![tactic(auto)]

ghost use Rattle.std.specs.Prelude.{◌≡◌, Bool, false, List, [], ◌∷◌, ◌++◌, map, ℕ, ◌+◌, ◌*◌, ◌≤◌, ◌<◌, length, get_or, drop};
ghost use Rattle.std.specs.Prelude.{Some};
ghost use Rattle.laws.specs.Lists.{All};
ghost use Rattle.codes.specs.Block.{Content};
ghost use Rattle.steps.specs.Book.{Copy, closed, working, Book, at, put, draft_at};
ghost use Rattle.steps.specs.Calls.{with_drafts, staled, segments_named, steps_most, old_of, older, remember};
ghost use Rattle.layout.specs.Layout.{bytes_of, part_of, held_in};
ghost use Rattle.layout.specs.Sound.{FineDraft};
ghost use Rattle.layout.specs.Lies.{Lies};
ghost use Rattle.layout.specs.Rule.{segments_said};
ghost use Rattle.moves.specs.Named.{Among, TwoTaken, marked};
ghost use Rattle.moves.specs.Undo.{with_segments, with_history, with_kept, last_fifteen};

use blocks::BookBytes;
use layout::Changed;

// Stores the check of block 0.
pub fn seal_index(book: &mut BookBytes)
    ensures { (b : Book) → Lies book.old b → book.new ≡ bytes_of b }
{
    blocks::seal_block(book, 0);
}

// Opens draft d, which is closed.
pub fn open_draft(book: &mut BookBytes, d: usize)
    requires { (1 ≤ d) × (d ≤ 4) }
    ensures { (b : Book) → Lies book.old b → draft_at b.drafts d ≡ closed → Lies book.new (with_drafts b (put b.drafts d (working [] false))) }
{
    book[4 + 4 * d] = 1;
}

// Closes draft d: its bytes and its blocks are cleared.
pub fn close_draft(book: &mut BookBytes, d: usize)
    requires { (1 ≤ d) × (d ≤ 4) }
    ensures { (b : Book) → Lies book.old b → Lies book.new (with_drafts b (put b.drafts d closed)) }
{
    book[4 + 4 * d..8 + 4 * d].fill(0);
    blocks::clear_block(book, 7 + 2 * d);
    blocks::clear_block(book, 8 + 2 * d);
}

// Copies segment s into draft d, which has taken n segments.
pub fn take_copy(book: &mut BookBytes, d: usize, n: usize, s: usize)
    requires { (1 ≤ d) × (d ≤ 4) × (n < 2) × (1 ≤ s) × (s ≤ 8) }
    ensures { (b : Book) → Lies book.old b → (ks : List Copy) (stale : Bool) (c : Content) → draft_at b.drafts d ≡ working ks stale → length ks ≡ n → at b.segments s ≡ Some c → Lies book.new (with_drafts b (put b.drafts d (working (ks ++ (record { segment = s; held = c } ∷ [])) stale))) }
{
    blocks::copy_block(book, s, 7 + 2 * d + n);
    book[5 + 4 * d + n] = s as u8;
}

// Marks draft d stale if it has taken segment s.
#[tactic(auto, unfolding(crate::specs::Named::marked, crate::specs::Named::meets))]
fn mark_draft(book: &mut BookBytes, d: usize, s: usize)
    requires { (1 ≤ d) × (d ≤ 4) }
    ensures { book.new ≡ marked book.old d s }
{
    let x = usize::from(book[5 + 4 * d]);
    let y = usize::from(book[6 + 4 * d]);
    if s == x || s == y {
        book[7 + 4 * d] = 1;
    }
}

// Marks the drafts stale that have taken segment s.
fn mark_drafts(book: &mut BookBytes, s: usize)
    requires { 1 ≤ s }
    ensures { (b : Book) → Lies book.old b → All TwoTaken b.drafts → (k : Copy) → k.segment ≡ s → Lies book.new (with_drafts b (map (staled (k ∷ [])) b.drafts)) }
{
    for d in 1..5 {
        mark_draft(book, d, s);
    }
}

// Marks the drafts stale that have taken one of some segments.
#[tactic(auto, using(crate::proofs::Segments::one_from, crate::proofs::Segments::first_from, crate::proofs::Segments::second_from))]
pub fn mark_stale(book: &mut BookBytes, segments: Changed)
    requires { Among 8 segments }
    ensures { (b : Book) → Lies book.old b → (issue n : ℕ) → All (FineDraft issue n) b.drafts → (cs : List Copy) → segments_named cs ≡ segments_said segments → Lies book.new (with_drafts b (map (staled cs) b.drafts)) }
{
    match segments {
        Changed::Nothing => {}
        Changed::One(s) => {
            mark_drafts(book, s);
        }
        Changed::Two(s, t) => {
            mark_drafts(book, s);
            mark_drafts(book, t);
        }
    }
}

// Makes segment s hold what block `from` of a draft or a step holds.
pub fn put_segment(book: &mut BookBytes, from: usize, s: usize)
    requires { (9 ≤ from) × (from < 49) × (1 ≤ s) × (s ≤ 8) }
    ensures { (b : Book) → Lies book.old b → (c : Content) → held_in b (part_of from) ≡ Some c → s ≤ length b.segments → Lies book.new (with_segments b (put b.segments s c)) }
{
    blocks::copy_block(book, from, s);
}

// Takes the newest step away.
pub fn pop_step(book: &mut BookBytes)
    requires { (1 ≤ get_or book.old 24 0) × (get_or book.old 24 0 ≤ steps_most) }
    ensures { (b : Book) → Lies book.old b → 1 ≤ length b.history.kept → Lies book.new (with_kept b (older b.history.kept)) }
{
    let n = usize::from(book[24]);
    let r = n - 1;
    book[24] = r as u8;
    book[32 + 2 * r] = 0;
    book[33 + 2 * r] = 0;
    blocks::clear_block(book, 17 + 2 * r);
    blocks::clear_block(book, 18 + 2 * r);
}

// Appends a step of one segment, with what it holds.
fn append_one(book: &mut BookBytes, s: usize)
    requires { (get_or book.old 24 0 ≤ 15) × (1 ≤ s) × (s ≤ 8) }
    ensures { (b : Book) → Lies book.old b → (cs : List Copy) → segments_named cs ≡ s ∷ [] → s ≤ length b.segments → Lies book.new (with_kept b (b.history.kept ++ (map (old_of b.segments) cs ∷ []))) }
{
    let n = usize::from(book[24]);
    book[24] = (n + 1) as u8;
    book[32 + 2 * n] = s as u8;
    blocks::copy_block(book, s, 17 + 2 * n);
}

// Appends a step of two segments, with what they hold.
fn append_two(book: &mut BookBytes, s: usize, t: usize)
    requires { (get_or book.old 24 0 ≤ 15) × (1 ≤ s) × (s ≤ 8) × (1 ≤ t) × (t ≤ 8) }
    ensures { (b : Book) → Lies book.old b → (cs : List Copy) → segments_named cs ≡ s ∷ t ∷ [] → s ≤ length b.segments → t ≤ length b.segments → Lies book.new (with_kept b (b.history.kept ++ (map (old_of b.segments) cs ∷ []))) }
{
    let n = usize::from(book[24]);
    book[24] = (n + 1) as u8;
    book[32 + 2 * n] = s as u8;
    book[33 + 2 * n] = t as u8;
    blocks::copy_block(book, s, 17 + 2 * n);
    blocks::copy_block(book, t, 18 + 2 * n);
}

// Forgets the oldest of 16 steps: the others move down.
fn forget_oldest(book: &mut BookBytes)
    ensures lies { (b : Book) → Lies book.old b → length b.history.kept ≡ steps_most → Lies book.new (with_kept b (drop 1 b.history.kept)) }
    ensures count { get_or book.new 24 0 ≡ 15 }
{
    for k in 0..30 {
        book[32 + k] = book[34 + k];
        blocks::copy_block(book, 19 + k, 17 + k);
    }
    book[24] = 15;
    book[62] = 0;
    book[63] = 0;
    blocks::clear_block(book, 47);
    blocks::clear_block(book, 48);
}

// Makes room for a step: the oldest of 16 is forgotten.
fn make_room(book: &mut BookBytes)
    requires { get_or book.old 24 0 ≤ steps_most }
    ensures lies { (b : Book) → Lies book.old b → Lies book.new (with_kept b (last_fifteen b.history.kept)) }
    ensures count { get_or book.new 24 0 ≤ 15 }
{
    let n = usize::from(book[24]);
    if n == 16 {
        forget_oldest(book);
    }
}

// Makes what some segments hold the newest step; where there are none, nothing is done.
#[tactic(auto, using(crate::proofs::Segments::one_from, crate::proofs::Segments::one_to, crate::proofs::Segments::first_from, crate::proofs::Segments::first_to, crate::proofs::Segments::second_from, crate::proofs::Segments::second_to))]
pub fn push_step(book: &mut BookBytes, segments: Changed)
    requires { (get_or book.old 24 0 ≤ steps_most) × Among 8 segments }
    ensures { (b : Book) → Lies book.old b → (cs : List Copy) → segments_named cs ≡ segments_said segments → Among (length b.segments) segments → Lies book.new (with_history b (remember (map (old_of b.segments) cs) b.history)) }
{
    match segments {
        Changed::Nothing => {}
        Changed::One(s) => {
            make_room(book);
            append_one(book, s);
        }
        Changed::Two(s, t) => {
            make_room(book);
            append_two(book, s, t);
        }
    }
}
