// The book: document 01, "The book". Its layout, its soundness, and what its calls answer.
#![tactic(auto)]

ghost use Rattle.std.specs.Prelude.{◌≡◌, true, ◌≤◌, ◌<◌};
ghost use Rattle.calendar.specs.Window.{WindowOf};
ghost use Rattle.codes.specs.Places.{upward};
ghost use Rattle.blocks.specs.Block.{block_count, number_at};
ghost use Rattle.steps.specs.Calls.{steps_most};
ghost use Rattle.laws.specs.Lists.{every};
ghost use Rattle.layout.specs.Sound.{is_issue};
ghost use Rattle.layout.specs.Tests.{is_draft, is_step, is_draft_at, is_step_at, is_index, used, is_good, is_sound};

use blocks::BookBytes;
use checks::Block;

// Segments that changed, ascending.
#[derive(Clone, Copy)]
pub enum Changed {
    Nothing,
    One(usize),
    Two(usize, usize),
}

// The answer of a call on a book that is not refused.
#[derive(Clone, Copy)]
pub enum Reply {
    Draft(usize),
    Done,
    Number(usize),
    Was(bool),
    Segments(Changed),
}

// ---- soundness: block 0, then the others one after another
// Whether the bytes of a draft are good, where n segments exist.
#[tactic(auto, unfolding(crate::specs::Tests::is_draft))]
fn is_draft(n: u8, is_open: u8, first: u8, second: u8, stale: u8) -> bool
    ensures { result ≡ is_draft n is_open first second stale }
{
    if is_open == 0 {
        return (first == 0) & (second == 0) & (stale == 0);
    }
    (is_open == 1)
        & (first <= n)
        & (second <= n)
        & (stale <= 1)
        & ((second == 0) | !((first == 0) | (first == second)))
        & ((stale == 0) | !(first == 0))
}

// Whether the bytes of a step are good, where n segments exist.
#[tactic(auto, unfolding(crate::specs::Tests::is_step))]
fn is_step(n: u8, first: u8, second: u8) -> bool
    ensures { result ≡ is_step n first second }
{
    (1 <= first) & (first <= n) & ((second == 0) | ((first < second) & (second <= n)))
}

#[tactic(auto, unfolding(crate::specs::Tests::is_draft_at))]
fn is_draft_at(b: &Block, d: usize) -> bool
    requires { d < 4 }
    ensures { result ≡ is_draft_at b.now d }
{
    is_draft(
        b[4],
        b[8 + 4 * d],
        b[9 + 4 * d],
        b[10 + 4 * d],
        b[11 + 4 * d],
    )
}

#[tactic(auto, unfolding(crate::specs::Tests::is_step_at))]
fn is_step_at(b: &Block, s: usize) -> bool
    requires { s < steps_most }
    ensures { result ≡ is_step_at b.now s }
{
    is_step(b[4], b[32 + 2 * s], b[33 + 2 * s])
}

fn are_drafts(b: &Block) -> bool
    ensures { result ≡ every (is_draft_at b.now) (upward 0 4) }
{
    (0..4).all(|d| is_draft_at(b, d))
}

fn are_steps(b: &Block, n: usize) -> bool
    requires { n ≤ steps_most }
    ensures { result ≡ every (is_step_at b.now) (upward 0 n) }
{
    (0..n).all(|s| is_step_at(b, s))
}

// Whether block 0 is good. The minute is 2100-01-01 0000.
#[tactic(auto, using(crate::proofs::Tests::issue_is, crate::proofs::Tests::index_many), unfolding(crate::specs::Tests::is_index))]
fn is_index(b: &Block) -> bool
    ensures { result ≡ is_index b.now }
{
    let n = b[4];
    let m = usize::from(b[24]);
    if 16 < m {
        return false;
    }
    let check = checks::is_checked(b);
    let issue = blocks::number_at(b, 0);
    let gap = checks::all_zero(&b[5..8]);
    let drafts = are_drafts(b);
    let gap2 = checks::all_zero(&b[25..32]);
    let steps = are_steps(b, m);
    let tail = checks::all_zero(&b[32 + 2 * m..510]);
    check & (issue < 68374080) & ((1 <= n) & (n <= 8)) & gap & drafts & gap2 & steps & tail
}

// Whether block k is used, as block 0 says.
#[tactic(auto, unfolding(crate::specs::Tests::used))]
fn is_used_block(book: &BookBytes, k: usize) -> bool
    requires { k < block_count }
    ensures { result ≡ used book.now k }
{
    if k < 9 {
        k <= usize::from(book[4])
    } else if k < 17 {
        0 < book[9 + 4 * ((k - 9) / 2) + (k - 9) % 2]
    } else {
        0 < book[15 + k]
    }
}

// Whether block k is good, where the window tells the purge minutes under the book's issue.
#[tactic(auto, unfolding(crate::specs::Tests::is_good))]
fn is_good(book: &BookBytes, k: usize, w: calendar::Window) -> bool
    requires { (k < block_count) × WindowOf (number_at book.now 0) w }
    ensures { result ≡ is_good book.now k }
{
    let b = blocks::block(book, k);
    if is_used_block(book, k) {
        blocks::is_used(b, w)
    } else {
        checks::is_unused(b)
    }
}

// Whether the blocks from 1 on are good. The window is worked out once for all of them; an issue that block 0 may have has one.
fn are_good(book: &BookBytes) -> bool
    requires { is_issue (number_at book.now 0) ≡ true }
    ensures { result ≡ every (is_good book.now) (upward 1 48) }
{
    let issue = blocks::number_at(book, 0);
    let Some(w) = calendar::window_of(issue as usize) else {
        return false;
    };
    (1..49).all(|k| is_good(book, k, w))
}

// Whether the bytes are a sound book.
#[tactic(auto, using(crate::proofs::Issues::index_issue), unfolding(crate::specs::Tests::is_sound))]
pub fn is_sound(book: &[u8]) -> bool
    ensures { result ≡ is_sound book.now }
{
    let Some(book) = book.as_array() else {
        return false;
    };
    is_index(blocks::block(book, 0)) && are_good(book)
}
