// The 512-byte blocks of a book: document 01, "The book". These functions are for the book's own crates; a public call has tested what it hands to them.
#![tactic(auto)]

ghost use Rattle.std.specs.Prelude.{◌≡◌, ℕ, ◌+◌, ◌*◌, ◌≤◌, ◌<◌, ◌++◌, length, get_or, take, drop};
ghost use Rattle.std.specs.Prelude.{None, Some};
ghost use Rattle.std.specs.Borrow.{sem, Lends, Array, u8};
ghost use Rattle.std.proofs.lemmas.List.Edits.{sets};
ghost use Rattle.calendar.specs.Window.{WindowOf};
ghost use Rattle.codes.specs.Places.{capacity, ascends};
ghost use Rattle.checks.specs.Seal.{block_length, sealed};
ghost use Rattle.blocks.specs.Block.{bytes32, number_at, numbers_of, flat, block_of, put_block, same_list, block_count, book_length};
ghost use Rattle.blocks.specs.Content.{content_of, holding};
ghost use Rattle.blocks.specs.Good.{is_used};
ghost use Rattle.blocks.specs.Held.{held_content, Fits};

use checks::Block;

// The bytes of a book: 49 blocks.
pub type BookBytes = [u8; 25088];

// A content by value: the first `count` places are used.
#[derive(Clone, Copy)]
pub struct Held {
    pub purge: u32,
    pub places: [u32; 120],
    pub count: usize,
}

pub fn size(x: u8) -> usize
    ensures { (result ≡ x) × (result < 256) }
{
    usize::from(x)
}

// Bytes of a book's length, as an array.
pub fn as_book(bytes: &[u8]) -> &BookBytes
    requires { length bytes.now ≡ book_length }
    ensures { result.now ≡ bytes.now }
{
    bytes.as_array().unwrap()
}

// The same, to be changed in place.
pub fn as_book_mut(bytes: &mut [u8]) -> &mut BookBytes
    requires { length bytes.old ≡ book_length }
    ensures* writes_back { sem 𝓛 (Lends (Array u8 0) (Array u8 0) bytes.entry result (λ b. b)) }
    ensures value { result.now ≡ bytes.old }
{
    let Some(book) = bytes.as_mut_array() else {
        unreachable!();
    };
    book
}

// Block k of a book.
#[tactic(auto, unfolding(crate::specs::Block::block_of))]
pub fn block(book: &BookBytes, k: usize) -> &Block
    requires { k < block_count }
    ensures { result.now ≡ block_of k book.now }
{
    book[k * 512..k * 512 + 512].as_array().unwrap()
}

// The first block of some bytes.
fn first_block(bytes: &mut [u8]) -> &mut Block
    requires { block_length ≤ length bytes.old }
    ensures* writes_back { sem 𝓛 (Lends (Array u8 0) (Array u8 0) bytes.entry result (λ b. b ++ drop block_length bytes.old)) }
    ensures value { result.now ≡ take block_length bytes.old }
{
    let Some(b) = bytes.first_chunk_mut() else {
        unreachable!();
    };
    b
}

// The number in the four bytes at an offset.
pub fn number_at(b: &[u8], at: usize) -> u32
    requires { at + 4 ≤ length b.now }
    ensures { result ≡ number_at b.now at }
{
    u32::from_le_bytes([b[at], b[at + 1], b[at + 2], b[at + 3]])
}

// Whether the n numbers from byte 8 ascend strictly and are places: each is less than the next, and the last is a place.
fn ascending(b: &Block, n: usize) -> bool
    requires { (1 ≤ n) × (n ≤ capacity) }
    ensures { result ≡ ascends 0 (numbers_of n (drop 8 b.now)) }
{
    let mut good = true;
    for k in 1..n {
        good &= number_at(b, 4 + 4 * k) < number_at(b, 8 + 4 * k);
    }
    let last = number_at(b, 4 + 4 * n);
    good & (last < 1352000)
}

// Whether a block is a good used one, under the issue whose purge minutes the window tells. Where the count is in its range every test is made, since the usual block passes them all.
#[tactic(auto, using(crate::proofs::Used::used_none, crate::proofs::Used::used_many))]
pub fn is_used(b: &Block, w: calendar::Window) -> bool
    ensures { (issue : ℕ) → WindowOf issue w → result ≡ is_used issue b.now }
{
    let n = usize::from(b[4]);
    if n < 1 || 120 < n {
        return false;
    }
    let checks = checks::is_checked(b);
    let gap = checks::all_zero(&b[5..8]);
    // The last of 120 places ends before byte 488.
    let tail = checks::all_zero(&b[488..510]);
    let rest = checks::all_zero(&b[8 + 4 * n..488]);
    let places = ascending(b, n);
    let purge = calendar::is_within(w, number_at(b, 0) as usize);
    checks & gap & tail & rest & places & purge
}

// Seals block k of a book.
#[tactic(auto, unfolding(crate::specs::Block::block_of, crate::specs::Block::put_block))]
pub fn seal_block(book: &mut BookBytes, k: usize)
    requires { k < block_count }
    ensures { book.new ≡ put_block k (sealed (block_of k book.old)) book.old }
{
    let (_, rest) = book.split_at_mut(k * 512);
    checks::seal(first_block(rest));
}

// Copies block i of a book over block j.
#[tactic(auto, using(crate::proofs::Blocks::copied))]
pub fn copy_block(book: &mut BookBytes, i: usize, j: usize)
    requires { (i < block_count) × (j < block_count) }
    ensures { book.new ≡ put_block j (block_of i book.old) book.old }
{
    book.copy_within(i * 512..i * 512 + 512, j * 512);
}

// Makes a block an unused one: zeros, and their check, which is 1.
#[tactic(auto, using(crate::proofs::Emptied::none_is))]
fn unuse(b: &mut Block)
    ensures { b.new ≡ holding None }
{
    *b = [0; 512];
    b[510] = 1;
}

// Makes block k of a book an unused one.
#[tactic(auto, unfolding(crate::specs::Block::block_of, crate::specs::Block::put_block))]
pub fn clear_block(book: &mut BookBytes, k: usize)
    requires { k < block_count }
    ensures { book.new ≡ put_block k (holding None) book.old }
{
    let (_, rest) = book.split_at_mut(k * 512);
    unuse(first_block(rest));
}

// Makes every block of a book an unused one. All bytes are cleared at once, which is faster than block by block.
pub fn clear_book(book: &mut BookBytes)
    ensures { (k : ℕ) → k < block_count → block_of k book.new ≡ holding None }
{
    *book = [0; 25088];
    for k in 0..49 {
        book[k * 512 + 510] = 1;
    }
}

// Whether two blocks of a book have the same bytes.
#[tactic(auto, using(crate::proofs::Scans::same_is))]
pub fn same_blocks(book: &BookBytes, i: usize, j: usize) -> bool
    requires { (i < block_count) × (j < block_count) }
    ensures { result ≡ same_list (block_of i book.now) (block_of j book.now) }
{
    block(book, i) == block(book, j)
}

// The n numbers from byte 8, and zeros after them.
#[tactic(auto, unfolding(crate::specs::Block::numbers_of))]
fn read_numbers(b: &Block, n: usize) -> [u32; 120]
    requires { n ≤ capacity }
    ensures { take n result ≡ numbers_of n (drop 8 b.now) }
{
    let mut places = [0; 120];
    for i in 0..n {
        places[i] = number_at(b, 8 + 4 * i);
    }
    places
}

#[tactic(auto, unfolding(crate::specs::Content::content_of))]
fn read_content(b: &Block) -> Held
    requires { get_or b.now 4 0 ≤ capacity }
    ensures is { held_content result ≡ content_of b.now }
    ensures fits { Fits result }
{
    let count = usize::from(b[4]);
    Held {
        purge: number_at(b, 0),
        places: read_numbers(b, count),
        count,
    }
}

// The content of block k, whose count is in its range.
pub fn load(book: &BookBytes, k: usize) -> Held
    requires { (k < block_count) × (get_or (block_of k book.now) 4 0 ≤ capacity) }
    ensures is { held_content result ≡ content_of (block_of k book.now) }
    ensures fits { Fits result }
{
    read_content(block(book, k))
}

// Stores a number in the four bytes at an offset.
#[tactic(auto, using(crate::proofs::Stored::put_sets))]
pub fn put_number(b: &mut [u8], at: usize, v: u32)
    requires { at + 4 ≤ length b.old }
    ensures { b.new ≡ sets b.old at (bytes32 v) }
{
    b[at..at + 4].copy_from_slice(&v.to_le_bytes());
}

// Stores numbers from byte 8 on.
#[tactic(auto, using(crate::proofs::Stored::putting_more), unfolding(crate::specs::Block::flat))]
fn put_numbers(b: &mut Block, places: &[u32])
    requires { length places.now ≤ capacity }
    ensures { b.new ≡ sets b.old 8 (flat bytes32 places.now) }
{
    for (i, x) in places.iter().enumerate() {
        put_number(b, 8 + 4 * i, *x);
    }
}

#[tactic(auto, using(crate::proofs::Stored::content_made))]
fn put_content(b: &mut Block, purge: u32, places: &[u32])
    requires { length places.now ≤ capacity }
    ensures { b.new ≡ holding (Some (record { purge = purge; places = places.now })) }
{
    *b = [0; 512];
    put_number(b, 0, purge);
    b[4] = places.len() as u8;
    put_numbers(b, places);
    checks::seal(b);
}

// Makes block k of a book a used one with this content.
#[tactic(auto, unfolding(crate::specs::Block::block_of, crate::specs::Block::put_block))]
pub fn store(book: &mut BookBytes, k: usize, purge: u32, places: &[u32])
    requires { (k < block_count) × (length places.now ≤ capacity) }
    ensures { book.new ≡ put_block k (holding (Some (record { purge = purge; places = places.now }))) book.old }
{
    let (_, rest) = book.split_at_mut(k * 512);
    put_content(first_block(rest), purge, places);
}
