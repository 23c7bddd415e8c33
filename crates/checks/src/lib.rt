// The check of a 512-byte block, and blocks of zeros: document 01, "The book". These functions are for the crate of a book's blocks and those above it; a public call has tested what it hands to them.
#![tactic(auto)]

ghost use Rattle.std.specs.Prelude.{◌≡◌, ◌≤◌, ◌<◌, length, set};
ghost use Rattle.checks.specs.Seal.{check_of, sealed, checked, all_zero};
ghost use Rattle.checks.specs.Columns.{row_byte, column_sum, column_rows, weighed, ColumnsIn};
ghost use Rattle.checks.specs.Unused.{is_unused};
ghost use Rattle.std.specs.List.{slice_range};

// A block of a book.
pub type Block = [u8; 512];

// The byte in a row and a column of a block, which is eight rows of 64 bytes.
fn cell_at(b: &Block, row: usize, j: usize) -> u16
    requires { (row < 8) × (j < 64) }
    ensures { (result ≡ row_byte b.now row j) × (result < 256) }
{
    u16::from(b[64 * row + j])
}

// Adds up column j: its bytes, and its bytes each times the number of its row. That is r1 + .. + r7, since r1 is what stands from row 1 on, and so forth.
#[tactic(auto, unfolding(crate::specs::Columns::column_sum, crate::specs::Columns::column_rows))]
fn add_column(b: &Block, j: usize, sums: &mut [u16; 64], rows: &mut [u16; 64])
    requires { j < 64 }
    ensures sum { sums.new ≡ set sums.old j (column_sum b.now j) }
    ensures row { rows.new ≡ set rows.old j (column_rows b.now j) }
{
    let r7 = cell_at(b, 7, j);
    let r6 = r7 + cell_at(b, 6, j);
    let r5 = r6 + cell_at(b, 5, j);
    let r4 = r5 + cell_at(b, 4, j);
    let r3 = r4 + cell_at(b, 3, j);
    let r2 = r3 + cell_at(b, 2, j);
    let r1 = r2 + cell_at(b, 1, j);
    let r0 = r1 + cell_at(b, 0, j);
    sums[j] = r0;
    rows[j] = r1 + r2 + r3 + r4 + r5 + r6 + r7;
}

// Adds up all columns. No sum is above 7,140: in 16 bits, the loop takes eight columns at a time, with additions alone.
fn add_columns(b: &Block, sums: &mut [u16; 64], rows: &mut [u16; 64])
    ensures { ColumnsIn b.now 64 sums.new rows.new }
{
    for j in 0..64 {
        add_column(b, j, sums, rows);
    }
}

// The weighted sum of a block, of its columns: the byte in row c and column j counts 64 * c + j + 1 times.
#[tactic(auto, unfolding(crate::specs::Columns::weighed))]
fn weigh_columns(sums: &[u16; 64], rows: &[u16; 64]) -> u32
    ensures { (result ≡ weighed 64 sums.now rows.now) × (result ≤ 536862720) }
{
    let mut sum = 0;
    for j in 0..64 {
        sum += (j as u32 + 1) * u32::from(sums[j]) + 64 * u32::from(rows[j]);
    }
    sum
}

// The check of a block: 1 and the weighted sum of its first 510 bytes, modulo 65,521. The columns hold all 512 bytes: the check's own two are taken out again.
#[tactic(auto, using(crate::proofs::Columns::low_in, crate::proofs::Columns::high_in, crate::proofs::Columns::check_columns))]
fn check(b: &Block) -> u16
    ensures { result ≡ check_of b.now }
{
    let mut sums = [0; 64];
    let mut rows = [0; 64];
    add_columns(b, &mut sums, &mut rows);
    let sum = weigh_columns(&sums, &rows);
    let low = u32::from(b[510]);
    let high = u32::from(b[511]);
    ((1 + sum - 511 * low - 512 * high) % 65521) as u16
}

#[tactic(auto, unfolding(crate::specs::Seal::checked))]
pub fn is_checked(b: &Block) -> bool
    ensures { result ≡ checked b.now }
{
    check(b) == u16::from_le_bytes([b[510], b[511]])
}

// Whether all bytes are zero. Every byte is looked at, since a loop with no way out takes many bytes at a time.
#[tactic(auto, using(crate::proofs::Zeros::zeros_joined))]
pub fn all_zero(b: &[u8]) -> bool
    ensures { result ≡ all_zero b.now }
{
    b.iter().fold(0, |some, x| some | x) == 0
}

// Whether the first 510 bytes of a block are zero. Each turn joins one byte of each of eight rows, so that the loop is short and made of whole vectors.
// The last row begins at byte 446 and ends with byte 509: two bytes are looked at twice.
#[tactic(auto, using(crate::proofs::Unused::blank_more, crate::proofs::Unused::blank_all))]
fn is_blank(b: &Block) -> bool
    ensures { result ≡ all_zero (slice_range b.now 0 510) }
{
    let mut some = 0;
    for j in 0..64 {
        some |= b[j]
            | b[64 + j]
            | b[128 + j]
            | b[192 + j]
            | b[256 + j]
            | b[320 + j]
            | b[384 + j]
            | b[446 + j];
    }
    some == 0
}

// Whether a block is an unused one: zeros and their check, which is 1.
#[tactic(auto, using(crate::proofs::Unused::unused_is))]
pub fn is_unused(b: &Block) -> bool
    ensures { result ≡ is_unused b.now }
{
    let blank = is_blank(b);
    blank & (b[510] == 1) & (b[511] == 0)
}

// Stores the check.
#[tactic(auto, unfolding(crate::specs::Seal::sealed))]
pub fn seal(b: &mut Block)
    ensures { b.new ≡ sealed b.old }
{
    let [low, high] = check(b).to_le_bytes();
    b[510] = low;
    b[511] = high;
}
