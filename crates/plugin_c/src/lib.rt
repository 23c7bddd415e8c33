// The calls of the crate `plugin` under their names in C: a program links the archive of this crate, and include/hollgrimsa.h declares them.
#![tactic(auto)]

ghost use Rattle.std.specs.Prelude.{◌≡◌, length};
ghost use Rattle.lines.specs.declared.End.TheVariants.{CrCrLf};
ghost use Rattle.writing.specs.Write.{write_rule, length_of, output_of};
ghost use Rattle.bulletin.specs.Bulletin.{read_bulletin};
ghost use Rattle.bulletin.specs.Report.{reported};
ghost use Rattle.bulletin.specs.View.{view_of};
ghost use Rattle.steps.specs.Calls.{on, taking, editing, read_purge, read_count, read_place, add, remove, set_purge, opening};
ghost use Rattle.steps.specs.Calls as calls;
ghost use Rattle.layout.specs.Rule.{on_bytes};
ghost use Rattle.making.specs.Make.{make_rule, made_answer, made_bytes, write_on};
ghost use Rattle.sending.specs.Send.{edited_rule};
ghost use Rattle.packing.specs.Packing.{pack, packed, nothing, plain};
ghost use Rattle.plugin.specs.Rules.{issue_in, count_in, bbb_in, identifier_in, storm_bits_in, view_bits_of, block_end_of, purge_minute_of, count_of, place_in};

// ---- the book
// Makes a book of a bulletin.
#[unsafe(no_mangle)]
pub extern "C" fn hollgrimsa_make(book: &mut [u8], text: &[u8], year: u64, month: u64) -> u64
    ensures is { result ≡ pack nothing (made_answer (make_rule book.old text.now year month)) }
    ensures left { book.new ≡ made_bytes (make_rule book.old text.now year month) book.old }
{
    plugin::hollgrimsa_make(book, text, year, month)
}

// Opens a draft, and answers its number.
#[unsafe(no_mangle)]
pub extern "C" fn hollgrimsa_open(book: &mut [u8]) -> u64
    ensures is { result ≡ packed (on_bytes book.old opening).0 }
    ensures left { book.new ≡ (on_bytes book.old opening).1 }
{
    plugin::hollgrimsa_open(book)
}

// Takes segment s into draft d.
#[unsafe(no_mangle)]
pub extern "C" fn hollgrimsa_take(book: &mut [u8], d: u64, s: u64) -> u64
    ensures is { result ≡ packed (on_bytes book.old (on d s taking)).0 }
    ensures left { book.new ≡ (on_bytes book.old (on d s taking)).1 }
{
    plugin::hollgrimsa_take(book, d, s)
}

// The purge minute of draft d's copy of segment s.
#[unsafe(no_mangle)]
pub extern "C" fn hollgrimsa_read_purge(book: &[u8], d: u64, s: u64) -> u64
    ensures { result ≡ packed (on_bytes book.now (on d s (editing read_purge))).0 }
{
    plugin::hollgrimsa_read_purge(book, d, s)
}

// How many places draft d's copy of segment s has.
#[unsafe(no_mangle)]
pub extern "C" fn hollgrimsa_read_count(book: &[u8], d: u64, s: u64) -> u64
    ensures { result ≡ packed (on_bytes book.now (on d s (editing read_count))).0 }
{
    plugin::hollgrimsa_read_count(book, d, s)
}

// The place at index i, from 0, of draft d's copy of segment s.
#[unsafe(no_mangle)]
pub extern "C" fn hollgrimsa_read_place(book: &[u8], d: u64, s: u64, i: u64) -> u64
    ensures { result ≡ packed (on_bytes book.now (on d s (editing (read_place i)))).0 }
{
    plugin::hollgrimsa_read_place(book, d, s, i)
}

// Adds place p to draft d's copy of segment s, and answers whether it was there.
#[unsafe(no_mangle)]
pub extern "C" fn hollgrimsa_add(book: &mut [u8], d: u64, s: u64, p: u64) -> u64
    ensures is { result ≡ packed (on_bytes book.old (on d s (editing (add p)))).0 }
    ensures left { book.new ≡ (on_bytes book.old (on d s (editing (add p)))).1 }
{
    plugin::hollgrimsa_add(book, d, s, p)
}

// Removes place p from draft d's copy of segment s, and answers whether it was there.
#[unsafe(no_mangle)]
pub extern "C" fn hollgrimsa_remove(book: &mut [u8], d: u64, s: u64, p: u64) -> u64
    ensures is { result ≡ packed (on_bytes book.old (on d s (editing (remove p)))).0 }
    ensures left { book.new ≡ (on_bytes book.old (on d s (editing (remove p)))).1 }
{
    plugin::hollgrimsa_remove(book, d, s, p)
}

// Gives draft d's copy of segment s the purge minute of DD, HH and MM, and answers it.
#[unsafe(no_mangle)]
pub extern "C" fn hollgrimsa_set_purge(
    book: &mut [u8],
    d: u64,
    s: u64,
    day: u64,
    hour: u64,
    minute: u64,
) -> u64
    ensures is { result ≡ packed (on_bytes book.old (on d s (editing (set_purge (record { day = day; hour = hour; minute = minute }))))).0 }
    ensures left { book.new ≡ (on_bytes book.old (on d s (editing (set_purge (record { day = day; hour = hour; minute = minute }))))).1 }
{
    plugin::hollgrimsa_set_purge(book, d, s, day, hour, minute)
}

// Commits draft d, and answers the segments that changed.
#[unsafe(no_mangle)]
pub extern "C" fn hollgrimsa_commit(book: &mut [u8], d: u64) -> u64
    ensures is { result ≡ packed (on_bytes book.old (calls.commit d)).0 }
    ensures left { book.new ≡ (on_bytes book.old (calls.commit d)).1 }
{
    plugin::hollgrimsa_commit(book, d)
}

// Drops draft d.
#[unsafe(no_mangle)]
pub extern "C" fn hollgrimsa_drop(book: &mut [u8], d: u64) -> u64
    ensures is { result ≡ packed (on_bytes book.old (calls.drop d)).0 }
    ensures left { book.new ≡ (on_bytes book.old (calls.drop d)).1 }
{
    plugin::hollgrimsa_drop(book, d)
}

// Undoes the newest step, and answers its segments.
#[unsafe(no_mangle)]
pub extern "C" fn hollgrimsa_undo(book: &mut [u8]) -> u64
    ensures is { result ≡ packed (on_bytes book.old calls.undo).0 }
    ensures left { book.new ≡ (on_bytes book.old calls.undo).1 }
{
    plugin::hollgrimsa_undo(book)
}

// Writes the block of segment s to the front of out, and answers its length.
#[unsafe(no_mangle)]
pub extern "C" fn hollgrimsa_write(book: &[u8], s: u64, out: &mut [u8]) -> u64
    ensures is { result ≡ pack plain (length_of (write_on book.now s (length out.old))) }
    ensures left { out.new ≡ output_of (write_on book.now s (length out.old)) out.old }
{
    plugin::hollgrimsa_write(book, s, out)
}

// Writes the edited bulletin of a text to the front of out, each segment's block replaced by the book's, and answers its length.
#[unsafe(no_mangle)]
pub extern "C" fn hollgrimsa_write_edited(text: &[u8], book: &[u8], out: &mut [u8]) -> u64
    ensures is { result ≡ pack plain (length_of (edited_rule text.now book.now (length out.old))) }
    ensures left { out.new ≡ output_of (edited_rule text.now book.now (length out.old)) out.old }
{
    plugin::hollgrimsa_write_edited(text, book, out)
}

// ---- the writer
// Writes the block of these places and this purge minute to the front of out, and answers its length.
#[unsafe(no_mangle)]
pub extern "C" fn hollgrimsa_write_block(out: &mut [u8], places: &[u32], purge: u64) -> u64
    ensures is { result ≡ pack plain (length_of (write_rule CrCrLf (length out.old) places.now purge)) }
    ensures left { out.new ≡ output_of (write_rule CrCrLf (length out.old) places.now purge) out.old }
{
    plugin::hollgrimsa_write_block(out, places, purge)
}

// ---- the reader: each call reads the text under a year and a month
// The issue minute.
#[unsafe(no_mangle)]
pub extern "C" fn hollgrimsa_issue(text: &[u8], year: u64, month: u64) -> u64
    ensures { result ≡ pack issue_in (reported (read_bulletin text.now year month)) }
{
    plugin::hollgrimsa_issue(text, year, month)
}

// How many segments the bulletin has.
#[unsafe(no_mangle)]
pub extern "C" fn hollgrimsa_segments(text: &[u8], year: u64, month: u64) -> u64
    ensures { result ≡ pack count_in (reported (read_bulletin text.now year month)) }
{
    plugin::hollgrimsa_segments(text, year, month)
}

// The heading's BBB, 0 for none.
#[unsafe(no_mangle)]
pub extern "C" fn hollgrimsa_bbb(text: &[u8], year: u64, month: u64) -> u64
    ensures { result ≡ pack bbb_in (reported (read_bulletin text.now year month)) }
{
    plugin::hollgrimsa_bbb(text, year, month)
}

// The place of the identifier.
#[unsafe(no_mangle)]
pub extern "C" fn hollgrimsa_identifier(text: &[u8], year: u64, month: u64) -> u64
    ensures { result ≡ pack identifier_in (reported (read_bulletin text.now year month)) }
{
    plugin::hollgrimsa_identifier(text, year, month)
}

// The storm, 0 for none.
#[unsafe(no_mangle)]
pub extern "C" fn hollgrimsa_storm(text: &[u8], year: u64, month: u64) -> u64
    ensures { result ≡ pack storm_bits_in (reported (read_bulletin text.now year month)) }
{
    plugin::hollgrimsa_storm(text, year, month)
}

// ---- of segment n, counted from 1
// Its start and its length in the caller's own text.
#[unsafe(no_mangle)]
pub extern "C" fn hollgrimsa_view(text: &[u8], year: u64, month: u64, n: u64) -> u64
    ensures { result ≡ pack view_bits_of (view_of text.now year month n) }
{
    plugin::hollgrimsa_view(text, year, month, n)
}

// The place after its block's last line.
#[unsafe(no_mangle)]
pub extern "C" fn hollgrimsa_block_end(text: &[u8], year: u64, month: u64, n: u64) -> u64
    ensures { result ≡ pack block_end_of (view_of text.now year month n) }
{
    plugin::hollgrimsa_block_end(text, year, month, n)
}

// Its purge minute.
#[unsafe(no_mangle)]
pub extern "C" fn hollgrimsa_purge(text: &[u8], year: u64, month: u64, n: u64) -> u64
    ensures { result ≡ pack purge_minute_of (view_of text.now year month n) }
{
    plugin::hollgrimsa_purge(text, year, month, n)
}

// How many places it has.
#[unsafe(no_mangle)]
pub extern "C" fn hollgrimsa_count(text: &[u8], year: u64, month: u64, n: u64) -> u64
    ensures { result ≡ pack count_of (view_of text.now year month n) }
{
    plugin::hollgrimsa_count(text, year, month, n)
}

// Its place at index i, from 0.
#[unsafe(no_mangle)]
pub extern "C" fn hollgrimsa_place(text: &[u8], year: u64, month: u64, n: u64, i: u64) -> u64
    ensures { result ≡ packed (place_in text.now year month n i) }
{
    plugin::hollgrimsa_place(text, year, month, n, i)
}
