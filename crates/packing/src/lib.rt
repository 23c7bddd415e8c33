// How the answer of a call becomes one number of 64 bits: specs/Packing.antt says how, with the way back.
#![tactic(auto)]

ghost use Rattle.std.specs.Prelude.{◌≡◌, option_map, ◌-◌, ◌%◌, ◌≤◌, ◌<◌};
ghost use Rattle.refusal.specs.Answer.{answer_by, answer_of};
ghost use Rattle.layout.specs.Rule.{segments_said, value_said};
ghost use Rattle.heading.specs.Paper.{paper_bbb, paper_basin, paper_class, paper_id, paper_storm};
ghost use Rattle.packing.specs.Packing.{cell, pack, PacksBy, value_bits, packed, nothing, plain, spelled, bbb_bits, basin_number, class_number, name_bits, storm_bits, view_bits};

use heading::{Basin, Bbb, Class, Storm, StormId};
use layout::{Changed, Reply};
use refusal::Refusal;

// The low byte, and the rest.
pub fn cell(low: usize, rest: usize) -> u64
    ensures { result ≡ cell low rest }
{
    (low % 256 + 256 * (rest % 72057594037927936)) as u64
}

// The segments that changed, a byte each.
fn spell(changed: Changed) -> usize
    ensures { result ≡ spelled (segments_said changed) }
{
    match changed {
        Changed::Nothing => 0,
        Changed::One(first) => first % 256,
        Changed::Two(first, second) => first % 256 + 256 * (second % 256),
    }
}

// The answer of a call, whose value has these bits.
pub fn pack<T, F: FnOnce(T) -> usize>(answer: Result<T, Refusal>, bits: F) -> u64
    requires { F.IsAlwaysCallable bits }
    ensures { PacksBy (F.post bits) answer result }
{
    match answer {
        Ok(value) => cell(0, bits(value)),
        Err(r) => cell(r.reason.number(), r.place),
    }
}

// The value of a call on a book.
fn reply_bits(reply: Reply) -> usize
    ensures { result ≡ value_bits (value_said reply) }
{
    match reply {
        Reply::Draft(d) => d,
        Reply::Done => 0,
        Reply::Number(n) => n,
        Reply::Was(there) => usize::from(there),
        Reply::Segments(changed) => spell(changed),
    }
}

// The answer of a call on a book.
pub fn pack_reply(reply: Result<Reply, Refusal>) -> u64
    ensures { result ≡ packed (answer_by value_said reply) }
{
    pack(reply, |r| reply_bits(r))
}

// The answer of a call that gives no value.
pub fn pack_verdict(verdict: Result<(), Refusal>) -> u64
    ensures { result ≡ pack nothing (answer_of verdict) }
{
    pack(verdict, |_| 0)
}

// The answer of a call that writes: a length.
pub fn pack_written(written: Result<usize, Refusal>) -> u64
    ensures { result ≡ pack plain (answer_of written) }
{
    pack(written, |n| n)
}

// A call of its own: that a byte is below 256 is known of a parameter, and not of a field behind a pattern.
fn byte(b: u8) -> usize
    ensures is { result ≡ b % 256 }
    ensures most { result < 256 }
{
    usize::from(b)
}

// A BBB's three bytes, 0 for none.
pub fn pack_bbb(bbb: Option<Bbb>) -> usize
    ensures { result ≡ bbb_bits (option_map paper_bbb bbb) }
{
    match bbb {
        None => 0,
        Some(Bbb(a, b, c)) => byte(a) + 256 * byte(b) + 65536 * byte(c),
    }
}

#[tactic(auto, unfolding(crate::specs::Packing::basin_number, lines::specs::Bytes::exactly))]
fn number_of_basin(basin: Basin) -> usize
    ensures is { result ≡ basin_number (paper_basin basin) }
    ensures most { result ≤ 5 }
{
    basin as usize
}

fn number_of_class(class: Class) -> usize
    ensures is { result ≡ class_number (paper_class class) }
    ensures most { result ≤ 4 }
{
    class as usize
}

fn pack_id(id: StormId) -> usize
    ensures { result ≡ name_bits (paper_id id) }
{
    let basin = id.basin;
    let class = id.class;
    let b = number_of_basin(basin);
    let c = number_of_class(class);
    b + 256 * c + 65536 * (id.number % 256) + 16777216 * (id.year % 65536)
}

// The storm, 0 for none.
pub fn pack_storm(storm: Storm) -> usize
    ensures { result ≡ storm_bits (paper_storm storm) }
{
    match storm {
        Storm::None => 0,
        Storm::Found(id) => pack_id(id),
    }
}

// A part of a text, by its start and its end.
pub fn pack_view(start: usize, past: usize) -> usize
    ensures { result ≡ view_bits (record { start = start; size = past - start }) }
{
    if past < start {
        return start % 16777216;
    }
    let n = past - start;
    start % 16777216 + 16777216 * (n % 4294967296)
}
