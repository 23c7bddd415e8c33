// Place code blocks, read whole: document 01, "Segments and place code blocks".
#![tactic(auto)]

ghost use Rattle.std.specs.Prelude.{◌≡◌, Some, IfOk};
ghost use Rattle.refusal.specs.Answer.{answer_by};
ghost use Rattle.codes.specs.Block.{read_block, twice_at};
ghost use Rattle.sets.specs.Held.{Good};
ghost use Rattle.reading.specs.Placed.{placed_at};
ghost use Rattle.reading.specs.Held.{block_for, placed_of};
ghost use Rattle.reading.specs.Rests.{Known, read_on, rest_of, over_for};

use calendar::Stamp;
use codes::{Cursor, Step};
use refusal::{Reason, Refusal};
use sets::{Places, Put};

// A whole block: its DDHHMM, the place of its element, and its places, or that they are over 120; of those none are held.
#[derive(Clone, Copy)]
pub struct Block {
    pub stamp: Stamp,
    pub place: usize,
    pub over: bool,
    pub places: Places,
}

// A segment's purge minute, the place of the purge element, and its places.
#[derive(Clone, Copy)]
pub struct Content {
    pub purge: usize,
    pub place: usize,
    pub places: Places,
}

// The rest of a block, of which no place is kept: its DDHHMM and the place of that element.
fn rest_of(text: &[u8], from: Cursor) -> Result<(Stamp, usize), Refusal>
    requires { Known from }
    ensures { result ≡ rest_of (read_on text.now from) }
{
    let mut cursor = from;
    loop {
        let step = cursor.step(text);
        match step {
            Step::Covers(prefix, _, _, next) => {
                cursor = Cursor {
                    at: next.at,
                    last: Some(prefix),
                };
            }
            Step::Purge(stamp, place) => return Ok((stamp, place)),
            Step::Wrong(place) => return Err(Reason::WrongBlock.at(place)),
        }
    }
}

// A block of more than 120 places, of which `from` is the rest. Whether an element covers a place already covered is asked for by itself.
fn found_over(text: &[u8], at: usize, from: Cursor) -> Result<Block, Refusal>
    requires { Known from }
    ensures { result ≡ over_for (twice_at text.now at) (rest_of (read_on text.now from)) }
{
    let (stamp, place) = rest_of(text, from)?;
    if let Some(again) = repeats::first_twice(text, at) {
        return Err(Reason::PlaceTwice.at(again));
    }
    Ok(Block {
        stamp,
        place,
        over: true,
        places: Places::new(),
    })
}

// A block whose element at `again` covers a place already covered, and of which `from` is the rest.
fn found_twice(text: &[u8], again: usize, from: Cursor) -> Result<Block, Refusal>
    requires { Known from }
    ensures { result ≡ over_for (Some again) (rest_of (read_on text.now from)) }
{
    rest_of(text, from)?;
    Err(Reason::PlaceTwice.at(again))
}

// The block that starts at a place of the text.
pub fn read_block(text: &[u8], at: usize) -> Result<Block, Refusal>
    ensures is { result ≡ block_for (twice_at text.now at) (read_block text.now at) }
    ensures good { IfOk result (λ b. Good b.places) }
{
    let mut cursor = Cursor { at, last: None };
    let mut places = Places::new();
    loop {
        let here = cursor.at;
        let step = cursor.quick_step(text);
        match step {
            Step::Covers(prefix, first, last, next) => {
                cursor = Cursor {
                    at: next.at,
                    last: Some(prefix),
                };
                match places.cover(prefix, first, last) {
                    Put::Held => {}
                    Put::Over => return found_over(text, at, cursor),
                    Put::Twice => return found_twice(text, here, cursor),
                }
            }
            Step::Purge(stamp, place) => {
                return Ok(Block {
                    stamp,
                    place,
                    over: false,
                    places,
                });
            }
            Step::Wrong(place) => return Err(Reason::WrongBlock.at(place)),
        }
    }
}

// The content of the segment that starts at a place of the text, under an issue.
pub fn read_content(text: &[u8], start: usize, issue: usize) -> Result<Content, Refusal>
    ensures is { answer_by placed_of result ≡ placed_at text.now issue start }
    ensures good { IfOk result (λ c. Good c.places) }
{
    let block = read_block(text, start)?;
    let purge = calendar::purge_of(issue, block.stamp).ok_or(Reason::WrongTime.at(block.place))?;
    if block.over {
        return Err(Reason::TooManyPlaces.at(start));
    }
    Ok(Content {
        purge,
        place: block.place,
        places: block.places,
    })
}
