// Line 1, line 2 and the office line of a bulletin: document 01, "Text and lines".
#![tactic(auto)]

ghost use Rattle.std.specs.Prelude.{◌≡◌, ◌++◌, encode_utf8, if◌then◌else◌, option_map, ◌-◌, ◌≤◌, ◌<◌, Some, length, get_or, drop, IfErr};
ghost use Rattle.refusal.specs.declared.Reason.TheVariants.{WrongStorm};
ghost use Rattle.lines.specs.Bytes.{between, begins};
ghost use Rattle.heading.specs.Heading.{times, heading_form, bbb_after, heading_of, capital_or_digit, is_identifier};
ghost use Rattle.heading.specs.Storm.{is_office, names_storm, basin_of, class_of, storm_spelled, storm_of};
ghost use Rattle.heading.specs.Paper.{is_amendment, paper_bbb, paper_heading, paper_basin, paper_class, paper_named, storm_text};

use calendar::Stamp;
use refusal::Reason;
use std::fmt;

// BBB's three letters.
#[derive(Clone, Copy)]
pub struct Bbb(pub u8, pub u8, pub u8);

impl fmt::Display for Bbb {
    ghost output = { λ bbb. Some (encode_utf8 bbb.0 ++ (encode_utf8 bbb.1 ++ encode_utf8 bbb.2)) };

    fn fmt<W: fmt::Write>(&self, f: &mut fmt::Formatter<W>) -> fmt::Result {
        let Bbb(a, b, c) = *self;
        write!(f, "{}{}{}", a as char, b as char, c as char)
    }
}

#[derive(Clone, Copy)]
pub struct Heading {
    pub stamp: Stamp,
    pub bbb: Option<Bbb>,
}

// The basins, numbered from 1.
#[derive(Clone, Copy)]
pub enum Basin {
    Al = 1,
    Sl = 2,
    Ep = 3,
    Cp = 4,
    Wp = 5,
}

// Its two letters.
impl fmt::Display for Basin {
    ghost output = { λ basin. Some (paper_basin basin) };

    fn fmt<W: fmt::Write>(&self, f: &mut fmt::Formatter<W>) -> fmt::Result {
        f.write_str(match self {
            Basin::Al => "AL",
            Basin::Sl => "SL",
            Basin::Ep => "EP",
            Basin::Cp => "CP",
            Basin::Wp => "WP",
        })
    }
}

// The classes, numbered from 1.
#[derive(Clone, Copy)]
pub enum Class {
    Cyclone = 1,
    Internal = 2,
    Training = 3,
    Disturbance = 4,
}

#[derive(Clone, Copy)]
pub struct StormId {
    pub basin: Basin,
    pub class: Class,
    pub number: usize,
    pub year: usize,
}

// The basin, the number's two digits and the year's four, as an office line has them.
impl fmt::Display for StormId {
    ghost output = { λ id. Some (storm_text id) };

    fn fmt<W: fmt::Write>(&self, f: &mut fmt::Formatter<W>) -> fmt::Result {
        write!(f, "{}{:02}{:04}", self.basin, self.number, self.year)
    }
}

// The storm of an office line, or none. Document 01 names this form: a found storm carries its class within it.
#[derive(Clone, Copy)]
pub enum Storm {
    None,
    Found(StormId),
}

// Whether the line's bytes from one place up to another are all from `low` to `high`.
fn run(line: &[u8], from: usize, to: usize, low: u8, high: u8) -> bool
    requires { from < to }
    ensures { result ≡ begins (times (to - from) (between low high)) (drop from line.now) }
{
    let Some(part) = line.get(from..to) else {
        return false;
    };
    part.iter().all(|b| low <= *b && *b <= high)
}

// Whether `TTAAii CCCC DDHHMM` stands in front.
#[tactic(auto, using(crate::proofs::Forms::headed_is))]
fn is_headed(line: &[u8]) -> bool
    ensures { result ≡ begins heading_form line.now }
{
    run(line, 0, 4, b'A', b'Z')
        && run(line, 4, 6, b'0', b'9')
        && lines::byte(line, 6) == b' '
        && run(line, 7, 11, b'A', b'Z')
        && lines::byte(line, 11) == b' '
        && run(line, 12, 18, b'0', b'9')
}

// BBB, if a space and BBB are what stands behind DDHHMM: AA, CC or RR, and then A..X or Z.
#[tactic(auto, unfolding(crate::specs::Paper::is_amendment, lines::specs::Bytes::exactly))]
fn amendment(rest: &[u8]) -> Option<Bbb>
    ensures { option_map paper_bbb result ≡ (if is_amendment rest.now then bbb_after rest.now else None) }
{
    let [b' ', a @ (b'A' | b'C' | b'R'), b, c @ (b'A'..=b'X' | b'Z')] = *rest else {
        return None;
    };
    (a == b).then_some(Bbb(a, b, c))
}

// Line 1, without its end: behind DDHHMM nothing follows, or a space and BBB.
#[tactic(auto, using(crate::proofs::Forms::headed_long))]
pub fn read_heading(line: &[u8]) -> Option<Heading>
    ensures { option_map paper_heading result ≡ heading_of line.now }
{
    let stamp = Stamp {
        day: codes::two(line, 12),
        hour: codes::two(line, 14),
        minute: codes::two(line, 16),
    };
    if !is_headed(line) || !calendar::is_time(stamp) {
        return None;
    }
    let bbb = match &line[18..] {
        [] => None,
        rest => Some(amendment(rest)?),
    };
    Some(Heading { stamp, bbb })
}

fn is_name(b: u8) -> bool
    ensures { result ≡ capital_or_digit b }
{
    b.is_ascii_uppercase() || b.is_ascii_digit()
}

// Line 2.
#[tactic(auto, using(crate::proofs::Forms::identifier_long), unfolding(crate::specs::Heading::is_identifier, lines::specs::Bytes::exactly))]
pub fn is_identifier(line: &[u8]) -> bool
    ensures { result ≡ is_identifier line.now }
{
    let [a, b, c, d, e, f] = *line else {
        return false;
    };
    let end = is_name(e) && (is_name(f) || f == b' ') || e == b' ' && f == b' ';
    is_name(a) && is_name(b) && is_name(c) && is_name(d) && end
}

#[tactic(auto, unfolding(crate::specs::Storm::is_office))]
pub fn is_office(line: &[u8]) -> bool
    ensures { result ≡ is_office line.now }
{
    lines::begins_with(line, b"NATIONAL WEATHER SERVICE ") || lines::begins_with(line, b"NWS ")
}

// The last k bytes, as far as the line has them.
fn last(line: &[u8], k: usize) -> &[u8]
    ensures { result.now ≡ drop (length line.now - k) line.now }
{
    &line[line.len().saturating_sub(k)..]
}

// Whether the line's last bytes are a space, two capitals and six digits.
#[tactic(auto, using(crate::proofs::Storms::names_is))]
fn names_storm(line: &[u8]) -> bool
    ensures { result ≡ names_storm line.now }
{
    let e = last(line, 9);
    e.len() == 9 && e[0] == b' ' && run(e, 1, 3, b'A', b'Z') && run(e, 3, 9, b'0', b'9')
}

#[tactic(auto, unfolding(crate::specs::Storm::basin_of, lines::specs::Bytes::begins))]
fn basin_of(e: &[u8]) -> Option<Basin>
    ensures { option_map paper_basin result ≡ basin_of e.now }
{
    match e.first_chunk() {
        Some(b"AL") => Some(Basin::Al),
        Some(b"SL") => Some(Basin::Sl),
        Some(b"EP") => Some(Basin::Ep),
        Some(b"CP") => Some(Basin::Cp),
        Some(b"WP") => Some(Basin::Wp),
        _ => None,
    }
}

#[tactic(auto, unfolding(crate::specs::Storm::class_of))]
fn class_of(n: usize) -> Option<Class>
    ensures { option_map paper_class result ≡ class_of n }
{
    match n {
        1..=49 => Some(Class::Cyclone),
        50..=79 => Some(Class::Internal),
        80..=89 => Some(Class::Training),
        90..=99 => Some(Class::Disturbance),
        _ => None,
    }
}

// The storm that eight bytes name.
#[tactic(auto, using(crate::proofs::Storms::storm_elsewhere, crate::proofs::Storms::storm_zero, crate::proofs::Storms::storm_found))]
fn storm_in(e: &[u8]) -> Result<Storm, Reason>
    ensures is { paper_named result ≡ storm_spelled e.now }
    ensures reason { IfErr result (λ reason. reason ≡ WrongStorm) }
{
    let number = codes::two(e, 2);
    let basin = basin_of(e).ok_or(Reason::WrongStorm)?;
    let class = class_of(number).ok_or(Reason::WrongStorm)?;
    Ok(Storm::Found(StormId {
        basin,
        class,
        number,
        year: 100 * codes::two(e, 4) + codes::two(e, 6),
    }))
}

// What an office line says of a storm.
#[tactic(auto, using(crate::proofs::Storms::storm_named, crate::proofs::Storms::storm_unnamed))]
pub fn read_storm(line: &[u8]) -> Result<Storm, Reason>
    ensures is { paper_named result ≡ storm_of line.now }
    ensures reason { IfErr result (λ reason. reason ≡ WrongStorm) }
{
    if names_storm(line) {
        return storm_in(last(line, 8));
    }
    Ok(Storm::None)
}
