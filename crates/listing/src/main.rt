// The listing program: `YYYY MM` and LF, then a bulletin; it prints the heading and each segment, or the refusal.
#![tactic(auto)]

use refusal::Reason;
use std::io;

fn main(rt: HostRuntime) -> io::Result<()> {
    // One byte more than the first line and the longest bulletin: a longer one is told apart.
    let mut input = [0u8; 16393];
    let got = printing::read_full(&mut rt.reader(), &mut input)?;
    let mut out = io::writer(&rt);
    let whole = &input[0..got];
    match printing::read_asked(whole) {
        Some(time) => printing::list(&mut out, lines::part(whole, 8, got), time.year, time.month),
        None => printing::say_refusal(&mut out, Reason::OutOfRange.at(0)),
    }
}
