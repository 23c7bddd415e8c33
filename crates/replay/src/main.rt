// The replay program: bulletins, and after each a list of calls on its book; it prints a line for each.
#![tactic(auto)]

ghost use Rattle.std.specs.Prelude.{◌≡◌, option_map, Some, ◌+◌, ◌*◌, ◌≤◌, ◌<◌, length, get_or, drop, IfOk, OnOk};
ghost use Rattle.std.specs.Prelude.{None, Some};
ghost use Rattle.std.specs.Io.KnownBytes.{Appends};
ghost use Rattle.lines.specs.Bytes.{lf};
ghost use Rattle.replay.specs.Answers.{unknown_line, changed_line, reply_line, verdict_line, viewed_line, written_front, sent_line, sum_line};
ghost use Rattle.replay.specs.Lines.{call_line, line_up_to, case_of, number_from, paper_line, paper_source, lines_within};
ghost use Rattle.replay.specs.Lines.{weighted_sum, text_asked, replaced, after_line, paper_progress, Onward};

use calendar::Stamp;
use layout::{Changed, Reply};
use refusal::{Reason, Refusal};
use std::io;
use std::io::Write;

// The most bytes of input, and the bytes of a case's buffer and of a book.
const INPUT: usize = 1048576;

const BUFFER: usize = 30000;

const BOOK: usize = 25088;

// The longest output of a segment and of an edited bulletin, and the longest text that replaces a case's own.
const OUTPUT: usize = 2000;

const EDITED: usize = 20000;

const TEXT: usize = 99999;

// ---- call lines
// A number, and where its digits end.
#[derive(Clone, Copy)]
struct Number {
    value: usize,
    end: usize,
}

// A call line: its first byte and the numbers behind it.
#[derive(Clone, Copy)]
struct Line {
    kind: u8,
    count: usize,
    numbers: [usize; 5],
}

// The number that at most ten digits from `from` on spell, and where they end.
fn read_number(line: &[u8], from: usize) -> Number
    requires { from ≤ length line.now }
    ensures is { result ≡ number_from line.now from }
    ensures ends { (from ≤ result.end) × (result.end ≤ length line.now) }
{
    let mut value = 0;
    for k in 0..10 {
        let b = lines::byte(line, from + k);
        if !lines::digit(b) {
            return Number {
                value,
                end: from + k,
            };
        }
        value = 10 * value + (b - b'0') as usize;
    }
    Number {
        value,
        end: from + 10,
    }
}

// A byte, and numbers of one to ten digits with single spaces before them; a line of another form is none.
fn spell(line: &[u8]) -> Option<Line>
    ensures { option_map paper_line result ≡ call_line line.now }
{
    let mut numbers = [0usize; 5];
    let mut count = 0;
    let mut at = 1;
    if line.len() == 0 {
        return None;
    }
    while at < line.len() {
        if line[at] != b' ' {
            return None;
        }
        if count == 5 {
            return None;
        }
        let n = read_number(line, at + 1);
        if n.end == at + 1 {
            return None;
        }
        numbers[count] = n.value;
        count += 1;
        at = n.end;
    }
    Some(Line {
        kind: line[0],
        count,
        numbers,
    })
}

// Where the line that starts at `at` ends: at its LF, or at the input's end.
fn line_end(input: &[u8], at: usize) -> usize
    requires { at ≤ length input.now }
    ensures is { result ≡ at + length (line_up_to lf (drop at input.now)) }
    ensures ends { (at ≤ result) × (result ≤ length input.now) }
{
    for i in at..input.len() {
        if input[i] == b'\n' {
            return i;
        }
    }
    input.len()
}

// ---- where a case starts
// A bulletin's place in the input, and the time that it is read under.
#[derive(Clone, Copy)]
struct Source {
    year: usize,
    month: usize,
    start: usize,
    end: usize,
}

// A case's first two lines: the time, and the bulletin's length as five digits.
fn read_opening(input: &[u8], at: usize) -> Option<Source>
    requires { at ≤ length input.now }
    ensures is { option_map (paper_source input.now) result ≡ case_of (drop at input.now) }
    ensures ends { lines_within at (length input.now) result }
{
    let head = &input[at..];
    let time = printing::read_asked(head)?;
    let room = head.len();
    if room < 14 {
        return None;
    }
    let n = read_number(head, 8);
    if n.end != 13 {
        return None;
    }
    if head[13] != b'\n' {
        return None;
    }
    if room - 14 < n.value {
        return None;
    }
    Some(Source {
        year: time.year,
        month: time.month,
        start: at + 14,
        end: at + 14 + n.value,
    })
}

// ---- answers
// A write that fails ends the program with its error: no line is done after it, and what was done stays done.
// The answer to a line that is no call.
fn say_unknown<W: Write>(to: &mut W) -> io::Result<()>
    ensures { OnOk result (Appends (W.contents to.old) (W.contents to.new) unknown_line) }
{
    writeln!(to, "?")
}

fn say_changed<W: Write>(to: &mut W, c: Changed) -> io::Result<()>
    ensures { OnOk result (Appends (W.contents to.old) (W.contents to.new) (changed_line c)) }
{
    match c {
        Changed::Nothing => writeln!(to, "S"),
        Changed::One(a) => writeln!(to, "S {a}"),
        Changed::Two(a, b) => writeln!(to, "S {a} {b}"),
    }
}

fn say_reply<W: Write>(to: &mut W, reply: Result<Reply, Refusal>) -> io::Result<()>
    ensures { OnOk result (Appends (W.contents to.old) (W.contents to.new) (reply_line reply)) }
{
    match reply {
        Ok(Reply::Draft(d)) => writeln!(to, "D {d}"),
        Ok(Reply::Done) => writeln!(to, "K"),
        Ok(Reply::Number(n)) => writeln!(to, "V {n}"),
        Ok(Reply::Was(true)) => writeln!(to, "V 1"),
        Ok(Reply::Was(false)) => writeln!(to, "V 0"),
        Ok(Reply::Segments(c)) => say_changed(to, c),
        Err(r) => printing::say_refusal(to, r),
    }
}

fn say_verdict<W: Write>(to: &mut W, verdict: Result<(), Refusal>) -> io::Result<()>
    ensures { OnOk result (Appends (W.contents to.old) (W.contents to.new) (verdict_line verdict)) }
{
    match verdict {
        Ok(()) => writeln!(to, "K"),
        Err(r) => printing::say_refusal(to, r),
    }
}

// The start and the length of a segment that a view gives.
fn say_view<W: Write>(to: &mut W, start: usize, size: usize) -> io::Result<()>
    ensures { OnOk result (Appends (W.contents to.old) (W.contents to.new) (viewed_line start size)) }
{
    writeln!(to, "G {start} {size}")
}

// The length of a written block; the output follows.
fn say_written<W: Write>(to: &mut W, n: usize) -> io::Result<()>
    ensures { OnOk result (Appends (W.contents to.old) (W.contents to.new) (written_front n)) }
{
    write!(to, "W {n} ")
}

// The length of an edited bulletin, and the sum of the output.
fn say_edited<W: Write>(to: &mut W, n: usize, sum: usize) -> io::Result<()>
    ensures { OnOk result (Appends (W.contents to.old) (W.contents to.new) (sent_line n sum)) }
{
    writeln!(to, "F {n} {sum}")
}

// The sum of the buffer.
fn say_sum<W: Write>(to: &mut W, sum: usize) -> io::Result<()>
    ensures { OnOk result (Appends (W.contents to.old) (W.contents to.new) (sum_line sum)) }
{
    writeln!(to, "Z {sum}")
}

// The last hex digit of n.
fn hex(n: u8) -> u8 {
    let digit = n % 16;
    if digit < 10 {
        b'0' + digit
    } else {
        b'a' + (digit - 10)
    }
}

// The bytes in lower-case hex, a block's 512 at once.
fn say_hex<W: Write>(to: &mut W, bytes: &[u8]) -> io::Result<()> {
    let mut text = [0u8; 1024];
    let mut filled: usize = 0;
    for b in bytes {
        text[filled] = hex(*b / 16);
        text[filled + 1] = hex(*b);
        filled += 2;
        if 1022 < filled {
            printing::say(to, &text)?;
            filled = 0;
        }
    }
    printing::say(to, &text[0..filled])
}

// ---- calls
// A call on the book, with its numbers in the order of the line.
#[derive(Clone, Copy)]
enum Call {
    Open,
    Take(usize, usize),
    ReadPurge(usize, usize),
    ReadCount(usize, usize),
    ReadPlace(usize, usize, usize),
    Add(usize, usize, usize),
    Remove(usize, usize, usize),
    SetPurge(usize, usize, Stamp),
    Commit(usize),
    Drop(usize),
    Undo,
}

// What a line asks for: a call on the book, or something of the case's text or buffer.
#[derive(Clone, Copy)]
enum Request {
    Call(Call),
    Make,
    Write(usize, usize),
    WriteEdited(usize),
    List,
    View(usize),
    Lend(usize),
    Block(usize),
    Byte(usize, usize),
    Sum,
}

// What a line with this first byte and so many numbers asks for, if it is one of the lines.
fn read_request(line: Line) -> Option<Request> {
    let n = line.numbers;
    match (line.kind, line.count) {
        (b'O', 0) => Some(Request::Call(Call::Open)),
        (b'T', 2) => Some(Request::Call(Call::Take(n[0], n[1]))),
        (b'P', 2) => Some(Request::Call(Call::ReadPurge(n[0], n[1]))),
        (b'N', 2) => Some(Request::Call(Call::ReadCount(n[0], n[1]))),
        (b'I', 3) => Some(Request::Call(Call::ReadPlace(n[0], n[1], n[2]))),
        (b'A', 3) => Some(Request::Call(Call::Add(n[0], n[1], n[2]))),
        (b'X', 3) => Some(Request::Call(Call::Remove(n[0], n[1], n[2]))),
        (b'M', 5) => {
            let time = Stamp {
                day: n[2],
                hour: n[3],
                minute: n[4],
            };
            Some(Request::Call(Call::SetPurge(n[0], n[1], time)))
        }
        (b'C', 1) => Some(Request::Call(Call::Commit(n[0]))),
        (b'Q', 1) => Some(Request::Call(Call::Drop(n[0]))),
        (b'U', 0) => Some(Request::Call(Call::Undo)),
        (b'+', 0) => Some(Request::Make),
        (b'W', 2) => Some(Request::Write(n[0], n[1])),
        (b'F', 1) => Some(Request::WriteEdited(n[0])),
        (b'E', 0) => Some(Request::List),
        (b'V', 1) => Some(Request::View(n[0])),
        (b'L', 1) => Some(Request::Lend(n[0])),
        (b'B', 1) => Some(Request::Block(n[0])),
        (b'!', 2) => Some(Request::Byte(n[0], n[1])),
        (b'Z', 0) => Some(Request::Sum),
        _ => None,
    }
}

// Does a call on a book.
fn answer(book: &mut [u8], call: Call) -> Result<Reply, Refusal> {
    match call {
        Call::Open => drafts::open(book),
        Call::Take(d, s) => drafts::take(book, d, s),
        Call::ReadPurge(d, s) => drafts::read_purge(book, d, s),
        Call::ReadCount(d, s) => drafts::read_count(book, d, s),
        Call::ReadPlace(d, s, i) => drafts::read_place(book, d, s, i),
        Call::Add(d, s, p) => edits::add(book, d, s, p),
        Call::Remove(d, s, p) => edits::remove(book, d, s, p),
        Call::SetPurge(d, s, time) => edits::set_purge(book, d, s, time),
        Call::Commit(d) => history::commit(book, d),
        Call::Drop(d) => drafts::drop(book, d),
        Call::Undo => history::undo(book),
    }
}

// Writes a segment into an output with room for so many bytes, and prints all of it.
fn write_line<W: Write>(to: &mut W, book: &[u8], s: usize, room: usize) -> io::Result<()> {
    let mut whole = [0x5Au8; OUTPUT];
    let Some(out) = whole.get_mut(..room) else {
        return say_unknown(to);
    };
    match making::write(book, s, out) {
        Ok(n) => {
            say_written(to, n)?;
            say_hex(to, out)?;
            writeln!(to)
        }
        Err(r) => printing::say_refusal(to, r),
    }
}

// The place and length in the bulletin of a segment that a view gives.
fn view_line<W: Write>(
    to: &mut W,
    text: &[u8],
    year: usize,
    month: usize,
    n: usize,
) -> io::Result<()> {
    match bulletin::find_segment(text, year, month, n) {
        Err(r) => printing::say_refusal(to, r),
        Ok(segment) => {
            let size = bulletin::view(text, year, month, n).len();
            say_view(to, segment.start, size)
        }
    }
}

// What the byte at place i adds to a sum.
fn weigh(i: usize, b: u8) -> usize
    requires { i < 30000 }
    ensures { (result ≡ (i + 1) * b) × (result ≤ 7650000) }
{
    (i + 1) * b as usize
}

// 1 and the weighted sum of the bytes, modulo 4,294,967,291: of a buffer, or of an output.
fn total(bytes: &[u8]) -> usize
    requires { length bytes.now ≤ 30000 }
    ensures { result ≡ weighted_sum bytes.now }
{
    let mut sum: usize = 1;
    for (i, b) in bytes.iter().enumerate() {
        sum += weigh(i, *b);
    }
    sum % 4294967291
}

// Writes the edited bulletin into an output with room for so many bytes, and prints its length and the sum of the whole output.
// The same frame as `write_line`: the two have arrays of their own length, and a function over both would need a closure and a length as parameters.
fn edited_line<W: Write>(to: &mut W, text: &[u8], book: &[u8], room: usize) -> io::Result<()> {
    let mut whole = [0x5Au8; EDITED];
    let Some(out) = whole.get_mut(..room) else {
        return say_unknown(to);
    };
    match sending::write_edited(text, book, out) {
        Ok(n) => say_edited(to, n, total(out)),
        Err(r) => printing::say_refusal(to, r),
    }
}

// ---- lines that are no call, and see the whole buffer
fn block_line<W: Write>(to: &mut W, buffer: &[u8], i: usize) -> io::Result<()>
    requires { length buffer.now ≡ 30000 }
{
    if 57 < i {
        return say_unknown(to);
    }
    let at = i * 512;
    let end = at + 512;
    write!(to, "B ")?;
    say_hex(to, &buffer[at..end])?;
    writeln!(to)
}

fn byte_line<W: Write>(to: &mut W, buffer: &mut [u8], at: usize, b: usize) -> io::Result<()>
    requires { length buffer.old ≡ 30000 }
{
    if BUFFER <= at {
        return say_unknown(to);
    }
    if 255 < b {
        return say_unknown(to);
    }
    buffer[at] = b as u8;
    writeln!(to, "!")
}

// Answers how much is lent from now on.
fn lend_line<W: Write>(to: &mut W, lent: usize, n: usize) -> io::Result<usize>
    requires { lent ≤ 30000 }
    ensures { IfOk result (λ lent. lent ≤ 30000) }
{
    if BUFFER < n {
        say_unknown(to)?;
        return Ok(lent);
    }
    writeln!(to, "!")?;
    Ok(n)
}

// Makes a book of the bulletin in what is lent of the buffer.
fn make_line<W: Write>(
    to: &mut W,
    buffer: &mut [u8],
    lent: usize,
    text: &[u8],
    year: usize,
    month: usize,
) -> io::Result<()>
    requires { (length buffer.old ≡ 30000) × (lent ≤ 30000) }
{
    say_verdict(to, making::make(&mut buffer[0..lent], text, year, month))
}

// ---- the run
// Does a call line on what is lent of the buffer, and answers how much is lent from now on.
fn act<W: Write>(
    to: &mut W,
    buffer: &mut [u8],
    lent: usize,
    text: &[u8],
    source: Source,
    line: Line,
) -> io::Result<usize>
    requires { (length buffer.old ≡ 30000) × (lent ≤ 30000) }
    ensures { IfOk result (λ lent. lent ≤ 30000) }
{
    let Some(request) = read_request(line) else {
        say_unknown(to)?;
        return Ok(lent);
    };
    let year = source.year;
    let month = source.month;
    match request {
        Request::Call(asked) => say_reply(to, answer(&mut buffer[0..lent], asked))?,
        Request::Make => make_line(to, buffer, lent, text, year, month)?,
        Request::Write(s, room) => write_line(to, &buffer[0..lent], s, room)?,
        Request::WriteEdited(room) => edited_line(to, text, &buffer[0..lent], room)?,
        Request::List => printing::list(to, text, year, month)?,
        Request::View(n) => view_line(to, text, year, month, n)?,
        Request::Lend(n) => return lend_line(to, lent, n),
        Request::Block(i) => block_line(to, buffer, i)?,
        Request::Byte(at, b) => byte_line(to, buffer, at, b)?,
        Request::Sum => say_sum(to, total(buffer))?,
    }
    Ok(lent)
}

// How far a case has come: where its text stands in the input, where its next line starts, and how much of the buffer is lent.
#[derive(Clone, Copy)]
struct Progress {
    start: usize,
    end: usize,
    next: usize,
    lent: usize,
}

// The n of a line `% n`.
fn asked_text(line: Line) -> Option<usize>
    ensures { result ≡ text_asked (Some (paper_line line)) }
{
    let numbers = line.numbers;
    if (line.kind == b'%') & (line.count == 1) {
        Some(numbers[0])
    } else {
        None
    }
}

// `% n`: the n bytes behind the line become the case's text. Where fewer follow, the program ends: no line of the input is left to do.
fn text_line<W: Write>(
    to: &mut W,
    input: &[u8],
    progress: Progress,
    n: usize,
) -> io::Result<Progress>
    requires { (progress.next ≤ length input.now) × (progress.lent ≤ 30000) }
    ensures is { IfOk result (λ after. paper_progress input.now after ≡ replaced n (paper_progress input.now progress)) }
    ensures goes { IfOk result (λ after. Onward (length input.now) progress after) }
{
    if TEXT < n {
        say_unknown(to)?;
        return Ok(progress);
    }
    let start = progress.next;
    let mut after = progress;
    if input.len() - start < n {
        say_unknown(to)?;
        after.next = input.len();
        return Ok(after);
    }
    writeln!(to, "!")?;
    after.start = start;
    after.end = start + n;
    after.next = start + n;
    Ok(after)
}

// Does a line: `% n` is about the input, and any other line is a call or prints `?`.
fn do_line<W: Write>(
    to: &mut W,
    buffer: &mut [u8],
    input: &[u8],
    source: Source,
    progress: Progress,
    spelled: Option<Line>,
) -> io::Result<Progress>
    requires { (length buffer.old ≡ 30000) × (progress.next ≤ length input.now) × (progress.lent ≤ 30000) }
    ensures is { IfOk result (λ after. paper_progress input.now after ≡ after_line (option_map paper_line spelled) (paper_progress input.now progress)) }
    ensures goes { IfOk result (λ after. Onward (length input.now) progress after) }
{
    let Some(line) = spelled else {
        say_unknown(to)?;
        return Ok(progress);
    };
    if let Some(n) = asked_text(line) {
        return text_line(to, input, progress, n);
    }
    let text = lines::part(input, progress.start, progress.end);
    let mut after = progress;
    after.lent = act(to, buffer, progress.lent, text, source, line)?;
    Ok(after)
}

// Does a case: its book, and its call lines; answers where the next case starts, or the input's length.
fn run<W: Write>(to: &mut W, input: &[u8], source: Source) -> io::Result<usize>
    requires { source.end ≤ length input.now }
    ensures { IfOk result (λ next. (source.end ≤ next) × (next ≤ length input.now)) }
{
    let mut buffer = [0xAAu8; 30000];
    let text = lines::part(input, source.start, source.end);
    make_line(to, &mut buffer, BOOK, text, source.year, source.month)?;
    let mut progress = Progress {
        start: source.start,
        end: source.end,
        next: source.end,
        lent: BOOK,
    };
    while progress.next < input.len() {
        let at = progress.next;
        let end = line_end(input, at);
        if input.len() <= end {
            say_unknown(to)?;
            return Ok(end);
        }
        let line = &input[at..end];
        progress.next = end + 1;
        if line == b".".as_slice() {
            return Ok(end + 1);
        }
        progress = do_line(to, &mut buffer, input, source, progress, spell(line))?;
    }
    Ok(progress.next)
}

// Case after case, up to the input's end.
fn run_all<W: Write>(to: &mut W, input: &[u8]) -> io::Result<()> {
    let mut at = 0;
    loop {
        let Some(source) = read_opening(input, at) else {
            return printing::say_refusal(to, Reason::OutOfRange.at(0));
        };
        at = run(to, input, source)?;
        if input.len() <= at {
            return Ok(());
        }
    }
}

// Room for the longest input and one byte more, by which a longer one is told apart.
fn room() -> [u8; 1048577] {
    [0; 1048577]
}

fn main(rt: HostRuntime) -> io::Result<()> {
    let mut input = room();
    let got = printing::read_full(&mut rt.reader(), &mut input)?;
    let mut to = io::writer(&rt);
    if INPUT < got {
        return printing::say_refusal(&mut to, Reason::WrongLength.at(0));
    }
    run_all(&mut to, &input[0..got])
}
