// Dates, minutes and the purge rule of document 01, "Time", as document 02, R-2, amends it.
#![tactic(auto)]

ghost use Rattle.std.specs.Prelude.{◌≡◌, ◌+◌, ◌-◌, ◌*◌, ◌≤◌, cond, ltb};
ghost use Rattle.calendar.specs.Calendar.{is_issue_month, is_month, is_time, minute_of, date_of};
ghost use Rattle.calendar.specs.Purge.{purge_of};
ghost use Rattle.calendar.specs.Window.{earliest, within, window_of};
ghost use Rattle.calendar.specs.Serving.{Time};

// DDHHMM.
#[derive(Clone, Copy)]
pub struct Stamp {
    pub day: usize,
    pub hour: usize,
    pub minute: usize,
}

#[derive(Clone, Copy)]
pub struct Date {
    pub year: usize,
    pub month: usize,
    pub stamp: Stamp,
}

// 2100-01-01 0000, where the issues end.
const ISSUES: usize = 68374080;

// How long before its issue a purge may be.
const LATE: usize = 1440;

pub fn is_issue_month(year: usize, month: usize) -> bool
    ensures { result ≡ is_issue_month year month }
{
    ((1970 <= year) & (year <= 2099)) & ((1 <= month) & (month <= 12))
}

pub fn is_time(s: Stamp) -> bool
    ensures { result ≡ is_time s }
{
    (1 <= s.day) & (s.day <= 31) & (s.hour <= 23) & (s.minute <= 59)
}

// A month that the calendar has: one of an issue, or January 2100.
fn is_month(year: usize, month: usize) -> bool
    ensures { result ≡ is_month year month }
{
    is_issue_month(year, month) | ((year == 2100) & (month == 1))
}

pub fn date_of(minute: usize) -> Option<Date>
    ensures { result ≡ date_of minute }
{
    let m = months::month_of(minute)?;
    let left = minute - m.start;
    Some(Date {
        year: m.year,
        month: m.month,
        stamp: Stamp {
            day: left / 1440 + 1,
            hour: left / 60 % 24,
            minute: left % 60,
        },
    })
}

// How long after its month's start a DDHHMM is.
fn time_in(s: Stamp) -> usize
    requires { Time s }
    ensures is { result ≡ (s.day - 1) * 1440 + s.hour * 60 + s.minute }
    ensures most { result ≤ 44640 }
{
    (s.day - 1) * 1440 + s.hour * 60 + s.minute
}

pub fn minute_of(date: Date) -> Option<usize>
    ensures { result ≡ minute_of date }
{
    let year = date.year;
    let month = date.month;
    let s = date.stamp;
    let usable = is_month(year, month) & is_time(s);
    if !usable {
        return None;
    }
    if s.day <= months::month_length(year, month) {
        return Some(months::month_start(year, month) + time_in(s));
    }
    None
}

// The earliest minute that can be a purge minute. There is none before minute 0.
fn earliest(issue: usize) -> usize
    ensures { result ≡ earliest issue }
{
    if issue < LATE {
        return 0;
    }
    issue - LATE
}

pub fn purge_of(issue: usize, s: Stamp) -> Option<usize>
    ensures { result ≡ purge_of issue s }
{
    let usable = (issue < ISSUES) & is_time(s);
    if !usable {
        return None;
    }
    // It is not past the issue, so the calendar has its month.
    let from = earliest(issue);
    let m = months::month_of(from)?;
    let here = m.start + time_in(s);
    if (s.day <= m.days) & (from <= here) {
        return Some(here);
    }
    // No minute of a later month is too early.
    let lasts = 1440 * m.days;
    let next = here + lasts;
    let days = months::length_after(m.year, m.month, 1);
    if s.day <= days {
        return Some(next);
    }
    // If the issue itself is of the next month, the month after it is the third from here.
    let last = months::length_after(m.year, m.month, 2);
    if (m.start + lasts <= issue) & (s.day <= last) {
        return Some(next + 1440 * days);
    }
    None
}

// The minutes that are their own purge minute under an issue. It is worked out once for the issue, and then asked of each minute.
#[derive(Clone, Copy)]
pub struct Window {
    // The earliest minute, how long after its month's start it is, and how long that month lasts.
    pub from: usize,
    pub since: usize,
    pub lasts: usize,
    // Where the next month starts.
    pub second: usize,
    // Where the month after that starts, and where in it the days begin that the second has not.
    pub third: usize,
    pub longer: usize,
    // Where the month after the issue's ends.
    pub end: usize,
}

// Where the month after the issue's ends. The issue is of the first month, which the second follows, or of the second; the third has so many days.
fn end_after(issue: usize, second: usize, third: usize, days: usize) -> usize
    requires { third ≤ 100000000 × days ≤ 31 }
    ensures { result ≡ cond (ltb issue second) third (third + 1440 * days) }
{
    if issue < second {
        return third;
    }
    third + 1440 * days
}

pub fn window_of(issue: usize) -> Option<Window>
    ensures { result ≡ window_of issue }
{
    if ISSUES <= issue {
        return None;
    }
    // It is not past the issue, so the calendar has its month.
    let from = earliest(issue);
    let m = months::month_of(from)?;
    let lasts = 1440 * m.days;
    let then = 1440 * months::length_after(m.year, m.month, 1);
    let second = m.start + lasts;
    let third = second + then;
    let end = end_after(
        issue,
        second,
        third,
        months::length_after(m.year, m.month, 2),
    );
    Some(Window {
        from,
        since: from - m.start,
        lasts,
        second,
        third,
        longer: third + then,
        end,
    })
}

pub fn is_within(w: Window, minute: usize) -> bool
    ensures { result ≡ within w minute }
{
    if minute < w.from {
        return false;
    }
    if minute < w.second {
        return true;
    }
    // The same DDHHMM in the first month comes first, if it is there and not too early.
    if minute < w.third {
        let over = minute - w.second;
        return !((over < w.lasts) & (w.since <= over));
    }
    let over = minute - w.third;
    (minute < w.end) & !((over < w.lasts) & (w.since <= over)) & (w.longer <= minute)
}
