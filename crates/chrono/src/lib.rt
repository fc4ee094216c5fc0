// The four matchers of chrono.rs, and the type that a text observes (document 01, "Date texts"). No range is tested.
// Each match answers what is left of the text. It reads on and never goes back: nothing that follows digits begins with one.

#![tactic(auto, unfolding(crate::specs::Scan::scan))]

ghost use Rattle.std.specs.Prelude.{◌≡◌, Bool, ◌+◌, ◌≤◌, ℕ, length, Some, option_copied};
ghost use Rattle.datatype.specs.Codes.{code_of};
ghost use Rattle.options.specs.Word.{string_type};
ghost use Rattle.chrono.specs.Grammar.{one, byte, word, is_empty, fits};
ghost use Rattle.chrono.specs.Date.{is_digit, digit, digits, one_or_two_digits, optional_sign, subsecond, separator, naive_date, naive_time, naive_datetime, zero_offset, utc_zone, utc_datetime};
ghost use Rattle.chrono.specs.Scan.{skip, scan, of_rest};
ghost use Rattle.chrono.specs.Fixed.{begins, two_digits, joined_digits, fixed_date, fixed_time, fixed_datetime};
ghost use Rattle.chrono.specs.Text.{date_texts, first_fit, text_type};
ghost use Rattle.chrono.specs.Reading.{type_or, after_date};

use datatype::{DataType, Zone};
use options::TracingOptions;

// The rest after one byte, where it passes the test.
fn match_byte<F: Fn(u8) -> bool + Drop>(s: &[u8], is_in: F) -> Option<&[u8]>
    requires { F.IsAlwaysCallable is_in }
    ensures { (t : ℕ → Bool) → ((b : ℕ) (r : Bool) → F.post is_in b r → r ≡ t b) → option_copied result ≡ scan (one t) s.now }
{
    match s {
        [first, rest @ ..] if is_in(*first) => Some(rest),
        _ => None,
    }
}

fn match_char(s: &[u8], c: u8) -> Option<&[u8]>
    ensures { option_copied result ≡ scan (byte c) s.now }
{
    match_byte(s, |b| b == c)
}

fn match_digit(s: &[u8]) -> Option<&[u8]>
    ensures { option_copied result ≡ scan digit s.now }
{
    match_byte(s, |b| b.is_ascii_digit())
}

// The rest after the digits that the text begins with.
#[tactic(auto, unfolding(crate::specs::Scan::skip, crate::specs::Scan::scan))]
fn skip_digits(s: &[u8]) -> &[u8]
    ensures { result.now ≡ skip is_digit s.now }
{
    let mut rest = s;
    while let Some(next) = match_digit(rest) {
        rest = next;
    }
    rest
}

fn match_one_or_more_digits(s: &[u8]) -> Option<&[u8]>
    ensures { option_copied result ≡ scan digits s.now }
{
    Some(skip_digits(match_digit(s)?))
}

fn match_one_or_two_digits(s: &[u8]) -> Option<&[u8]>
    ensures { option_copied result ≡ scan one_or_two_digits s.now }
{
    let s = match_digit(s)?;
    Some(match_digit(s).unwrap_or(s))
}

// The rest after a sign, where one stands.
fn skip_optional_sign(s: &[u8]) -> &[u8]
    ensures { Some result.now ≡ scan optional_sign s.now }
{
    match s {
        [b'+' | b'-', rest @ ..] => rest,
        _ => s,
    }
}

// Optional sign, digits, -, one or two digits, -, one or two digits.
fn match_naive_date(s: &[u8]) -> Option<&[u8]>
    ensures { option_copied result ≡ scan naive_date s.now }
{
    let s = match_one_or_more_digits(skip_optional_sign(s))?;
    let s = match_char(s, b'-')?;
    let s = match_one_or_two_digits(s)?;
    let s = match_char(s, b'-')?;
    match_one_or_two_digits(s)
}

// Inlined, as is `match_naive_time`: else the rest, and whether there is one, go through memory.
#[inline(always)]
fn match_subsecond(s: &[u8]) -> Option<&[u8]>
    ensures { option_copied result ≡ scan subsecond s.now }
{
    match_one_or_more_digits(match_char(s, b'.')?)
}

// One or two digits three times with colons, then optionally a dot and digits. A dot without digits stays in the rest, so that the
// text fits nothing.
#[inline(always)]
fn match_naive_time(s: &[u8]) -> Option<&[u8]>
    ensures { option_copied result ≡ scan naive_time s.now }
{
    let s = match_one_or_two_digits(s)?;
    let s = match_char(s, b':')?;
    let s = match_one_or_two_digits(s)?;
    let s = match_char(s, b':')?;
    let s = match_one_or_two_digits(s)?;
    Some(match_subsecond(s).unwrap_or(s))
}

fn match_naive_datetime(s: &[u8]) -> Option<&[u8]>
    ensures { option_copied result ≡ scan naive_datetime s.now }
{
    let s = match_naive_date(s)?;
    let s = match_char(s, b'T')?;
    match_naive_time(s)
}

// What stands between date and time where a zone follows: T or a blank.
fn match_separator(s: &[u8]) -> Option<&[u8]>
    ensures { option_copied result ≡ scan separator s.now }
{
    match s {
        [b'T' | b' ', rest @ ..] => Some(rest),
        _ => None,
    }
}

// What the library strips, in the words of the grammar.
fn split_prefix<'a>(s: &'a [u8], prefix: &[u8]) -> Option<&'a [u8]>
    ensures { option_copied result ≡ scan (word prefix.now) s.now }
{
    s.strip_prefix(prefix)
}

fn match_zero_offset(s: &[u8]) -> Option<&[u8]>
    ensures { option_copied result ≡ scan zero_offset s.now }
{
    split_prefix(s, b"+0000")
        .or_else(|| split_prefix(s, b"-0000"))
        .or_else(|| split_prefix(s, b"+00:00"))
        .or_else(|| split_prefix(s, b"-00:00"))
}

// One of the designators of UTC that chrono.rs knows.
fn match_utc_timezone(s: &[u8]) -> Option<&[u8]>
    ensures { option_copied result ≡ scan utc_zone s.now }
{
    match s {
        [b'Z' | b'z', rest @ ..] => Some(rest),
        _ => match_zero_offset(s),
    }
}

fn match_utc_datetime(s: &[u8]) -> Option<&[u8]>
    ensures { option_copied result ≡ scan utc_datetime s.now }
{
    let s = match_naive_date(s)?;
    let s = match_separator(s)?;
    let s = match_naive_time(s)?;
    match_utc_timezone(s)
}

// Whether there is a match and it leaves nothing.
fn is_whole(rest: Option<&[u8]>) -> bool
    ensures { result ≡ of_rest is_empty (option_copied rest.entry) }
{
    matches!(rest, Some([]))
}

// Whether `s` is a naive datetime: date, T, time.
#[tactic(auto, using(crate::proofs::Exact::whole_naive))]
pub fn matches_naive_datetime(s: &[u8]) -> bool
    ensures { result ≡ fits naive_datetime s.now }
{
    is_whole(match_naive_datetime(s))
}

// Whether `s` is a UTC datetime: date, T or blank, time, zone.
#[tactic(auto, using(crate::proofs::Exact::whole_utc))]
pub fn matches_utc_datetime(s: &[u8]) -> bool
    ensures { result ≡ fits utc_datetime s.now }
{
    is_whole(match_utc_datetime(s))
}

// Whether `s` is a time.
#[tactic(auto, using(crate::proofs::Exact::whole_time))]
pub fn matches_naive_time(s: &[u8]) -> bool
    ensures { result ≡ fits naive_time s.now }
{
    is_whole(match_naive_time(s))
}

// Whether `s` is a date.
#[tactic(auto, using(crate::proofs::Exact::whole_date))]
pub fn matches_naive_date(s: &[u8]) -> bool
    ensures { result ≡ fits naive_date s.now }
{
    is_whole(match_naive_date(s))
}

// Whether a date or a time can begin as the text does.
fn can_begin(s: &[u8]) -> bool
    ensures { result ≡ begins s.now }
{
    matches!(s, [first, ..] if first.is_ascii_digit() || *first == b'+' || *first == b'-')
}

// The fixed forms. Their bytes are all there, so that no test has to come before another: they are joined by `&`. How many there are
// differs from one to the next, so arrays would name as many lengths as the clauses do.
fn two_digits(s: &[u8], at: usize) -> bool
    requires { at + 2 ≤ length s.now }
    ensures { result ≡ two_digits s.now at }
{
    s[at].is_ascii_digit() & s[at + 1].is_ascii_digit()
}

// That byte and two digits.
fn joined_digits(s: &[u8], at: usize, c: u8) -> bool
    requires { at + 3 ≤ length s.now }
    ensures { result ≡ joined_digits s.now at c }
{
    (s[at] == c) & two_digits(s, at + 1)
}

// dddd-dd-dd at the start.
#[tactic(auto, unfolding(crate::specs::Fixed::fixed_date))]
fn fixed_date(s: &[u8]) -> bool
    requires { 10 ≤ length s.now }
    ensures { result ≡ fixed_date s.now }
{
    two_digits(s, 0) & two_digits(s, 2) & joined_digits(s, 4, b'-') & joined_digits(s, 7, b'-')
}

// dd:dd:dd at `at`.
#[tactic(auto, unfolding(crate::specs::Fixed::fixed_time))]
fn fixed_time(s: &[u8], at: usize) -> bool
    requires { at + 8 ≤ length s.now }
    ensures { result ≡ fixed_time s.now at }
{
    two_digits(s, at) & joined_digits(s, at + 2, b':') & joined_digits(s, at + 5, b':')
}

// dddd-dd-ddTdd:dd:dd at the start.
#[tactic(auto, unfolding(crate::specs::Fixed::fixed_datetime))]
fn fixed_datetime(s: &[u8]) -> bool
    requires { 19 ≤ length s.now }
    ensures { result ≡ fixed_datetime s.now }
{
    fixed_date(s) & (s[10] == b'T') & fixed_time(s, 11)
}

// The type of a text that begins with a date, by what is left after the date, where there is such a type.
#[tactic(auto, using(crate::proofs::Reading::date_ends, crate::proofs::Reading::no_separator, crate::proofs::Reading::no_time_then))]
fn type_after_date(s: &[u8]) -> Option<DataType>
    ensures { (string : ℕ) → type_or result string ≡ after_date s.now string }
{
    if s.is_empty() {
        return Some(DataType::Date32);
    }
    match match_naive_time(match_separator(s)?)? {
        [] => (s[0] == b'T').then_some(DataType::Timestamp(Zone::Naive)),
        zone => is_whole(match_utc_timezone(zone)).then_some(DataType::Timestamp(Zone::Utc)),
    }
}

// The first fit, else a string, by one reading: no text that begins with a date is a time. It is not inlined, so that a text of a fixed
// form, or of none, costs no stack.
#[inline(never)]
fn read_type(s: &[u8], options: TracingOptions) -> DataType
    ensures { code_of result ≡ first_fit date_texts s.now (string_type options.word) }
{
    let read = match match_naive_date(s) {
        Some(rest) => type_after_date(rest),
        None => matches_naive_time(s).then_some(DataType::Time64),
    };
    read.unwrap_or(options.string_type())
}

// The first fit, else a string. Most dates and times have one of the fixed forms, which their lengths tell; any other text is read.
#[tactic(auto, using(crate::proofs::Fixed::forms))]
fn guessed_type(s: &[u8], options: TracingOptions) -> DataType
    ensures { code_of result ≡ first_fit date_texts s.now (string_type options.word) }
{
    if !can_begin(s) {
        return options.string_type();
    }
    match s.len() {
        10 if fixed_date(s) => DataType::Date32,
        20 if fixed_datetime(s) & (s[19] == b'Z') => DataType::Timestamp(Zone::Utc),
        19 if fixed_datetime(s) => DataType::Timestamp(Zone::Naive),
        8 if fixed_time(s, 0) => DataType::Time64,
        _ => read_type(s, options),
    }
}

// The type that a text observes: with guess_dates the first fit wins.
#[tactic(auto, using(logic::specs::laws::Test::chosen, logic::specs::laws::Test::other), unfolding(crate::specs::Text::text_type))]
pub fn text_type(s: &[u8], options: TracingOptions) -> DataType
    ensures { code_of result ≡ text_type options.word s.now }
{
    if options.guess_dates() {
        guessed_type(s, options)
    } else {
        options.string_type()
    }
}
