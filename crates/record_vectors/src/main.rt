// Replays the files of records: texts through the four matchers and text_type, byte strings through is_utf8, pairs of
// types through coerce_primitive_type, each against the answers of the published Rust, or of Rust's from_utf8; whether two types differ,
// and pairs in edition 2, against the account's.

#![tactic(auto)]

ghost use Rattle.std.specs.Prelude.{◌≡◌, ◌≤◌};
ghost use Rattle.datatype.specs.Codes.{code_of};
ghost use Rattle.chrono.specs.Text.{text_type};
ghost use Rattle.coerce.specs.Joint.{pairing};
ghost use Rattle.replay.specs.Tally.{record_tally};
ghost use Rattle.record_vectors.specs.Texts.{matchers_of, text_agrees};
ghost use Rattle.record_vectors.specs.Names.{name_agrees};
ghost use Rattle.record_vectors.specs.Joints.{stored_as, pairing_agrees};

use coerce::Pairing;
use datatype::DataType;
use options::TracingOptions;
use replay::{Counted, Tally};
use text::Name;

const GUESS_DATES: u16 = 256;

const STRING_AS_LARGE_UTF8: u16 = 8;

// What stands in a record for no joint, and what is added to a joint's code where the types differ.
const NONE: u8 = 255;

const DIFFER: u8 = 32;

// The matchers' answers: naive datetime, UTC datetime, time and date, from the lowest bit on.
fn matchers(text: &[u8]) -> u8
    ensures { result ≡ matchers_of text.now }
{
    u8::from(chrono::matches_naive_datetime(text))
        + u8::from(chrono::matches_utc_datetime(text)) * 2
        + u8::from(chrono::matches_naive_time(text)) * 4
        + u8::from(chrono::matches_naive_date(text)) * 8
}

// The code of the type that a text observes under an options word.
fn observed(text: &[u8], word: u16) -> u8
    ensures { result ≡ text_type word text.now }
{
    chrono::text_type(text, TracingOptions::new(word)).code()
}

// A record: the matchers' answers, the types observed without and with string_as_large_utf8, the text.
fn text_agrees(record: &[u8]) -> bool
    ensures { result ≡ text_agrees «record».now }
{
    match record {
        [bits, plain, large, text @ ..] => {
            matchers(text) == *bits
                && observed(text, GUESS_DATES) == *plain
                && observed(text, GUESS_DATES + STRING_AS_LARGE_UTF8) == *large
        }
        _ => false,
    }
}

// A record: 1 for UTF-8 and 0 else, the byte string. The record is the text, and the string a name in it.
fn name_agrees(record: &[u8]) -> bool
    ensures { result ≡ name_agrees «record».now }
{
    if record.is_empty() || 256 < record.len() {
        return false;
    }
    let name = Name {
        offset: 1,
        length: (record.len() - 1) as u16,
    };
    record[0] == u8::from(name.is_utf8(record))
}

// What two types give, as it stands in a record.
fn pairing(first: DataType, second: DataType, options: TracingOptions) -> u8
    ensures { result ≡ stored_as (pairing options.word (code_of first) (code_of second)) }
{
    match coerce::coerce_primitive_type(first, second, options) {
        Pairing::Alike(joint) => joint.code(),
        Pairing::Widened(joint) => joint.code() + DIFFER,
        Pairing::Apart => NONE,
    }
}

// A record: the options word, low byte first, the codes of the first and the second type, what they give.
fn pairing_agrees(record: &[u8]) -> bool
    ensures { result ≡ pairing_agrees «record».now }
{
    let [_, _, first, second, stored] = *record else {
        return false;
    };
    let options = TracingOptions::new(files::two_bytes(record, 0));
    let Ok(first) = DataType::try_from(first) else {
        return false;
    };
    let Ok(second) = DataType::try_from(second) else {
        return false;
    };
    pairing(first, second, options) == stored
}

// The contract of each closure says which check its file's tally is of. One function for the three, over the check, could name
// none of them.
fn main(rt: HostRuntime) {
    replay::replay_file(
        &rt,
        "texts.bin",
        "texts",
        |vectors: &[u8]| -> Tally
            ensures { result ≡ record_tally text_agrees vectors.now }
        { replay::replay(&rt, vectors, Counted, text_agrees) },
    );
    replay::replay_file(
        &rt,
        "names.bin",
        "byte strings",
        |vectors: &[u8]| -> Tally
            ensures { result ≡ record_tally name_agrees vectors.now }
        { replay::replay(&rt, vectors, Counted, name_agrees) },
    );
    replay::replay_file(
        &rt,
        "joints.bin",
        "joints",
        |vectors: &[u8]| -> Tally
            ensures { result ≡ record_tally pairing_agrees vectors.now }
        { replay::replay(&rt, vectors, Counted, pairing_agrees) },
    );
}
