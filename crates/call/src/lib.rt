// The call: whatever commands, texts, options word and buffers are handed in, the whole schema or one of eighteen
// refusals and a place. Callers need test nothing first. What it promises is in specs/Call.antt; the crate fasthrom exports it.

#![tactic(auto)]

ghost use Rattle.std.specs.Prelude.{◌≡◌, ◌||◌, ◌≤◌, ltb, length};
ghost use Rattle.places.specs.Layout.{Sound};
ghost use Rattle.model.specs.Answer.{input_limit};
ghost use Rattle.call.specs.Call.{handed_in, lent_in, left_in, Answers, AnswersRead, TracesAndEmits};

use options::TracingOptions;
use refusal::{Refusal, Refused};
use walk::Counts;
use words::Table;

const LONGEST: usize = 65535;

// Tracer::from_samples and then Tracer::to_schema, whose refusals stand at the commands' length, and the table zeroed: where it is
// known how many places there are, theirs are all the words that are not.
fn trace_and_emit(
    options: TracingOptions,
    commands: &[u8],
    text: &[u8],
    table: &mut Table,
    fields: &mut [u8],
    names: &mut [u8],
) -> Result<Counts, Refused>
    requires { Sound text.now table.old 1 }
    ensures { TracesAndEmits options.word commands text table fields names result }
{
    match samples::from_samples(commands, text, options, table) {
        Ok(traced) => {
            let count = traced.count;
            let emitted = schema::to_schema(options, text, count, table, fields, names);
            words::clear_places(table, count);
            emitted.map_err(|refusal| refusal.at(commands.len()))
        }
        Err(refused) => {
            words::clear(table);
            Err(refused)
        }
    }
}

// The same over the part of the table that has a word for each place: it is zeroed before and after.
fn trace_part(
    options: TracingOptions,
    commands: &[u8],
    text: &[u8],
    part: &mut Table,
    fields: &mut [u8],
    names: &mut [u8],
) -> Result<Counts, Refused>
    requires { length commands.now ≤ input_limit }
    ensures { AnswersRead (handed_in options.word commands text) (lent_in part fields names) result (left_in part fields names) }
{
    words::clear(part);
    trace_and_emit(options, commands, text, part, fields, names)
}

fn is_long(commands: &[u8], text: &[u8]) -> bool
    ensures { result ≡ (ltb input_limit (length commands.now) || ltb input_limit (length text.now)) }
{
    LONGEST < commands.len() || LONGEST < text.len()
}

// The counts of field records, name bytes and columns; or why there is no schema, and the place. Refusals 1 to 3 are tested in order,
// before anything is read. Only the places' words are lent further, so that those past them are left alone. What is lent comes one
// by one, here and above, as the C interface has it.
pub fn trace(
    options: u16,
    commands: &[u8],
    text: &[u8],
    table: &mut [u32],
    fields: &mut [u8],
    names: &mut [u8],
) -> Result<Counts, Refused>
    ensures { Answers (handed_in options commands text) (lent_in table fields names) result (left_in table fields names) }
{
    let known = TracingOptions::new(options);
    if known.has_unknown_bit() {
        return Err(Refusal::UnknownOption.at(0));
    }
    let Some(part) = table.first_chunk_mut::<{ words::WORDS }>() else {
        return Err(Refusal::ShortTable.at(0));
    };
    if is_long(commands, text) {
        return Err(Refusal::LongInput.at(0));
    }
    trace_part(known, commands, text, part, fields, names)
}
