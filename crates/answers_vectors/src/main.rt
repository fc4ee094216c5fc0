// Replays stored questions: each put to the call over buffers and a table that hold a pattern, and all that comes of
// it against the answer of the published Rust, in edition 2 of the account: the five numbers, what was written, and what
// had to be left alone.

#![tactic(auto)]

ghost use Rattle.std.specs.Prelude.{◌≡◌, true, ◌↔◌, ◌≤◌, ◌<◌, List, ℕ, length};
ghost use Rattle.questions.specs.Question.{question_end};
ghost use Rattle.answers_vectors.specs.laws.Agrees.{question_is_end};
ghost use Rattle.answers_vectors.specs.Agrees.{CalledOver, Met, agrees, question_tally};

use fasthrom::Answer;
use questions::{BYTE, HEADER, Number, Question, ROOM, WORD};
use replay::{Layout, Tally};

// Words of the table, of which a question lends the first.
const TABLE: usize = 16400;

// A whole question, by its parts: what is handed to the call, and the field records and names that it must give.
#[derive(Clone, Copy)]
struct Parts<'a> {
    question: Question<'a>,
    commands: &'a [u8],
    text: &'a [u8],
    records: &'a [u8],
    names: &'a [u8],
}

impl Parts<'_> {
    // The call over as much of the table and the buffers as the header lends.
    fn call(&self, table: &mut [u32], fields: &mut [u8], names: &mut [u8]) -> Answer
        ensures { CalledOver self.now table fields names result }
    {
        let words = self.question.number(Number::Table).min(table.len());
        let record_bytes = self.question.number(Number::Fields).min(fields.len());
        let name_bytes = self.question.number(Number::Names).min(names.len());
        fasthrom::fasthrom_trace(
            self.question.options(),
            self.commands,
            self.text,
            &mut table[..words],
            &mut fields[..record_bytes],
            &mut names[..name_bytes],
        )
    }

    // Whether the call gives what the question says: these field records and names, or its refusal. Table and buffers are of fixed
    // sizes, as what the call is lent is.
    fn is_met(&self) -> bool
        ensures { result ≡ true ↔ Met self.now }
    {
        let mut table = [WORD; TABLE];
        let mut fields = [BYTE; ROOM];
        let mut names = [BYTE; ROOM];
        let answer = self.call(&mut table, &mut fields, &mut names);
        // Both types are other crates', so a `From` could not stand here.
        let answered = questions::Answer {
            refusal: answer.refusal,
            place: answer.place,
            field_records: answer.field_records,
            name_bytes: answer.name_bytes,
            columns: answer.columns,
        };
        self.question.is_answered(answered)
            && questions::is_written(&fields, self.records)
            && questions::is_written(&names, self.names)
            && questions::is_left(&table, answer.refusal)
    }
}

// A question: the header, the commands, the text, and the field records and names of the answer.
fn agrees(bytes: &[u8]) -> bool
    ensures { result ≡ agrees bytes.now }
{
    let Some(question) = Question::new(bytes) else {
        return false;
    };
    let text = HEADER + question.number(Number::Commands);
    let records = text + question.number(Number::Text);
    let names = records + question.number(Number::FieldRecords) * 8;
    if bytes.len() < names {
        return false;
    }
    let parts = Parts {
        question,
        commands: &bytes[HEADER..text],
        text: &bytes[text..records],
        records: &bytes[records..names],
        names: &bytes[names..],
    };
    parts.is_met()
}

// How questions lie in a file: each to its own end, with all of it handed on.
#[derive(Clone, Copy)]
struct Questions;

impl Layout for Questions {
    ghost end = { question_end };

    ghost HEAD = { 0 };

    ghost is_end = { question_is_end };

    const HEAD: usize = 0;

    fn end_of(&self, vectors: &[u8], at: usize) -> usize {
        questions::end_of_question(vectors, at)
    }
}

// The questions of a file, put to the call.
fn replay_all(rt: &impl Print, vectors: &[u8]) -> Tally
    ensures { result ≡ question_tally vectors.now }
{
    replay::replay(rt, vectors, Questions, agrees)
}

fn main(rt: HostRuntime) {
    let files = [
        ("shaped.bin", "batches of a shape"),
        ("damaged.bin", "damaged batches"),
        ("options.bin", "batches under each option"),
        ("limits.bin", "batches near the limits"),
        ("lengths.bin", "batches of the greatest length"),
        ("edition_2.bin", "batches in edition 2"),
    ];
    for (path, what) in files {
        replay::replay_file(&rt, path, what, |vectors| replay_all(&rt, vectors));
    }
}
