// Stored questions to the whole call: how one is laid out in its file, and whether what a call left is what it says.
// A question is a header, the commands, the text, and the field records and names of the answer. The header is the options
// word and ten numbers of three bytes (`Number`).

#![tactic(auto)]

ghost use Rattle.std.specs.Prelude.{◌≡◌, true, ◌↔◌, ◌≤◌, ◌<◌, MatchOption, length, replicate};
ghost use Rattle.std.specs.List.{list_all};
ghost use Rattle.files.specs.Bytes.{two_bytes};
ghost use Rattle.questions.specs.Question.{header_bytes, number_at, question_size, question_end};
ghost use Rattle.questions.specs.Numbers.{index_of};
ghost use Rattle.questions.specs.Left.{lent_bytes, early, left_table, written_over, Answered};

pub const HEADER: usize = 32;

// Bytes of each output buffer, of which a question lends the first.
pub const ROOM: usize = 16384;

// What buffers and table hold before a call.
pub const BYTE: u8 = 0xA5;

pub const WORD: u32 = 0xA5A5A5A5;

// The numbers of a header, in the order in which they stand there.
#[derive(Clone, Copy)]
pub enum Number {
    // Of the question: words of the table that are lent, bytes of the commands and of the text, and bytes of both buffers that are lent.
    Table = 0,
    Commands = 1,
    Text = 2,
    Fields = 3,
    Names = 4,
    // Of the answer.
    Refusal = 5,
    Place = 6,
    FieldRecords = 7,
    NameBytes = 8,
    Columns = 9,
}

impl Number {
    fn index(self) -> usize
        ensures value { result ≡ index_of self }
        ensures range { result < 10 }
    {
        self as usize
    }
}

// The five numbers that a question says a call answers. The call has a struct of them, but what reads questions need not link the call.
#[derive(Clone, Copy, PartialEq, Eq)]
pub struct Answer {
    pub refusal: u32,
    pub place: u32,
    pub field_records: u32,
    pub name_bytes: u32,
    pub columns: u32,
}

// A stored question, or bytes that begin with one.
#[derive(Clone, Copy)]
pub struct Question<'a> {
    pub bytes: &'a [u8],
    ghost has_header: { header_bytes ≤ length bytes.now },
}

impl<'a> Question<'a> {
    // None where the header is cut off.
    pub fn new(bytes: &'a [u8]) -> Option<Question<'a>>
        ensures { MatchOption result (length bytes.now < header_bytes) (λ question. question.bytes.now ≡ bytes.now) }
    {
        if bytes.len() < HEADER {
            return None;
        }
        Some(Question { bytes })
    }

    // The options word.
    pub fn options(&self) -> u16
        ensures { result ≡ two_bytes self.now.bytes.now 0 }
    {
        files::two_bytes(self.bytes, 0)
    }

    // A number of the header.
    pub fn number(&self, which: Number) -> usize
        ensures value { result ≡ number_at self.now.bytes.now (index_of which) }
        ensures range { result < 16777216 }
    {
        files::three_bytes(self.bytes, 2 + which.index() * 3)
    }

    // How many bytes it has.
    pub fn size(&self) -> usize
        ensures value { result ≡ question_size self.now.bytes.now }
        ensures range { (header_bytes ≤ result) × (result < 268435456) }
    {
        HEADER
            + self.number(Number::Commands)
            + self.number(Number::Text)
            + self.number(Number::FieldRecords) * 8
            + self.number(Number::NameBytes)
    }

    // The five numbers are those of the header.
    pub fn is_answered(&self, answer: Answer) -> bool
        ensures { result ≡ true ↔
            Answered self.now.bytes.now answer.refusal answer.place answer.field_records answer.name_bytes answer.columns }
    {
        answer
            == Answer {
                refusal: self.number(Number::Refusal) as u32,
                place: self.number(Number::Place) as u32,
                field_records: self.number(Number::FieldRecords) as u32,
                name_bytes: self.number(Number::NameBytes) as u32,
                columns: self.number(Number::Columns) as u32,
            }
    }
}

// Where the question at an offset ends: with the file, if that is cut off.
pub fn end_of_question(vectors: &[u8], at: usize) -> usize
    requires { at < length vectors.now }
    ensures { (result ≡ question_end vectors.now at) × (at < result) × (result ≤ length vectors.now) }
{
    match Question::new(&vectors[at..]) {
        Some(question) => files::end_of(vectors, at, question.size()),
        None => vectors.len(),
    }
}

// The buffer begins with these bytes, and past them is as it was lent.
pub fn is_written(buffer: &[u8], bytes: &[u8]) -> bool
    requires { length buffer.now ≡ lent_bytes }
    ensures { result ≡ true ↔ buffer.now ≡ written_over bytes.now }
{
    match buffer.strip_prefix(bytes) {
        Some(rest) => is_all(rest, BYTE),
        None => false,
    }
}

// Every item is that one.
fn is_all<T: PartialEq + Drop>(items: &[T], one: T) -> bool
    ensures { result ≡ list_all (λ item. T.eq item one) items.now }
{
    items.iter().all(|item| *item == one)
}

// Tested before the commands are read: 1 to 3. A number, as the call answers it, which C reads: 0 is no refusal.
fn is_early(refusal: u32) -> bool
    ensures { result ≡ early refusal }
{
    matches!(refusal, 1..=3)
}

// The table's first words are zero, the others as they were; after an early refusal all are.
pub fn is_left(table: &[u32], refusal: u32) -> bool
    ensures { result ≡ true ↔ table.now ≡ left_table refusal (length table.now) }
{
    if is_early(refusal) {
        return is_all(table, WORD);
    }
    match table.split_at_checked(words::WORDS) {
        Some((used, rest)) => is_all(used, 0) && is_all(rest, WORD),
        None => false,
    }
}
