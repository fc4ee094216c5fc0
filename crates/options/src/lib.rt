// TracingOptions (tracing_options.rs), and the edition of the exchange standard: made from the options word, passed by value, each
// question a method. With them goes what is known of the text, so that all who read one need not ask again.

#![tactic(auto, using(logic::specs::laws::Test::chosen, logic::specs::laws::Test::other))]

ghost use Rattle.std.specs.Prelude.{◌≡◌, ◌<◌, false};
ghost use Rattle.datatype.specs.Codes.{code_of};
ghost use Rattle.options.specs.Word.{bit, unknown_bit, allow_null_fields, map_as_struct, sequence_as_large_list, string_as_large_utf8, bytes_as_large_binary, string_dictionary_encoding, coerce_numbers, allow_to_string, guess_dates, enums_without_data_as_strings, edition2, string_type, binary_type, list_type, dictionary_type};

use datatype::DataType;

#[derive(Clone, Copy)]
pub struct TracingOptions {
    pub word: u16,
    // Whether the text is known to have no byte above 7F. Then no name in it need be tested for UTF-8.
    pub ascii: bool,
}

impl TracingOptions {
    // Of a text of which nothing is known.
    pub fn new(word: u16) -> Self
        ensures { (result.word ≡ word) × (result.ascii ≡ false) }
    {
        TracingOptions { word, ascii: false }
    }

    // The same options, with what is known of the text.
    pub fn over(self, ascii: bool) -> Self
        ensures { (result.word ≡ self.word) × (result.ascii ≡ ascii) }
    {
        TracingOptions { ascii, ..self }
    }

    // Whether a bit is set that means nothing (refusal 1).
    pub fn has_unknown_bit(self) -> bool
        ensures { result ≡ unknown_bit self.word }
    {
        2048 <= self.word
    }

    // Whether the bit of that number is set.
    fn bit(self, number: u32) -> bool
        requires { number < 16 }
        ensures { result ≡ bit number self.word }
    {
        (self.word >> number) & 1 == 1
    }

    // Bit 0: fields that are Null are emitted.
    pub fn allow_null_fields(self) -> bool
        ensures { result ≡ allow_null_fields self.word }
    {
        self.bit(0)
    }

    // Bit 1: a map is traced as a struct.
    pub fn map_as_struct(self) -> bool
        ensures { result ≡ map_as_struct self.word }
    {
        self.bit(1)
    }

    // Bit 2: a sequence is a LargeList.
    pub fn sequence_as_large_list(self) -> bool
        ensures { result ≡ sequence_as_large_list self.word }
    {
        self.bit(2)
    }

    // Bit 3: a string is a LargeUtf8.
    pub fn string_as_large_utf8(self) -> bool
        ensures { result ≡ string_as_large_utf8 self.word }
    {
        self.bit(3)
    }

    // Bit 4: bytes are a LargeBinary.
    pub fn bytes_as_large_binary(self) -> bool
        ensures { result ≡ bytes_as_large_binary self.word }
    {
        self.bit(4)
    }

    // Bit 5: strings are dictionary encoded.
    pub fn string_dictionary_encoding(self) -> bool
        ensures { result ≡ string_dictionary_encoding self.word }
    {
        self.bit(5)
    }

    // Bit 6: unequal number types have a joint.
    pub fn coerce_numbers(self) -> bool
        ensures { result ≡ coerce_numbers self.word }
    {
        self.bit(6)
    }

    // Bit 7: strings and bools or numbers have a joint.
    pub fn allow_to_string(self) -> bool
        ensures { result ≡ allow_to_string self.word }
    {
        self.bit(7)
    }

    // Bit 8: texts are tried as dates and times.
    pub fn guess_dates(self) -> bool
        ensures { result ≡ guess_dates self.word }
    {
        self.bit(8)
    }

    // Bit 9: a union of only dataless variants is a dictionary.
    pub fn enums_without_data_as_strings(self) -> bool
        ensures { result ≡ enums_without_data_as_strings self.word }
    {
        self.bit(9)
    }

    // Bit 10: edition 2, in which integers and floats have no joint.
    pub fn edition_2(self) -> bool
        ensures { result ≡ edition2 self.word }
    {
        self.bit(10)
    }

    // The type of a text. The types that a switch chooses have an `if` each: a function of the switch and two types is no plainer.
    pub fn string_type(self) -> DataType
        ensures { code_of result ≡ string_type self.word }
    {
        if self.string_as_large_utf8() {
            DataType::LargeUtf8
        } else {
            DataType::Utf8
        }
    }

    // The type of bytes.
    pub fn binary_type(self) -> DataType
        ensures { code_of result ≡ binary_type self.word }
    {
        if self.bytes_as_large_binary() {
            DataType::LargeBinary
        } else {
            DataType::Binary
        }
    }

    // The type of a sequence.
    pub fn list_type(self) -> DataType
        ensures { code_of result ≡ list_type self.word }
    {
        if self.sequence_as_large_list() {
            DataType::LargeList
        } else {
            DataType::List
        }
    }

    // The type of a dictionary encoded string.
    pub fn dictionary_type(self) -> DataType
        ensures { code_of result ≡ dictionary_type self.word }
    {
        if self.string_as_large_utf8() {
            DataType::DictionaryLargeUtf8
        } else {
            DataType::DictionaryUtf8
        }
    }
}
