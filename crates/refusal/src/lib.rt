// The eighteen ways to be turned down (document 01), in the order of their numbers.

#![tactic(auto)]

ghost use Rattle.std.specs.Prelude.{◌≡◌};
ghost use Rattle.refusal.specs.Number.{number_of};

#[derive(Clone, Copy)]
pub enum Refusal {
    // An options bit above 10 is set.
    UnknownOption = 1,
    // The work table has fewer than 16,384 words.
    ShortTable = 2,
    // Commands or text exceed 65,535 bytes.
    LongInput = 3,
    // A command is unknown, cut off, or cannot stand there.
    BadCommand = 4,
    // A name's offset plus length exceeds the text, or it is not UTF-8.
    BadName = 5,
    // Under map_as_struct a key is not 0D.
    BadKey = 6,
    // A container or variant stands at depth 20 or more.
    TooDeep = 7,
    // Container and other container, or container and non-null primitive, meet.
    Mismatch = 8,
    // A variant number has two names.
    TwoNames = 9,
    // Two primitive types have no joint.
    NoJoint = 10,
    // A 1,025th place is needed.
    TooManyPlaces = 11,
    // A Null or unknown place is emitted without allow_null_fields.
    NullField = 12,
    // A union of only dataless variants without gaps has neither option 9 nor option 0.
    DatalessUnion = 13,
    // Emission reaches variant slot 128.
    TooManySlots = 14,
    // The root is nullable.
    NullableRoot = 15,
    // The root is Null.
    NullRoot = 16,
    // The root is not Struct.
    RootNotStruct = 17,
    // An output buffer is too short.
    ShortBuffer = 18,
}

impl Refusal {
    // The number of document 01.
    pub fn number(self) -> u8
        ensures { result ≡ number_of self }
    {
        self as u8
    }

    // The same, said of a place.
    pub fn at(self, place: usize) -> Refused
        ensures { result ≡ record { refusal = self; place = place } }
    {
        Refused {
            refusal: self,
            place,
        }
    }
}

// The error of what reads commands: why a batch is turned down, and the place (document 01).
#[derive(Clone, Copy)]
pub struct Refused {
    pub refusal: Refusal,
    pub place: usize,
}
