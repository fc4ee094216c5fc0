// The types and strategies of field records, and their codes. The names are those of Arrow's Schema.fbs
// and of serde_arrow (strategy.rs).

#![tactic(auto)]

ghost use Rattle.std.specs.Prelude.{◌≡◌};
ghost use Rattle.datatype.specs.Codes.{code_of, decoded, strategy_code};

// Whether a timestamp has a zone: none, or UTC.
#[derive(Clone, Copy, PartialEq, Eq)]
pub enum Zone {
    Naive,
    Utc,
}

// The type of a column. A timestamp is in milliseconds, a time in nanoseconds, a dictionary has UInt32 keys,
// and a union is dense.
#[derive(Clone, Copy, PartialEq, Eq)]
pub enum DataType {
    Null,
    Boolean,
    Int8,
    Int16,
    Int32,
    Int64,
    UInt8,
    UInt16,
    UInt32,
    UInt64,
    Float32,
    Float64,
    Utf8,
    LargeUtf8,
    Binary,
    LargeBinary,
    Date32,
    Time64,
    Timestamp(Zone),
    DictionaryUtf8,
    DictionaryLargeUtf8,
    List,
    LargeList,
    Struct,
    Map,
    Union,
}

// How a field without a direct match in Arrow is to be read (strategy.rs). Tracing samples gives no other.
#[derive(Clone, Copy, PartialEq, Eq)]
pub enum Strategy {
    None = 0,
    TupleAsStruct = 1,
    MapAsStruct = 2,
    UnknownVariant = 3,
}

// A code that is no type's.
#[derive(Clone, Copy, PartialEq, Eq)]
pub struct UnknownCode {
    pub code: u8,
}

// The types in the order of their codes. They stand here by code and in `From` by type: Rust lists no enum's variants, and
// to search this list for a type is no plainer than the `match`.
const TYPES: [DataType; 27] = [
    DataType::Null,
    DataType::Boolean,
    DataType::Int8,
    DataType::Int16,
    DataType::Int32,
    DataType::Int64,
    DataType::UInt8,
    DataType::UInt16,
    DataType::UInt32,
    DataType::UInt64,
    DataType::Float32,
    DataType::Float64,
    DataType::Utf8,
    DataType::LargeUtf8,
    DataType::Binary,
    DataType::LargeBinary,
    DataType::Date32,
    DataType::Time64,
    DataType::Timestamp(Zone::Naive),
    DataType::Timestamp(Zone::Utc),
    DataType::DictionaryUtf8,
    DataType::DictionaryLargeUtf8,
    DataType::List,
    DataType::LargeList,
    DataType::Struct,
    DataType::Map,
    DataType::Union,
];

// The code of a field record's first byte.
impl From<DataType> for u8 {
    ghost from_gives = { λ data_type code. code ≡ code_of data_type };

    fn from(data_type: DataType) -> u8 {
        match data_type {
            DataType::Null => 0,
            DataType::Boolean => 1,
            DataType::Int8 => 2,
            DataType::Int16 => 3,
            DataType::Int32 => 4,
            DataType::Int64 => 5,
            DataType::UInt8 => 6,
            DataType::UInt16 => 7,
            DataType::UInt32 => 8,
            DataType::UInt64 => 9,
            DataType::Float32 => 10,
            DataType::Float64 => 11,
            DataType::Utf8 => 12,
            DataType::LargeUtf8 => 13,
            DataType::Binary => 14,
            DataType::LargeBinary => 15,
            DataType::Date32 => 16,
            DataType::Time64 => 17,
            DataType::Timestamp(Zone::Naive) => 18,
            DataType::Timestamp(Zone::Utc) => 19,
            DataType::DictionaryUtf8 => 20,
            DataType::DictionaryLargeUtf8 => 21,
            DataType::List => 22,
            DataType::LargeList => 23,
            DataType::Struct => 24,
            DataType::Map => 25,
            DataType::Union => 26,
        }
    }
}

// The type with that code.
impl TryFrom<u8> for DataType {
    type Error = UnknownCode;

    ghost try_from_gives = { λ code r. r ≡ decoded code };

    fn try_from(code: u8) -> Result<DataType, UnknownCode> {
        TYPES
            .get(code as usize)
            .copied()
            .ok_or(UnknownCode { code })
    }
}

impl DataType {
    // The code of a field record's first byte.
    pub fn code(self) -> u8
        ensures { result ≡ code_of self }
    {
        u8::from(self)
    }
}

// The code of a field record's third byte.
impl From<Strategy> for u8 {
    ghost from_gives = { λ strategy code. code ≡ strategy_code strategy };

    fn from(strategy: Strategy) -> u8 {
        strategy as u8
    }
}

impl Strategy {
    // The code of a field record's third byte.
    pub fn code(self) -> u8
        ensures { result ≡ strategy_code self }
    {
        u8::from(self)
    }
}
