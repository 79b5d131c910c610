// What a caller gets back: document 01's twenty-one answers. specs/Answers.antt has the same names for the promises.
#![tactic(auto)]

ghost use Rattle.std.specs.Prelude.{◌≡◌};
ghost use Rattle.answers.specs.Answers.{answers};
ghost use Rattle.answers.specs.Refusals.{code_of, number_of};

// Why a call refuses: the answers but OK, each with its number.
#[derive(Clone, Copy, PartialEq, Eq)]
pub enum Refusal {
    PatternLong = 1,
    PatternForm = 2,
    PatternDeep = 3,
    PatternBig = 4,
    NetKind = 5,
    NetShort = 6,
    NetField = 7,
    NetExtra = 8,
    WorkSmall = 9,
    Registers = 10,
    Situations = 11,
    OutSmall = 12,
    TableForm = 13,
    EmptyRead = 14,
    LineLong = 15,
    NoMatch = 16,
    FieldAbsent = 17,
    FieldBack = 18,
    FieldPast = 19,
    NotBytes = 20,
}

impl From<Refusal> for u8 {
    ghost from_gives = { λ e n. n ≡ code_of e };

    fn from(e: Refusal) -> u8 {
        e as u8
    }
}

// The number of a call's answer: OK, or that of its refusal.
pub fn number<T: Copy>(r: Result<T, Refusal>) -> u8
    ensures { result ≡ number_of r }
{
    match r {
        Ok(_) => OK,
        Err(e) => u8::from(e),
    }
}

pub const OK: u8 = 0;

pub const PATTERN_LONG: u8 = 1;

pub const PATTERN_FORM: u8 = 2;

pub const PATTERN_DEEP: u8 = 3;

pub const PATTERN_BIG: u8 = 4;

pub const NET_KIND: u8 = 5;

pub const NET_SHORT: u8 = 6;

pub const NET_FIELD: u8 = 7;

pub const NET_EXTRA: u8 = 8;

pub const WORK_SMALL: u8 = 9;

pub const REGISTERS: u8 = 10;

pub const SITUATIONS: u8 = 11;

pub const OUT_SMALL: u8 = 12;

pub const TABLE_FORM: u8 = 13;

pub const EMPTY_READ: u8 = 14;

pub const LINE_LONG: u8 = 15;

pub const NO_MATCH: u8 = 16;

pub const FIELD_ABSENT: u8 = 17;

pub const FIELD_BACK: u8 = 18;

pub const FIELD_PAST: u8 = 19;

pub const NOT_BYTES: u8 = 20;

// All of them in document 01's order: its promise ties these constants to the names of specs/.
pub fn all() -> [u8; 21]
    ensures { result ≡ answers }
{
    [
        OK,
        PATTERN_LONG,
        PATTERN_FORM,
        PATTERN_DEEP,
        PATTERN_BIG,
        NET_KIND,
        NET_SHORT,
        NET_FIELD,
        NET_EXTRA,
        WORK_SMALL,
        REGISTERS,
        SITUATIONS,
        OUT_SMALL,
        TABLE_FORM,
        EMPTY_READ,
        LINE_LONG,
        NO_MATCH,
        FIELD_ABSENT,
        FIELD_BACK,
        FIELD_PAST,
        NOT_BYTES,
    ]
}
