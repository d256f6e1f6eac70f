// Document 01's numbers, read a byte at a time: each byte once, a running value and no bytes kept.
#![tactic(auto)]

ghost use Rattle.std.specs.Prelude.{◌≡◌, ◌<◌};
ghost use Rattle.declare.specs.Refusals.{number_of};
ghost use Rattle.number.specs.Number.{fault_number, in_natural_range, in_signed_range};
ghost use Rattle.number.specs.Reader.{extended, first_digit, pushed, after, natural_in, integer_in, dash_in};

use declare::Refusal;

// What the bytes so far are.
#[derive(Clone, Copy)]
pub enum Reader {
    Empty,
    Minus,
    Zero,
    Digits { negative: bool, value: u64 },
    Malformed,
}

// Why bytes are not a number that may stand here: not of the number form, or outside its range.
#[derive(Clone, Copy)]
pub enum Fault {
    Form,
    Range,
}

impl From<Fault> for Refusal {
    ghost from_gives = { λ fault refusal. number_of refusal ≡ fault_number fault };

    #[tactic(auto, unfolding(declare::specs::Refusals::number_of))]
    fn from(fault: Fault) -> Refusal {
        match fault {
            Fault::Form => Refusal::NumberForm,
            Fault::Range => Refusal::OutOfRange,
        }
    }
}

// Above every range.
const BOUND: u64 = 4294967296;

// One digit more. A value from BOUND on stays as it is, so that none overflows.
#[tactic(auto, unfolding(crate::specs::Reader::extended, crate::specs::Reader::bound))]
fn extend(value: u64, digit: u64) -> u64
    requires { digit < 10 }
    ensures { result ≡ extended value digit }
{
    if value < BOUND {
        value * 10 + digit
    } else {
        value
    }
}

#[tactic(auto, unfolding(crate::specs::Reader::first_digit, crate::specs::Number::digit))]
fn first_digit(negative: bool, byte: u8) -> Reader
    ensures { result ≡ first_digit negative byte }
{
    match byte {
        b'1'..=b'9' => Reader::Digits {
            negative,
            value: u64::from(byte - b'0'),
        },
        _ => Reader::Malformed,
    }
}

#[tactic(auto, unfolding(crate::specs::Reader::pushed, crate::specs::Number::digit))]
fn next_digit(negative: bool, value: u64, byte: u8) -> Reader
    ensures { result ≡ pushed (Reader.Digits negative value) byte }
{
    if byte.is_ascii_digit() {
        let value = extend(value, u64::from(byte - b'0'));
        Reader::Digits { negative, value }
    } else {
        Reader::Malformed
    }
}

#[tactic(auto, unfolding(crate::specs::Number::in_natural_range))]
fn natural_answer(low: u32, high: u32, value: u64) -> Result<u32, Fault>
    ensures { result ≡ in_natural_range low high value }
{
    if (u64::from(low)..=u64::from(high)).contains(&value) {
        Ok(value as u32)
    } else {
        Err(Fault::Range)
    }
}

#[tactic(auto, unfolding(crate::specs::Number::in_signed_range))]
fn signed_answer(value: i128) -> Result<i32, Fault>
    ensures { result ≡ in_signed_range value }
{
    i32::try_from(value).map_err(|_| Fault::Range)
}

impl Reader {
    pub fn new() -> Self
        ensures { result ≡ Reader.Empty }
    {
        Reader::Empty
    }

    // The reader after one byte more.
    #[tactic(auto, unfolding(crate::specs::Reader::pushed))]
    pub fn push(self, byte: u8) -> Self
        ensures { result ≡ pushed self byte }
    {
        match self {
            Reader::Empty => match byte {
                b'-' => Reader::Minus,
                b'0' => Reader::Zero,
                _ => first_digit(false, byte),
            },
            Reader::Minus => first_digit(true, byte),
            Reader::Digits { negative, value } => next_digit(negative, value, byte),
            Reader::Zero | Reader::Malformed => Reader::Malformed,
        }
    }

    // The reader after all of some bytes.
    pub fn over(bytes: &[u8]) -> Self
        ensures { result ≡ after Reader.Empty bytes.now }
    {
        bytes
            .iter()
            .fold(Reader::new(), |reader, byte| reader.push(*byte))
    }

    // The bytes as an unsigned number from `low` to `high`.
    #[tactic(auto, unfolding(crate::specs::Reader::natural_in))]
    pub fn natural(self, low: u32, high: u32) -> Result<u32, Fault>
        ensures { result ≡ natural_in low high self }
    {
        match self {
            Reader::Zero => natural_answer(low, high, 0),
            Reader::Digits {
                negative: false,
                value,
            } => natural_answer(low, high, value),
            _ => Err(Fault::Form),
        }
    }

    // The bytes as a signed number, of a reading or a constant.
    #[tactic(auto, unfolding(crate::specs::Reader::integer_in))]
    pub fn integer(self) -> Result<i32, Fault>
        ensures { result ≡ integer_in self }
    {
        match self {
            Reader::Zero => signed_answer(0),
            Reader::Digits { negative, value } => {
                let value = i128::from(value);
                signed_answer(if negative { -value } else { value })
            }
            Reader::Empty | Reader::Minus | Reader::Malformed => Err(Fault::Form),
        }
    }

    // The bytes are `-` alone.
    #[tactic(auto, unfolding(crate::specs::Reader::dash_in))]
    pub fn is_dash(self) -> bool
        ensures { result ≡ dash_in self }
    {
        matches!(self, Reader::Minus)
    }
}
