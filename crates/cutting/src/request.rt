// The cutter's input: a byte for the field, one each for m, r and L, then the job.
ghost use Rattle.std.specs.Prelude.{◌≡◌};
ghost use Rattle.checks.specs.Checks.{answered};
ghost use Rattle.cutting.specs.Requests.{input_checked, field_check, request_view, requested, chosen, input_named};

use checks::fault::{Fault, Layer};
use code::plan::Counts;

// The bytes in front of the job: the field byte, m, r and L.
pub const REQUEST_LEN: usize = 4;

// The field over which a job is cut.
#[derive(Clone, Copy, PartialEq, Debug)]
pub enum FieldChoice {
    Byte,
    Nibble,
    Prime,
}

// Why an input is refused.
#[derive(Clone, Copy, PartialEq, Debug)]
pub enum InputFault {
    // The number of bytes, which are too few.
    Length(usize),
    // The field byte stands for no field.
    Field,
}

// What an input asks for.
#[derive(Clone, Copy)]
pub struct Request<'a> {
    pub field: FieldChoice,
    pub counts: Counts,
    pub job: &'a [u8],
}

// The fault as its reader sees it.
impl From<InputFault> for Fault {
    ghost from_gives = { λ e r. r ≡ input_named e };

    fn from(fault: InputFault) -> Fault {
        let (number, place) = match fault {
            InputFault::Length(count) => (9, count),
            InputFault::Field => (10, 0),
        };
        Fault {
            layer: Layer::Input,
            number,
            place,
        }
    }
}

// The field that a field byte stands for.
impl TryFrom<u8> for FieldChoice {
    type Error = InputFault;

    ghost try_from_gives = { λ byte r. r ≡ answered (field_check byte) (chosen byte) };

    fn try_from(byte: u8) -> Result<FieldChoice, InputFault> {
        match byte {
            0 => Ok(FieldChoice::Byte),
            1 => Ok(FieldChoice::Nibble),
            2 => Ok(FieldChoice::Prime),
            _ => Err(InputFault::Field),
        }
    }
}

// Reads the four numbers in front of the job.
pub fn read_request(input: &[u8]) -> Result<Request<'_>, InputFault>
    ensures { request_view result ≡ answered (input_checked input.now) (requested input.now) }
{
    let [field, data_count, check_count, row_len, ..] = input else {
        return Err(InputFault::Length(input.len()));
    };
    Ok(Request {
        field: FieldChoice::try_from(*field)?,
        counts: Counts {
            data_count: usize::from(*data_count),
            check_count: usize::from(*check_count),
            row_len: usize::from(*row_len),
        },
        job: &input[REQUEST_LEN..],
    })
}
