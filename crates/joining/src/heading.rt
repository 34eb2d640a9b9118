// What a packet's header tells of its job, and the field that it asks for.
ghost use Rattle.std.specs.Prelude.{◌≡◌, Some};
ghost use Rattle.joining.specs.Headings.{told, field_sized};

use crate::fault::JoinFault;
use binary::{ByteField, NibbleField};
use code::plan::Counts;
use cutting::request::FieldChoice;
use field::Field;
use packet::{
    CHECK_COUNT_AT, DATA_COUNT_AT, JOB_LENGTH_AT, JOB_NUMBER_AT, Job, ROW_LEN_AT, SIZE_AT, word_at,
};
use prime::PrimeField;
use std::fmt;

// The numbers of a header that are the same in all packets of a job.
#[derive(Clone, Copy)]
pub struct Heading {
    pub counts: Counts,
    // Of the field.
    pub size: u32,
    pub job: Job,
}

// The heading of the packet that stands in front. A byte past the end counts as 0.
impl<'a> From<&'a [u8]> for Heading {
    ghost from_gives = { λ bytes r. r ≡ told bytes.now };

    fn from(bytes: &'a [u8]) -> Heading {
        Heading {
            counts: Counts {
                data_count: usize::from(word_at(bytes, DATA_COUNT_AT)),
                check_count: usize::from(word_at(bytes, CHECK_COUNT_AT)),
                row_len: usize::from(word_at(bytes, ROW_LEN_AT)),
            },
            size: u32::from(word_at(bytes, SIZE_AT)) + 1,
            job: Job {
                number: word_at(bytes, JOB_NUMBER_AT),
                length: word_at(bytes, JOB_LENGTH_AT),
            },
        }
    }
}

impl Heading {
    // The field of that size.
    // Kept: a call, since a field is told by its size in headers alone.
    pub fn field(self) -> Result<FieldChoice, JoinFault>
        ensures { result ≡ field_sized self.size }
    {
        if self.size == (NibbleField {}).size() {
            Ok(FieldChoice::Nibble)
        } else if self.size == (ByteField {}).size() {
            Ok(FieldChoice::Byte)
        } else if self.size == (PrimeField {}).size() {
            Ok(FieldChoice::Prime)
        } else {
            Err(JoinFault::NoField(SIZE_AT))
        }
    }
}

// The counts, and the size of the field.
impl fmt::Display for Heading {
    ghost use Rattle.joining.specs.Headings.{heading_text};

    ghost output = { λ h. Some (heading_text h) };

    fn fmt<W: fmt::Write>(&self, f: &mut fmt::Formatter<W>) -> fmt::Result {
        write!(f, "{}, over the field of {}", self.counts, self.size)
    }
}
