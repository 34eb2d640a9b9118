// Why a call is not answered as it asks.
use checks::fault::Fault;
use std::alloc::AllocError;
use std::fmt;

// Why a line is no call, or its call is not made at that point.
#[derive(Clone, Copy)]
pub enum Reason {
    Memory,
    NoText,
    NoMark,
    NoSuchCall,
    OtherWords,
    NoNumber,
    TooLarge,
    NoField,
    NoBytes,
    NoSymbols,
    NoReceiver,
    NoSheet,
    OpenSheet,
    ClosedSheet,
}

impl From<AllocError> for Reason {
    fn from(_: AllocError) -> Reason {
        Reason::Memory
    }
}

impl fmt::Display for Reason {
    fn fmt<W: fmt::Write>(&self, f: &mut fmt::Formatter<W>) -> fmt::Result {
        f.write_str(match self {
            Reason::Memory => "no memory",
            Reason::NoText => "no text",
            Reason::NoMark => "neither a call nor a remark",
            Reason::NoSuchCall => "no such call",
            Reason::OtherWords => "the call takes other words",
            Reason::NoNumber => "no number",
            Reason::TooLarge => "too large a number",
            Reason::NoField => "no field of that name",
            Reason::NoBytes => "no bytes in hex",
            Reason::NoSymbols => "no symbols in hex",
            Reason::NoReceiver => "no receiver",
            Reason::NoSheet => "no sheet",
            Reason::OpenSheet => "an open sheet takes lay, close, plan and standard",
            Reason::ClosedSheet => "a closed sheet takes cut, apart, plan and standard",
        })
    }
}

// What is answered in place of an answer.
#[derive(Drop)]
pub enum Refusal {
    // The fault of a call.
    Fault(Fault),
    // The fault of a call that changed its buffer all the same.
    Altered(Fault),
    Error(Reason),
    // There is no memory for the answer.
    Memory(AllocError),
}

// Kept: a `From` for each, since each has a case of its own.
impl From<Reason> for Refusal {
    fn from(reason: Reason) -> Refusal {
        Refusal::Error(reason)
    }
}

impl From<AllocError> for Refusal {
    fn from(error: AllocError) -> Refusal {
        Refusal::Memory(error)
    }
}

// The refusal of a call that has no buffer.
pub fn refused<E: Into<Fault>>(fault: E) -> Refusal {
    Refusal::Fault(fault.into())
}
