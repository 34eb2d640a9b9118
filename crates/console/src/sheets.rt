// A sheet from its opening to its taking apart.
use crate::answers::Answer;
use crate::buffers::filled_by;
use crate::calls::Call;
use crate::desk::Desk;
use crate::fields::over_field;
use crate::reasons::{Reason, Refusal, refused};
use crate::terminal::Terminal;
use binary::{ByteField, NibbleField};
use cutting::request::FieldChoice;
use field::Field;
use prime::PrimeField;
use sheet::closed::ClosedSheet;
use sheet::opened::OpenSheet;
use std::io;
use std::ops::ControlFlow;

fn answer_open(desk: &mut Desk, sheet: &mut OpenSheet, call: Call) -> Result<Answer, Refusal> {
    match call {
        Call::Lay(number, row) => sheet
            .lay(number, row.as_slice())
            .map(|()| Answer::Done)
            .map_err(refused),
        Call::Make(making) => desk.make(making),
        _ => Err(Refusal::Error(Reason::OpenSheet)),
    }
}

fn answer_closed(desk: &mut Desk, sheet: &ClosedSheet, call: Call) -> Result<Answer, Refusal> {
    match call {
        Call::Cut(job, field, number, out) => over_field!(field, f =>
            filled_by(out, |out| sheet.cut(desk.plan(), f, job, number, out), Answer::Packet)),
        Call::Make(making) => desk.make(making),
        _ => Err(Refusal::Error(Reason::ClosedSheet)),
    }
}

// Answers the calls on an open sheet until it is closed, or the input ends.
// Kept: beside `cut_packets`, since each has a sheet of its own type and ends at a call of its own.
fn lay_rows(
    terminal: &mut Terminal,
    desk: &mut Desk,
    sheet: &mut OpenSheet,
) -> io::Result<Option<()>> {
    terminal.say(Ok(Answer::Done))?;
    terminal.answer_until(|call| match call {
        Call::Close => ControlFlow::Break(()),
        call => ControlFlow::Continue(answer_open(desk, sheet, call)),
    })
}

// Answers the calls on a closed sheet until it is taken apart, or the input ends.
fn cut_packets(
    terminal: &mut Terminal,
    desk: &mut Desk,
    sheet: &ClosedSheet,
) -> io::Result<Option<()>> {
    terminal.say(Ok(Answer::Done))?;
    terminal.answer_until(|call| match call {
        Call::Apart => ControlFlow::Break(()),
        call => ControlFlow::Continue(answer_closed(desk, sheet, call)),
    })
}

// Opens a sheet over the buffer, and answers the calls until it is taken apart.
pub fn run_sheet(terminal: &mut Terminal, desk: &mut Desk, mut buffer: Vec<u16>) -> io::Result<()> {
    let mut sheet = OpenSheet::open(desk.plan(), buffer.as_mut_slice());
    let closed = lay_rows(terminal, desk, &mut sheet);
    let sheet = sheet.close();
    let apart = match closed {
        Ok(Some(())) => cut_packets(terminal, desk, &sheet),
        other => other,
    };
    let symbols = sheet.into_buffer();
    if apart?.is_none() {
        return Ok(());
    }
    let symbols = Vec::from_slice(terminal.alloc(), symbols)?;
    terminal.say(Ok(Answer::Symbols(symbols)))
}
