// The console: calls on standard input, one a line, and an answer to each on standard output.
#![tactic(auto)]

use crate::calls::Call;
use crate::desk::Desk;
use crate::sheets::run_sheet;
use crate::terminal::Terminal;
use std::io;
use std::ops::ControlFlow;

mod answers;
mod asks;
mod buffers;
mod calls;
mod desk;
mod fields;
mod reasons;
mod sheets;
mod terminal;
mod words;

fn main(rt: HostRuntime) -> io::Result<()> {
    let mut terminal = Terminal::new(&rt)?;
    let mut desk = Desk::new();
    // Kept: a count that never runs out, since a loop without end needs a handle that no program here has.
    for _ in 0..u64::MAX {
        let next = terminal.answer_until(|call| match call {
            Call::Sheet(buffer) => ControlFlow::Break(buffer),
            call => ControlFlow::Continue(desk.answer(call)),
        })?;
        let Some(buffer) = next else {
            break;
        };
        run_sheet(&mut terminal, &mut desk, buffer)?;
    }
    Ok(())
}
