// The lines of standard input, and the answers on standard output.
use crate::answers::{Answer, say};
use crate::asks::read_line;
use crate::calls::Call;
use crate::reasons::Refusal;
use std::alloc::Global;
use std::io;
use std::io::{BufRead, BufReader};
use std::ops::ControlFlow;
use std::rt::Stdin;

#[derive(Drop)]
pub struct Terminal<'a> {
    rt: &'a HostRuntime,
    reader: BufReader<Stdin>,
}

// The line without its end.
fn without_end(line: &[u8]) -> &[u8] {
    match line {
        [front @ .., b'\r', b'\n'] => front,
        [front @ .., b'\n'] => front,
        _ => line,
    }
}

impl<'a> Terminal<'a> {
    pub fn new(rt: &'a HostRuntime) -> io::Result<Terminal<'a>> {
        Ok(Terminal {
            rt,
            reader: BufReader::new(rt.alloc(), rt.stdin())?,
        })
    }

    pub fn alloc(&self) -> Global {
        self.rt.alloc()
    }

    pub fn say(&self, answer: Result<Answer, Refusal>) -> io::Result<()> {
        say(self.rt, answer)
    }

    // The next call, if one comes before the end. A line before it that is not read is answered here.
    fn next_call(&mut self) -> io::Result<Option<Call>> {
        // Kept: a count that never runs out, as in `main`.
        for _ in 0..u64::MAX {
            let mut line = Vec::new(self.alloc());
            if self.reader.read_until(b'\n', &mut line)? == 0 {
                return Ok(None);
            }
            match read_line(self.alloc(), without_end(line.as_slice())) {
                Ok(Some(call)) => return Ok(Some(call)),
                Ok(None) => {}
                Err(reason) => self.say(Err(Refusal::Error(reason)))?,
            }
        }
        Ok(None)
    }

    // Answers calls up to the one that `answer` breaks at, and hands over what it breaks with, or nothing at the end.
    pub fn answer_until<T, F>(&mut self, mut answer: F) -> io::Result<Option<T>>
    where
        T: Drop,
        F: FnMut(Call) -> ControlFlow<T, Result<Answer, Refusal>>,
        requires { F.IsAlwaysCallable answer }
    {
        // Kept: a count that never runs out, as in `main`.
        for _ in 0..u64::MAX {
            let Some(call) = self.next_call()? else {
                return Ok(None);
            };
            match answer(call) {
                ControlFlow::Continue(answer) => self.say(answer)?,
                ControlFlow::Break(last) => return Ok(Some(last)),
            }
        }
        Ok(None)
    }
}
