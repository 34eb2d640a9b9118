// Calls that write into a buffer.
use crate::answers::Answer;
use crate::reasons::Refusal;
use checks::fault::Fault;

// Answers a call by what it gives and the buffer as it leaves it, or refuses with its fault.
pub fn filled_by<T, R, E, F, A>(mut buffer: Vec<T>, call: F, answer: A) -> Result<Answer, Refusal>
where
    T: Copy + PartialEq,
    E: Into<Fault>,
    F: FnOnce(&mut [T]) -> Result<R, E>,
    A: FnOnce(R, Vec<T>) -> Answer,
    requires called { F.IsAlwaysCallable call }
    requires answered { A.IsAlwaysCallable answer }
{
    let before = buffer.clone()?;
    match call(buffer.as_mut_slice()) {
        Ok(given) => Ok(answer(given, buffer)),
        Err(fault) if buffer != before => Err(Refusal::Altered(fault.into())),
        Err(fault) => Err(Refusal::Fault(fault.into())),
    }
}
