// The checks of packing and unpacking, in their order.
ghost use Rattle.std.specs.Prelude.{◌≡◌, ◌≤◌, length};
ghost use Rattle.checks.specs.Checks.{lowest, too_large};
ghost use Rattle.code.specs.Plans.{view};
ghost use Rattle.job.specs.Calls.{remains, pack_checks, unpack_checks, checked};

use crate::capacity;
use crate::fault::JobFault;
use crate::spread::Spread;
use checks::first_large;
use code::plan::Plan;

// The place of the first symbol of `limit` or more, before `end`.
#[tactic(auto, using(crate::proofs::Laying::large_front))]
pub(crate) fn first_unfit(message: &[u16], limit: u32, end: usize) -> Option<usize>
    requires { end ≤ length message.now }
    ensures { result ≡ lowest (too_large limit message.now) end }
{
    first_large(&message[..end], limit)
}

// The place of the first symbol that is not 0, from `start` on.
pub(crate) fn first_rest(message: &[u16], start: usize) -> Option<usize>
    requires { start ≤ length message.now }
    ensures { result ≡ lowest (remains start message.now) (length message.now) }
{
    message[start..]
        .iter()
        .position(|symbol| *symbol != 0)
        .map(|place| start + place)
}

// Of a job of so many bytes, and a message buffer of so many symbols.
pub(crate) fn check_job(plan: &Plan, bytes: usize, symbols: usize) -> Result<(), JobFault>
    ensures { result ≡ checked (pack_checks (view plan.now) bytes symbols) }
{
    let wanted = plan.message_len();
    if symbols != wanted {
        return Err(JobFault::Count(wanted));
    }
    let most = capacity(plan);
    if bytes > most {
        return Err(JobFault::Capacity(most));
    }
    Ok(())
}

// Of a job of `len` bytes, and a job buffer of `room`.
pub(crate) fn check_message(
    plan: &Plan,
    message: &[u16],
    len: usize,
    room: usize,
) -> Result<(), JobFault>
    ensures { result ≡ checked (unpack_checks (view plan.now) message.now len room) }
{
    check_job(plan, len, message.len())?;
    if len > room {
        return Err(JobFault::Count(len));
    }
    let spread = Spread::over(plan.size());
    let end = len * spread.count;
    if let Some(place) = first_unfit(message, spread.limit, end) {
        return Err(JobFault::Symbol(place));
    }
    if let Some(place) = first_rest(message, end) {
        return Err(JobFault::Rest(place));
    }
    Ok(())
}
