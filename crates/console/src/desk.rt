// The plan's place, the receiver, and the calls on them.
use crate::answers::Answer;
use crate::buffers::filled_by;
use crate::calls::{Call, Nodes, PlanCall, ReceiverCall};
use crate::fields::over_field;
use crate::reasons::{Reason, Refusal, refused};
use binary::{ByteField, NibbleField};
use code::plan::Plan;
use cutting::request::FieldChoice;
use field::{Field, SteppedField};
use job::{pack, unpack};
use prime::PrimeField;
use receiver::receiver::Receiver;

// What the calls change: the plan, unmade at first, and the receiver, once a call has opened it.
#[derive(Drop)]
pub struct Desk {
    plan: Plan,
    receiver: Option<Receiver>,
}

// Answers a call on an open receiver.
fn receive(receiver: &mut Receiver, call: ReceiverCall) -> Result<Answer, Refusal> {
    match call {
        ReceiverCall::Offer(packet, field) => {
            over_field!(field, f => receiver.offer(f, packet.as_slice()))
                .map(Answer::Count)
                .map_err(refused)
        }
        ReceiverCall::Read(message, field) => over_field!(field, f =>
            filled_by(message, |out| receiver.read(f, out), |(), out| Answer::Symbols(out))),
        ReceiverCall::Rebuild(out, field, number) => over_field!(field, f =>
            filled_by(out, |out| receiver.rebuild(f, number, out), Answer::Packet)),
        ReceiverCall::Missing => Ok(Answer::Missing(receiver.missing())),
    }
}

impl Desk {
    pub fn new() -> Desk {
        Desk {
            plan: Plan::new(),
            receiver: None,
        }
    }

    pub fn plan(&self) -> &Plan {
        &self.plan
    }

    pub fn make(&mut self, call: PlanCall) -> Result<Answer, Refusal> {
        let PlanCall {
            counts,
            nodes,
            field,
        } = call;
        let made = match nodes {
            Nodes::Given(data, checks) =>
                over_field!(field, f => self.plan.make(f, counts, data.as_slice(), checks.as_slice())),
            Nodes::Standard => over_field!(field, f =>
                self.plan.make_standard(f, counts)),
        };
        made.map(|()| Answer::Done).map_err(refused)
    }

    // Answers a call while there is no sheet.
    pub fn answer(&mut self, call: Call) -> Result<Answer, Refusal> {
        match call {
            Call::Make(making) => self.make(making),
            Call::Nodes => Ok(Answer::Nodes(self.plan)),
            Call::Open(job) => {
                self.receiver = Some(Receiver::open(&self.plan, job));
                Ok(Answer::Done)
            }
            Call::Receive(receiving) => {
                let receiver = self.receiver.as_mut().ok_or(Reason::NoReceiver)?;
                receive(receiver, receiving)
            }
            Call::Pack(job, message) => filled_by(
                message,
                |out| pack(&self.plan, job.as_slice(), out),
                |(), out| Answer::Symbols(out),
            ),
            Call::Unpack(message, len, job) => filled_by(
                job,
                |out| unpack(&self.plan, message.as_slice(), len, out),
                |(), out| Answer::Bytes(out),
            ),
            _ => Err(Refusal::Error(Reason::NoSheet)),
        }
    }
}
