// Reading the message, and rebuilding a packet.
ghost use Rattle.std.specs.Prelude.{◌≡◌};
ghost use Rattle.checks.specs.Checks.{first, answered};
ghost use Rattle.receiver.specs.Examining.{read_front, rebuild_front};
ghost use Rattle.receiver.specs.Machine.{read as a_reading, rebuild as a_rebuild};
ghost use Rattle.receiver.specs.Receivers.{plan_of, state_of, read_answer, rebuild_answer, Answers};

use super::Receiver;
use crate::fault::ReceiverFault;
use code::plan::MOST_SYMBOLS;
use field::Field;
use packet::{packet_len, write};

impl Receiver {
    // What forbids a reading into this buffer, over whatever field.
    fn check_reading(&self, message: &[u16]) -> Result<(), ReceiverFault>
        ensures { result ≡ answered
            (first (read_front (plan_of self.now) (state_of self.now) message.now)) tt }
    {
        let len = self.plan.message_len();
        if message.len() != len {
            return Err(ReceiverFault::Count(len));
        }
        if !self.is_settled() {
            return Err(ReceiverFault::TooFew(self.accepted()));
        }
        Ok(())
    }

    // Writes the message into the buffer, row 0 first.
    pub fn read<F: Field>(&self, field: &F, message: &mut [u16]) -> Result<(), ReceiverFault>
        ensures { Answers (F.ops field.now) self.now (a_reading message.old)
            (read_answer result) message.new self.now }
    {
        let over = self.over(field)?;
        self.check_reading(message)?;
        over.solver().write_message(message);
        Ok(())
    }

    // What forbids a rebuild into this buffer, over whatever field and whether or not the row is known.
    fn check_rebuild(&self, number: usize, out: &[u8]) -> Result<(), ReceiverFault>
        ensures { result ≡ answered (first (rebuild_front (plan_of self.now) number out.now)) tt }
    {
        if number >= self.plan.packet_count() {
            return Err(ReceiverFault::Number(number));
        }
        let len = packet_len(&self.plan);
        if out.len() < len {
            return Err(ReceiverFault::Count(len));
        }
        Ok(())
    }

    // Writes the packet of that number in front of the buffer, alters nothing behind it, and answers its length.
    pub fn rebuild<F: Field>(
        &self,
        field: &F,
        number: usize,
        out: &mut [u8],
    ) -> Result<usize, ReceiverFault>
        ensures { Answers (F.ops field.now) self.now (a_rebuild number out.old)
            (rebuild_answer result) out.new self.now }
    {
        let over = self.over(field)?;
        self.check_rebuild(number, out)?;
        // Kept: an array of which a part is used, since there is no heap on the device.
        let mut room = [0; MOST_SYMBOLS];
        let row = over
            .row(number, &mut room[..self.plan.row_len()])
            .ok_or(ReceiverFault::TooFew(self.accepted()))?;
        Ok(write(&self.plan, self.job, number as u16, row, out)?)
    }
}
