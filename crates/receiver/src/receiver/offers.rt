// Offering the bytes of a packet.
ghost use Rattle.std.specs.Prelude.{◌≡◌, ◌==◌, ◌<◌, true, length, is_err};
ghost use Rattle.std.specs.List.{AllByRecursion};
ghost use Rattle.std.specs.Option.{option_map};
ghost use Rattle.checks.specs.Checks.{unless, first, answered};
ghost use Rattle.packet.specs.Bytes.{word};
ghost use Rattle.receiver.specs.Examining.{Examined, Judged};
ghost use Rattle.receiver.specs.Machine.{job_checks, offer as an_offer};
ghost use Rattle.receiver.specs.Receivers.{plan_of, job_of, state_of, offer_answer, Answers, Keeps};
ghost use Rattle.receiver.specs.declared.fault.ReceiverFault.TheVariants.{OtherJob};

use super::Receiver;
use crate::fault::ReceiverFault;
use checks::first_large;
use code::plan::MOST_SYMBOLS;
use field::Field;
use packet::{
    CHECK_COUNT_AT, DATA_COUNT_AT, JOB_LENGTH_AT, JOB_NUMBER_AT, ROW_LEN_AT, SIZE_AT, open,
    symbols_of, word_at,
};

// That this number stands at that byte.
fn check_number(bytes: &[u8], byte: usize, number: usize) -> Result<(), ReceiverFault>
    ensures { result ≡ answered (unless (word bytes.now byte == number) (OtherJob byte)) tt }
{
    if usize::from(word_at(bytes, byte)) == number {
        Ok(())
    } else {
        Err(ReceiverFault::OtherJob(byte))
    }
}

impl Receiver {
    // That the header has this job's numbers.
    fn check_job(&self, bytes: &[u8]) -> Result<(), ReceiverFault>
        ensures { result ≡ answered (option_map OtherJob
            (first (job_checks (plan_of self.now) (job_of self.now) bytes.now))) tt }
    {
        check_number(bytes, DATA_COUNT_AT, self.plan.data_count())?;
        check_number(bytes, CHECK_COUNT_AT, self.plan.check_count())?;
        check_number(bytes, ROW_LEN_AT, self.plan.row_len())?;
        check_number(bytes, SIZE_AT, self.plan.size() as usize - 1)?;
        check_number(bytes, JOB_NUMBER_AT, usize::from(self.job.number))?;
        check_number(bytes, JOB_LENGTH_AT, usize::from(self.job.length))
    }

    // Reads the number and the row of bytes that are a packet of this job.
    fn examine(&self, bytes: &[u8], row: &mut [u16]) -> Result<u16, ReceiverFault>
        requires fits { length row.old ≡ (plan_of self.now).L }
        ensures { Examined (plan_of self.now) (job_of self.now) bytes.now result row.new }
    {
        let packet = open(bytes)?;
        self.check_job(bytes)?;
        let number = packet.number();
        if usize::from(number) >= self.plan.packet_count() {
            return Err(ReceiverFault::Number(usize::from(number)));
        }
        symbols_of(&self.plan, packet.row(), row);
        if let Some(place) = first_large(row, self.plan.size()) {
            return Err(ReceiverFault::Symbol(place));
        }
        Ok(number)
    }

    // Reads the number and the row of a packet that passes every check.
    fn check_offer<F: Field>(
        &self,
        field: &F,
        bytes: &[u8],
        row: &mut [u16],
    ) -> Result<u16, ReceiverFault>
        requires fits { length row.old ≡ (plan_of self.now).L }
        ensures { Judged (F.ops field.now) (plan_of self.now) (job_of self.now)
            (state_of self.now) bytes.now result row.new }
    {
        let over = self.over(field)?;
        let number = self.examine(bytes, row)?;
        over.compare(number, row)?;
        Ok(number)
    }

    // Offers the bytes of a packet. The answer is the count of accepted packets.
    pub fn offer<F: Field>(&mut self, field: &F, bytes: &[u8]) -> Result<usize, ReceiverFault>
        ensures answers { Answers (F.ops field.now) self.old
            (an_offer bytes.now) (offer_answer result) bytes.now self.new }
        ensures leaves { Keeps self.old self.new }
        ensures unchanged { is_err result ≡ true → self.new ≡ self.old }
        ensures typed { AllByRecursion (λ b. b < 256) bytes.now }
    {
        // Kept: an array of which a part is used, since there is no heap on the device.
        let mut room = [0; MOST_SYMBOLS];
        let row = &mut room[..self.plan.row_len()];
        let number = self.check_offer(field, bytes, row)?;
        Ok(self.keep(number, row))
    }
}
