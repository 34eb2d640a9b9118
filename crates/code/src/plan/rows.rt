// The row of each packet of a message.
ghost use Rattle.std.specs.Prelude.{◌≡◌, ◌+◌, ◌*◌, ◌<◌, length};
ghost use Rattle.code.specs.Plans.{view};
ghost use Rattle.code.specs.Cutting.{Factors, RowAnswered};
ghost use Rattle.code.specs.Rows.{row as row_of};

use super::{MOST_PACKETS, Plan};
use crate::fault::PlanFault;
use field::Field;

impl Plan {
    // What each row of the message is multiplied by in the check packet of that number.
    // Kept: an array of which the first m places are used, since there is no heap on the device; it is written by index, as
    // after a `zip` over `iter_mut` a proof knows no factor.
    fn factors<F: Field>(&self, field: &F, number: usize) -> [u16; MOST_PACKETS]
        requires within { number < (view self.now).m + (view self.now).r }
        ensures room { length result ≡ 64 }
        ensures answers { Factors (F.ops field.now) (view self.now) number result }
    {
        let mut factors = [0; MOST_PACKETS];
        let node = self.nodes[number];
        for (j, data_node) in self.nodes[..self.counts.data_count].iter().enumerate() {
            factors[j] = field.inverse(field.difference(node, *data_node));
        }
        factors
    }

    fn write_row<F: Field>(&self, field: &F, message: &[u16], number: usize, row: &mut [u16])
        requires within { number < (view self.now).m + (view self.now).r }
        requires whole { length message.now ≡ (view self.now).m * (view self.now).L }
        requires fits { length row.old ≡ (view self.now).L }
        ensures { row.new
            ≡ row_of (F.ops field.now) (view self.now) message.now number }
    {
        if number < self.counts.data_count {
            let start = number * self.counts.row_len;
            row.copy_from_slice(&message[start..start + self.counts.row_len]);
        } else {
            let factors = self.factors(field, number);
            field.combine(&factors[..self.counts.data_count], message, row);
        }
    }

    // Writes the row of the packet of that number of the message.
    pub fn packet_row<F: Field>(
        &self,
        field: &F,
        message: &[u16],
        number: usize,
        row: &mut [u16],
    ) -> Result<(), PlanFault>
        ensures { RowAnswered (F.ops field.now) (view self.now)
            message.now number row.old row.new result }
    {
        if field.size() != self.size {
            return Err(PlanFault::OtherField(self.size as usize));
        }
        if message.len() != self.message_len() {
            return Err(PlanFault::Count(self.message_len()));
        }
        if number >= self.packet_count() {
            return Err(PlanFault::Number(number));
        }
        if row.len() != self.counts.row_len {
            return Err(PlanFault::Count(self.counts.row_len));
        }
        self.write_row(field, message, number, row);
        Ok(())
    }
}
