// The closed sheet: packets are cut from it.
ghost use Rattle.std.specs.Prelude.{◌≡◌, length};
ghost use Rattle.checks.specs.Checks.{answered, left};
ghost use Rattle.code.specs.Plans.{view};
ghost use Rattle.code.specs.Rows.{row};
ghost use Rattle.packet.specs.Layout.{packet_length};
ghost use Rattle.packet.specs.Writing.{written};
ghost use Rattle.sheet.specs.Sheets.{closed_view, cutting, Cut};

use crate::fault::SheetFault;
use crate::opened::message_len;
use code::plan::{MOST_SYMBOLS, Plan};
use field::Field;
use packet::{Job, packet_len, write};

// A borrowed message buffer, with m, L and q of the plan that it was opened for.
// Kept: the fields of the open sheet once more, and m, L and q one by one in both, since sheets are two moved types over one
// buffer and plain numbers.
pub struct ClosedSheet<'a> {
    pub(crate) buffer: &'a mut [u16],
    pub(crate) data_count: u16,
    pub(crate) row_len: u16,
    pub(crate) size: u32,
}

impl<'a> ClosedSheet<'a> {
    // The checks of cutting, in their order.
    fn check(&self, plan: &Plan, size: u32, number: usize, room: usize) -> Result<(), SheetFault>
        ensures { result ≡ answered (cutting (closed_view self.now) (view plan.now) size number room) tt }
    {
        let same_rows = plan.data_count() == usize::from(self.data_count)
            && plan.row_len() == usize::from(self.row_len);
        if size != self.size || plan.size() != self.size || !same_rows {
            return Err(SheetFault::OtherField(self.size as usize));
        }
        // Kept: the test of a buffer as in laying, since a call for three lines would be no plainer.
        let wanted = message_len(self.data_count, self.row_len);
        if self.buffer.len() != wanted {
            return Err(SheetFault::Count(wanted));
        }
        if number >= plan.packet_count() {
            return Err(SheetFault::Number(number));
        }
        if room < packet_len(plan) {
            return Err(SheetFault::Count(packet_len(plan)));
        }
        Ok(())
    }

    // Writes packet `number` of the message for this job in front of `out`, and answers its length.
    pub fn cut<F: Field>(
        &self,
        plan: &Plan,
        field: &F,
        job: Job,
        number: usize,
        out: &mut [u8],
    ) -> Result<usize, SheetFault>
        ensures { Cut (closed_view self.now) (view plan.now) (F.ops field.now) job number out.old out.new result }
    {
        self.check(plan, field.size(), number, out.len())?;
        // Kept: an array of which a part is used, since sheets need no heap.
        let mut room = [0; MOST_SYMBOLS];
        let row = &mut room[..plan.row_len()];
        plan.packet_row(field, self.buffer, number, row).unwrap();
        Ok(write(plan, job, number as u16, row, out).unwrap())
    }

    // Takes the sheet apart: its buffer goes back to its owner.
    // Kept, as in `close`: field by field, since a sheet is no `Drop`.
    pub fn into_buffer(self) -> &'a mut [u16]
        ensures named { result.ghost_name ≡ self.entry.buffer.ghost_name }
        ensures leaves { result.now ≡ (closed_view self.entry).content }
    {
        let ClosedSheet {
            buffer,
            data_count: _,
            row_len: _,
            size: _,
        } = self;
        buffer
    }
}
