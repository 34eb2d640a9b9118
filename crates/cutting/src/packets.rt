// All packets of a message, one behind the other.
ghost use Rattle.std.specs.Prelude.{◌≡◌, ◌+◌, ◌*◌, ◌<◌, ◌++◌, length, IfOk, OnOk};
ghost use Rattle.std.specs.List.{AllByRecursion};
ghost use Rattle.code.specs.Plans.{view};
ghost use Rattle.sheet.specs.Sheets.{closed_view};
ghost use Rattle.cutting.specs.Cutting.{sheet_of, all_packets, packet_of, Whole};

use code::plan::Plan;
use field::Field;
use packet::Job;
use sheet::closed::ClosedSheet;
use sheet::opened::OpenSheet;
use std::alloc::{AllocError, Global};

// The bytes of the longest packet: 128 symbols of two bytes behind a header of 20.
pub const MOST_PACKET_BYTES: usize = 276;

// The symbols of the longest message: 64 rows of 128.
pub(crate) const MOST_MESSAGE_SYMBOLS: usize = 8192;

// Lays each row of the message on a sheet, and closes it.
fn lay_all<'a>(plan: &Plan, message: &[u16], buffer: &'a mut [u16]) -> ClosedSheet<'a>
    requires long { length message.now ≡ (view plan.now).m * (view plan.now).L }
    requires fits { length buffer.old ≡ (view plan.now).m * (view plan.now).L }
    requires element { AllByRecursion (λ x. x < (view plan.now).q) message.now }
    ensures { closed_view result ≡ sheet_of (view plan.now) message.now }
{
    let mut sheet = OpenSheet::open(plan, buffer);
    for (number, row) in message.chunks(plan.row_len()).enumerate() {
        sheet.lay(number, row).unwrap();
    }
    sheet.close()
}

// A job that is cut, over a field of the plan's size.
#[derive(Drop)]
pub(crate) struct Cutter<'a, F: Field> {
    pub(crate) field: &'a F,
    pub(crate) plan: &'a Plan,
    pub(crate) job: Job,
    ghost sized: { (F.ops field.now).size ≡ (view plan.now).q },
}

impl<'a, F: Field> Cutter<'a, F> {
    // Adds packet `number` of a sheet to the packets in front of it.
    fn push_packet(
        &self,
        sheet: &ClosedSheet,
        number: usize,
        out: &mut Vec<u8>,
    ) -> Result<(), AllocError>
        requires whole { Whole (view self.now.plan.now) (closed_view sheet.now) }
        requires within { number < (view self.now.plan.now).m + (view self.now.plan.now).r }
        ensures { OnOk result (out.new.items ≡ out.old.items ++ packet_of (F.ops self.now.field.now)
            (view self.now.plan.now) self.now.job (closed_view sheet.now).content number) }
    {
        // Kept: an array that any packet fits, since a vector is no plainer and could fail at each packet.
        let mut room = [0; MOST_PACKET_BYTES];
        let len = sheet
            .cut(self.plan, self.field, self.job, number, &mut room)
            .unwrap();
        out.extend_from_slice(&room[..len])
    }

    // Cuts every packet of a sheet.
    fn cut_all(&self, heap: Global, sheet: &ClosedSheet) -> Result<Vec<u8>, AllocError>
        requires whole { Whole (view self.now.plan.now) (closed_view sheet.now) }
        ensures { IfOk result (λ v. v.items ≡ all_packets (F.ops self.now.field.now)
            (view self.now.plan.now) self.now.job (closed_view sheet.now).content) }
    {
        let mut out = Vec::new(heap);
        for number in 0..self.plan.packet_count() {
            self.push_packet(sheet, number, &mut out)?;
        }
        Ok(out)
    }

    // All packets of a message.
    pub(crate) fn cut_message(&self, heap: Global, message: &[u16]) -> Result<Vec<u8>, AllocError>
        requires long { length message.now ≡ (view self.now.plan.now).m * (view self.now.plan.now).L }
        requires element { AllByRecursion (λ x. x < (view self.now.plan.now).q) message.now }
        ensures { IfOk result (λ v. v.items ≡ all_packets (F.ops self.now.field.now)
            (view self.now.plan.now) self.now.job message.now) }
    {
        // Kept: an array of which a part is used, since a vector could fail where this cannot.
        let mut room = [0; MOST_MESSAGE_SYMBOLS];
        let sheet = lay_all(self.plan, message, &mut room[0..self.plan.message_len()]);
        let packets = self.cut_all(heap, &sheet);
        let _ = sheet.into_buffer();
        packets
    }
}
