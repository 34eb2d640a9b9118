// The open sheet: rows are laid on it.
ghost use Rattle.std.specs.Prelude.{◌≡◌, ◌*◌};
ghost use Rattle.checks.specs.Checks.{answered};
ghost use Rattle.code.specs.Plans.{view};
ghost use Rattle.sheet.specs.Sheets.{open_view, closed_view, cleared, laying, laid_on};

use crate::closed::ClosedSheet;
use crate::fault::SheetFault;
use checks::first_large;
use code::plan::Plan;

// A borrowed message buffer, with m, L and q of the plan that it was opened for.
pub struct OpenSheet<'a> {
    pub(crate) buffer: &'a mut [u16],
    pub(crate) data_count: u16,
    pub(crate) row_len: u16,
    pub(crate) size: u32,
}

// The symbols of a message of so many rows.
pub(crate) fn message_len(data_count: u16, row_len: u16) -> usize
    ensures { result ≡ data_count * row_len }
{
    usize::from(data_count) * usize::from(row_len)
}

impl<'a> OpenSheet<'a> {
    // Clears the buffer, unless it is not m · L symbols.
    pub fn open(plan: &Plan, buffer: &'a mut [u16]) -> OpenSheet<'a>
        ensures named { result.buffer.ghost_name ≡ buffer.entry.ghost_name }
        ensures leaves { open_view result ≡ cleared (view plan.now) buffer.old }
    {
        if buffer.len() == plan.message_len() {
            buffer.fill(0);
        }
        OpenSheet {
            buffer,
            data_count: plan.data_count() as u16,
            row_len: plan.row_len() as u16,
            size: plan.size(),
        }
    }

    // Replaces row `number`. A row never laid counts as zeros.
    pub fn lay(&mut self, number: usize, row: &[u16]) -> Result<(), SheetFault>
        ensures answers { result ≡ answered (laying (open_view self.old) number row.now) tt }
        ensures leaves { open_view self.new ≡ laid_on (open_view self.old) number row.now }
        ensures named { self.new.buffer.ghost_name ≡ self.old.buffer.ghost_name }
    {
        let wanted = message_len(self.data_count, self.row_len);
        if self.buffer.len() != wanted {
            return Err(SheetFault::Count(wanted));
        }
        let len = usize::from(self.row_len);
        if row.len() != len {
            return Err(SheetFault::Count(len));
        }
        if number >= usize::from(self.data_count) {
            return Err(SheetFault::Number(number));
        }
        if let Some(place) = first_large(row, self.size) {
            return Err(SheetFault::Symbol(place));
        }
        let start = number * len;
        self.buffer[start..start + len].copy_from_slice(row);
        Ok(())
    }

    // Moves the sheet on: from here it is cut, and no row is laid any more.
    pub fn close(self) -> ClosedSheet<'a>
        ensures named { result.buffer.ghost_name ≡ self.entry.buffer.ghost_name }
        ensures leaves { closed_view result ≡ open_view self.entry }
    {
        let OpenSheet {
            buffer,
            data_count,
            row_len,
            size,
        } = self;
        ClosedSheet {
            buffer,
            data_count,
            row_len,
            size,
        }
    }
}
