// Counts and plans as text.
ghost use Rattle.std.specs.Prelude.{Some};
ghost use Rattle.code.specs.Texts.{counts_text};

use super::{Counts, Plan};
use std::fmt;

impl fmt::Display for Counts {
    ghost output = { λ counts. Some (counts_text counts.data_count counts.check_count counts.row_len) };

    fn fmt<W: fmt::Write>(&self, f: &mut fmt::Formatter<W>) -> fmt::Result {
        write!(
            f,
            "{} data packets and {} check packets of {} symbols",
            self.data_count, self.check_count, self.row_len
        )
    }
}

// The counts, and the size of the field.
impl fmt::Display for Plan {
    ghost use Rattle.code.specs.Texts.{plan_text};
    ghost use Rattle.code.specs.Plans.{view};

    ghost output = { λ plan. Some (plan_text (view plan)) };

    fn fmt<W: fmt::Write>(&self, f: &mut fmt::Formatter<W>) -> fmt::Result {
        write!(f, "{}, over the field of {}", self.counts, self.size)
    }
}
