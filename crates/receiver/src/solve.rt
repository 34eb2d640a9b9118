// Any row, and the whole message, from the rows of m packets: one text for every field.
ghost use Rattle.std.specs.Prelude.{◌≡◌, ◌+◌, ◌*◌, ◌<◌, length, MatchOption};
ghost use Rattle.code.specs.Plans.{view};
ghost use Rattle.code.specs.Rows.{Explains};
ghost use Rattle.receiver.specs.Solves.{packets, Given, Weighs, Lacks, First, RowOf};

use code::plan::{MOST_PACKETS, Plan};
use field::Field;
use weights::weights_of;

mod weights;

// m packets over a field of the plan's size: their numbers, their rows one behind the other, and what each of them
// counts for in any other packet.
#[derive(Drop)]
pub(crate) struct Solver<'a, F: Field> {
    field: &'a F,
    plan: &'a Plan,
    numbers: &'a [u16],
    rows: &'a [u16],
    // Kept: an array of which the first m places are used, since there is no heap on the device.
    weights: [u16; MOST_PACKETS],
    ghost given: { Given (view plan.now) numbers.now rows.now },
    ghost sized: { (F.ops field.now).size ≡ (view plan.now).q },
    ghost room: { length weights ≡ 64 },
    ghost weighs: { Weighs (F.ops field.now) (view plan.now) numbers.now weights },
}

// The first place of a number among others.
pub(crate) fn place_of(numbers: &[u16], number: usize) -> Option<usize>
    ensures { MatchOption result (Lacks numbers.now number) (First numbers.now number) }
{
    numbers.iter().position(|n| usize::from(*n) == number)
}

impl<'a, F: Field> Solver<'a, F> {
    ghost use Rattle.receiver.specs.Solvers.{plan_in, packets_in};

    pub(crate) fn new(
        field: &'a F,
        plan: &'a Plan,
        numbers: &'a [u16],
        rows: &'a [u16],
    ) -> Solver<'a, F>
        requires given { Given (view plan.now) numbers.now rows.now }
        requires sized { (F.ops field.now).size ≡ (view plan.now).q }
        ensures fields { result.field.now ≡ field.now }
        ensures plans { plan_in result ≡ view plan.now }
        ensures knows { packets_in result ≡ packets (view plan.now) numbers.now rows.now }
    {
        let weights = weights_of(field, plan, numbers);
        Solver {
            field,
            plan,
            numbers,
            rows,
            weights,
        }
    }

    // Writes the row of that number of every message that fits the packets: a known row is copied, any other is one
    // sum of them.
    // Kept, here and in `Over`: a plain number below m + r and rows of L symbols, since types of these would have to carry
    // the plan.
    pub(crate) fn write_row(&self, number: usize, out: &mut [u16])
        requires within { number < (plan_in self.now).m + (plan_in self.now).r }
        requires fits { length out.old ≡ (plan_in self.now).L }
        ensures { RowOf (F.ops self.now.field.now) (plan_in self.now)
            (packets_in self.now) number out.new }
    {
        if let Some(t) = place_of(self.numbers, number) {
            let start = t * out.len();
            out.copy_from_slice(&self.rows[start..start + out.len()]);
        } else {
            let parts = self.parts(number);
            self.field
                .combine(&parts[..self.numbers.len()], self.rows, out);
        }
    }

    // Writes the message that fits the packets, row 0 first.
    pub(crate) fn write_message(&self, out: &mut [u16])
        requires fits { length out.old ≡ (plan_in self.now).m * (plan_in self.now).L }
        ensures { Explains (F.ops self.now.field.now) (plan_in self.now) out.new (packets_in self.now) }
    {
        let len = self.plan.row_len();
        // Kept: in a loop over `chunks_exact_mut` a proof cannot name what `out` holds.
        for n in 0..self.plan.data_count() {
            self.write_row(n, &mut out[n * len..n * len + len]);
        }
    }
}
