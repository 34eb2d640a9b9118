// Making the standard plan of a stepped field.
ghost use Rattle.std.specs.Prelude.{◌≡◌, ◌+◌, length};
ghost use Rattle.code.specs.Making.{standard_checks, standard_nodes, plan_of, Made};

use super::{Counts, MOST_NODES, Plan};
use crate::fault::PlanFault;
use field::{Field, SteppedField};

// Fills a place for each power of `step`, from the power 0 on.
fn write_powers<F: Field>(field: &F, step: u16, powers: &mut [u16])
    ensures { powers.new ≡ standard_nodes (F.ops field.now) step (length powers.old) }
{
    let mut power = 1;
    for place in powers.iter_mut() {
        *place = power;
        power = field.product(step, power);
    }
}

impl Plan {
    // Makes a plan whose nodes are the powers of the field's step. A refusal leaves the plan as it was.
    pub fn make_standard<F: SteppedField>(
        &mut self,
        field: &F,
        counts: Counts,
    ) -> Result<(), PlanFault>
        ensures { Made
            (standard_checks counts.data_count counts.check_count counts.row_len (F.period field.now))
            (plan_of counts.data_count counts.check_count counts.row_len (F.Field.ops field.now).size
            (standard_nodes (F.Field.ops field.now) (F.first field.now)
            (counts.data_count + counts.check_count)))
            self.old self.new result }
    {
        counts.check()?;
        let count = counts.data_count + counts.check_count;
        let (step, period) = field.step();
        if count > period as usize {
            return Err(PlanFault::TooMany(period as usize));
        }
        let mut nodes = [0; MOST_NODES];
        write_powers(field, step, &mut nodes[..count]);
        *self = Plan {
            counts,
            size: field.size(),
            nodes,
        };
        Ok(())
    }
}
