// The plan that a heading asks for: the cutter's.
ghost use Rattle.joining.specs.Headings.{Asked};

use crate::heading::Heading;
use code::fault::PlanFault;
use code::plan::Plan;
use cutting::plans::counted_plan;
use field::Field;

impl Heading {
    // The cutter's plan of these counts over a field.
    pub fn plan<F: Field>(self, field: &F) -> Result<Plan, PlanFault>
        ensures { Asked (F.ops field.now).size self result }
    {
        counted_plan(field, self.counts)
    }
}
