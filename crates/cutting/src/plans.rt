// The cutter's plan: the node of packet n is n.
ghost use Rattle.std.specs.Prelude.{◌≡◌};
ghost use Rattle.std.specs.List.{range_with_len};
ghost use Rattle.cutting.specs.Cutting.{Planned, cutter_checks, cutter_plan};

use code::fault::PlanFault;
use code::plan::{Counts, MOST_NODES, Plan};
use field::Field;
use std::array;

// As many nodes as a plan can have, counted up from 0.
// Kept: an array of which a part is used, since a vector would need one more case in `PlanFault`, for want of memory.
fn count_up() -> [u16; MOST_NODES]
    ensures { result ≡ range_with_len 0 128 }
{
    array::from_fn(|n| n as u16)
}

// A new plan of these counts over a field.
pub fn counted_plan<F: Field>(field: &F, counts: Counts) -> Result<Plan, PlanFault>
    ensures { Planned
        (cutter_checks (F.ops field.now).size counts.data_count counts.check_count counts.row_len)
        (cutter_plan (F.ops field.now).size counts.data_count counts.check_count counts.row_len)
        result }
{
    counts.check()?;
    let nodes = count_up();
    let (data_nodes, others) = nodes.split_at(counts.data_count);
    let (check_nodes, _) = others.split_at(counts.check_count);
    let mut plan = Plan::new();
    plan.make(field, counts, data_nodes, check_nodes)?;
    Ok(plan)
}
