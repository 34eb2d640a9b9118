// Making a plan of given nodes.
ghost use Rattle.std.specs.Prelude.{◌≡◌, ◌+◌, ◌<◌, ◌≤◌, ◌++◌, length, take};
ghost use Rattle.checks.specs.Checks.{lowest};
ghost use Rattle.code.specs.Making.{repeated, making_checks, plan_of, Made};

use super::{Counts, MOST_NODES, Plan};
use crate::fault::PlanFault;
use checks::first_large;
use field::Field;

// The nodes written from place `start` on.
fn written(mut all: [u16; MOST_NODES], start: usize, nodes: &[u16]) -> [u16; MOST_NODES]
    requires within { start + length nodes.now ≤ 128 }
    ensures room { length result ≡ 128 }
    ensures answers { take (start + length nodes.now) result ≡ take start all ++ nodes.now }
{
    all[start..start + nodes.len()].copy_from_slice(nodes);
    all
}

// Two lists of nodes, one behind the other, and zeros behind them.
fn joined(front: &[u16], back: &[u16]) -> [u16; MOST_NODES]
    requires fits { length front.now + length back.now ≤ 128 }
    ensures room { length result ≡ 128 }
    ensures answers { take (length front.now + length back.now) result
        ≡ front.now ++ back.now }
{
    let all = written([0; MOST_NODES], 0, front);
    written(all, front.len(), back)
}

fn is_repeated(nodes: &[u16], i: usize) -> bool
    requires within { i < length nodes.now }
    ensures { result ≡ repeated nodes.now i }
{
    nodes[..i].contains(&nodes[i])
}

// The place of the first node that stands earlier too.
fn first_repeated(nodes: &[u16]) -> Option<usize>
    ensures { result ≡ lowest (repeated nodes.now) (length nodes.now) }
{
    (0..nodes.len()).find(|i| is_repeated(nodes, *i))
}

impl Plan {
    // Makes a plan of these nodes over the field. A refusal leaves the plan as it was.
    pub fn make<F: Field>(
        &mut self,
        field: &F,
        counts: Counts,
        data_nodes: &[u16],
        check_nodes: &[u16],
    ) -> Result<(), PlanFault>
        ensures { Made
            (making_checks counts.data_count counts.check_count counts.row_len (F.ops field.now).size
            data_nodes.now check_nodes.now)
            (plan_of counts.data_count counts.check_count counts.row_len (F.ops field.now).size
            (data_nodes.now ++ check_nodes.now))
            self.old self.new result }
    {
        counts.check()?;
        let size = field.size();
        let count = counts.data_count + counts.check_count;
        if count > size as usize {
            return Err(PlanFault::TooMany(size as usize));
        }
        if data_nodes.len() != counts.data_count {
            return Err(PlanFault::Count(counts.data_count));
        }
        if check_nodes.len() != counts.check_count {
            return Err(PlanFault::Count(counts.check_count));
        }
        let nodes = joined(data_nodes, check_nodes);
        if let Some(place) = first_large(&nodes[..count], size) {
            return Err(PlanFault::NotElement(place));
        }
        if let Some(place) = first_repeated(&nodes[..count]) {
            return Err(PlanFault::Repeated(place));
        }
        *self = Plan {
            counts,
            size,
            nodes,
        };
        Ok(())
    }
}
