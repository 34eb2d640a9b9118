// Opening a receiver, and what it answers of itself.
ghost use Rattle.std.specs.Prelude.{◌≡◌, ◌<◌, nat_le};
ghost use Rattle.code.specs.Plans.{view};
ghost use Rattle.receiver.specs.Machine.{count as count_of, heard, opened, settled};
ghost use Rattle.receiver.specs.Receivers.{plan_of, job_of, state_of, Missing};
ghost use Rattle.receiver.specs.Runs.{OneRun, Promise};
ghost use Rattle.receiver.specs.States.{Settles};

use super::Receiver;
use crate::shelf::Shelf;
use code::plan::{MOST_NODES, Plan};
use packet::Job;

impl Receiver {
    // A receiver with nothing accepted. The machine that it is held to settles every call, so that the calls alone
    // settle the run; and every run keeps the promise.
    pub fn open(plan: &Plan, job: Job) -> Receiver
        ensures plans { (plan_of result ≡ view plan.now) × (job_of result ≡ job) }
        ensures leaves { state_of result ≡ opened }
        ensures settles { Settles × (OneRun × Promise) }
    {
        Receiver {
            plan: *plan,
            job,
            shelf: Shelf::new(),
            numbers: [0; MOST_NODES],
            count: 0,
        }
    }

    // Whether the number is accepted.
    pub(crate) fn is_accepted(&self, number: u16) -> bool
        ensures { result ≡ heard (state_of self.now) number }
    {
        // In two parts, since a search goes through whole groups of numbers: where data packets come first, those of them that
        // are accepted are among the first m.
        let first = self.count.min(self.plan.data_count());
        let (front, later) = self.numbers[..self.count].split_at(first);
        front.contains(&number) || later.contains(&number)
    }

    // Whether m are accepted, so that every row is known.
    #[tactic(auto, using(crate::proofs::Fields::settled_fields))]
    pub(crate) fn is_settled(&self) -> bool
        ensures answers { result ≡ settled (plan_of self.now) (state_of self.now) }
        ensures counts { result ≡ nat_le (plan_of self.now).m self.now.count }
    {
        self.plan.settled_by(self.count)
    }

    // How many are accepted.
    #[tactic(auto, using(crate::proofs::Fields::count_fields))]
    pub(crate) fn accepted(&self) -> usize
        ensures { result ≡ count_of (state_of self.now) }
    {
        self.count
    }

    // Some data packet's number that is not accepted yet, or none if all are.
    pub fn missing(&self) -> Option<u16>
        ensures { Missing (plan_of self.now) (state_of self.now) result }
    {
        (0..self.plan.data_count() as u16).find(|number| !self.is_accepted(*number))
    }
}
