// How many packets settle the message.
ghost use Rattle.std.specs.Prelude.{◌≡◌, nat_le};
ghost use Rattle.code.specs.Plans.{view};
ghost use Rattle.code.specs.Settles.{AnyMPacketsSettleTheMessage, FewerLeaveEveryOtherRowOpen};

use super::Plan;

impl Plan {
    // Whether so many different packets settle the message: any m of them do, and fewer leave every other row open.
    pub fn settled_by(&self, count: usize) -> bool
        ensures answers { result ≡ nat_le (view self.now).m count }
        ensures enough { AnyMPacketsSettleTheMessage }
        ensures fewer { FewerLeaveEveryOtherRowOpen }
    {
        self.counts.data_count <= count
    }
}
