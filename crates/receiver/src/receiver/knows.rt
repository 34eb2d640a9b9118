// What a receiver knows of rows, over a field of its plan's size.
ghost use Rattle.std.specs.Prelude.{◌≡◌, ◌==◌, ◌+◌, ◌<◌, true, length, Some, IfSome, MatchResult};
ghost use Rattle.std.specs.Option.{option_map};
ghost use Rattle.checks.specs.Checks.{unless};
ghost use Rattle.receiver.specs.Examining.{Knows, Judges};
ghost use Rattle.receiver.specs.Machine.{settled};
ghost use Rattle.receiver.specs.Receivers.{plan_of, state_of};
ghost use Rattle.receiver.specs.Solvers.{plan_in, packets_in};
ghost use Rattle.receiver.specs.declared.fault.ReceiverFault.TheVariants.{OtherField};

use super::Receiver;
use crate::fault::ReceiverFault;
use crate::solve::{Solver, place_of};
use checks::first_difference;
use code::plan::MOST_SYMBOLS;
use field::Field;

// A receiver over a field of its plan's size.
#[derive(Drop)]
pub(super) struct Over<'a, F: Field> {
    receiver: &'a Receiver,
    field: &'a F,
    ghost sized: { (F.ops field.now).size ≡ (plan_of receiver.now).q },
}

impl Receiver {
    // The receiver over that field.
    pub(super) fn over<'a, F: Field>(&'a self, field: &'a F) -> Result<Over<'a, F>, ReceiverFault>
        ensures { MatchResult result
            (λ over. (over.receiver.now ≡ self.now) × (over.field.now ≡ field.now) × ((F.ops field.now).size ≡ (plan_of self.now).q))
            (λ f. unless ((F.ops field.now).size == (plan_of self.now).q) (OtherField (plan_of self.now).q) ≡ Some f) }
    {
        if field.size() != self.plan.size() {
            return Err(ReceiverFault::OtherField(self.plan.size() as usize));
        }
        Ok(Over {
            receiver: self,
            field,
        })
    }
}

impl<'a, F: Field> Over<'a, F> {
    // Solves for rows from the m packets that are kept.
    #[tactic(auto, using(crate::proofs::Knowing::given_of, crate::proofs::Knowing::packets_stored))]
    pub(super) fn solver(&self) -> Solver<'a, F>
        requires { settled (plan_of self.now.receiver.now) (state_of self.now.receiver.now) ≡ true }
        ensures fields { result.field.now ≡ self.now.field.now }
        ensures plans { plan_in result ≡ plan_of self.now.receiver.now }
        ensures knows { packets_in result ≡ (state_of self.now.receiver.now).stored }
    {
        let receiver = self.receiver;
        let numbers = &receiver.numbers[..receiver.plan.data_count()];
        let rows = receiver.shelf.front(receiver.plan.message_len());
        Solver::new(self.field, &receiver.plan, numbers, rows)
    }

    // The row of that number if it is known: as it is kept, or solved in `room`.
    pub(super) fn row<'b>(&self, number: usize, room: &'b mut [u16]) -> Option<&'b [u16]>
    where
        'a: 'b,
        requires within { number < (plan_of self.now.receiver.now).m + (plan_of self.now.receiver.now).r }
        requires fits { length room.old ≡ (plan_of self.now.receiver.now).L }
        ensures long { IfSome result
            (λ row. length row.now ≡ (plan_of self.now.receiver.now).L) }
        ensures answers { Knows (F.ops self.now.field.now) (plan_of self.now.receiver.now)
            (state_of self.now.receiver.now) number (option_map (λ row. row.now) result) }
    {
        let receiver = self.receiver;
        if receiver.is_settled() {
            self.solver().write_row(number, room);
            return Some(room);
        }
        let t = place_of(&receiver.numbers[..receiver.count], number)?;
        Some(receiver.shelf.row(t, receiver.plan.row_len()))
    }

    // The last check of an offer: the packet against the row that is known of its number.
    #[tactic(auto, using(crate::proofs::Known::judges_known))]
    pub(super) fn compare(&self, number: u16, row: &[u16]) -> Result<(), ReceiverFault>
        requires within { number < (plan_of self.now.receiver.now).m + (plan_of self.now.receiver.now).r }
        requires fits { length row.now ≡ (plan_of self.now.receiver.now).L }
        ensures { Judges (F.ops self.now.field.now) (plan_of self.now.receiver.now)
            (state_of self.now.receiver.now) (record { number = number; row = row.now }) result }
    {
        // Kept: an array of which a part is used, since there is no heap on the device.
        let mut room = [0; MOST_SYMBOLS];
        let Some(known) = self.row(usize::from(number), &mut room[..row.len()]) else {
            return Ok(());
        };
        if let Some(place) = first_difference(known, row) {
            return Err(ReceiverFault::Contradicts(place));
        }
        if self.receiver.is_accepted(number) {
            return Err(ReceiverFault::Repeated(usize::from(number)));
        }
        Ok(())
    }
}
