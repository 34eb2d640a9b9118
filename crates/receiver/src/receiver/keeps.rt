// Keeping an accepted packet.
ghost use Rattle.std.specs.Prelude.{◌≡◌, length};
ghost use Rattle.receiver.specs.Machine.{count as count_of};
ghost use Rattle.receiver.specs.Receivers.{plan_of, state_of, kept, Keeps};
ghost use Rattle.receiver.specs.States.{Reached};

use super::Receiver;

impl Receiver {
    // Keeps an accepted packet: with its row if fewer than m are kept, otherwise its number alone.
    // Answers how many are accepted then.
    pub(crate) fn keep(&mut self, number: u16, row: &[u16]) -> usize
        requires fits { length row.now ≡ (plan_of self.old).L }
        requires reaches { Reached (plan_of self.old) (kept self.old number row.now) }
        ensures answers { result ≡ count_of (state_of self.new) }
        ensures unchanged { Keeps self.old self.new }
        ensures leaves { state_of self.new ≡ kept self.old number row.now }
    {
        if !self.is_settled() {
            self.shelf.put(self.count, row);
        }
        self.numbers[self.count] = number;
        self.count += 1;
        self.count
    }
}
