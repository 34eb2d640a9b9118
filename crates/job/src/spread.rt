// How bytes are spread over symbols.
ghost use Rattle.std.specs.Prelude.{◌≡◌, ℕ, ◌*◌, ◌^◌, ◌<◌, ◌≤◌, length};
ghost use Rattle.std.specs.Int.Digits.{number_from_digits, AllBelowBase};
ghost use Rattle.checks.specs.Checks.{at};
ghost use Rattle.job.specs.Packing.{byte_values, symbols_a_byte, symbol_limit, digits, laid, lifted};

const BYTE_VALUES: u32 = 256;

const NIBBLE_VALUES: u32 = 16;

const BIT_VALUES: u32 = 2;

// A byte fills `count` symbols, each below `limit`.
#[derive(Clone, Copy)]
pub(crate) struct Spread {
    pub(crate) count: usize,
    pub(crate) limit: u32,
    ghost some: { 1 ≤ count },
    ghost least: { 2 ≤ limit },
    ghost most: { limit ≤ byte_values },
    ghost whole: { limit ^ count ≡ byte_values },
}

impl Spread {
    // Over a field of `size`: a symbol holds the byte, four bits of it, or one.
    pub(crate) fn over(size: u32) -> Spread
        ensures count { result.count ≡ symbols_a_byte size }
        ensures limit { result.limit ≡ symbol_limit size }
    {
        let (count, limit) = if size >= BYTE_VALUES {
            (1, BYTE_VALUES)
        } else if size >= NIBBLE_VALUES {
            (2, NIBBLE_VALUES)
        } else {
            (8, BIT_VALUES)
        };
        Spread { count, limit }
    }

    // Writes a byte's symbols, the last first.
    // Kept: by index, since after a loop over `iter_mut().rev()` a proof knows no symbol that it wrote.
    fn split(self, byte: u8, symbols: &mut [u16])
        ensures { symbols.new ≡ digits self.limit (length symbols.old) byte }
    {
        let mut rest = u32::from(byte);
        for t in (0..symbols.len()).rev() {
            symbols[t] = (rest % self.limit) as u16;
            rest /= self.limit;
        }
    }

    // The byte that symbols make.
    pub(crate) fn join(self, symbols: &[u16]) -> u8
        requires fits { length symbols.now ≡ self.count }
        requires small { AllBelowBase self.limit symbols.now }
        ensures { result ≡ number_from_digits self.limit symbols.now }
    {
        let value = symbols
            .iter()
            .fold(0, |value, symbol| value * self.limit + u32::from(*symbol));
        value as u8
    }

    // Writes the symbols of each byte, and zeros behind them.
    // Kept: by index, since after a loop over `chunks_exact_mut` a proof knows no symbol that it wrote.
    #[tactic(auto, using(crate::proofs::Laying::laid_more))]
    pub(crate) fn lay(self, job: &[u8], message: &mut [u16])
        requires { length job.now * self.count ≤ length message.old }
        ensures { message.new ≡ laid self.limit self.count job.now (length message.old) }
    {
        message.fill(0);
        for (i, byte) in job.iter().enumerate() {
            let start = i * self.count;
            self.split(*byte, &mut message[start..start + self.count]);
        }
    }

    // Writes the bytes that the first symbols make.
    // Kept: parts by index, since after a `zip` of `iter_mut` and `chunks_exact` a proof knows no byte that it wrote.
    pub(crate) fn lift(self, message: &[u16], job: &mut [u8])
        requires fits { length job.old * self.count ≤ length message.now }
        requires small { (i : ℕ) → i < length job.old * self.count → at message.now i < self.limit }
        ensures { job.new ≡ lifted self.limit self.count message.now (length job.old) }
    {
        for (i, byte) in job.iter_mut().enumerate() {
            let start = i * self.count;
            *byte = self.join(&message[start..start + self.count]);
        }
    }
}
