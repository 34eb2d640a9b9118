// The interface of a finite field, with the laws that each implementation shows, and the sum of rows that coders spend their time in.
#![tactic(auto)]

ghost use Rattle.std.specs.Prelude.{◌≡◌, ℕ, ◌<◌, length};
ghost use Rattle.field.specs.Field.{Ops, Lawful, Steps, sum_of, negative_of, product_of, inverse_of};
ghost use Rattle.field.specs.Rows.{numbers, minus, Added, Combined};

// A finite field. Its elements are the numbers below its size, and any other number counts as 0.
pub trait Field {
    ghost ops: { Self → Ops };

    fn size(&self) -> u32
        ensures { result ≡ (ops self.now).size };

    fn sum(&self, a: u16, b: u16) -> u16
        ensures { result ≡ sum_of (ops self.now) a b };

    fn negative(&self, a: u16) -> u16
        ensures { result ≡ negative_of (ops self.now) a };

    fn product(&self, a: u16, b: u16) -> u16
        ensures { result ≡ product_of (ops self.now) a b };

    // The inverse of 0 is 0.
    fn inverse(&self, a: u16) -> u16
        ensures { result ≡ inverse_of (ops self.now) a };

    // `a` plus the negative of `b`.
    fn difference(&self, a: u16, b: u16) -> u16
        ensures { result ≡ minus (numbers (ops self.now)) a b }
    {
        self.sum(a, self.negative(b))
    }

    // Adds `factor` times `row` to `into`, symbol by symbol, as far as both reach.
    fn add_multiple(&self, factor: u16, row: &[u16], into: &mut [u16])
        ensures { Added (ops self.now) factor row.now into.old into.new }
    {
        let common = row.len().min(into.len());
        // Kept: written by index, since after a `zip` over `iter_mut` a proof knows no symbol that was written.
        for (s, symbol) in row[..common].iter().enumerate() {
            into[s] = self.sum(into[s], self.product(factor, *symbol));
        }
    }

    // Writes the sum of the rows, each times its factor: the rows stand one behind the other, each as long as `out`.
    // A symbol past the end of `rows` counts as 0. A field may bring a faster body, under the same contract.
    fn combine(&self, factors: &[u16], rows: &[u16], out: &mut [u16])
        ensures { Combined (ops self.now) factors.now rows.now out.new }
    {
        out.fill(0);
        let mut rest = rows;
        for factor in factors {
            let (row, behind) = rest.split_at(out.len().min(rest.len()));
            self.add_multiple(*factor, row, out);
            rest = behind;
        }
    }

    ghost lawful: { (f : Self) → Lawful (ops f) };
}

// A field with an element, the step, whose powers from 0 to period - 1 are all different.
pub trait SteppedField: Field {
    ghost first: { Self → ℕ };

    ghost period: { Self → ℕ };

    // The step and the period.
    fn step(&self) -> (u16, u32)
        ensures answers { (result.0 ≡ first self.now) × (result.1 ≡ period self.now) }
        ensures steps { Steps (Self.Field.ops self.now) result.0 result.1 };
}
