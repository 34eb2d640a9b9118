// Refusals, and checks of rows of symbols: the first that is too large, and the first place where two rows differ.
#![tactic(auto)]

ghost use Rattle.std.specs.Prelude.{◌≡◌, min, length};
ghost use Rattle.checks.specs.Checks.{lowest, too_large, differs};

pub mod fault;

// The place of the first symbol of `limit` or more.
pub fn first_large(symbols: &[u16], limit: u32) -> Option<usize>
    ensures { result ≡ lowest (too_large limit symbols.now) (length symbols.now) }
{
    symbols
        .iter()
        .position(|symbol| limit <= u32::from(*symbol))
}

// The first place where two rows differ, as far as both reach.
pub fn first_difference(a: &[u16], b: &[u16]) -> Option<usize>
    ensures { result ≡ lowest (differs a.now b.now) (min (length a.now) (length b.now)) }
{
    a.iter().zip(b).position(|(x, y)| x != y)
}
