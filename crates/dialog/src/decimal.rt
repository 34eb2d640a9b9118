// Plain numbers: decimal digits and nothing else.
ghost use Rattle.std.specs.Prelude.{◌^◌, ◌<◌};
ghost use Rattle.std.specs.Option.{SomeIff};
ghost use Rattle.std.specs.Str.Parse.{IsNumeral, digits_value};

// The number that a word writes, if it writes one and it fits.
pub fn number_in(word: &str) -> Option<usize>
    ensures { SomeIff result (IsNumeral 10 word.now × (digits_value 10 word.now < 2 ^ 64)) (digits_value 10 word.now) }
{
    if word.starts_with('+') {
        return None;
    }
    word.parse::<usize>().ok()
}
