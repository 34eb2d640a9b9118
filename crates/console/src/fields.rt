// One call over the field that it names.
// Kept: a macro, since a closure cannot take fields of different types.

// Puts the field that was chosen in for `$over`.
macro_rules! over_field {
    ($choice:expr, $over:ident => $call:expr) => {
        match $choice {
            FieldChoice::Byte => {
                let $over = &ByteField {};
                $call
            }
            FieldChoice::Nibble => {
                let $over = &NibbleField {};
                $call
            }
            FieldChoice::Prime => {
                let $over = &PrimeField {};
                $call
            }
        }
    };
}

pub(crate) use over_field;
