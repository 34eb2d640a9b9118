// A refusal as its reader sees it: the layer that refused, the number of the reason, and the place.
ghost use Rattle.std.specs.Prelude.{◌≡◌, Some};
ghost use Rattle.checks.specs.Faults.{layer_name, fault_text};

use std::fmt;

// The layers that refuse. `Input` is a program's own.
#[derive(Clone, Copy, PartialEq, Debug)]
pub enum Layer {
    Input,
    Plan,
    Packet,
    Receiver,
    Sheet,
    Job,
}

#[derive(Clone, Copy, PartialEq, Debug)]
pub struct Fault {
    pub layer: Layer,
    // Kept: a number, since faults are written out by it; each layer has an enum beside it.
    pub number: u16,
    pub place: usize,
}

impl Layer {
    // The layer's name in output.
    pub fn name(self) -> &'static str
        ensures { result.now ≡ layer_name self }
    {
        match self {
            Layer::Input => "input",
            Layer::Plan => "plan",
            Layer::Packet => "packet",
            Layer::Receiver => "receiver",
            Layer::Sheet => "sheet",
            Layer::Job => "job",
        }
    }
}

impl fmt::Display for Layer {
    ghost output = { λ layer. Some (layer_name layer) };

    fn fmt<W: fmt::Write>(&self, f: &mut fmt::Formatter<W>) -> fmt::Result {
        f.write_str(self.name())
    }
}

// Layer, number and place, parted by spaces.
impl fmt::Display for Fault {
    ghost output = { λ fault. Some (fault_text fault) };

    fn fmt<W: fmt::Write>(&self, f: &mut fmt::Formatter<W>) -> fmt::Result {
        write!(f, "{} {} {}", self.layer, self.number, self.place)
    }
}
