ghost use Rattle.std.specs.Prelude.{◌≡◌, ◌==◌, ◌&&◌, Some, Decides, nat_eq};
ghost use Rattle.sspi.specs.Kinds.{kind_number};
ghost use Rattle.sspi.specs.Layers.{layer_name, layer_number};
ghost use Rattle.std.specs.Cmp.Rules.{comparing};
ghost use Rattle.std.specs.Ordering.{on, eq_of_both};
ghost use Rattle.std.proofs.Common.{rules};

use crate::error_kind::ErrorKind;
use std::fmt;

// Which layer refused: the token reader and writer, the negotiation, or a mechanism.
#[derive(Clone, Copy, PartialEq, Debug)]
pub enum Layer {
    Token,
    Negotiation,
    Mechanism,
}

impl Layer {
    // The layer's name, which needs no writer.
    pub fn name(self) -> &'static str
        ensures { result.now ≡ layer_name self }
    {
        match self {
            Layer::Token => "token",
            Layer::Negotiation => "negotiation",
            Layer::Mechanism => "mechanism",
        }
    }

    // A refusal of this layer.
    pub fn fault(self, kind: ErrorKind) -> Fault
        ensures kind { result.kind ≡ kind }
        ensures layer { result.layer ≡ self }
    {
        Fault { kind, layer: self }
    }
}

impl fmt::Display for Layer {
    ghost output = { λ layer. Some (layer_name layer) };

    fn fmt<W: fmt::Write>(&self, f: &mut fmt::Formatter<W>) -> fmt::Result {
        f.write_str(self.name())
    }
}

// A refusal: what went wrong, and in which layer. It keeps both on its way up.
#[derive(Clone, Copy, Debug)]
pub struct Fault {
    pub kind: ErrorKind,
    pub layer: Layer,
}

// Equal where kind and layer are. By hand, as the equality of kinds is.
impl PartialEq for Fault {
    ghost eq = { eq_of_both (on (λ f. kind_number f.kind) nat_eq) (on (λ f. layer_number f.layer) nat_eq) };

    ghost laws = { Prim.search (comparing, rules) };

    fn eq(&self, other: &Fault) -> bool
        ensures numbers { result
            ≡ ((kind_number self.now.kind == kind_number other.now.kind)
            && (layer_number self.now.layer == layer_number other.now.layer)) }
        ensures same { Decides result (self.now ≡ other.now) }
    {
        self.kind == other.kind && self.layer == other.layer
    }
}
