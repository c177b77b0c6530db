ghost use Rattle.std.specs.Prelude.{◌≡◌, ◌==◌, ◌&&◌, Decides};
ghost use Rattle.sspi.specs.Kinds.{kind_number};
ghost use Rattle.sspi.specs.Layers.{layer_number};
ghost use Rattle.sspi.specs.declared.error_kind.ErrorKind.{ErrorKind};
ghost use Rattle.sspi.specs.declared.fault.Fault.{Fault};

// What `eq` of kinds and of faults answers tells whether they are the same: so `!=`, and `==` of what holds them, tell it too. A law, with no code.
pub fn equal_is_the_same()
    ensures kinds { (a b : ErrorKind) → Decides (kind_number a == kind_number b) (a ≡ b) }
    ensures faults { (a b : Fault)
        → Decides ((kind_number a.kind == kind_number b.kind) && (layer_number a.layer == layer_number b.layer)) (a ≡ b) }
{}
