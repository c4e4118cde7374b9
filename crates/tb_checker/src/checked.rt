// A bundle without a fault.
use std::marker::Model;
use tb_bundle::Bundle;

/// A bundle without a fault. Contracts see the bundle.
#[derive(Debug, Drop)]
pub struct Checked {
    bundle: Bundle,
}

impl Model for Checked {
    ghost use Rattle.tb_bundle.specs.declared.bundle.Bundle.{Bundle};
    ghost use Rattle.tb_checker.specs.Contents.{AreCertified};

    ghost Value = { Bundle };

    ghost view = { λ checked. checked.bundle };

    ghost invariant = { λ checked. AreCertified checked.bundle };
}

impl Checked {
    ghost use Rattle.std.specs.Prelude.{◌≡◌};
    ghost use Rattle.tb_checker.specs.Contents.{AreCertified};

    // A bundle without a fault.
    pub(crate) fn new(bundle: Bundle) -> Checked
        requires { AreCertified bundle }
        ensures { result ≡ bundle }
    {
        Checked { bundle }
    }

    /// The bundle.
    pub fn bundle(&self) -> &Bundle
        ensures bundle { result.now ≡ self.now }
        ensures certified { AreCertified self.now }
    {
        &self.bundle
    }
}
