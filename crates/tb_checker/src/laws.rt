//! Laws of what was written of a bundle without a fault.
ghost use Rattle.std.specs.Prelude.{ℕ, take};
ghost use Rattle.tb_bundle.specs.declared.bundle.Bundle.{Bundle};
ghost use Rattle.tb_checker.specs.Contents.{AreCertified};
ghost use Rattle.tb_checker.specs.Lines.{HasCertifiedLines};
ghost use Rattle.tb_checker.specs.Texts.{accepted_text};

/// Wherever the writing of the accepted list ends, each line that then stands whole tells the certified interval of a case
/// of the bundle, or ends the list. So a line that was written keeps its promise, although a fault of the sink follows.
pub fn fronts_have_certified_lines()
    ensures { (b : Bundle) (n : ℕ) → AreCertified b → HasCertifiedLines b (take n (accepted_text b)) }
{}
