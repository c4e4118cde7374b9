// A solved bundle.
ghost use Rattle.std.specs.Prelude.{◌≡◌};
ghost use Rattle.tb_bundle_text.specs.Canonical.{bundle_text};
ghost use Rattle.tb_solving.specs.Solved.{are_done};

use std::marker::Model;
use tb_bundle::{Bundle, CaseProof, Verdict};
use tb_bundle_text::put_bundle;
use tb_detail::{Detail, Items};
use tb_outside::{OutputBuffer, Sink, Text};

/// A certified bundle that a detail was solved to. Contracts see the bundle.
#[derive(Debug, Drop)]
pub struct SolvedBundle {
    bundle: Bundle,
}

impl Model for SolvedBundle {
    ghost use Rattle.tb_bundle.specs.declared.bundle.Bundle.{Bundle};
    ghost use Rattle.tb_checker.specs.Contents.{AreCertified};

    ghost Value = { Bundle };

    ghost view = { λ solved. solved.bundle };

    ghost invariant = { λ solved. AreCertified solved.bundle };
}

// Whether all cases ended as was wanted.
fn all_done(cases: &[CaseProof]) -> bool
    ensures { result ≡ are_done cases.now }
{
    cases.iter().all(|case| case.verdict == Verdict::Done)
}

impl SolvedBundle {
    ghost use Rattle.tb_checker.specs.Contents.{AreCertified};

    /// The bundle of a detail and its solved cases.
    pub fn new(detail: Detail, cases: Vec<CaseProof>) -> SolvedBundle
        requires { AreCertified (record { detail = detail; cases = cases.items }) }
        ensures { result ≡ record { detail = detail; cases = cases.items } }
    {
        SolvedBundle {
            bundle: Bundle {
                detail,
                cases: Items { items: cases },
            },
        }
    }

    /// The bundle.
    pub fn bundle(&self) -> &Bundle
        ensures bundle { result.now ≡ self.now }
        ensures certified { AreCertified self.now }
    {
        &self.bundle
    }

    /// Whether the interval of each case is as narrow as was wanted.
    pub fn is_done(&self) -> bool
        ensures { result ≡ are_done self.now.cases }
    {
        all_done(self.bundle().cases.items())
    }
}

/// The text of the bundle, which takes no memory.
impl Text for SolvedBundle {
    ghost text = { bundle_text };

    fn put<K: Sink>(&self, buffer: &mut OutputBuffer, sink: &mut K) {
        put_bundle(buffer, sink, self.bundle());
    }
}
