// The parts that a loop has at its faces, and the multiple that makes their sum least.
ghost use Rattle.std.specs.Prelude.{◌≡◌, ◌-◌, ◌^◌, ◌≤◌, IsTrue, pos, negsuc, ◌+ℤ◌, ◌-ℤ◌, ◌≤ℤ◌, unsigned_abs, neg_ℤ};
ghost use Rattle.tb_weighted.specs.Limits.{IsFlux};
ghost use Rattle.tb_weighted.specs.FlowMoves.{counted};
ghost use Rattle.tb_relax.specs.Parts.{IsPart};
ghost use Rattle.tb_relax.specs.Sites.{IsSite};
ghost use Rattle.tb_relax.specs.Tables.{IsTable, face_counts_at, flow_on, rate_through, slope_through, table_counts};

use crate::part::Part;
use crate::pull::Pull;
use crate::reverse::reversed;
use crate::site::Site;
use crate::table::Table;

const MOST: i64 = 1_000_000_000_000;

const FAR: i64 = 4_000_000_000_000;

const NONE: Pull = Pull { rate: 0, slope: 0 };

impl Table<'_> {
    /// A face that a loop passes in the direction of its axis.
    #[inline(always)]
    pub fn with(&self, flows: &[i64], at: Site) -> Part
        requires table { IsTable self.now }
        requires flux { IsFlux (table_counts self.now) flows.now }
        requires site { IsSite (table_counts self.now) at }
        ensures part { IsPart result }
        ensures counts { result.counts ≡ face_counts_at self.now at.axis at.i at.j at.k }
        ensures here { result.here ≡ flow_on (table_counts self.now) flows.now at.axis at.i at.j at.k }
        ensures here_size { unsigned_abs result.here ≤ 10 ^ 12 }
        ensures rate { result.pull.rate ≡ counted result.counts (rate_through self.now at.axis at.i at.j at.k) }
        ensures slope { result.pull.slope ≡ counted result.counts (slope_through self.now flows.now at.axis at.i at.j at.k) }
        ensures low { IsTrue result.counts → result.low ≡ (negsuc (10 ^ 12 - 1) -ℤ result.here) }
        ensures high { IsTrue result.counts → result.high ≡ (pos (10 ^ 12) -ℤ result.here) }
    {
        let Site { axis, i, j, k } = at;
        let here = self.flow(flows, axis, i, j, k);
        let face = self.face(axis, i, j, k);
        if !face.counts {
            return Part {
                pull: NONE,
                low: -FAR,
                high: FAR,
                here,
                counts: false,
            };
        }
        let pull = self.face_pull(flows, axis, i, j, k);
        Part {
            pull,
            low: -MOST - here,
            high: MOST - here,
            here,
            counts: true,
        }
    }

    /// A face that it passes against the direction.
    #[inline(always)]
    pub fn against(&self, flows: &[i64], at: Site) -> Part
        requires table { IsTable self.now }
        requires flux { IsFlux (table_counts self.now) flows.now }
        requires site { IsSite (table_counts self.now) at }
        ensures part { IsPart result }
        ensures counts { result.counts ≡ face_counts_at self.now at.axis at.i at.j at.k }
        ensures here { result.here ≡ flow_on (table_counts self.now) flows.now at.axis at.i at.j at.k }
        ensures here_size { unsigned_abs result.here ≤ 10 ^ 12 }
        ensures rate { result.pull.rate ≡ counted result.counts (rate_through self.now at.axis at.i at.j at.k) }
        ensures slope { result.pull.slope ≡ neg_ℤ (counted result.counts (slope_through self.now flows.now at.axis at.i at.j at.k)) }
        ensures low { IsTrue result.counts → result.low ≡ (result.here -ℤ pos (10 ^ 12)) }
        ensures high { IsTrue result.counts → result.high ≡ (result.here +ℤ pos (10 ^ 12)) }
    {
        reversed(self.with(flows, at))
    }
}
