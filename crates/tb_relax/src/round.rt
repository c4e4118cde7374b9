// Moves round an edge.
ghost use Rattle.std.specs.Prelude.{◌≡◌, ◌≢◌, ◌↔◌, ℕ, ◌-◌, ◌*◌, ◌^◌, ◌≤◌, IsFalse, IsTrue, length, ℤ, neg_ℤ, ◌+ℤ◌, unsigned_abs};
ghost use Rattle.tb_places.specs.declared.AxisName.{AxisName};
ghost use Rattle.tb_places.specs.Places.{face_count};
ghost use Rattle.tb_weighted.specs.FlowMoves.{IsFlowMove, loop_where, put_where};
ghost use Rattle.tb_weighted.specs.Limits.{IsFlux};
ghost use Rattle.tb_weighted.specs.Moves.{IsInnerEdge, round_edge};
ghost use Rattle.tb_relax.specs.Rounds.{ArePartsOf, AreRound, counts_at, number_of, round_change, round_flows};
ghost use Rattle.tb_relax.specs.Settled.{FlowMoves, FlowStays, loop_on};
ghost use Rattle.tb_relax.specs.Sites.{IsSite};
ghost use Rattle.tb_relax.specs.Tables.{IsTable, flux_forms, table_counts};

use crate::joining::multiple;
use crate::part::{Part, Parts};
use crate::site::{Round, Site};
use crate::table::Table;
use tb_grid::{AxisName, Place};

impl Table<'_> {
    // The parts that a change round an edge has at its four faces.
    #[inline(always)]
    fn parts(&self, flows: &[i64], round: Round) -> Parts
        requires table { IsTable self.now }
        requires flux { IsFlux (table_counts self.now) flows.now }
        requires round { AreRound (table_counts self.now) round }
        ensures { ArePartsOf self.now flows.now round result }
    {
        Parts {
            first: self.with(flows, round.first),
            first_back: self.against(flows, round.first_back),
            second: self.with(flows, round.second),
            second_back: self.against(flows, round.second_back),
        }
    }

    // Adds to the flow of a face that counts.
    #[inline(always)]
    fn put(&self, flows: &mut [i64], at: Site, part: Part, by: i64)
        requires size { length flows.old ≡ face_count (table_counts self.now) }
        requires site { IsSite (table_counts self.now) at }
        requires here { unsigned_abs part.here ≤ 10 ^ 12 }
        requires by { unsigned_abs by ≤ 4 * 10 ^ 12 }
        ensures { flows.new ≡ put_where part.counts flows.old (number_of (table_counts self.now) at) (part.here +ℤ by) }
    {
        if part.counts {
            flows[self.face_number(at.axis, at.i, at.j, at.k)] = part.here + by;
        }
    }

    // Adds a multiple of a change to the four faces.
    #[inline(always)]
    fn put_all(&self, flows: &mut [i64], round: Round, parts: Parts, by: i64)
        requires size { length flows.old ≡ face_count (table_counts self.now) }
        requires round { AreRound (table_counts self.now) round }
        requires first { unsigned_abs parts.first.here ≤ 10 ^ 12 }
        requires first_back { unsigned_abs parts.first_back.here ≤ 10 ^ 12 }
        requires second { unsigned_abs parts.second.here ≤ 10 ^ 12 }
        requires second_back { unsigned_abs parts.second_back.here ≤ 10 ^ 12 }
        requires by { unsigned_abs by ≤ 4 * 10 ^ 12 }
        ensures { flows.new ≡ put_where parts.second_back.counts (put_where parts.second.counts (put_where parts.first_back.counts (put_where parts.first.counts flows.old
            (number_of (table_counts self.now) round.first) (parts.first.here +ℤ by))
            (number_of (table_counts self.now) round.first_back) (parts.first_back.here +ℤ neg_ℤ by))
            (number_of (table_counts self.now) round.second) (parts.second.here +ℤ by))
            (number_of (table_counts self.now) round.second_back) (parts.second_back.here +ℤ neg_ℤ by) }
    {
        self.put(flows, round.first, parts.first, by);
        self.put(flows, round.first_back, parts.first_back, -by);
        self.put(flows, round.second, parts.second, by);
        self.put(flows, round.second_back, parts.second_back, -by);
    }

    // Adds the multiple of what goes round that is least, the nearest to 0, and says whether the flux changed.
    fn relax_round(&self, flows: &mut [i64], round: Round) -> bool
        requires table { IsTable self.now }
        requires flux { IsFlux (table_counts self.now) flows.old }
        requires round { AreRound (table_counts self.now) round }
        ensures moved { IsFlowMove (flux_forms self.now) (round_change self.now round) flows.old flows.new }
        ensures told { IsTrue result ↔ (flows.new ≢ flows.old) }
        ensures kept { IsFlux (table_counts self.now) flows.new }
    {
        let parts = self.parts(flows, round);
        let step = multiple(parts);
        if step == 0 {
            return false;
        }
        self.put_all(flows, round, parts, step);
        true
    }

    // The four faces round an edge.
    #[inline(always)]
    fn faces_round(&self, axis: AxisName, edge: Place) -> Round
        requires edge { IsInnerEdge (table_counts self.now) axis edge }
        ensures round { AreRound (table_counts self.now) result }
        ensures flows { (a : AxisName) (i j k : ℕ) → round_flows result a i j k ≡ round_edge axis edge a i j k }
    {
        let Place { i, j, k } = edge;
        match axis {
            AxisName::X => Round {
                first: Site::across(AxisName::Y, j, i, k - 1),
                first_back: Site::across(AxisName::Y, j, i, k),
                second: Site::across(AxisName::Z, k, i, j),
                second_back: Site::across(AxisName::Z, k, i, j - 1),
            },
            AxisName::Y => Round {
                first: Site::across(AxisName::Z, k, i - 1, j),
                first_back: Site::across(AxisName::Z, k, i, j),
                second: Site::across(AxisName::X, i, j, k),
                second_back: Site::across(AxisName::X, i, j, k - 1),
            },
            AxisName::Z => Round {
                first: Site::across(AxisName::X, i, j - 1, k),
                first_back: Site::across(AxisName::X, i, j, k),
                second: Site::across(AxisName::Y, j, i, k),
                second_back: Site::across(AxisName::Y, j, i - 1, k),
            },
        }
    }

    /// Adds the multiple of the loop of an edge inside the hull that makes the flux's energy least, within the limits and
    /// the nearest to 0, and says whether the flux changed.
    #[inline(always)]
    pub fn relax_loop(&self, flows: &mut [i64], axis: AxisName, edge: Place) -> bool
        requires table { IsTable self.now }
        requires flux { IsFlux (table_counts self.now) flows.old }
        requires edge { IsInnerEdge (table_counts self.now) axis edge }
        ensures moved { IsFlowMove (flux_forms self.now) (loop_where (counts_at self.now) axis edge) flows.old flows.new }
        ensures told { IsTrue result ↔ (flows.new ≢ flows.old) }
        ensures kept { IsFlux (table_counts self.now) flows.new }
    {
        self.relax_round(flows, self.faces_round(axis, edge))
    }

    // Whether what goes round changes the flux.
    fn round_moves(&self, flows: &[i64], round: Round) -> bool
        requires table { IsTable self.now }
        requires flux { IsFlux (table_counts self.now) flows.now }
        requires round { AreRound (table_counts self.now) round }
        ensures moves { IsTrue result → FlowMoves self.now flows.now (round_change self.now round) }
        ensures stays { IsFalse result → FlowStays self.now flows.now (round_change self.now round) }
    {
        let parts = self.parts(flows, round);
        let step = multiple(parts);
        step != 0
    }

    /// Whether the move of the loop of an edge inside the hull changes the flux. It writes nothing.
    pub fn loop_moves(&self, flows: &[i64], axis: AxisName, edge: Place) -> bool
        requires table { IsTable self.now }
        requires flux { IsFlux (table_counts self.now) flows.now }
        requires edge { IsInnerEdge (table_counts self.now) axis edge }
        ensures moves { IsTrue result → FlowMoves self.now flows.now (loop_on self.now axis edge) }
        ensures stays { IsFalse result → FlowStays self.now flows.now (loop_on self.now axis edge) }
    {
        self.round_moves(flows, self.faces_round(axis, edge))
    }
}
