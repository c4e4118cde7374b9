//! What the intervals of sets of environments promise.
ghost use Rattle.std.specs.Prelude.{ℕ, ◌<◌, ◌≤◌, ◌^◌, List, length};
ghost use Rattle.tb_detail.specs.declared.Detail.{Detail};
ghost use Rattle.tb_detail.specs.Limits.{InLimits};
ghost use Rattle.tb_model.specs.Refinement.{scene_of};
ghost use Rattle.tb_model.specs.Soundness.{IsSound};
ghost use Rattle.tb_model.specs.Values.{case_of};
ghost use Rattle.tb_terms.specs.declared.Interval.{Interval};
ghost use Rattle.tb_conduct.specs.Coupling.{AreSound};
ghost use Rattle.tb_conduct.specs.Pairs.{interval_of};

/// Where the interval of each case of a detail is sound, so is the interval of each set of its environments, of no
/// environment and of all of them too.
pub fn sets_have_sound_intervals()
    ensures { (d : Detail) (intervals : List Interval) (set : ℕ) → InLimits d → 2 ≤ length d.environments → length d.environments ≤ 4
        → AreSound d intervals → set < 2 ^ length d.environments →
        let interval = interval_of (length d.environments) intervals set in
        IsSound (scene_of d) (case_of set) interval.lo interval.hi }
{}
