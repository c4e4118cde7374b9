//! Cuts: a line more on one axis of a mesh, and what it leaves as it was.
//!
//! There is no program here: each function is a law, whose contract is the fact. One more line cuts the cells of one
//! interval in two. A temperature field takes the linear value on the new plane; a flux takes the linear value on the
//! new faces, and each face along the cut is divided in the ratio of the two widths. Energy, bound and balance are kept.
//! So fields and fluxes on two refinements of a body both stand on the refinement that has all lines of both.
#![tactic(auto)]

ghost use Rattle.std.specs.Prelude.{◌≡◌, ◌-◌, ◌*◌, ◌<◌, ◌≤◌, ℕ, suc, length, pos, Any};
ghost use Rattle.tb_math.specs.Rational.{ℚ, ratio, ◌+ℚ◌, ◌*ℚ◌, ◌<ℚ◌};
ghost use Rattle.tb_places.specs.declared.AxisName.{AxisName};
ghost use Rattle.tb_places.specs.declared.AxisName.TheVariants.{X, Y};
ghost use Rattle.tb_model.specs.Cuts.{IsRatio, rest, between, cut, cut_field, cut_flux};
ghost use Rattle.tb_model.specs.Energy.{Case, Field, Flux, IsBalanced, energy, bound, spread, passage, cell_energy, surface_energy, cell_loss, surface_loss};
ghost use Rattle.tb_places.specs.Lines.{with_line};
ghost use Rattle.tb_model.specs.Merges.{relined, rescaled, merged, Carries};
ghost use Rattle.tb_model.specs.Mesh.{Mesh};
ghost use Rattle.tb_model.specs.Refinement.{Scene, Refinement, Refines, high, line, low, mesh};
ghost use Rattle.tb_cuts.specs.Corner.{corner, warm_beside, corner_field, corner_flux, half, quarter, halved_flux};

/// The terms of the two parts of a cell, and of a surface face, add up to that of the whole. Along the axis of the cut the
/// differences of a field are shared out, and the flows of a flux take the linear value. Across it the section is shared
/// out: a field's corner values take the linear value, along the first width of the section or along the second, and the
/// flows of a flux are shared out.
pub fn terms_add_up_at_a_cut()
    ensures cell_energy_along { (s c w A d00 d10 d01 d11 : ℚ) → IsRatio s →
        cell_energy c (s *ℚ w) A (spread (s *ℚ d00) (s *ℚ d10) (s *ℚ d01) (s *ℚ d11))
        +ℚ cell_energy c (rest s *ℚ w) A (spread (rest s *ℚ d00) (rest s *ℚ d10) (rest s *ℚ d01) (rest s *ℚ d11))
        ≡ cell_energy c w A (spread d00 d10 d01 d11) }
    ensures cell_energy_across_first { (s c w A d00 d10 d01 d11 : ℚ) →
        cell_energy c w (s *ℚ A) (spread d00 (between s d00 d10) d01 (between s d01 d11))
        +ℚ cell_energy c w (rest s *ℚ A) (spread (between s d00 d10) d10 (between s d01 d11) d11)
        ≡ cell_energy c w A (spread d00 d10 d01 d11) }
    ensures cell_energy_across_second { (s c w A d00 d10 d01 d11 : ℚ) →
        cell_energy c w (s *ℚ A) (spread d00 d10 (between s d00 d01) (between s d10 d11))
        +ℚ cell_energy c w (rest s *ℚ A) (spread (between s d00 d01) (between s d10 d11) d01 d11)
        ≡ cell_energy c w A (spread d00 d10 d01 d11) }
    ensures surface_energy_first { (s : ℚ) (rs : ℕ) (A d00 d10 d01 d11 : ℚ) →
        surface_energy rs (s *ℚ A) (spread d00 (between s d00 d10) d01 (between s d01 d11))
        +ℚ surface_energy rs (rest s *ℚ A) (spread (between s d00 d10) d10 (between s d01 d11) d11)
        ≡ surface_energy rs A (spread d00 d10 d01 d11) }
    ensures surface_energy_second { (s : ℚ) (rs : ℕ) (A d00 d10 d01 d11 : ℚ) →
        surface_energy rs (s *ℚ A) (spread d00 d10 (between s d00 d01) (between s d10 d11))
        +ℚ surface_energy rs (rest s *ℚ A) (spread (between s d00 d01) (between s d10 d11) d01 d11)
        ≡ surface_energy rs A (spread d00 d10 d01 d11) }
    ensures cell_loss_along { (s c w A low high : ℚ) →
        cell_loss c (s *ℚ w) A (passage low (between s low high)) +ℚ cell_loss c (rest s *ℚ w) A (passage (between s low high) high)
        ≡ cell_loss c w A (passage low high) }
    ensures cell_loss_across { (s c w A low high : ℚ) → IsRatio s →
        cell_loss c w (s *ℚ A) (passage (s *ℚ low) (s *ℚ high)) +ℚ cell_loss c w (rest s *ℚ A) (passage (rest s *ℚ low) (rest s *ℚ high))
        ≡ cell_loss c w A (passage low high) }
    ensures surface_loss_across { (s : ℚ) (rs : ℕ) (A flow : ℚ) → IsRatio s →
        surface_loss rs (s *ℚ A) (s *ℚ flow) +ℚ surface_loss rs (rest s *ℚ A) (rest s *ℚ flow) ≡ surface_loss rs A flow }
{}

/// A cut keeps the energy of each temperature field, the bound of each flux, and balance.
pub fn cuts_keep_what_they_cut()
    ensures energy { (a : AxisName) (p : ℕ) (s : ℚ) (m : Mesh) (inside : Case) (T : Field) → p < m.cells a → IsRatio s →
        energy (cut a p s m) inside (cut_field a p s T) ≡ energy m inside T }
    ensures bound { (a : AxisName) (p : ℕ) (s : ℚ) (m : Mesh) (inside : Case) (q : Flux) → p < m.cells a → IsRatio s →
        bound (cut a p s m) inside (cut_flux a p s q) ≡ bound m inside q }
    ensures balance { (a : AxisName) (p : ℕ) (s : ℚ) (m : Mesh) (q : Flux) → p < m.cells a → IsBalanced m q →
        IsBalanced (cut a p s m) (cut_flux a p s q) }
{}

/// What is divided at another ratio than the widths goes wrong. Of a corner that is cut at a quarter, a balanced flux whose
/// faces along the cut are divided into equal halves loses its balance, and a field that takes the middle value on the new
/// plane gains energy.
pub fn uneven_cuts_need_their_ratio()
    ensures balanced { IsBalanced corner corner_flux }
    ensures halves_lose_balance { ¬ IsBalanced (cut Y 0 quarter corner) (halved_flux Y 0 quarter corner_flux) }
    ensures middle_value_gains_energy { energy corner warm_beside corner_field
        <ℚ energy (cut X 0 quarter corner) warm_beside (cut_field X 0 half corner_field) }
{}

/// The mesh of a refinement with one line more, between the lines p and p + 1 of an axis, is the cut of its mesh at the
/// interval p, in the ratio in which the line divides it.
pub fn more_lines_cut_the_mesh()
    ensures { (s : Scene) (r : Refinement) (a : AxisName) (p q : ℕ) →
        Refines s r → suc p < length (r.lines a) → line r a p < q → q < line r a (suc p) →
        mesh s (relined a (with_line q (r.lines a)) r)
        ≡ cut a p (ratio (pos (q - line r a p)) (line r a (suc p) - line r a p)) (mesh s r) }
{}

/// Where the scale and all lines are multiplied by one number, the mesh is the same.
pub fn rescaling_keeps_the_mesh()
    ensures refines { (s : Scene) (r : Refinement) (k : ℕ) → 0 < k → Refines s r → Refines s (rescaled k r) }
    ensures mesh { (s : Scene) (r : Refinement) (k : ℕ) → 0 < k → mesh s (rescaled k r) ≡ mesh s r }
{}

/// A refinement with one line more on an axis, between the least and the greatest coordinate of the boxes, is a
/// refinement.
pub fn lines_refine()
    ensures { (s : Scene) (r : Refinement) (a : AxisName) (q : ℕ) → Refines s r
        → Any (λ b. r.scale * low a b ≤ q) s.boxes → Any (λ b. q ≤ r.scale * high a b) s.boxes
        → Refines s (relined a (with_line q (r.lines a)) r) }
{}

/// The refinement with all lines of two is a refinement, and the same either way round. So the fields and fluxes of
/// both stand on it, with their energies and bounds.
pub fn merges_refine()
    ensures refines { (s : Scene) (r r' : Refinement) → Refines s r → Refines s r' → Refines s (merged r r') }
    ensures turned { (s : Scene) (r r' : Refinement) → Refines s r → Refines s r' → merged r' r ≡ merged r r' }
    ensures carries { (s : Scene) (r r' : Refinement) → Refines s r → Refines s r' → Carries (mesh s r) (mesh s (merged r r')) }
{}
