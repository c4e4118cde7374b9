// The case of the other environments: the same heat flow, the other way round.
ghost use Rattle.std.specs.Prelude.{◌≡◌, ◌<◌, ◌-◌, ◌^◌, ℕ, length};
ghost use Rattle.tb_detail.specs.declared.Detail.{Detail};
ghost use Rattle.tb_detail.specs.Limits.{InLimits};
ghost use Rattle.tb_model.specs.Complements.{AreComplements, AreComplementsOn, turned_field, turned_flux};
ghost use Rattle.tb_model.specs.Energy.{Case, Field, Flux, IsBalanced, energy, bound};
ghost use Rattle.tb_model.specs.Mesh.{Mesh};
ghost use Rattle.tb_model.specs.Refinement.{Refinement, mesh, scene_of};
ghost use Rattle.tb_model.specs.Values.{case_of};

/// In the case of the other environments, the field that is left to 1 has the same energy. Of a balanced flux, the flux
/// the other way is balanced and has the same bound. Only the environments that the mesh has a surface to matter.
pub fn complements_agree()
    ensures energy { (m : Mesh) (inside others : Case) (T : Field) → AreComplementsOn m inside others →
        energy m others (turned_field T) ≡ energy m inside T }
    ensures balance { (m : Mesh) (q : Flux) → IsBalanced m q → IsBalanced m (turned_flux q) }
    ensures bound { (m : Mesh) (inside others : Case) (q : Flux) → AreComplementsOn m inside others → IsBalanced m q →
        bound m others (turned_flux q) ≡ bound m inside q }
{}

/// On each mesh of a detail within limits these are environments of the detail: two cases that share its environments
/// out between them are complements there, whatever they say of other numbers.
pub fn details_have_complements()
    ensures { (d : Detail) (r : Refinement) (inside others : Case) → InLimits d → AreComplements d inside others →
        AreComplementsOn (mesh (scene_of d) r) inside others }
{}

/// Of n environments, the mask 2ⁿ - 1 - m has just those that the mask m doesn't have.
pub fn masks_have_complements()
    ensures { (d : Detail) (mask : ℕ) → mask < 2 ^ length d.environments →
        AreComplements d (case_of mask) (case_of (2 ^ length d.environments - 1 - mask)) }
{}
