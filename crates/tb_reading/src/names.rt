// Names in the order in which they were declared, kind by kind.
ghost use Rattle.std.specs.Prelude.{◌≡◌, ◌+◌, ◌<◌, ◌≤◌, ◌++◌, ◌∷◌, [], None, OnOk, OnErr, IfSome, length};
ghost use Rattle.tb_reading.specs.Names.{name_count, place_of};
ghost use Rattle.tb_reading.specs.NameLists.{names_in, no_names, with_name};

use crate::kinds::NameKind;
use indexmap::IndexSet;
use std::alloc::Global;
use std::marker::Model;
use tb_records::NoMemory;

/// Names, each once, at most 256. Contracts see their list.
#[derive(Drop)]
pub struct NameList {
    set: IndexSet<Vec<u8>>,
    alloc: Global,
}

impl Model for NameList {
    ghost use Rattle.std.specs.Prelude.{List, ℕ, ◌≤◌, map, length};

    ghost Value = { List (List ℕ) };

    ghost view = { λ n. map (λ v. v.items) n.set.keys };

    ghost invariant = { λ n. length n.set.keys ≤ 256 };
}

impl NameList {
    pub fn new(alloc: Global) -> NameList
        ensures { result ≡ [] }
    {
        NameList {
            set: IndexSet::new(alloc),
            alloc,
        }
    }

    pub fn len(&self) -> usize
        ensures len { result ≡ length self.now }
        ensures few { result ≤ 256 }
    {
        self.set.len()
    }

    /// The place of a name, counted from 0.
    pub fn place(&self, name: &[u8]) -> Option<u8>
        ensures { result ≡ place_of self.now name.now }
    {
        match self.set.get_index_of(name) {
            Some(place) => Some(place as u8),
            None => None,
        }
    }

    /// Adds a name that is not there.
    pub fn add(&mut self, name: &[u8]) -> Result<(), NoMemory>
        requires new { place_of self.old name.now ≡ None }
        requires room { length self.old < 256 }
        ensures added { OnOk result (self.new ≡ self.old ++ name.now ∷ []) }
        ensures kept { OnErr result (self.new ≡ self.old) }
    {
        let Ok(copy) = name.to_vec(self.alloc) else {
            return Err(NoMemory);
        };
        let Ok(_) = self.set.insert(copy) else {
            return Err(NoMemory);
        };
        Ok(())
    }
}

/// The names of each kind.
#[derive(Drop)]
pub struct Names {
    pub environments: NameList,
    pub materials: NameList,
    pub parts: NameList,
    pub psis: NameList,
    pub chis: NameList,
}

impl Names {
    pub fn new(alloc: Global) -> Names
        ensures { result ≡ no_names }
    {
        Names {
            environments: NameList::new(alloc),
            materials: NameList::new(alloc),
            parts: NameList::new(alloc),
            psis: NameList::new(alloc),
            chis: NameList::new(alloc),
        }
    }

    /// The place of a name among those of its kind, counted from 0.
    pub fn place(&self, kind: NameKind, name: &[u8]) -> Option<u8>
        ensures { result ≡ place_of (names_in self.now kind) name.now }
    {
        match kind {
            NameKind::Environment => self.environments.place(name),
            NameKind::Material => self.materials.place(name),
            NameKind::Part => self.parts.place(name),
            NameKind::Psi => self.psis.place(name),
            NameKind::Chi => self.chis.place(name),
        }
    }

    /// The number of names over all kinds.
    pub fn count(&self) -> usize
        ensures { result ≡ name_count (names_in self.now) }
    {
        self.environments.len()
            + self.materials.len()
            + self.parts.len()
            + self.psis.len()
            + self.chis.len()
    }

    /// Adds a name that is not there in its kind.
    pub fn add(&mut self, kind: NameKind, name: &[u8]) -> Result<(), NoMemory>
        requires new { place_of (names_in self.old kind) name.now ≡ None }
        requires room { length (names_in self.old kind) < 256 }
        ensures { OnOk result (self.new ≡ with_name kind name.now self.old) }
    {
        match kind {
            NameKind::Environment => self.environments.add(name),
            NameKind::Material => self.materials.add(name),
            NameKind::Part => self.parts.add(name),
            NameKind::Psi => self.psis.add(name),
            NameKind::Chi => self.chis.add(name),
        }
    }
}
