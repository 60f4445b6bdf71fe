//! What each core is given at the start.

ghost use Rattle.std.specs.Prelude.{◌≡◌, ◌<◌, ◌≤◌, [], ◌∷◌, ◌++◌, length, slice_get, MatchBool};

use std::marker::Model;

/// What one core is given: a temporal capability with a budget and one pair of scheduler and quality.
#[derive(Clone, Copy, PartialEq, Eq, Debug)]
pub struct Grant {
    /// Ticks, 0 to 500,000,000.
    pub budget: u32,
    /// The scheduler through which the time comes, 0 to 63.
    pub sched: u8,
    /// Its quality there, 1 to 16,777,215; a smaller number is better.
    pub quality: u32,
}

const BLANK: Grant = Grant {
    budget: 0,
    sched: 0,
    quality: 0,
};

/// Up to 8 grants, core 0's first; contracts see their list.
#[derive(Clone, Copy, PartialEq, Eq, Debug)]
pub struct Grants {
    cells: [Grant; 8],
    len: u8,
}

impl Model for Grants {
    ghost use Rattle.std.specs.Prelude.{List};
    ghost use Rattle.spk_nums.specs.declared.grants.Grant.{Grant};

    ghost Value = { List Grant };

    ghost use Rattle.spk_nums.specs.Grants.{grants_of, AreGrants, grant_cells, grant_cells-back};

    ghost view = { grants_of };

    ghost invariant = { AreGrants };

    ghost inverse = { grant_cells };

    ghost inverse_ok = { grant_cells-back };
}

impl Grants {
    /// No grants.
    pub fn empty() -> Grants
        ensures { result ≡ [] }
    {
        Grants {
            cells: [BLANK; 8],
            len: 0,
        }
    }

    /// The number of grants, at most 8.
    pub fn len(&self) -> usize
        ensures length { result ≡ length self.now }
        ensures most { length self.now ≤ 8 }
    {
        usize::from(self.len)
    }

    /// The grants, core 0's first.
    pub fn as_slice(&self) -> &[Grant]
        ensures { result.now ≡ self.now }
    {
        &self.cells[..usize::from(self.len)]
    }

    /// The grant of the core `at`; None exactly past the last.
    pub fn get(&self, at: usize) -> Option<Grant>
        ensures { result ≡ slice_get self.now at }
    {
        if at < usize::from(self.len) {
            Some(self.cells[at])
        } else {
            None
        }
    }

    /// Appends a grant. Answers false and changes nothing exactly where there are 8 already.
    pub fn add(&mut self, item: Grant) -> bool
        ensures { MatchBool result ((length self.old < 8) × (self.new ≡ self.old ++ item ∷ []))
            ((length self.old ≡ 8) × (self.new ≡ self.old)) }
    {
        if self.len == 8 {
            return false;
        }
        self.cells[usize::from(self.len)] = item;
        self.len += 1;
        true
    }
}
