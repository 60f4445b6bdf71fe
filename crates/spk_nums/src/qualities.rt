//! Lists of qualities: for each scheduler through which time came, how good it is there.

ghost use Rattle.std.specs.Prelude.{◌≡◌, ◌<◌, ◌≤◌, ◌^◌, [], ◌∷◌, ◌++◌, length, slice_get, if◌then◌else◌, nat_lt};
ghost use Rattle.spk_nums.specs.Merging.{covers};
ghost use Rattle.spk_nums.specs.Qualities.{IsQualityList, takes_pair};

use std::marker::Model;

/// Up to 8 pairs of a scheduler (0 to 63) and a quality (1 to 16,777,215), schedulers strictly ascending;
/// contracts see their list.
#[derive(Clone, Copy, PartialEq, Eq, Debug)]
pub struct Qualities {
    cells: [(u8, u32); 8],
    len: u8,
}

impl Model for Qualities {
    ghost use Rattle.std.specs.Prelude.{List, ℕ};

    ghost Value = { List (ℕ × ℕ) };

    ghost use Rattle.spk_nums.specs.Qualities.{qualities_of, AreQualities, quality_cells, quality_cells-back};

    ghost view = { qualities_of };

    ghost invariant = { AreQualities };

    ghost inverse = { quality_cells };

    ghost inverse_ok = { quality_cells-back };
}

impl Qualities {
    /// The list that names no scheduler.
    pub fn empty() -> Qualities
        ensures { result ≡ [] }
    {
        Qualities {
            cells: [(0, 0); 8],
            len: 0,
        }
    }

    /// The list of one pair: a scheduler below 64 and a quality from 1 to 16,777,215.
    pub fn one(sched: u8, quality: u32) -> Qualities
        requires sched { sched < 64 }
        requires least { 1 ≤ quality }
        requires most { quality < 2 ^ 24 }
        ensures { result ≡ (sched, quality) ∷ [] }
    {
        let mut cells = [(0, 0); 8];
        cells[0] = (sched, quality);
        Qualities { cells, len: 1 }
    }

    /// The number of pairs, at most 8; each pair is in range, and their schedulers ascend.
    pub fn len(&self) -> usize
        ensures length { result ≡ length self.now }
        ensures most { length self.now ≤ 8 }
        ensures sorted { IsQualityList self.now }
    {
        usize::from(self.len)
    }

    /// The pair `at`, from 0; None exactly past the last.
    pub fn get(&self, at: usize) -> Option<(u8, u32)>
        ensures { result ≡ slice_get self.now at }
    {
        if at < usize::from(self.len) {
            Some(self.cells[at])
        } else {
            None
        }
    }

    /// Whether the list names a pair's scheduler with a number that is no smaller: merging the pair into it then leaves it as it is.
    pub fn covers(&self, pair: (u8, u32)) -> bool
        ensures { result ≡ covers self.now pair }
    {
        let len = usize::from(self.len);
        self.cells[..len]
            .iter()
            .any(|x| x.0 == pair.0 && pair.1 <= x.1)
    }

    /// Appends a pair. Answers false and changes nothing exactly where there are 8 already, the scheduler is not
    /// above all others in the list, or one of the two numbers is out of range.
    pub fn add(&mut self, item: (u8, u32)) -> bool
        ensures taken { result ≡ takes_pair self.old item }
        ensures list { self.new ≡ (if takes_pair self.old item then self.old ++ item ∷ [] else self.old) }
    {
        if self.takes(item) {
            self.cells[usize::from(self.len)] = item;
            self.len += 1;
            true
        } else {
            false
        }
    }
}

impl Qualities {
    /// Whether a pair may be appended.
    fn takes(&self, item: (u8, u32)) -> bool
        ensures { result ≡ takes_pair self.now item }
    {
        self.len < 8 && item.0 < 64 && 1 <= item.1 && item.1 < 16_777_216 && self.is_below(item.0)
    }

    /// Whether all schedulers of the list are below `sched`.
    fn is_below(&self, sched: u8) -> bool
        ensures { result ≡ list_all (λ x. nat_lt x.0 sched) self.now }
    {
        let len = usize::from(self.len);
        self.cells[..len].iter().all(|x| x.0 < sched)
    }
}

ghost use Rattle.std.specs.List.{list_all};
