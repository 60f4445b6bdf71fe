//! Cached translations, and what the end of a run tells of a core.

ghost use Rattle.std.specs.Prelude.{◌≡◌, ◌<◌, ◌≤◌, [], ◌∷◌, ◌++◌, length, slice_get, MatchBool};

use crate::kinds::PageFlags;
use crate::numbers::{FrameNo, PageNo};
use std::marker::Model;

/// A mapping as a core has cached it.
#[derive(Clone, Copy, PartialEq, Eq, Debug)]
pub struct Translation {
    /// The root of the page table.
    pub pages: FrameNo,
    /// The page.
    pub page: PageNo,
    /// The frame mapped there.
    pub frame: FrameNo,
    /// How it may be used.
    pub flags: PageFlags,
}

/// Up to 64 translations, the earliest cached first; contracts see their list.
#[derive(Clone, Copy, PartialEq, Eq, Debug)]
pub struct Translations {
    cells: [Translation; 64],
    len: u8,
}

impl Model for Translations {
    ghost use Rattle.std.specs.Prelude.{List};
    ghost use Rattle.spk_nums.specs.declared.translations.Translation.{Translation};

    ghost Value = { List Translation };

    ghost use Rattle.spk_nums.specs.Translations.{translations_of, AreTranslations, translation_cells, translation_cells-back};

    ghost view = { translations_of };

    ghost invariant = { AreTranslations };

    ghost inverse = { translation_cells };

    ghost inverse_ok = { translation_cells-back };
}

/// A cell that holds no translation.
fn blank() -> Translation
    ensures { result ≡ record { pages = 0; page = 0; frame = 0; flags = record { 0 = 0 } } }
{
    Translation {
        pages: FrameNo::new(0),
        page: PageNo::new(0),
        frame: FrameNo::new(0),
        flags: PageFlags::none(),
    }
}

impl Translations {
    /// No translation.
    pub fn empty() -> Translations
        ensures { result ≡ [] }
    {
        Translations {
            cells: [blank(); 64],
            len: 0,
        }
    }

    /// The number of translations, at most 64.
    pub fn len(&self) -> usize
        ensures length { result ≡ length self.now }
        ensures most { length self.now ≤ 64 }
    {
        usize::from(self.len)
    }

    /// The translation `at`, from 0; None exactly past the last.
    pub fn get(&self, at: usize) -> Option<Translation>
        ensures { result ≡ slice_get self.now at }
    {
        if at < usize::from(self.len) {
            Some(self.cells[at])
        } else {
            None
        }
    }

    /// Appends a translation. Answers false and changes nothing exactly where there are 64 already.
    pub fn add(&mut self, item: Translation) -> bool
        ensures { MatchBool result ((length self.old < 64) × (self.new ≡ self.old ++ item ∷ []))
            ((length self.old ≡ 64) × (self.new ≡ self.old)) }
    {
        if self.len == 64 {
            return false;
        }
        self.cells[usize::from(self.len)] = item;
        self.len += 1;
        true
    }
}

/// What the end of a run tells of a core.
#[derive(Clone, Copy, PartialEq, Eq, Debug)]
pub struct CoreEnd {
    /// Its current thread.
    pub thread: FrameNo,
    /// Its current temporal capability.
    pub tcap: FrameNo,
    /// The component in which it works.
    pub comp: FrameNo,
    /// The ticks charged on it.
    pub spent: u64,
    /// The ticks of these that it has had back.
    pub back: u64,
    /// The ticks that it still owes.
    pub owed: u64,
    /// The translations that it has cached.
    pub cached: Translations,
}
