//! Heads of temporal capabilities.

ghost use Rattle.std.specs.Prelude.{◌≡◌, ◌<◌, ◌^◌};
ghost use Rattle.tcap_words.specs.Head.{word_of_head};
ghost use Rattle.stage_tcap.specs.Heads.{head, marked, raised, relisted, debited, credited, VersionFits};

use tcap_words::HeadWord;
use word_map::spk_nums::CoreNo;

// The head with this budget and version that no core has marked.
#[inline]
pub(crate) fn head(budget: u32, version: u32) -> HeadWord
    ensures { result ≡ head budget version }
{
    HeadWord {
        budget,
        mark: None,
        version,
    }
}

// The head with a core's mark.
#[inline]
pub(crate) fn marked(core: CoreNo, h: &HeadWord) -> HeadWord
    ensures { result ≡ marked core h.now }
{
    HeadWord {
        budget: h.budget,
        mark: Some(core),
        version: h.version,
    }
}

// The next version; it stays within its field.
#[inline]
fn raised(version: u32) -> u32
    requires { version < 2 ^ 28 }
    ensures value { result ≡ raised version }
    ensures range { result < 2 ^ 28 }
{
    if version + 1 < 1 << 28 {
        version + 1
    } else {
        (1 << 28) - 1
    }
}

// The head in the next version where its list is changed, and in its own where not.
#[inline]
pub(crate) fn relisted(changed: bool, h: &HeadWord) -> HeadWord
    requires { VersionFits h.now }
    ensures value { result ≡ relisted changed h.now }
    ensures range { VersionFits result }
{
    HeadWord {
        budget: h.budget,
        mark: h.mark,
        version: if changed {
            raised(h.version)
        } else {
            h.version
        },
    }
}

// The head with so many ticks less, none where it has fewer.
#[inline]
pub(crate) fn debited(h: &HeadWord, ticks: u32) -> HeadWord
    requires { VersionFits h.now }
    ensures value { result ≡ debited h.now ticks }
    ensures range { VersionFits result }
{
    HeadWord {
        budget: h.budget.saturating_sub(ticks),
        mark: None,
        version: h.version,
    }
}

// The head with so many ticks more, within its field.
#[inline]
pub(crate) fn credited(h: &HeadWord, ticks: u32) -> HeadWord
    requires { VersionFits h.now }
    ensures value { result ≡ credited h.now ticks }
    ensures range { VersionFits result }
{
    HeadWord {
        budget: h.budget.saturating_add(ticks),
        mark: None,
        version: h.version,
    }
}

// The head's word.
#[inline]
pub(crate) fn word_of(h: HeadWord) -> u64
    requires { VersionFits h }
    ensures { result ≡ word_of_head h }
{
    h.pack()
}
