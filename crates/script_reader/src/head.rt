//! The lines before the order of steps, and where each may stand.

ghost use Rattle.std.specs.Prelude.{◌≡◌, ◌<◌, length, true, slice_get, IfOk};
ghost use Rattle.std.specs.Option.{option_and_then};
ghost use Rattle.line_reader.specs.Arguments.{texts};
ghost use Rattle.call_reader.specs.FirstWords.{first_word};
ghost use Rattle.script_reader.specs.declared.head.Section.TheVariants as section;
ghost use Rattle.script_reader.specs.Heads.{may_stand, speck_line, cores_line, frames_line, grant_line, calls_line, epochs_line};
ghost use Rattle.script_reader.specs.Heads.{core_line, order_line, line_by, line_of, no_head, is_whole, granted, IsHead, IsLine};

use call_reader::{
    FirstWord, byte_at, call_line, core_at, first_word, half_at, most_calls, whole_at,
};
use line_reader::{Cause, end_at, number_at};
use script_tokens::Token;
use spk_nums::{Call, CoreNo, Grant, Grants};

/// What may stand next.
#[derive(Clone, Copy, Debug, PartialEq, Eq)]
pub enum Section {
    /// The `speck` line.
    Version,
    /// The `cores` line.
    Cores,
    /// The `frames` line.
    Frames,
    /// A `grant` line.
    Grants,
    /// A `calls` line, or what stands after it.
    Calls,
    /// An `epochs` line, or what stands after it.
    Epochs,
    /// A `core` line or the `order` line.
    Lists,
    /// A call, a `core` line or the `order` line.
    List,
    /// Order items alone.
    Order,
}

/// What the lines so far say of the setup, and what may stand next.
#[derive(Clone, Copy, Debug)]
pub struct Head {
    pub section: Section,
    /// The script's version, 1 to 3.
    pub version: u8,
    pub cores: u8,
    pub frames: u16,
    pub grants: Grants,
    pub calls: u64,
    pub epochs: u16,
    /// The core that was named last.
    pub core: CoreNo,
}

/// What a line says.
#[derive(Clone, Copy, Debug)]
pub enum Line {
    /// The head goes on as this.
    Head(Head),
    /// The core named last makes this call.
    Call(Call),
}

/// The head before the first line, with the limits that hold where no line gives others.
pub fn no_head() -> Head
    ensures value { result ≡ no_head }
    ensures head { IsHead result }
{
    Head {
        section: Section::Version,
        version: 1,
        cores: 1,
        frames: 6,
        grants: Grants::empty(),
        calls: 4_194_304,
        epochs: 65_535,
        core: CoreNo::new(0),
    }
}

/// The last grant was read.
pub fn is_whole(section: Section) -> bool
    ensures { result ≡ is_whole section }
{
    match section {
        Section::Version | Section::Cores | Section::Frames | Section::Grants => false,
        _ => true,
    }
}

fn may_stand(section: Section, first: FirstWord) -> bool
    ensures { result ≡ may_stand section first }
{
    match section {
        Section::Version => matches!(first, FirstWord::Speck),
        Section::Cores => matches!(first, FirstWord::Cores),
        Section::Frames => matches!(first, FirstWord::Frames),
        Section::Grants => matches!(first, FirstWord::Grant),
        Section::Calls => matches!(
            first,
            FirstWord::Calls | FirstWord::Epochs | FirstWord::Core | FirstWord::Order
        ),
        Section::Epochs => matches!(
            first,
            FirstWord::Epochs | FirstWord::Core | FirstWord::Order
        ),
        Section::Lists => matches!(first, FirstWord::Core | FirstWord::Order),
        Section::List => matches!(
            first,
            FirstWord::Core | FirstWord::Order | FirstWord::Call(_)
        ),
        Section::Order => false,
    }
}

#[tactic(auto, unfolding(crate::specs::Heads::speck_line))]
fn speck_line(head: &Head, words: &[Token]) -> Result<Head, Cause>
    requires head { IsHead head.now }
    requires section { head.now.section ≡ section.Version }
    ensures value { result ≡ speck_line head.now (texts words.now) }
    ensures head { IfOk result IsHead }
{
    let version = byte_at(words, 1, 1, 3)?;
    end_at(words, 2)?;
    Ok(Head {
        section: Section::Cores,
        version,
        calls: most_calls(version),
        ..*head
    })
}

#[tactic(auto, unfolding(crate::specs::Heads::cores_line))]
fn cores_line(head: &Head, words: &[Token]) -> Result<Head, Cause>
    requires head { IsHead head.now }
    requires section { head.now.section ≡ section.Cores }
    ensures value { result ≡ cores_line head.now (texts words.now) }
    ensures head { IfOk result IsHead }
{
    let cores = byte_at(words, 1, 1, 8)?;
    end_at(words, 2)?;
    Ok(Head {
        section: Section::Frames,
        cores,
        ..*head
    })
}

#[tactic(auto, unfolding(crate::specs::Heads::frames_line))]
fn frames_line(head: &Head, words: &[Token]) -> Result<Head, Cause>
    requires head { IsHead head.now }
    requires section { head.now.section ≡ section.Frames }
    ensures value { result ≡ frames_line head.now (texts words.now) }
    ensures head { IfOk result IsHead }
{
    let frames = half_at(words, 1, 4 + 2 * u16::from(head.cores), 512)?;
    end_at(words, 2)?;
    Ok(Head {
        section: Section::Grants,
        frames,
        ..*head
    })
}

// The head with the grant of the next core.
fn granted(head: &Head, grant: Grant) -> Head
    requires { length head.now.grants < 8 }
    ensures { result ≡ granted head.now grant }
{
    let mut grants = head.grants;
    grants.add(grant);
    let section = if grants.len() == usize::from(head.cores) {
        Section::Calls
    } else {
        Section::Grants
    };
    Head {
        section,
        grants,
        ..*head
    }
}

#[tactic(auto, unfolding(crate::specs::Heads::grant_line))]
fn grant_line(head: &Head, words: &[Token]) -> Result<Head, Cause>
    requires head { IsHead head.now }
    requires section { head.now.section ≡ section.Grants }
    ensures value { result ≡ grant_line head.now (texts words.now) }
    ensures head { IfOk result IsHead }
{
    let budget = whole_at(words, 1, 0, 500_000_000)?;
    let sched = byte_at(words, 2, 0, 63)?;
    let quality = whole_at(words, 3, 1, 16_777_215)?;
    end_at(words, 4)?;
    let grant = Grant {
        budget,
        sched,
        quality,
    };
    Ok(granted(head, grant))
}

#[tactic(auto, unfolding(crate::specs::Heads::calls_line))]
fn calls_line(head: &Head, words: &[Token]) -> Result<Head, Cause>
    requires head { IsHead head.now }
    requires whole { is_whole head.now.section ≡ true }
    ensures value { result ≡ calls_line head.now (texts words.now) }
    ensures head { IfOk result IsHead }
{
    let calls = number_at(words, 1, 0, most_calls(head.version))?;
    end_at(words, 2)?;
    Ok(Head {
        section: Section::Epochs,
        calls,
        ..*head
    })
}

#[tactic(auto, unfolding(crate::specs::Heads::epochs_line))]
fn epochs_line(head: &Head, words: &[Token]) -> Result<Head, Cause>
    requires head { IsHead head.now }
    requires whole { is_whole head.now.section ≡ true }
    ensures value { result ≡ epochs_line head.now (texts words.now) }
    ensures head { IfOk result IsHead }
{
    let epochs = half_at(words, 1, 1, 65_535)?;
    end_at(words, 2)?;
    Ok(Head {
        section: Section::Lists,
        epochs,
        ..*head
    })
}

#[tactic(auto, unfolding(crate::specs::Heads::core_line))]
fn core_line(head: &Head, words: &[Token]) -> Result<Head, Cause>
    requires head { IsHead head.now }
    requires whole { is_whole head.now.section ≡ true }
    ensures value { result ≡ core_line head.now (texts words.now) }
    ensures head { IfOk result IsHead }
{
    let core = core_at(words, 1, head.cores)?;
    end_at(words, 2)?;
    Ok(Head {
        section: Section::List,
        core,
        ..*head
    })
}

#[tactic(auto, unfolding(crate::specs::Heads::order_line))]
fn order_line(head: &Head, words: &[Token]) -> Result<Head, Cause>
    requires head { IsHead head.now }
    requires whole { is_whole head.now.section ≡ true }
    ensures value { result ≡ order_line head.now (texts words.now) }
    ensures head { IfOk result IsHead }
{
    end_at(words, 1)?;
    Ok(Head {
        section: Section::Order,
        ..*head
    })
}

// The line of a first word that may stand there.
#[tactic(auto, unfolding(crate::specs::Heads::line_by))]
fn line_by(head: &Head, words: &[Token], first: FirstWord) -> Result<Line, Cause>
    requires head { IsHead head.now }
    requires stands { may_stand head.now.section first ≡ true }
    ensures value { result ≡ line_by head.now (texts words.now) first }
    ensures range { IfOk result IsLine }
{
    let head = match first {
        FirstWord::Speck => speck_line(head, words),
        FirstWord::Cores => cores_line(head, words),
        FirstWord::Frames => frames_line(head, words),
        FirstWord::Grant => grant_line(head, words),
        FirstWord::Calls => calls_line(head, words),
        FirstWord::Epochs => epochs_line(head, words),
        FirstWord::Core => core_line(head, words),
        FirstWord::Order => order_line(head, words),
        FirstWord::Call(verb) => {
            let call = call_line(words, verb, head.version)?;
            return Ok(Line::Call(call));
        }
    };
    Ok(Line::Head(head?))
}

/// The known first word of a line of a script of this version, if it has one.
pub fn first_of(words: &[Token], version: u8) -> Option<FirstWord>
    ensures { result ≡ option_and_then (first_word version) (slice_get (texts words.now) 0) }
{
    match words.first() {
        Some(word) => first_word(word.text, version),
        None => None,
    }
}

/// A line before the order of steps.
#[tactic(auto, unfolding(crate::specs::Heads::line_of))]
pub fn line_of(head: &Head, words: &[Token]) -> Result<Line, Cause>
    requires { IsHead head.now }
    ensures value { result ≡ line_of head.now (texts words.now) }
    ensures range { IfOk result IsLine }
{
    let first = first_of(words, head.version).ok_or(Cause::S2)?;
    if may_stand(head.section, first) {
        line_by(head, words, first)
    } else {
        Err(Cause::S7)
    }
}
