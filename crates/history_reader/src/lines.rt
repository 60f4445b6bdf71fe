//! The lines of a given history.

ghost use Rattle.std.specs.Prelude.{◌≡◌, ◌<◌, ◌≤◌, ◌+◌, IfOk, length, slice_get, take, drop};
ghost use Rattle.std.specs.Option.{option_and_then};
ghost use Rattle.spk_nums.specs.CallLimits.{InLimits};
ghost use Rattle.line_reader.specs.Arguments.{texts};
ghost use Rattle.call_reader.specs.FirstWords.{first_word};
ghost use Rattle.marked_history.specs.Verdicts.{SaidFits};
ghost use Rattle.history_reader.specs.Lines.{is_of_head, dot_at, is_numbered, line_word, call_in, enter_line, decide_line, return_line};
ghost use Rattle.history_reader.specs.Lines.{core_before, index_after, before_equals, answered, whole_line, said_by};

use crate::replies::reply_of;
use crate::words::{words_before, words_from};
use call_reader::{FirstWord, call_line, core_at, first_word, verb_at};
use line_reader::{Cause, end_at, is_digits, is_word, read_number, word_at};
use marked_history::{Mark, Said};
use script_tokens::Token;
use spk_nums::{Call, CoreNo};

/// A known first word of a line.
#[derive(Clone, Copy, Debug, PartialEq, Eq)]
pub enum LineWord {
    /// One of the head of a script.
    Head,
    Enter,
    Decide,
    Return,
    /// `C.I`, of a call made whole.
    Whole,
}

// Whether a word is one of the head of a script.
fn is_of_head(first: Option<FirstWord>) -> bool
    ensures { result ≡ is_of_head first }
{
    match first {
        None => false,
        Some(FirstWord::Core) | Some(FirstWord::Order) | Some(FirstWord::Call(_)) => false,
        Some(_) => true,
    }
}

// Where the first dot of a word stands; its end where it has none.
fn dot_at(word: &[u8]) -> usize
    ensures value { result ≡ dot_at word.now }
    ensures within { result ≤ length word.now }
{
    let mut place = 0;
    let mut index = word.len();
    'bytes: while 0 < index {
        index -= 1;
        place = if word[index] == b'.' { 0 } else { place + 1 };
    }
    place
}

// The bytes before the dot.
fn before_dot(word: &[u8]) -> &[u8]
    ensures { result.now ≡ take (dot_at word.now) word.now }
{
    let dot = dot_at(word);
    &word[..dot]
}

// The bytes after the dot; none where there is no dot.
fn after_dot(word: &[u8]) -> &[u8]
    ensures { result.now ≡ drop (dot_at word.now + 1) word.now }
{
    let dot = dot_at(word);
    if dot < word.len() {
        &word[dot + 1..]
    } else {
        &word[word.len()..]
    }
}

#[tactic(auto, unfolding(crate::specs::Lines::is_numbered))]
fn is_numbered(word: &[u8]) -> bool
    ensures { result ≡ is_numbered word.now }
{
    is_digits(before_dot(word)) && is_digits(after_dot(word))
}

#[tactic(auto, unfolding(crate::specs::Lines::line_word))]
fn line_word(word: &[u8]) -> Option<LineWord>
    ensures { result ≡ line_word word.now }
{
    if is_word(word, "enter") {
        Some(LineWord::Enter)
    } else if is_word(word, "decide") {
        Some(LineWord::Decide)
    } else if is_word(word, "return") {
        Some(LineWord::Return)
    } else if is_numbered(word) {
        Some(LineWord::Whole)
    } else if is_of_head(first_word(word, 1)) {
        Some(LineWord::Head)
    } else {
        None
    }
}

/// The known first word of a line, if it has one.
pub fn first_of(words: &[Token]) -> Option<LineWord>
    ensures { result ≡ option_and_then line_word (slice_get (texts words.now) 0) }
{
    match words.first() {
        Some(word) => line_word(word.text),
        None => None,
    }
}

// The call that words are.
#[tactic(auto, unfolding(crate::specs::Lines::call_in))]
fn call_in(words: &[Token], version: u8) -> Result<Call, Cause>
    ensures value { result ≡ call_in version (texts words.now) }
    ensures range { IfOk result InLimits }
{
    let verb = verb_at(words, version)?;
    call_line(words, verb, version)
}

#[tactic(auto, using(crate::proofs::Cores::core_fits), unfolding(crate::specs::Lines::enter_line))]
fn enter_line(words: &[Token], version: u8, cores: u8) -> Result<Said, Cause>
    requires { cores ≤ 8 }
    ensures value { result ≡ enter_line version cores (texts words.now) }
    ensures fits { IfOk result (SaidFits cores) }
{
    let core = core_at(words, 1, cores)?;
    let call = call_in(words_from(words, 2), version)?;
    Ok(Said::One(Mark::Enter { core, call }))
}

#[tactic(auto, using(crate::proofs::Cores::core_fits), unfolding(crate::specs::Lines::decide_line))]
fn decide_line(words: &[Token], cores: u8) -> Result<Said, Cause>
    requires { cores ≤ 8 }
    ensures value { result ≡ decide_line cores (texts words.now) }
    ensures fits { IfOk result (SaidFits cores) }
{
    let core = core_at(words, 1, cores)?;
    let reply = reply_of(words_from(words, 2), cores)?;
    Ok(Said::One(Mark::Decide { core, reply }))
}

#[tactic(auto, using(crate::proofs::Cores::core_fits), unfolding(crate::specs::Lines::return_line))]
fn return_line(words: &[Token], cores: u8) -> Result<Said, Cause>
    requires { cores ≤ 8 }
    ensures value { result ≡ return_line cores (texts words.now) }
    ensures fits { IfOk result (SaidFits cores) }
{
    let core = core_at(words, 1, cores)?;
    end_at(words, 2)?;
    Ok(Said::One(Mark::Return { core }))
}

// The core of a call made whole, which stands before the dot.
#[tactic(auto, unfolding(crate::specs::Lines::core_before))]
fn core_before(word: &[u8], cores: u8) -> Result<CoreNo, Cause>
    requires { cores ≤ 8 }
    ensures value { result ≡ core_before cores word.now }
    ensures below { IfOk result (λ core. core < cores) }
{
    let core = read_number(before_dot(word)).ok_or(Cause::S1)?;
    if core < u64::from(cores) {
        Ok(CoreNo::new(core as u8))
    } else {
        Err(Cause::S6)
    }
}

// Its number, which stands after the dot.
#[tactic(auto, unfolding(crate::specs::Lines::index_after))]
fn index_after(word: &[u8]) -> Result<u64, Cause>
    ensures { result ≡ index_after word.now }
{
    read_number(after_dot(word)).ok_or(Cause::S1)
}

// How many words stand before the first `=`.
fn before_equals(words: &[Token]) -> usize
    ensures value { result ≡ before_equals (texts words.now) }
    ensures within { result ≤ length words.now }
{
    let mut place = 0;
    let mut index = words.len();
    'words: while 0 < index {
        index -= 1;
        place = if is_word(words[index].text, "=") {
            0
        } else {
            place + 1
        };
    }
    place
}

// What `CALL = REPLY` says of this call of a core.
#[tactic(auto, unfolding(crate::specs::Lines::answered))]
fn answered(
    words: &[Token],
    version: u8,
    cores: u8,
    core: CoreNo,
    index: u64,
) -> Result<Said, Cause>
    requires few { cores ≤ 8 }
    requires core { core < cores }
    ensures value { result ≡ answered version cores core index (texts words.now) }
    ensures fits { IfOk result (SaidFits cores) }
{
    let equals = before_equals(words);
    let call = call_in(words_before(words, equals), version)?;
    let _equals = word_at(words, equals)?;
    let reply = reply_of(words_from(words, equals + 1), cores)?;
    Ok(Said::Whole {
        core,
        index,
        call,
        reply,
    })
}

#[tactic(auto, unfolding(crate::specs::Lines::whole_line))]
fn whole_line(words: &[Token], version: u8, cores: u8) -> Result<Said, Cause>
    requires { cores ≤ 8 }
    ensures value { result ≡ whole_line version cores (texts words.now) }
    ensures fits { IfOk result (SaidFits cores) }
{
    let word = word_at(words, 0)?;
    let core = core_before(word, cores)?;
    let index = index_after(word)?;
    answered(words_from(words, 1), version, cores, core, index)
}

/// What a line with this first word says. A core that is not below `cores` is S6. Of `C.I CALL = REPLY` the call is what stands before
/// the first `=`, and is judged first; a missing `=` is S3. A line of the head says nothing of a history.
#[tactic(auto, unfolding(crate::specs::Lines::said_by))]
pub fn said_by(words: &[Token], version: u8, cores: u8, word: LineWord) -> Result<Said, Cause>
    requires { cores ≤ 8 }
    ensures value { result ≡ said_by version cores (texts words.now) word }
    ensures fits { IfOk result (SaidFits cores) }
{
    match word {
        LineWord::Enter => enter_line(words, version, cores),
        LineWord::Decide => decide_line(words, cores),
        LineWord::Return => return_line(words, cores),
        LineWord::Whole => whole_line(words, version, cores),
        LineWord::Head => Err(Cause::S2),
    }
}
