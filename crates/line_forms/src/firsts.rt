//! Which lines may stand where.

ghost use Rattle.std.specs.Prelude.{◌≡◌};
ghost use Rattle.line_reader.specs.Arguments.{texts};
ghost use Rattle.line_forms.specs.Firsts.{head_stands, is_whole, is_list, stands, is_numbered_so, first_fits};

use crate::context::{Context, Stage};
use crate::numbered::is_numbered_below;
use crate::starts::{Start, start_of};
use call_reader::FirstWord;
use script_tokens::Token;

// A word of a script may stand there.
fn head_stands(stage: Stage, first: FirstWord) -> bool
    ensures { result ≡ head_stands stage first }
{
    match stage {
        Stage::Version => matches!(first, FirstWord::Speck),
        Stage::Cores => matches!(first, FirstWord::Cores),
        Stage::Frames => matches!(first, FirstWord::Frames),
        Stage::Grants => matches!(first, FirstWord::Grant),
        Stage::Calls => matches!(
            first,
            FirstWord::Calls | FirstWord::Epochs | FirstWord::Core | FirstWord::Order
        ),
        Stage::Epochs => matches!(
            first,
            FirstWord::Epochs | FirstWord::Core | FirstWord::Order
        ),
        Stage::Lists => matches!(first, FirstWord::Core | FirstWord::Order),
        Stage::List => matches!(
            first,
            FirstWord::Core | FirstWord::Order | FirstWord::Call(_)
        ),
        Stage::Asks | Stage::AskList => matches!(first, FirstWord::Core),
        Stage::Order | Stage::Tasks | Stage::Marks => false,
    }
}

/// The last grant was read.
pub fn is_whole(stage: Stage) -> bool
    ensures { result ≡ is_whole stage }
{
    match stage {
        Stage::Version | Stage::Cores | Stage::Frames | Stage::Grants => false,
        _ => true,
    }
}

fn is_list(stage: Stage) -> bool
    ensures { result ≡ is_list stage }
{
    match stage {
        Stage::AskList => true,
        _ => false,
    }
}

// A line that begins so may stand there.
fn stands(stage: Stage, start: Start) -> bool
    ensures { result ≡ stands stage start }
{
    match start {
        Start::Head(first) => head_stands(stage, first),
        Start::Ends | Start::Sched => is_whole(stage),
        Start::Enter | Start::Decide | Start::Return | Start::Whole => is_whole(stage),
        Start::Send | Start::Recv => is_list(stage),
        Start::Task => true,
    }
}

// The number before the dot of `C.I` is that of a core, and the one after it is a number.
fn is_numbered_so(start: Start, word: &[u8], cores: u8) -> bool
    ensures { result ≡ is_numbered_so start word.now cores }
{
    match start {
        Start::Whole => is_numbered_below(word, cores),
        _ => true,
    }
}

/// The line's first word fits.
pub fn first_fits(context: &Context, words: &[Token], word: &[u8]) -> bool
    ensures { result ≡ first_fits context.now (texts words.now) word.now }
{
    match start_of(context.version, context.reading, context.stage, words) {
        None => false,
        Some(start) => {
            let stood = stands(context.stage, start);
            let numbered = is_numbered_so(start, word, context.cores);
            stood & numbered
        }
    }
}
