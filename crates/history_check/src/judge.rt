//! Judging marks, one after another.

ghost use Rattle.std.specs.Prelude.{◌≡◌, ◌<◌, ◌+◌, ◌==◌, [], slice_set, IfOk};
ghost use Rattle.spk_nums.specs.CallLimits.{InLimits};
ghost use Rattle.call_judge.specs.seq_state.specs.kernel_rules.specs.Start.{start};
ghost use Rattle.call_judge.specs.seq_state.specs.Maps.{state_of};
ghost use Rattle.marked_history.specs.Histories.{IsOfMachine};
ghost use Rattle.marked_history.specs.declared.marks.Mark.TheVariants as mark;
ghost use Rattle.marked_history.specs.declared.marks.Said.TheVariants as said;
ghost use Rattle.history_check.specs.Judging.{HasCome, IsJudge, AtFits, JudgesMark, JudgesOthers, JudgesMarks, JudgesLine, MarkFits, CallFits};
ghost use Rattle.history_check.specs.Judging.{core_of, seen_of, alone_after};

use crate::seen::{At, Seen, is_another_in, is_held_up, no_ones};
use call_judge::decide_by;
use marked_history::{Mark, Said, Why};
use seq_state::SeqKernel;
use spk_nums::{Call, CoreNo, Make, Memory, Reply, Setup};
use std::alloc::Global;

/// The state that the marks so far leave, what is seen of each core that a machine may have, the core that is in a call and has met no
/// other since it entered it, if there is one, and how many calls are decided.
#[derive(Drop)]
pub struct Judge {
    pub kernel: SeqKernel,
    pub seen: Vec<Seen>,
    pub alone: Option<CoreNo>,
    pub decided: u32,
}

/// Before the first mark. It fails only where memory runs out.
pub fn begin(alloc: Global, setup: &Setup) -> Result<Judge, Memory>
    ensures come { IfOk result (HasCome setup.now []) }
    ensures judge { IfOk result IsJudge }
{
    let _made: Option<Make> = None;
    Ok(Judge {
        kernel: SeqKernel::start(alloc, setup)?,
        seen: no_ones(alloc)?,
        alone: None,
        decided: 0,
    })
}

// Sets where a core is, and how many calls it has entered.
fn see(judge: &mut Judge, core: CoreNo, seen: Seen)
    requires judge { IsJudge judge.old }
    requires fits { AtFits seen.at }
    ensures judge { IsJudge judge.new }
    ensures seen { judge.new.seen.items ≡ slice_set judge.old.seen.items core seen }
    ensures kernel { judge.new.kernel ≡ judge.old.kernel }
    ensures alone { judge.new.alone ≡ judge.old.alone }
    ensures decided { judge.new.decided ≡ judge.old.decided }
{
    let _made: Option<Make> = None;
    judge.seen[usize::from(core.number())] = seen;
}

// The core that is alone after this one has entered a call.
fn alone_after(another: bool, core: CoreNo) -> Option<CoreNo>
    ensures { result ≡ alone_after another core }
{
    if another { None } else { Some(core) }
}

// The core enters a call.
fn enter(judge: &mut Judge, core: CoreNo, call: &Call) -> Option<Why>
    requires judge { IsJudge judge.old }
    requires core { core < (state_of judge.old.kernel).limits.cores }
    requires limits { InLimits call.now }
    ensures judge { IsJudge judge.new }
    ensures exact { JudgesMark judge.old (mark.Enter core call.now) result judge.new }
{
    let Seen { at, entered } = judge.seen[usize::from(core.number())];
    let At::Out = at else {
        return Some(Why::Marks);
    };
    let another = is_another_in(&judge.seen, core);
    see(
        judge,
        core,
        Seen {
            at: At::Open(*call),
            entered: entered.saturating_add(1),
        },
    );
    judge.alone = alone_after(another, core);
    judge.kernel.enter(core);
    None
}

// The core's call is decided.
fn decide(
    alloc: Global,
    judge: &mut Judge,
    core: CoreNo,
    reply: &Reply,
) -> Result<Option<Why>, Memory>
    requires judge { IsJudge judge.old }
    requires core { core < (state_of judge.old.kernel).limits.cores }
    ensures judge { IsJudge judge.new }
    ensures exact { IfOk result (λ w. JudgesMark judge.old (mark.Decide core reply.now) w judge.new) }
{
    let Seen { at, entered } = judge.seen[usize::from(core.number())];
    let At::Open(call) = at else {
        return Ok(Some(Why::Marks));
    };
    if !is_held_up(judge.alone, &judge.seen, core, reply) {
        return Ok(Some(Why::Race));
    }
    if !decide_by(alloc, &mut judge.kernel, core, &call, reply)? {
        return Ok(Some(Why::Reply));
    }
    see(
        judge,
        core,
        Seen {
            at: At::Decided,
            entered,
        },
    );
    judge.decided = judge.decided.saturating_add(1);
    Ok(None)
}

// The core returns.
fn leave(judge: &mut Judge, core: CoreNo) -> Option<Why>
    requires judge { IsJudge judge.old }
    requires core { core < (state_of judge.old.kernel).limits.cores }
    ensures judge { IsJudge judge.new }
    ensures exact { JudgesMark judge.old (mark.Return core) result judge.new }
{
    let Seen { at, entered } = judge.seen[usize::from(core.number())];
    let At::Decided = at else {
        return Some(Why::Marks);
    };
    see(
        judge,
        core,
        Seen {
            at: At::Out,
            entered,
        },
    );
    judge.kernel.leave(core);
    None
}

// The core of a mark.
fn core_of(mark: &Mark) -> CoreNo
    ensures { result ≡ core_of mark.now }
{
    match *mark {
        Mark::Enter { core, call: _ } => core,
        Mark::Decide { core, reply: _ } => core,
        Mark::Return { core } => core,
    }
}

// Takes a mark, or tells why it may not follow. A core that the machine does not have makes none.
fn take_mark(alloc: Global, judge: &mut Judge, mark: &Mark) -> Result<Option<Why>, Memory>
    requires judge { IsJudge judge.old }
    requires fits { MarkFits mark.now }
    ensures judge { IsJudge judge.new }
    ensures exact { IfOk result (λ w. JudgesMark judge.old mark.now w judge.new) }
{
    if judge.kernel.cores() <= core_of(mark).number() {
        return Ok(Some(Why::Marks));
    }
    match mark {
        Mark::Enter { core, call } => Ok(enter(judge, *core, call)),
        Mark::Decide { core, reply } => decide(alloc, judge, *core, reply),
        Mark::Return { core } => Ok(leave(judge, *core)),
    }
}

// Whether a number is that of the core's next call.
fn is_next(judge: &Judge, core: CoreNo, index: u64) -> bool
    requires { IsJudge judge.now }
    ensures { result ≡ (index == (seen_of judge.now.seen.items core).entered + 1) }
{
    let entered = judge.seen[usize::from(core.number())].entered;
    0 < index && index - 1 == entered
}

// Takes the decision of a call and the return after it.
fn take_others(
    alloc: Global,
    judge: &mut Judge,
    core: CoreNo,
    reply: &Reply,
) -> Result<Option<Why>, Memory>
    requires { IsJudge judge.old }
    ensures judge { IsJudge judge.new }
    ensures exact { IfOk result (λ w. JudgesOthers judge.old core reply.now w judge.new) }
{
    let decided = take_mark(
        alloc,
        judge,
        &Mark::Decide {
            core,
            reply: *reply,
        },
    )?;
    match decided {
        Some(why) => Ok(Some(why)),
        None => take_mark(alloc, judge, &Mark::Return { core }),
    }
}

// Takes the three marks of a call made whole.
fn take_marks(
    alloc: Global,
    judge: &mut Judge,
    core: CoreNo,
    call: &Call,
    reply: &Reply,
) -> Result<Option<Why>, Memory>
    requires judge { IsJudge judge.old }
    requires limits { InLimits call.now }
    ensures judge { IsJudge judge.new }
    ensures exact { IfOk result (λ w. JudgesMarks judge.old core call.now reply.now w judge.new) }
{
    let entered = take_mark(alloc, judge, &Mark::Enter { core, call: *call })?;
    match entered {
        Some(why) => Ok(Some(why)),
        None => take_others(alloc, judge, core, reply),
    }
}

/// Takes a line, or tells why it may not follow.
pub fn take_line(alloc: Global, judge: &mut Judge, said: &Said) -> Result<Option<Why>, Memory>
    requires judge { IsJudge judge.old }
    requires fits { CallFits said.now }
    ensures judge { IsJudge judge.new }
    ensures exact { IfOk result (λ w. JudgesLine judge.old said.now w judge.new) }
{
    match said {
        Said::One(mark) => take_mark(alloc, judge, mark),
        Said::Whole {
            core,
            index,
            call,
            reply,
        } => {
            if is_next(judge, *core, *index) {
                take_marks(alloc, judge, *core, call, reply)
            } else {
                Ok(Some(Why::Marks))
            }
        }
    }
}
