//! When grace periods began, and what each core did last, by a clock that counts the beginnings.
//!
//! A core has still to do its part in the grace period of a thing where what it did last lies before the beginning. So a
//! beginning writes one time, and a core that enters, returns or flushes writes its own times alone.

ghost use Rattle.std.specs.Prelude.{◌≡◌, ◌≤◌, ◌<◌, ℕ, cond, nat_lt, length};
ghost use Rattle.seq_state.specs.Times.{no_times, no_period, times_at, enters, returns, flushes, before, rank, ranked, ranked_period};
ghost use Rattle.seq_state.specs.Maps.{at};
ghost use Rattle.seq_state.specs.Passing.{Becomes};

/// A grace period: when it began, 0 for none, and whether it waits for flushes.
#[derive(Clone, Copy, PartialEq, Eq, Debug)]
pub struct Period {
    pub began: u32,
    pub flushes: bool,
}

/// What a core did last, as the clock then stood.
#[derive(Clone, Copy, PartialEq, Eq, Debug)]
pub struct Times {
    /// It entered the call that it is in, or was in last.
    pub entered: u32,
    /// It entered the call from which it returned last.
    pub passed: u32,
    /// It flushed.
    pub flushed: u32,
    /// It had flushed last, as it returned last.
    pub flush_known: u32,
}

impl Period {
    /// No grace period.
    pub fn none() -> Period
        ensures { result ≡ no_period }
    {
        Period {
            began: 0,
            flushes: false,
        }
    }
}

impl Times {
    /// Those of a core that has done nothing.
    pub fn none() -> Times
        ensures { result ≡ no_times }
    {
        Times {
            entered: 0,
            passed: 0,
            flushed: 0,
            flush_known: 0,
        }
    }
}

/// A core's times as it enters a call, unless it is in one.
pub fn enters(times: Times, inside: bool, clock: u32) -> Times
    ensures { result ≡ enters inside clock times }
{
    if inside {
        times
    } else {
        Times {
            entered: clock,
            ..times
        }
    }
}

/// A core's times as it returns from its call; from a call that it did not enter, as if it had entered that now.
pub fn returns(times: Times, inside: bool, clock: u32) -> Times
    ensures { result ≡ returns inside clock times }
{
    let entered = if inside { times.entered } else { clock };
    Times {
        entered,
        passed: entered,
        flushed: times.flushed,
        flush_known: times.flushed,
    }
}

/// A core's times as it flushes.
pub fn flushes(times: Times, clock: u32) -> Times
    ensures { result ≡ flushes clock times }
{
    Times {
        flushed: clock,
        ..times
    }
}

/// 1 where a time lies before another, else 0.
fn once(time: u32, other: u32) -> u32
    ensures count { result ≡ cond (nat_lt time other) 1 0 }
    ensures most { result ≤ 1 }
{
    if time < other { 1 } else { 0 }
}

/// How many of a core's times lie before a time.
fn before(times: &Times, time: u32) -> u32
    ensures count { result ≡ before times.now time }
    ensures most { result ≤ 4 }
{
    once(times.entered, time)
        + once(times.passed, time)
        + once(times.flushed, time)
        + once(times.flush_known, time)
}

/// How many of all cores' times lie before a time.
fn rank(all: &[Times; 8], time: u32) -> u32
    ensures count { result ≡ rank all.now time }
    ensures most { result ≤ 32 }
{
    let mut count = 0;
    'each: for core in 0..8 {
        count += before(&all[core], time);
    }
    count
}

/// A core's times, each by its rank among those of all cores.
fn ranked(times: &Times, all: &[Times; 8]) -> Times
    ensures { result ≡ ranked all.now times.now }
{
    Times {
        entered: rank(all, times.entered),
        passed: rank(all, times.passed),
        flushed: rank(all, times.flushed),
        flush_known: rank(all, times.flush_known),
    }
}

/// All cores' times, each by its rank among them.
pub fn all_ranked(all: &[Times; 8]) -> [Times; 8]
    ensures ranks { (core : ℕ) → core < 8 → times_at result core ≡ ranked all.now (times_at all.now core) }
    ensures all { length result ≡ 8 }
{
    let mut new = [Times::none(); 8];
    'each: for core in 0..8 {
        new[core] = ranked(&all[core], all);
    }
    new
}

/// The grace period at a key, if it stands, begins at the rank of its beginning.
fn rank_at(map: &mut Vec<Period>, key: u16, all: &[Times; 8])
    ensures here { Becomes (ranked_period all.now) (at map.old.items key) (at map.new.items key) }
    ensures others { (q : ℕ) → q ≢ key → at map.new.items q ≡ at map.old.items q }
{
    let index = usize::from(key);
    if index < map.len() {
        let old = map[index];
        map[index] = Period {
            began: rank(all, old.began),
            flushes: old.flushes,
        };
    }
}

/// The grace periods at all keys below `end` begin at the ranks of their beginnings.
pub fn rank_below(map: &mut Vec<Period>, end: u16, all: &[Times; 8])
    ensures { (k : ℕ) → k < end → Becomes (ranked_period all.now) (at map.old.items k) (at map.new.items k) }
{
    'each: for key in 0..end {
        rank_at(map, key, all);
    }
}

ghost use Rattle.std.specs.Prelude.{◌≢◌};
