//! What is known of a core's calls, and of the newest change of a word.

ghost use Rattle.std.specs.Prelude.{◌≡◌, ◌+◌, ◌<◌, ◌^◌};
ghost use Rattle.page_layers.specs.Lanes.{no_call, lane_entered, lane_decided, lane_topped, lane_returned, overlaps, top_y, name_y};
ghost use Rattle.page_layers.specs.Lanes.{change_y};

use spk_nums::{Call, CoreNo, Reply};

/// A core's calls. Steps count from 1.
#[derive(Clone, Copy)]
pub struct Lane {
    /// How many it has entered.
    pub index: u64,
    /// The call in which it is; None between calls.
    pub call: Option<Call>,
    /// The step at which the call was entered.
    pub entered: u64,
    /// The reply with which it is decided; None where it is not.
    pub reply: Option<Reply>,
    /// The step at which it was decided; 0 where it is not.
    pub decided: u64,
    /// The step of the core's last return; 0 before any.
    pub returned: u64,
    /// Of each core the step of its last return when the call was entered.
    pub others: [u64; 8],
    /// The height of the entry, where that is on the page.
    pub top: u16,
}

/// A step that has left another value in a word: its core, the number of its call among the core's, the step's number, and its height
/// where it is on the page.
#[derive(Clone, Copy)]
pub struct Change {
    pub core: CoreNo,
    pub index: u64,
    pub step: u64,
    pub y: u16,
}

impl Lane {
    /// A core that has entered no call.
    pub fn new() -> Lane
        ensures { result ≡ no_call }
    {
        Lane {
            index: 0,
            call: None,
            entered: 0,
            reply: None,
            decided: 0,
            returned: 0,
            others: [0; 8],
            top: 0,
        }
    }

    /// Notes the call that is entered at a step, where one is.
    pub fn enter(&mut self, enters: &Option<Call>, step: u64, others: &[u64; 8])
        requires { self.old.index + 1 < 2 ^ 64 }
        ensures { self.new ≡ lane_entered enters.now step others.now self.old }
    {
        if let Some(call) = enters {
            self.index += 1;
            self.call = Some(*call);
            self.entered = step;
            self.reply = None;
            self.decided = 0;
            self.others = *others;
        }
    }

    /// Notes the reply with which the call is decided at a step, where it is.
    pub fn decide(&mut self, decides: &Option<Reply>, step: u64)
        ensures { self.new ≡ lane_decided decides.now step self.old }
    {
        if let Some(reply) = decides {
            self.reply = Some(*reply);
            self.decided = step;
        }
    }

    /// Notes the height of a call that is entered, where one is.
    pub fn set_top(&mut self, enters: &Option<Call>, y: u16)
        ensures { self.new ≡ lane_topped enters.now y self.old }
    {
        if enters.is_some() {
            self.top = y;
        }
    }

    /// Notes that the call returns at a step, where it does.
    pub fn leave(&mut self, returns: &Option<Reply>, step: u64)
        ensures { self.new ≡ lane_returned returns.now step self.old }
    {
        if returns.is_some() {
            self.call = None;
            self.returned = step;
        }
    }

    /// Whether the call of a change overlaps the core's.
    pub fn overlaps(&self, change: &Change) -> bool
        ensures { result ≡ overlaps self.now change.now }
    {
        self.others[usize::from(change.core.number())] < change.step
    }

    /// The height at which the bar of the call begins, where so many steps lie before the page.
    pub fn top_y(&self, first: u64) -> u32
        ensures { result ≡ top_y first self.now }
    {
        if self.entered <= first {
            142
        } else {
            u32::from(self.top)
        }
    }

    /// The height of its name.
    pub fn name_y(&self, first: u64) -> u32
        ensures { result ≡ name_y first self.now }
    {
        if self.entered <= first {
            return 164;
        }
        if self.decided == self.entered {
            return u32::from(self.top) + 19;
        }
        u32::from(self.top) + 11
    }
}

impl Change {
    /// The height of the change, where so many steps lie before the page.
    pub fn height(&self, first: u64) -> u16
        ensures { result ≡ change_y first self.now }
    {
        if self.step <= first { 145 } else { self.y }
    }
}
