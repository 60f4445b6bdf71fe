//! The rows of a page.

ghost use Rattle.std.specs.Prelude.{◌≡◌, ◌+◌, ◌<◌, ◌≤◌, max, nat_lt, if◌then◌else◌, All, false};
ghost use Rattle.picture_rows.specs.Rows.{is_full, calls_after, has_event, has_text, quiet_after, text_y, event_y, step_y, room_after};
ghost use Rattle.picture_rows.specs.Rows.{due_after, rows_after, no_rows, IsWithin};

// A page has no more steps and calls than these.
const STEPS: u16 = 2000;

const CALLS: u16 = 60;

/// What the height of a step depends on: its core, whether it enters, decides or returns a call, whether it has an arrow's head, whether
/// it leaves another value in its word, and whether the step before it on the page is of the same core.
#[derive(Clone, Copy)]
pub struct Placed {
    pub core: u8,
    pub enters: bool,
    pub decides: bool,
    pub returns: bool,
    pub met: bool,
    pub changes: bool,
    pub follows: bool,
}

/// The rows of a page so far: how many, and how many calls are entered there; the height of the last one and of the last one that has a
/// text; how many quiet steps of one core stand at its end; and for each core the least height of its next event.
#[derive(Clone, Copy)]
pub struct Rows {
    pub count: u16,
    pub calls: u16,
    pub y: u16,
    pub text: u16,
    pub quiet: u16,
    pub due: [u16; 8],
}

#[inline]
fn larger(a: u16, b: u16) -> u16
    ensures { result ≡ max a b }
{
    if a < b { b } else { a }
}

impl Placed {
    #[inline]
    fn has_event(&self) -> bool
        ensures { result ≡ has_event self.now }
    {
        self.enters || self.decides || self.returns
    }

    #[inline]
    fn has_text(&self) -> bool
        ensures { result ≡ has_text self.now }
    {
        self.decides || self.met
    }

    #[inline]
    fn room_after(&self) -> u16
        ensures value { result ≡ room_after self.now }
        ensures most { result ≤ 22 }
    {
        if self.returns {
            return 8;
        }
        if !self.decides {
            return 20;
        }
        if self.enters { 22 } else { 8 }
    }
}

impl Rows {
    /// The rows of a page without steps, where this is due of the cores.
    pub fn new(due: [u16; 8]) -> Rows
        requires { All (λ d. d ≤ 178) due }
        ensures value { result ≡ no_rows due }
        ensures within { IsWithin result }
    {
        Rows {
            count: 0,
            calls: 0,
            y: 156,
            text: 139,
            quiet: 0,
            due,
        }
    }

    #[inline]
    fn quiet_after(&self, step: &Placed) -> u16
        requires { IsWithin self.now }
        ensures value { result ≡ quiet_after self.now step.now }
        ensures most { result ≤ self.now.count + 1 }
    {
        if step.has_event() || step.met || step.changes {
            return 0;
        }
        if step.follows { self.quiet + 1 } else { 1 }
    }

    #[inline]
    fn own_y(&self, quiet: u16) -> u16
        requires { IsWithin self.now }
        ensures { result ≡ (if nat_lt 8 quiet then self.now.y else self.now.y + 2) }
    {
        if 8 < quiet { self.y } else { self.y + 2 }
    }

    #[inline]
    fn text_y(&self, step: &Placed) -> u16
        requires { IsWithin self.now }
        ensures value { result ≡ text_y self.now step.now }
        ensures most { result ≤ self.now.y + 17 }
    {
        if step.has_text() { self.text + 17 } else { 0 }
    }

    #[inline]
    fn event_y(&self, step: &Placed) -> u16
        requires within { IsWithin self.now }
        requires core { step.now.core < 8 }
        ensures value { result ≡ event_y self.now step.now }
        ensures most { result ≤ self.now.y + 22 }
    {
        if step.has_event() {
            self.due[usize::from(step.core)]
        } else {
            0
        }
    }

    #[inline]
    fn step_y(&self, step: &Placed) -> u16
        requires within { IsWithin self.now }
        requires core { step.now.core < 8 }
        ensures value { result ≡ step_y self.now step.now }
        ensures least { self.now.y ≤ result }
        ensures most { result ≤ self.now.y + 22 }
    {
        let own = self.own_y(self.quiet_after(step));
        let text = self.text_y(step);
        let event = self.event_y(step);
        larger(own, larger(text, event))
    }

    // Notes what is due of the core after a step at this height.
    #[inline]
    fn set_due(&mut self, step: &Placed, y: u16)
        requires core { step.now.core < 8 }
        requires y { y ≤ 50000 }
        ensures { self.new ≡ record self.old { due = due_after self.old step.now y } }
    {
        if step.has_event() {
            self.due[usize::from(step.core)] = y + step.room_after();
        }
    }

    #[inline]
    #[tactic(auto, using(crate::proofs::Room::calls_most))]
    fn calls_after(&self, step: &Placed) -> u16
        requires within { IsWithin self.now }
        requires room { is_full self.now step.now.enters ≡ false }
        ensures value { result ≡ calls_after self.now step.now }
        ensures most { result ≤ 60 }
    {
        if step.enters {
            self.calls + 1
        } else {
            self.calls
        }
    }

    /// Takes a step more, for which the page has room.
    #[tactic(auto, using(crate::proofs::Room::steps_room))]
    pub fn take(&mut self, step: &Placed)
        requires within { IsWithin self.old }
        requires core { step.now.core < 8 }
        requires room { is_full self.old step.now.enters ≡ false }
        ensures value { self.new ≡ rows_after self.old step.now }
        ensures within { IsWithin self.new }
        ensures had_room { self.old.count < 2000 }
    {
        let y = self.step_y(step);
        let quiet = self.quiet_after(step);
        let calls = self.calls_after(step);
        self.set_due(step, y);
        if step.has_text() {
            self.text = y;
        }
        self.quiet = quiet;
        self.y = y;
        self.calls = calls;
        self.count += 1;
    }

    /// Whether the page has no room for a step, which enters a call or does not: the next page begins with it.
    pub fn is_full(&self, enters: bool) -> bool
        ensures { result ≡ is_full self.now enters }
    {
        if self.count >= STEPS {
            return true;
        }
        enters && self.calls >= CALLS
    }
}
