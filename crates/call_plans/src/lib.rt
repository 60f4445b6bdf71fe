//! The plan of a call: the names that it looks up, in order, what each is to lead to, its target, and where it is decided.
//!
//! **A plan is a value.** It is made from the call alone and asks nothing of the state. A later part of it, as the leaf that a
//! `grow` takes, may depend on what earlier names have led to. So one program looks up for all calls what their plans say, and
//! a call adds its act alone.
//!
//! **Plan and rule.** The sequential kernel says of each call what is looked up and judged, and in which order. The rule of each
//! call goes by its plan in every state: the names, the kinds wanted, and the target are those of the plan, whatever the names
//! lead to. So what is left of a rule after some names have been found is told by what is left of the plan.
//!
//! **Steps.** A call makes at most three steps for its entry and exit, those of the plan's look-ups, and those of its act.
//!
//! See docs/FORMATS.md, 'Steps of calls', and docs/PROOF.md, 'The invariant of the step machine'.
#![tactic(auto)]

mod bounds;
mod calls;
mod found;
mod laws;
mod plans;

pub use bounds::{act_steps, bound, look_steps};
pub use calls::plan_of;
pub use found::Caps;
pub use laws::{
    are_rooted, bound_is_by_plan, goes_by_plan, leads_more, left_goes_by, left_may_refuse,
    next_may_refuse, outcome_is_left,
};
pub use plans::{Decides, Name, Names, Next, Nth, Plan, Spot, Target, TargetKind, Wanted};
