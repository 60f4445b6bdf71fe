//! What the steps of a call on two temporal capabilities lead to.

ghost use Rattle.std.specs.Prelude.{◌≡◌};
ghost use Rattle.stage_tcap.specs.Pairs.{value_of, again_value, end_by_budget, marked_end, decided_by_mark, b_end, list_end, again_end};

use tcap_words::{HeadWord, QualityWord};
use word_map::spk_nums::{CoreNo, Reply, StageEnd, Value};

// The value of a reply that is decided where head B is still the same.
#[inline]
pub(crate) fn again_value(same: bool, reply: &Reply) -> Value
    ensures { result ≡ again_value same reply.now }
{
    if same {
        value_of(reply)
    } else {
        Value::Nothing
    }
}

// The value of a reply.
#[inline]
pub(crate) fn value_of(reply: &Reply) -> Value
    ensures { result ≡ value_of reply.now }
{
    match reply {
        Reply::Ok(value) => *value,
        _ => Value::Nothing,
    }
}

// What the compare that marks head A leads to: a budget that is too small is told there.
#[inline]
pub(crate) fn marked_end(same: bool, short: bool, budget: u32) -> StageEnd<Value>
    ensures { result ≡ marked_end same short budget }
{
    if !same {
        StageEnd::Refuse(Reply::Raced)
    } else if short {
        StageEnd::Decided(Reply::Short(budget))
    } else {
        StageEnd::Going
    }
}

// What the load of head B leads to.
#[inline]
pub(crate) fn b_end(shown: &Option<HeadWord>) -> StageEnd<Value>
    ensures { result ≡ b_end shown.now }
{
    match shown {
        None => StageEnd::Decided(Reply::Raced),
        Some(head) => decided_by_mark(head.mark),
    }
}

// What a head B leads to that has this mark.
#[inline]
pub(crate) fn decided_by_mark(mark: Option<CoreNo>) -> StageEnd<Value>
    ensures { result ≡ decided_by_mark mark }
{
    match mark {
        None => StageEnd::Going,
        Some(by) => StageEnd::Decided(Reply::Busy(by)),
    }
}

// What the load of a word of a list leads to.
#[inline]
pub(crate) fn list_end(shown: &Option<QualityWord>) -> StageEnd<Value>
    ensures { result ≡ list_end shown.now }
{
    match shown {
        None => StageEnd::Decided(Reply::Raced),
        Some(_) => StageEnd::Going,
    }
}

// What the deciding step leads to, where head B is still the same or not.
#[inline]
pub(crate) fn again_end(same: bool, reply: &Reply) -> StageEnd<Value>
    ensures { result ≡ again_end same reply.now }
{
    if same {
        StageEnd::Decided(*reply)
    } else {
        StageEnd::Decided(Reply::Raced)
    }
}
