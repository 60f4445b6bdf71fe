//! Lists whose keys stand from the start: the value at a key is the item at that position. They are read and changed without
//! memory.

ghost use Rattle.std.specs.Prelude.{◌≡◌, ◌≢◌, ◌+◌, ℕ, Some, IsSome, OnOk, length};
ghost use Rattle.seq_state.specs.Maps.{at};

use kernel_invariant::spk_nums::Memory;

/// What the list has at a key; None where the key does not stand.
pub fn held<V: Copy>(map: &Vec<V>, key: u16) -> Option<V>
    ensures { result ≡ at map.now.items key }
{
    map.get(usize::from(key)).copied()
}

/// What the list has at a key that stands.
#[tactic(auto, using(crate::proofs::Lists::stands_within, crate::proofs::Lists::read_here))]
pub fn standing<V: Copy>(map: &Vec<V>, key: u16) -> &V
    requires { IsSome (at map.now.items key) }
    ensures { at map.now.items key ≡ Some result.now }
{
    &map[usize::from(key)]
}

/// Puts a value at a key that stands; changes nothing where it does not.
#[tactic(auto, using(crate::proofs::Lists::stands_within, crate::proofs::Lists::set_here, crate::proofs::Lists::set_apart))]
pub fn write_at<V: Copy>(map: &mut Vec<V>, key: u16, value: V)
    ensures here { IsSome (at map.old.items key) → at map.new.items key ≡ Some value }
    ensures others { (q : ℕ) → q ≢ key → at map.new.items q ≡ at map.old.items q }
{
    let index = usize::from(key);
    if index < map.len() {
        map[index] = value;
    }
}

/// Puts a value at the next key, which then stands.
#[tactic(auto, using(crate::proofs::Lists::push_here, crate::proofs::Lists::push_apart, crate::proofs::Lists::push_longer))]
pub fn insert_at<V: Copy>(map: &mut Vec<V>, key: u16, value: V) -> Result<(), Memory>
    requires { length map.old.items ≡ key }
    ensures here { OnOk result (at map.new.items key ≡ Some value) }
    ensures others { OnOk result ((q : ℕ) → q ≢ key → at map.new.items q ≡ at map.old.items q) }
    ensures next { OnOk result (length map.new.items ≡ key + 1) }
{
    match map.push(value) {
        Ok(_) => Ok(()),
        Err(_) => Err(Memory),
    }
}
