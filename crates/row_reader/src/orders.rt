//! The orders for which the items of an order stand.
//!
//! An item of a script stands for itself. `0*5` is five single steps of core 0; `0*4..7` is each number of them from 4 to 6, a row for
//! each. `0*4|1*4` is each order of four single steps of core 0 and four of core 1; then `where 0:2<1:3 ..` after the items takes those
//! orders alone in which core 0's second step of the four comes before core 1's third one, and so for each such word, which may have
//! more than two. `in N` at the end says how many orders there are.

use crate::fault::Fault;
use crate::texts::{at, number};
use std::alloc::Global;

// So many single steps of a core, as items.
fn add_steps(text: &mut String, core: &str, steps: u32) -> Result<(), Fault> {
    for _ in 0..steps {
        text.push_str(core)?;
        text.push(' ')?;
    }
    Ok(())
}

// The numbers of steps of a word, and the one after them: `5` or `4..7`.
fn range_of(alloc: Global, word: &str) -> Result<(u32, u32), Fault> {
    match word.split_once("..") {
        Some((from, to)) => Ok((number(alloc, from)?, number(alloc, to)?)),
        None => {
            let only = number(alloc, word)?;
            Ok((only, only.wrapping_add(1)))
        }
    }
}

// Each number of steps of a word such as `0*5` or `0*4..7`, as items.
fn stretches(alloc: Global, core: &str, steps: &str) -> Result<Vec<String>, Fault> {
    let mut choices = Vec::new(alloc);
    let (from, to) = range_of(alloc, steps)?;
    for number in from..to {
        let mut text = String::new(alloc);
        add_steps(&mut text, core, number)?;
        choices.push(text)?;
    }
    Ok(choices)
}

// How many steps of an order are this core's.
fn made(order: &str, core: char) -> usize {
    order.chars().filter(|step| *step == core).count()
}

// Each order, with one step more of a core that has not made so many.
fn longer(
    alloc: Global,
    orders: &Vec<String>,
    zeros: usize,
    ones: usize,
) -> Result<Vec<String>, Fault> {
    let mut more = Vec::new(alloc);
    for order in orders {
        for (core, all) in [('0', zeros), ('1', ones)] {
            if made(order.as_str(), core) < all {
                let mut next = String::from_str(alloc, order)?;
                next.push(core)?;
                more.push(next)?;
            }
        }
    }
    Ok(more)
}

// Where a step such as `0:2` stands in an order; none where it does not.
fn place_of(order: &str, step: &str) -> Option<usize> {
    let (core, which) = step.split_once(':')?;
    let which = which.parse::<usize>().ok()?;
    let core = core.chars().next()?;
    order
        .char_indices()
        .filter(|item| item.1 == core)
        .map(|item| item.0)
        .nth(which.wrapping_sub(1))
}

// Whether the steps of a word such as `0:2<1:3` follow each other in an order.
fn follows(order: &str, word: &str) -> bool {
    let mut before = None;
    for step in word.split('<') {
        let place = place_of(order, step);
        if place.is_none() || place <= before {
            return false;
        }
        before = place;
    }
    true
}

// Each order of the steps of two cores in which those of these words follow each other, as items.
fn mixed(alloc: Global, zeros: &str, ones: &str, words: &str) -> Result<Vec<String>, Fault> {
    let (Some(zeros), Some(ones)) = (zeros.strip_prefix("0*"), ones.strip_prefix("1*")) else {
        return at(alloc, zeros);
    };
    let (zeros, ones) = (number(alloc, zeros)?, number(alloc, ones)?);
    let mut orders = Vec::new(alloc);
    orders.push(String::new(alloc))?;
    for _ in 0..zeros.wrapping_add(ones) {
        orders = longer(alloc, &orders, zeros as usize, ones as usize)?;
    }
    let mut choices = Vec::new(alloc);
    for order in &orders {
        if words.split_whitespace().all(|word| follows(order, word)) {
            let mut text = String::new(alloc);
            for core in order.chars() {
                text.push(core)?;
                text.push(' ')?;
            }
            choices.push(text)?;
        }
    }
    Ok(choices)
}

// What an item stands for.
fn choices_of(alloc: Global, item: &str, words: &str) -> Result<Vec<String>, Fault> {
    if let Some((zeros, ones)) = item.split_once('|') {
        return mixed(alloc, zeros, ones, words);
    }
    if let Some((core, steps)) = item.split_once('*') {
        return stretches(alloc, core, steps);
    }
    let mut choices = Vec::new(alloc);
    let mut text = String::from_str(alloc, item)?;
    text.push(' ')?;
    choices.push(text)?;
    Ok(choices)
}

/// The orders for which these items stand.
pub fn orders_of(alloc: Global, items: &str) -> Result<Vec<String>, Fault> {
    let (all, count) = match items.split_once(" in ") {
        Some((all, count)) => (all, Some(number(alloc, count)?)),
        None => (items, None),
    };
    let (all, words) = all.split_once(" where ").unwrap_or((all, ""));
    let mut orders = Vec::new(alloc);
    orders.push(String::new(alloc))?;
    for item in all.split_whitespace() {
        let choices = choices_of(alloc, item, words)?;
        let mut longer = Vec::new(alloc);
        for order in &orders {
            for choice in &choices {
                let next = format!(in alloc; "{order}{choice}")?;
                longer.push(next)?;
            }
        }
        orders = longer;
    }
    match count {
        Some(count) if orders.len() != count as usize => at(alloc, items),
        _ if orders.is_empty() => at(alloc, items),
        _ => Ok(orders),
    }
}
