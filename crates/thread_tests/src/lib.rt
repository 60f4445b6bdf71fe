//! Tests of cores in threads: what the calls of a kernel and of a table of endpoints answer.
//!
//! See docs/CLAIMS.md, 'Crate by crate'.
#![tactic(auto)]

#[cfg(test)]
mod endpoints;
#[cfg(test)]
mod kernels;
