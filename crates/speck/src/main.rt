//! The program `speck`: standard input, standard output and the words of the command line, handed
//! to the top call. Its exit status is the number of the call's status.
//!
//! See the README, 'Commands'.
#![tactic(auto)]

ghost use Rattle.std.specs.Prelude.{◌≡◌, [], drop, IfOk, IsErr, IsOkUnless};
ghost use Rattle.std.specs.Process.{exit_status};
ghost use Rattle.std.specs.Vec.Iter.{into_iter_items};
ghost use Rattle.speck_run.specs.Top.{status_number};
ghost use Rattle.speck_run.specs.declared.top.Status.TheVariants as statuses;

use byte_ends::{StdSink, StdSource};
use speck_run::{FreeGate, Status, speck};
use std::alloc::{AllocError, Global};
use std::env::{self, Args};
use std::io;
use std::process::ExitCode;

// The arguments after the first.
fn after_first(alloc: Global, mut args: Args) -> Result<Vec<String>, AllocError>
    ensures { IfOk result (λ words. words.items ≡ drop 1 (into_iter_items args)) }
{
    match args.next() {
        Some(_) => args.collect(alloc),
        None => Ok(Vec::new(alloc)),
    }
}

// The words after the program's name, which is the first argument; none, where some argument is no
// text. Fails only where memory runs out.
fn words_after_name(alloc: Global, args: io::Result<Args>) -> Result<Vec<String>, Status>
    ensures words { IfOk args (λ given. IfOk result (λ words. words.items ≡ drop 1 (into_iter_items given))) }
    ensures no_text { IsErr args → IfOk result (λ words. words.items ≡ []) }
    ensures memory { IsOkUnless result statuses.Memory }
{
    match args {
        Ok(args) => after_first(alloc, args).map_err(|_| Status::Memory),
        Err(_) => Ok(Vec::new(alloc)),
    }
}

// The exit code that tells the number of the status.
fn exit_code(status: Status) -> ExitCode
    ensures { exit_status result ≡ status_number status }
{
    ExitCode::from(status.number())
}

fn main(rt: HostRuntime) -> ExitCode {
    let mut source = StdSource::new(rt.stdin());
    let mut sink = StdSink::new(rt.stdout());
    exit_code(match words_after_name(rt.alloc(), env::args(&rt)) {
        Ok(words) => speck(&rt, rt.alloc(), &FreeGate, &words, &mut source, &mut sink),
        Err(status) => status,
    })
}
