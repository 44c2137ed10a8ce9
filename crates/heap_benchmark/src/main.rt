//! Works on the tables of a program's heap as often as its words say, so that `tools/bench-heap` can time it.
#![tactic(auto)]

ghost use Rattle.std.specs.Prelude.{◌≡◌, ◌<◌};

use lua_values::HeapFault;
use std::alloc::Global;
use std::env;
use std::marker::Brand;
use std::process::ExitCode;
use std::sync::ledger::{Blank, Ledger};
use zc_budget::Steps;

mod work;

use work::{Work, work_of};

/// The words after the program's name: a kind of work, how many keys a table gets, and how many rounds there are.
fn words_of(rt: &HostRuntime, alloc: Global) -> Option<Work> {
    let mut words = env::args(rt).ok()?.skip(1);
    let kind = words.next()?;
    let keys = words.next()?;
    let rounds = words.next()?;
    work_of(kind.as_str(), keys.as_str(), rounds.as_str())
}

/// Does the work, with a count of steps of its own.
fn done<L: Ledger>(alloc: Global, work: Work, blank: Blank) -> Result<i64, HeapFault>
    requires name { blank.name ≡ L.name }
    requires parts { blank.parts ≡ L.parts }
    requires some { 0 < blank.parts }
{
    let mut steps: Steps<L> = Steps::new(blank);
    work.done(alloc, &mut steps)
}

fn main(rt: HostRuntime) -> ExitCode {
    let alloc = rt.alloc();
    let Some(work) = words_of(&rt, alloc) else {
        let _ = eprintln!(rt; "usage: heap_benchmark append|change|get|walk|border KEYS ROUNDS");
        return ExitCode::from(2);
    };
    match done::<Brand>(alloc, work, Blank::new(1)) {
        Ok(number) => {
            let _ = println!(rt; "{number}");
            ExitCode::SUCCESS
        }
        Err(_) => ExitCode::FAILURE,
    }
}
