//! The calls of sessions with their kinds, in the order in which a worker takes them.
ghost use Rattle.std.specs.Prelude.{◌≡◌, ◌<◌, ◌^◌, All, length, map, reverse, IfOk};
ghost use Rattle.txg_core.specs.Rules.{IsLawful};
ghost use Rattle.sessions.specs.Runs.{in_order};

use std::alloc::Global;
use std::marker::Model;
use txg_core::{Kind, Stated};
use zc_io::NoMemory;
use zp_names::Sequence;

/// A call with its kind. Contracts see the call.
#[derive(Drop)]
pub(crate) struct Asked<O: Stated> {
    kind: Kind,
    call: O::Call,
}

impl<O: Stated> Model for Asked<O> {
    ghost use Rattle.std.specs.Prelude.{◌≡◌};

    ghost Value = { O.Call };

    ghost view = { λ asked. asked.call };

    ghost invariant = { λ asked. O.kind_of asked.call ≡ asked.kind };
}

impl<O: Stated> Asked<O> {
    fn new(object: &O, call: O::Call) -> Asked<O>
        ensures { result ≡ call }
    {
        let kind = object.kind(&call);
        Asked { kind, call }
    }

    pub(crate) fn kind(&self) -> Kind
        ensures { result ≡ O.kind_of self.now }
    {
        self.kind
    }

    pub(crate) fn into_call(self) -> O::Call
        ensures { result ≡ self }
    {
        let Asked { kind: _, call } = self;
        call
    }
}

/// The object keeps the laws of its trait.
pub(crate) fn is_lawful<O: Stated>(object: &O)
    ensures { IsLawful (O.means object.now).rules }
{
    let _ = object;
}

/// How many calls each session has.
pub(crate) fn counts_of<C: Drop>(
    alloc: Global,
    sessions: &[Sequence<C>],
) -> Result<Vec<u32>, NoMemory>
    requires { All (λ calls. length calls < 2 ^ 32) sessions.now }
    ensures { IfOk result (λ counts. counts.items ≡ map length sessions.now) }
{
    let mut counts = Vec::new(alloc);
    for calls in sessions {
        counts.push(calls.as_slice().len() as u32)?;
    }
    Ok(counts)
}

/// The calls of a session, the last one first.
fn last_first<O: Stated>(
    alloc: Global,
    object: &O,
    calls: Sequence<O::Call>,
) -> Result<Vec<Asked<O>>, NoMemory>
    ensures { IfOk result (λ asked. reverse asked.items ≡ calls) }
{
    let mut calls = calls.into_vec();
    let mut asked = Vec::new(alloc);
    while let Some(call) = calls.pop() {
        asked.push(Asked::new(object, call))?;
    }
    Ok(asked)
}

/// The calls of each session, the last one first.
pub(crate) fn each_last_first<O: Stated>(
    alloc: Global,
    object: &O,
    mut sessions: Vec<Sequence<O::Call>>,
) -> Result<Vec<Vec<Asked<O>>>, NoMemory>
    ensures { IfOk result (λ asked. in_order asked.items ≡ sessions.items) }
{
    let mut asked = Vec::new(alloc);
    while let Some(calls) = sessions.pop() {
        let calls = last_first(alloc, object, calls)?;
        let Ok(()) = asked.insert(0, calls) else {
            return Err(NoMemory);
        };
    }
    Ok(asked)
}
