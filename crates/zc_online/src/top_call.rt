//! The top call that may wait.
ghost use Rattle.std.specs.Prelude.{◌≡◌, ◌≢◌, ◌↔◌, ◌⊎◌, ℕ, List, Some, None, true, false, IfSome, IsTrue};
ghost use Rattle.std.specs.Io.KnownBytes.{Keeps};
ghost use Rattle.zc_io.specs.Causes.{Rose};
ghost use Rattle.zc_doc.specs.declared.document.Need.{Need as NeedOf};
ghost use Rattle.zc_doc.specs.declared.error.DocError.{DocError as DocErrorOf};
ghost use Rattle.zc_offline.specs.declared.words.Asked.{Asked as AskedOf};
ghost use Rattle.zc_offline.specs.Words.{asked};
ghost use Rattle.zc_offline.specs.Headline.{need_of, IsAccepted, DoesSchedule, IsRefusedFor, IsStopped, HasRead, Writes, WritesFront};
ghost use Rattle.zc_online.specs.RunOutput.{asks_run, WritesRun, WritesRunFront};

use crate::running::run_document;
use sessions::Gate;
use std::alloc::Global;
use std::sync::Wait;
use std::thread::Threads;
use zc_doc::{DocError, MOST_BYTES};
use zc_io::{ReadFailure, Sink, Source, read_all, write_all};
use zc_offline::{Status, offline};

/// Whether the words ask for a run.
fn asks_run(words: &[String]) -> bool
    ensures asks { result ≡ asks_run words.now }
    ensures no_other { IsTrue result → asked words.now ≡ None }
{
    match words {
        [name] => name.as_str() == "run",
        _ => false,
    }
}

/// Runs the sessions of the document that the source gives, each on a thread of its own, and writes
/// the output with the journal that happened.
fn run<S: Source, K: Sink, G: Gate + Sync, R: Threads + Wait + Sync>(
    rt: &R,
    alloc: Global,
    source: &mut S,
    sink: &mut K,
    gate: &G,
) -> Status
    ensures done { result ≡ Status.Ok → IfSome (S.left source.old) (λ input. WritesRun (K.written sink.old) (K.written sink.new) input) }
    ensures usage { result ≢ Status.Usage }
    ensures schedule { (i : ℕ) → result ≢ Status.NotEnabled i }
    ensures document { (e : DocErrorOf) → result ≡ Status.BadDocument e → IfSome (S.left source.old) (λ input. IsRefusedFor NeedOf.Any input e) }
    ensures refused { (input : List ℕ) (e : DocErrorOf) → S.left source.old ≡ Some input → IsRefusedFor NeedOf.Any input e →
        ¬ Rose (S.faults source.old) (S.faults source.new) → (result ≡ Status.BadDocument e) ⊎ (result ≡ Status.NoMemory) }
    ensures ended { HasRead result (S.left source.old) (S.left source.new) }
    ensures read { result ≡ Status.ReadFault → Rose (S.faults source.old) (S.faults source.new) }
    ensures write { result ≡ Status.WriteFault → Rose (K.faults sink.old) (K.faults sink.new) }
    ensures prefix { result ≡ Status.WriteFault → IfSome (S.left source.old) (λ input. WritesRunFront (K.written sink.old) (K.written sink.new) input) }
    ensures quiet { result ≢ Status.Ok → result ≢ Status.WriteFault → Keeps (K.written sink.old) (K.written sink.new) }
    ensures complete { (input : List ℕ) → S.left source.old ≡ Some input → IsAccepted AskedOf.Check input →
        ¬ Rose (S.faults source.old) (S.faults source.new) → ¬ Rose (K.faults sink.old) (K.faults sink.new) →
        (result ≡ Status.Ok) ⊎ (result ≡ Status.NoMemory) }
{
    let bytes = match read_all(alloc, source, MOST_BYTES) {
        Ok(bytes) => bytes,
        Err(ReadFailure::Fault) => return Status::ReadFault,
        Err(ReadFailure::TooLong(_)) => return Status::BadDocument(DocError::TooLong(
            MOST_BYTES + 1,
        )),
        Err(ReadFailure::NoMemory) => return Status::NoMemory,
    };
    let output = match run_document(rt, alloc, bytes.as_slice(), gate) {
        Ok(output) => output,
        Err(status) => return status,
    };
    match write_all(sink, output.as_slice()) {
        Ok(()) => Status::Ok,
        Err(_) => Status::WriteFault,
    }
}

/// Does what the words ask, from the source to the sink. `run` may wait, and may wait for good; what
/// is said of it is said if it returns. All other words are handed to `offline`, which returns.
pub fn zcpd<S: Source, K: Sink, G: Gate + Sync, R: Threads + Wait + Sync>(
    rt: &R,
    alloc: Global,
    words: &[String],
    source: &mut S,
    sink: &mut K,
    gate: &G,
) -> Status
    // Under Ok of `run` all of the input is a document, and the output of a run of it was written:
    // a legal one, in which each session has ended all its calls.
    ensures ran { asks_run words.now ≡ true → result ≡ Status.Ok → IfSome (S.left source.old) (λ input. WritesRun (K.written sink.old) (K.written sink.new) input) }

    // Of a run: the first refusal of the document, which comes for sure where it is there, but for
    // want of memory; no event of a schedule is refused.
    ensures run_document { (e : DocErrorOf) → asks_run words.now ≡ true → result ≡ Status.BadDocument e → IfSome (S.left source.old) (λ input. IsRefusedFor NeedOf.Any input e) }
    ensures run_refused { (input : List ℕ) (e : DocErrorOf) → asks_run words.now ≡ true → S.left source.old ≡ Some input → IsRefusedFor NeedOf.Any input e →
        ¬ Rose (S.faults source.old) (S.faults source.new) → (result ≡ Status.BadDocument e) ⊎ (result ≡ Status.NoMemory) }
    ensures run_schedule { (i : ℕ) → asks_run words.now ≡ true → result ≢ Status.NotEnabled i }
    ensures run_prefix { asks_run words.now ≡ true → result ≡ Status.WriteFault → IfSome (S.left source.old) (λ input. WritesRunFront (K.written sink.old) (K.written sink.new) input) }
    ensures run_complete { (input : List ℕ) → asks_run words.now ≡ true → S.left source.old ≡ Some input → IsAccepted AskedOf.Check input →
        ¬ Rose (S.faults source.old) (S.faults source.new) → ¬ Rose (K.faults sink.old) (K.faults sink.new) →
        (result ≡ Status.Ok) ⊎ (result ≡ Status.NoMemory) }

    // Usage comes exactly where the words ask neither for a run nor for what `offline` does; then
    // nothing is read.
    ensures usage { (result ≡ Status.Usage) ↔ ((asked words.now ≡ None) × (asks_run words.now ≡ false)) }
    ensures unread { result ≡ Status.Usage → source.new ≡ source.old }

    // All else is as of `offline`.
    ensures done { (a : AskedOf) → asked words.now ≡ Some a → result ≡ Status.Ok →
        IfSome (S.left source.old) (λ input. Writes a (K.written sink.old) (K.written sink.new) input) }
    ensures document { (a : AskedOf) (e : DocErrorOf) → asked words.now ≡ Some a → result ≡ Status.BadDocument e →
        IfSome (S.left source.old) (λ input. IsRefusedFor (need_of a) input e) }
    ensures schedule { (a : AskedOf) (i : ℕ) → asked words.now ≡ Some a → result ≡ Status.NotEnabled i → DoesSchedule a }
    ensures event { (a : AskedOf) (i : ℕ) → asked words.now ≡ Some a → result ≡ Status.NotEnabled i →
        IfSome (S.left source.old) (λ input. IsStopped a input i) }
    ensures refused { (a : AskedOf) (input : List ℕ) (e : DocErrorOf) → asked words.now ≡ Some a → S.left source.old ≡ Some input → IsRefusedFor (need_of a) input e →
        ¬ Rose (S.faults source.old) (S.faults source.new) → (result ≡ Status.BadDocument e) ⊎ (result ≡ Status.NoMemory) }
    ensures stopped { (a : AskedOf) (input : List ℕ) (i : ℕ) → asked words.now ≡ Some a → S.left source.old ≡ Some input → IsStopped a input i →
        ¬ Rose (S.faults source.old) (S.faults source.new) → (result ≡ Status.NotEnabled i) ⊎ (result ≡ Status.NoMemory) }
    ensures ended { HasRead result (S.left source.old) (S.left source.new) }
    ensures read { result ≡ Status.ReadFault → Rose (S.faults source.old) (S.faults source.new) }
    ensures write { result ≡ Status.WriteFault → Rose (K.faults sink.old) (K.faults sink.new) }
    ensures prefix { (a : AskedOf) → asked words.now ≡ Some a → result ≡ Status.WriteFault → IfSome (S.left source.old)
        (λ input. WritesFront a (K.written sink.old) (K.written sink.new) input) }
    ensures quiet { result ≢ Status.Ok → result ≢ Status.WriteFault → Keeps (K.written sink.old) (K.written sink.new) }
    ensures complete { (a : AskedOf) (input : List ℕ) → asked words.now ≡ Some a → S.left source.old ≡ Some input → IsAccepted a input →
        ¬ Rose (S.faults source.old) (S.faults source.new) → ¬ Rose (K.faults sink.old) (K.faults sink.new) →
        (result ≡ Status.Ok) ⊎ (result ≡ Status.NoMemory) }
{
    if asks_run(words) {
        return run(rt, alloc, source, sink, gate);
    }
    offline(alloc, words, source, sink)
}
