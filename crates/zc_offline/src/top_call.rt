//! The top call.

ghost use Rattle.std.specs.Prelude.{◌≡◌, ◌≢◌, ◌≤◌, ◌↔◌, ◌⊎◌, ℕ, List, length, All, Some, None, IfSome, IfOk, IfErr, MatchResult};
ghost use Rattle.std.specs.Io.KnownBytes.{Keeps};
ghost use Rattle.zc_io.specs.Causes.{Rose};
ghost use Rattle.zp_tree.specs.WellFormed.{IsWellFormed};
ghost use Rattle.zp_calls.specs.Names.{HasValidNames};
ghost use Rattle.zc_doc.specs.Programs.{AreNamed};
ghost use Rattle.zc_doc.specs.Document.{most_bytes, most_calls, contents_of};
ghost use Rattle.zc_doc.specs.declared.error.DocError.{DocError as DocErrorOf};
ghost use Rattle.zc_offline.specs.Words.{asked};
ghost use Rattle.zc_offline.specs.Headline.{document_read, need_of, IsOutput, IsAccepted, DoesSchedule, IsRefusedFor, IsStopped, HasRead, Explains, Writes, WritesFront};
ghost use Rattle.zc_offline.specs.declared.words.Asked.{Asked as AskedOf};

use crate::Status;
use crate::load_results::check_output;
use crate::replay::{Halt, replay};
use crate::status::refusal_status;
use crate::words::{Asked, read_words};
use pool_object::{Pool, histories_keep_trees_well_formed};
use std::alloc::Global;
use zc_doc::{DocError, Document, MOST_BYTES, read_document};
use zc_io::{ReadFailure, Sink, Source, read_all, write_all};
use zc_reply::render;

/// Reads the document that is asked for, or tells how a run without one ends.
fn read_input(alloc: Global, asked: &Asked, bytes: &[u8]) -> Result<Document, Status>
    requires { length bytes.now ≤ most_bytes }
    ensures document { IfOk result (λ document. document_read (need_of asked.now) bytes.now ≡ Ok (contents_of document)) }
    ensures well { IfOk result (λ document. IsWellFormed document.tree.tree) }
    ensures programs { IfOk result (λ document. AreNamed document.programs) }
    ensures calls { IfOk result (λ document. All (λ calls. length calls ≤ most_calls) document.sessions) }
    ensures names { IfOk result (λ document. All (All HasValidNames) document.sessions) }
    ensures refused { IfErr result (λ status. Explains asked.now bytes.now status) }
{
    match read_document(alloc, bytes, asked.need()) {
        Ok(document) => Ok(document),
        Err(error) => Err(refusal_status(error)),
    }
}

/// The output of the run that a document's schedule asks for, or why there is none.
fn replay_document(alloc: Global, bytes: &[u8]) -> Result<Vec<u8>, Status>
    requires { length bytes.now ≤ most_bytes }
    ensures { MatchResult result (λ output. IsOutput Asked.Replay bytes.now output.items) (λ status. Explains Asked.Replay bytes.now status) }
{
    let document = read_input(alloc, &Asked::Replay, bytes)?;
    let run = match replay(
        alloc,
        Pool::new(document.tree, document.now),
        document.sessions.as_slice(),
        document.schedule.as_slice(),
    ) {
        Ok(run) => run,
        Err(Halt::NotEnabled(event)) => return Err(Status::NotEnabled(event)),
        Err(Halt::NoMemory) => return Err(Status::NoMemory),
    };
    histories_keep_trees_well_formed();
    let core = &run.core;
    let rendered = render(
        alloc,
        core.journal(),
        run.replies.as_slice(),
        core.object().tree(),
        core.synced(),
    );
    match rendered {
        Ok(output) => Ok(output),
        Err(_) => Err(Status::NoMemory),
    }
}

/// The output of a check of the document, or why there is none.
fn check_document(alloc: Global, bytes: &[u8]) -> Result<Vec<u8>, Status>
    requires { length bytes.now ≤ most_bytes }
    ensures { MatchResult result (λ output. IsOutput Asked.Check bytes.now output.items) (λ status. Explains Asked.Check bytes.now status) }
{
    let document = read_input(alloc, &Asked::Check, bytes)?;
    match check_output(alloc, &document) {
        Ok(output) => Ok(output),
        Err(_) => Err(Status::NoMemory),
    }
}

/// What is written for a document, or why there is nothing to write.
fn output(alloc: Global, asked: &Asked, bytes: &[u8]) -> Result<Vec<u8>, Status>
    requires { length bytes.now ≤ most_bytes }
    ensures { MatchResult result (λ output. IsOutput asked.now bytes.now output.items) (λ status. Explains asked.now bytes.now status) }
{
    match asked {
        Asked::Replay => replay_document(alloc, bytes),
        Asked::Check => check_document(alloc, bytes),
    }
}

/// Does what is asked, from the source to the sink.
fn serve<S: Source, K: Sink>(alloc: Global, asked: &Asked, source: &mut S, sink: &mut K) -> Status
    ensures done { result ≡ Status.Ok → IfSome (S.left source.old) (λ input. Writes asked.now (K.written sink.old) (K.written sink.new) input) }
    ensures usage { result ≢ Status.Usage }
    ensures document { (e : DocErrorOf) → result ≡ Status.BadDocument e → IfSome (S.left source.old) (λ input. IsRefusedFor (need_of asked.now) input e) }
    ensures schedule { (i : ℕ) → result ≡ Status.NotEnabled i → DoesSchedule asked.now }
    ensures event { (i : ℕ) → result ≡ Status.NotEnabled i → IfSome (S.left source.old) (λ input. IsStopped asked.now input i) }
    ensures refused { (input : List ℕ) (e : DocErrorOf) → S.left source.old ≡ Some input → IsRefusedFor (need_of asked.now) input e →
        ¬ Rose (S.faults source.old) (S.faults source.new) → (result ≡ Status.BadDocument e) ⊎ (result ≡ Status.NoMemory) }
    ensures stopped { (input : List ℕ) (i : ℕ) → S.left source.old ≡ Some input → IsStopped asked.now input i →
        ¬ Rose (S.faults source.old) (S.faults source.new) → (result ≡ Status.NotEnabled i) ⊎ (result ≡ Status.NoMemory) }
    ensures ended { HasRead result (S.left source.old) (S.left source.new) }
    ensures read { result ≡ Status.ReadFault → Rose (S.faults source.old) (S.faults source.new) }
    ensures write { result ≡ Status.WriteFault → Rose (K.faults sink.old) (K.faults sink.new) }
    ensures prefix { result ≡ Status.WriteFault → IfSome (S.left source.old)
        (λ input. WritesFront asked.now (K.written sink.old) (K.written sink.new) input) }
    ensures quiet { result ≢ Status.Ok → result ≢ Status.WriteFault → Keeps (K.written sink.old) (K.written sink.new) }
    ensures complete { (input : List ℕ) → S.left source.old ≡ Some input → IsAccepted asked.now input →
        ¬ Rose (S.faults source.old) (S.faults source.new) → ¬ Rose (K.faults sink.old) (K.faults sink.new) →
        (result ≡ Status.Ok) ⊎ (result ≡ Status.NoMemory) }
{
    let bytes = match read_all(alloc, source, MOST_BYTES) {
        Ok(bytes) => bytes,
        Err(ReadFailure::Fault) => return Status::ReadFault,
        Err(ReadFailure::TooLong(_)) => return Status::BadDocument(DocError::TooLong(
            MOST_BYTES + 1,
        )),
        Err(ReadFailure::NoMemory) => return Status::NoMemory,
    };
    let output = match output(alloc, asked, bytes.as_slice()) {
        Ok(output) => output,
        Err(status) => return status,
    };
    match write_all(sink, output.as_slice()) {
        Ok(()) => Status::Ok,
        Err(_) => Status::WriteFault,
    }
}

/// Does what the words ask, from the source to the sink.
///
/// The order of refusals is usage, reading, document, schedule, writing. Want of memory may come in
/// place of any of them, and never after a byte was written.
pub fn offline<S: Source, K: Sink>(
    alloc: Global,
    words: &[String],
    source: &mut S,
    sink: &mut K,
) -> Status
    // Under Ok all of the input is what the command needs, and its whole output was written: for a
    // replay the schedule of the document is a legal run of it, and what was written is the output
    // of this run; for a check it tells of each of its programs whether it loads, and how many
    // records its tree has.
    ensures done { (a : AskedOf) → asked words.now ≡ Some a → result ≡ Status.Ok →
        IfSome (S.left source.old) (λ input. Writes a (K.written sink.old) (K.written sink.new) input) }

    // Usage comes exactly where the words ask for nothing that is done; then nothing is read.
    ensures usage { (result ≡ Status.Usage) ↔ (asked words.now ≡ None) }
    ensures unread { result ≡ Status.Usage → source.new ≡ source.old }

    // The first refusal of the document, or the event of its schedule that is refused. Only a command
    // that does the events of a schedule refuses one.
    ensures document { (a : AskedOf) (e : DocErrorOf) → asked words.now ≡ Some a → result ≡ Status.BadDocument e →
        IfSome (S.left source.old) (λ input. IsRefusedFor (need_of a) input e) }
    ensures schedule { (a : AskedOf) (i : ℕ) → asked words.now ≡ Some a → result ≡ Status.NotEnabled i → DoesSchedule a }
    ensures event { (a : AskedOf) (i : ℕ) → asked words.now ≡ Some a → result ≡ Status.NotEnabled i →
        IfSome (S.left source.old) (λ input. IsStopped a input i) }

    // Both come for sure where their cause is there, but for want of memory.
    ensures refused { (a : AskedOf) (input : List ℕ) (e : DocErrorOf) → asked words.now ≡ Some a → S.left source.old ≡ Some input → IsRefusedFor (need_of a) input e →
        ¬ Rose (S.faults source.old) (S.faults source.new) → (result ≡ Status.BadDocument e) ⊎ (result ≡ Status.NoMemory) }
    ensures stopped { (a : AskedOf) (input : List ℕ) (i : ℕ) → asked words.now ≡ Some a → S.left source.old ≡ Some input → IsStopped a input i →
        ¬ Rose (S.faults source.old) (S.faults source.new) → (result ≡ Status.NotEnabled i) ⊎ (result ≡ Status.NoMemory) }

    // The whole input is read before it is judged; of one that is too long the first bytes.
    ensures ended { HasRead result (S.left source.old) (S.left source.new) }

    // A fault comes only from the source or the sink.
    ensures read { result ≡ Status.ReadFault → Rose (S.faults source.old) (S.faults source.new) }
    ensures write { result ≡ Status.WriteFault → Rose (K.faults sink.old) (K.faults sink.new) }
    ensures prefix { (a : AskedOf) → asked words.now ≡ Some a → result ≡ Status.WriteFault → IfSome (S.left source.old)
        (λ input. WritesFront a (K.written sink.old) (K.written sink.new) input) }
    ensures quiet { result ≢ Status.Ok → result ≢ Status.WriteFault → Keeps (K.written sink.old) (K.written sink.new) }

    // Where nothing is to be refused, all is written, or there was no memory.
    ensures complete { (a : AskedOf) (input : List ℕ) → asked words.now ≡ Some a → S.left source.old ≡ Some input → IsAccepted a input →
        ¬ Rose (S.faults source.old) (S.faults source.new) → ¬ Rose (K.faults sink.old) (K.faults sink.new) →
        (result ≡ Status.Ok) ⊎ (result ≡ Status.NoMemory) }
{
    match read_words(words) {
        Some(asked) => serve(alloc, &asked, source, sink),
        None => Status::Usage,
    }
}
