//! The output of a run of a document's sessions on threads.
ghost use Rattle.std.specs.Prelude.{◌≡◌, ◌≤◌, length, All, IfOk, IfErr, Ok, MatchResult};
ghost use Rattle.zp_tree.specs.WellFormed.{IsWellFormed};
ghost use Rattle.zp_calls.specs.Names.{HasValidNames};
ghost use Rattle.zc_doc.specs.declared.document.Need.{Need as NeedOf};
ghost use Rattle.zc_doc.specs.Document.{most_bytes, most_calls, most_sessions, contents_of};
ghost use Rattle.zc_offline.specs.declared.words.Asked.{Asked};
ghost use Rattle.zc_offline.specs.Status.{refusal_status};
ghost use Rattle.zc_offline.specs.Headline.{document_read, Explains};
ghost use Rattle.zc_online.specs.RunOutput.{IsRunOutput};

use pool_object::{Pool, histories_keep_trees_well_formed};
use sessions::{Gate, run_sessions};
use std::alloc::Global;
use std::sync::Wait;
use std::thread::Threads;
use zc_doc::{DocError, Document, Need, read_document};
use zc_offline::Status;
use zc_reply::render;

/// How a run ends that has no document.
fn refusal_status(error: DocError) -> Status
    ensures { result ≡ refusal_status error }
{
    match error {
        DocError::NoMemory => Status::NoMemory,
        refusal => Status::BadDocument(refusal),
    }
}

/// Reads the document, whose schedule may be missing, or tells how a run without one ends.
fn read_input(alloc: Global, bytes: &[u8]) -> Result<Document, Status>
    requires { length bytes.now ≤ most_bytes }
    ensures document { IfOk result (λ document. document_read NeedOf.Any bytes.now ≡ Ok (contents_of document)) }
    ensures well { IfOk result (λ document. IsWellFormed document.tree.tree) }
    ensures few { IfOk result (λ document. length document.sessions ≤ most_sessions) }
    ensures calls { IfOk result (λ document. All (λ calls. length calls ≤ most_calls) document.sessions) }
    ensures names { IfOk result (λ document. All (All HasValidNames) document.sessions) }
    ensures refused { IfErr result (λ status. Explains Asked.Check bytes.now status) }
{
    match read_document(alloc, bytes, Need::Any) {
        Ok(document) => Ok(document),
        Err(error) => Err(refusal_status(error)),
    }
}

/// The output of a run of the document's sessions, each on a thread of its own, or why there is
/// none. Its schedule is not looked at.
pub fn run_document<G: Gate + Sync, R: Threads + Wait + Sync>(
    rt: &R,
    alloc: Global,
    bytes: &[u8],
    gate: &G,
) -> Result<Vec<u8>, Status>
    requires { length bytes.now ≤ most_bytes }
    ensures { MatchResult result (λ output. IsRunOutput bytes.now output.items) (λ status. Explains Asked.Check bytes.now status) }
{
    let document = read_input(alloc, bytes)?;
    let pool = Pool::new(document.tree, document.now);
    let sessions = document.sessions.into_vec();
    let Ok(run) = run_sessions(rt, alloc, pool, sessions, gate) else {
        return Err(Status::NoMemory);
    };
    histories_keep_trees_well_formed();
    let rendered = render(
        alloc,
        run.journal.as_slice(),
        run.replies.as_slice(),
        run.object.tree(),
        run.synced,
    );
    match rendered {
        Ok(output) => Ok(output),
        Err(_) => Err(Status::NoMemory),
    }
}
