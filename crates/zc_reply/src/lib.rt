//! The output: the journal, the replies and the tree as one JSON text.
#![tactic(auto)]

ghost use Rattle.std.specs.Prelude.{◌≡◌, All, IfOk};
ghost use Rattle.serde_json.specs.View.{view};
ghost use Rattle.zp_calls.specs.Replies.{IsPrintable};
ghost use Rattle.zp_tree.specs.WellFormed.{IsWellFormed};
ghost use Rattle.zc_reply.specs.Output.{output_data, output_text};

mod journal;
mod json;
mod laws;
mod record;
mod reply;
#[cfg(test)]
mod tests;

use json::array_of;
pub use laws::output_tells_its_journal;
use record::records_value;
use serde_json::{Value, json};
use std::alloc::{AllocError, Global};
use txg_core::Event;
use zc_io::NoMemory;
use zp_calls::Reply;
use zp_names::Sequence;
use zp_tree::Datasets;

fn output_value<T: Datasets>(
    alloc: Global,
    journal: &[Event],
    replies: &[Sequence<Reply>],
    tree: &T,
    synced: u64,
) -> Result<Value, AllocError>
    requires well { IsWellFormed (T.tree tree.now) }
    requires printable { All (All IsPrintable) replies.now }
    ensures { IfOk result (λ v. view v ≡ output_data journal.now replies.now synced (T.tree tree.now).records) }
{
    let journal = array_of(alloc, journal)?;
    let replies = array_of(alloc, replies)?;
    let records = records_value(alloc, tree)?;
    json!(in alloc; {
        "journal": journal,
        "replies": replies,
        "synced": synced,
        "tree": records,
    })
}

/// The output of a run: its journal, the replies that each session got so far, the synced
/// transaction group and the records of the tree, as one line of compact JSON and a newline.
pub fn render<T: Datasets>(
    alloc: Global,
    journal: &[Event],
    replies: &[Sequence<Reply>],
    tree: &T,
    synced: u64,
) -> Result<Vec<u8>, NoMemory>
    requires well { IsWellFormed (T.tree tree.now) }
    requires printable { All (All IsPrintable) replies.now }
    ensures { IfOk result (λ bytes. bytes.items ≡ output_text journal.now replies.now synced (T.tree tree.now).records) }
{
    let output = output_value(alloc, journal, replies, tree, synced)?;
    let mut text = output.to_string(alloc)?;
    text.push_str("\n")?;
    Ok(text.into_bytes())
}
