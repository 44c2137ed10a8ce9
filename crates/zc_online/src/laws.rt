//! Laws of runs and replays. Each function does nothing, and its contract is the law.
ghost use Rattle.std.specs.Prelude.{◌≡◌, List, ℕ, Ok};
ghost use Rattle.zp_calls.specs.declared.call.Call.{Call as CallOf};
ghost use Rattle.txg_core.specs.declared.event.Event.{Event as EventOf};
ghost use Rattle.txg_core.specs.declared.event.Entry.{Entry as EntryOf};
ghost use Rattle.txg_core.specs.History.{journal_of};
ghost use Rattle.zc_doc.specs.declared.document.Need.TheVariants.{Schedule};
ghost use Rattle.zc_doc.specs.Document.{Contents};
ghost use Rattle.zc_offline.specs.Headline.{document_read, IsLegalRun, IsReplayOutput, run_output};
ghost use Rattle.zc_online.specs.RunOutput.{IsRunOutput};

/// Documents that differ in their schedules alone have the same legal runs, with the same output.
pub fn schedules_do_not_matter()
    ensures legal { (one other : Contents) (events : List EventOf) (h : List (EntryOf CallOf)) →
        other ≡ record one { schedule = other.schedule } → IsLegalRun one events h → IsLegalRun other events h }
    ensures output { (one other : Contents) (h : List (EntryOf CallOf)) →
        other ≡ record one { schedule = other.schedule } → run_output other h ≡ run_output one h }
{}

/// A replay of the document with the journal of a run as its schedule has the output of the run.
pub fn a_journal_replays()
    ensures { (input text again : List ℕ) (run : IsRunOutput input text) →
        document_read Schedule again ≡ Ok (record run.document { schedule = journal_of run.history }) → IsReplayOutput again text }
{}
