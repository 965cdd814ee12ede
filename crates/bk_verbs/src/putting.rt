//! The obligations of a project, put one by one.

ghost use Rattle.std.specs.Prelude.{◌≡◌, map, IfOk, IfErr, OnErr};
ghost use Rattle.bk_io.specs.Counts.{HasCause};
ghost use Rattle.bk_io.specs.Pieces.{WroteFront, written_with};
ghost use Rattle.bk_po.specs.Shown.{named_sequent};
ghost use Rattle.bk_report.specs.Obligations.{obligation_text, obligations_text};
ghost use Rattle.bk_verbs.specs.declared.stop.Stop.TheVariants.{WriteFault};
ghost use Rattle.bk_verbs.specs.Causes.{IsOfPlaying};
ghost use Rattle.bk_verbs.specs.Frames.{Appends};
ghost use Rattle.bk_verbs.specs.Puts.{PutsEach};
ghost use Rattle.bk_verbs.specs.Work.{IsExecuted};

use crate::status::Status;
use crate::stop::Stop;
use bk_form::VarTable;
use bk_io::{Sink, put_all};
use bk_po::Obligation;
use bk_report::obligation_text;
use std::alloc::Global;

/// Puts the texts of obligations, one after another. One of them is held at a time.
pub(crate) fn put_obligations<K: Sink>(
    alloc: Global,
    list: &[Obligation],
    table: &VarTable,
    out: &mut K,
) -> Result<Status, Stop>
    ensures playing { IfErr result IsOfPlaying }
    ensures failed { HasCause WriteFault (K.faults out.old) (K.faults out.new) result }
    ensures appends { Appends (K.written out.old) (K.written out.new) }
    ensures front { OnErr result (WroteFront (obligations_text table.now (map named_sequent list.now))
        (K.written out.old) (K.written out.new)) }
    ensures executed { IfOk result IsExecuted }
    ensures ok { IfOk result (λ status. (status ≡ Status.Done) ×
        (K.written out.new ≡ written_with (K.written out.old) (obligations_text table.now (map named_sequent list.now)))) }
    ensures pieces { IfOk result (λ status. (status ≡ Status.Done) ×
        PutsEach (map (obligation_text table.now) (map named_sequent list.now)) (K.pieces out.old) (K.pieces out.new)) }
{
    for obligation in list {
        let text = obligation_text(alloc, obligation, table)?;
        put_all(out, &text)?;
    }
    Ok(Status::Done)
}
