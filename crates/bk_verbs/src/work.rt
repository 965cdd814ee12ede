//! What a command has to write, once its files are read and checked.

ghost use Rattle.std.specs.Prelude.{IfOk, IfErr, OnErr};
ghost use Rattle.bk_io.specs.Counts.{HasCause};
ghost use Rattle.bk_io.specs.Files.{Files};
ghost use Rattle.bk_verbs.specs.declared.stop.Stop.TheVariants.{WriteFault};
ghost use Rattle.bk_cli.specs.Tasks.{Task};
ghost use Rattle.bk_verbs.specs.Causes.{IsOfPlaying};
ghost use Rattle.bk_verbs.specs.Frames.{Appends};
ghost use Rattle.bk_verbs.specs.Work.{IsExecuted};
ghost use Rattle.bk_verbs.specs.Work.{WritesWork, PutsWork};
ghost use Rattle.bk_verbs.specs.Prepared.{IsPrepared, Suits, CanBePlayed, WritesFront};

use crate::player::Player;
use crate::putting::put_obligations;
use crate::session::play;
use crate::status::Status;
use crate::stop::Stop;
use bk_calls::Call;
use bk_form::VarTable;
use bk_io::{Sink, put_all};
use bk_po::Obligation;
use std::alloc::Global;

/// What a command has to write.
#[derive(Drop)]
pub enum Work {
    /// This text.
    Text(Vec<u8>),
    /// This text, which tells of a session that ended so.
    Ended {
        text: Vec<u8>,
        status: Status,
    },
    /// The texts of these obligations, one after another, with the names of the table.
    Obligations {
        list: Vec<Obligation>,
        table: VarTable,
    },
    /// The transcript of the player's session over these calls, of which each, and the initialisation, may have so many
    /// steps.
    Play {
        player: Player,
        calls: Vec<Call>,
        fuel: u64,
    },
}

/// Writes it.
#[tactic(auto, using(crate::proofs::Frames::appends_text, crate::proofs::Frames::appends_front))]
pub fn write_work<K: Sink>(alloc: Global, work: Work, out: &mut K) -> Result<Status, Stop>
    requires { CanBePlayed work }
    ensures playing { IfErr result IsOfPlaying }
    ensures failed { HasCause WriteFault (K.faults out.old) (K.faults out.new) result }
    ensures appends { Appends (K.written out.old) (K.written out.new) }
    ensures front { OnErr result (WritesFront work (K.written out.old) (K.written out.new)) }
    ensures executed { IfOk result IsExecuted }
    ensures ok { IfOk result (λ status. (files : Files) (task : Task) → IsPrepared files task work →
        WritesWork files task (K.written out.old) (K.written out.new) status) }
    ensures pieces { IfOk result (λ status. (files : Files) (task : Task) → IsPrepared files task work → Suits files task work →
        PutsWork files task (K.pieces out.old) (K.pieces out.new) status) }
{
    match work {
        Work::Text(text) => {
            put_all(out, &text)?;
            Ok(Status::Done)
        }
        Work::Ended { text, status } => {
            put_all(out, &text)?;
            Ok(status)
        }
        Work::Obligations { list, table } => put_obligations(alloc, &list, &table, out),
        Work::Play {
            player,
            calls,
            fuel,
        } => play(alloc, player, &calls, fuel, out),
    }
}
