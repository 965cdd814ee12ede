//! A session: the initialisation and then the calls, each with the line that answers it. All memory for it but the sink's is
//! taken before the initialisation runs.

ghost use Rattle.std.specs.Prelude.{◌≡◌, ◌<◌, ◌≤◌, ◌*◌, ◌+◌, true, false, All, length, map, slice_get};
ghost use Rattle.std.specs.Prelude.{Some, IfOk, IfErr, OnOk, OnErr};
ghost use Rattle.bk_io.specs.Counts.{HasCause};
ghost use Rattle.bk_io.specs.Pieces.{written_with, WroteFront, PutWhole};
ghost use Rattle.bk_code.specs.Laws.{IsRequest};
ghost use Rattle.bk_vm.specs.Ends.{is_stop, end_of};
ghost use Rattle.bk_vm.specs.State.{TakesCall};
ghost use Rattle.bk_calls.specs.Script.{request_of};
ghost use Rattle.bk_calls.specs.Room.{IsMadeFor};
ghost use Rattle.bk_calls.specs.Transcript.{AreOutputs, reply_text, closing_text, steps_of, done_number};
ghost use Rattle.bk_verbs.specs.declared.stop.Stop.TheVariants.{WriteFault};
ghost use Rattle.bk_verbs.specs.Causes.{IsOfPlaying};
ghost use Rattle.bk_verbs.specs.Frames.{Appends};
ghost use Rattle.bk_cli.specs.Tasks.{most_fuel};
ghost use Rattle.bk_verbs.specs.Work.{IsExecuted};
ghost use Rattle.bk_verbs.specs.Session.{Plays, PlaysCalls, PlaysCall, HasOutputRoom, status_of};
ghost use Rattle.bk_verbs.specs.Session.{PlaysFront, PlaysCallsFront, PlaysCallFront, Puts, PutsCalls, PutsCall};

use crate::player::Player;
use crate::status::Status;
use crate::stop::Stop;
use bk_calls::{Call, ReplyLine, closing, reply, steps};
use bk_code::Image;
use bk_io::{Sink, SinkFault, put_all};
use bk_limits::MOST_CALLS;
use bk_vm::{CallEnd, calls_make_a_session};
use std::alloc::Global;

// What the calls of a session came to: the last end, how many calls are done, and the steps of all.
#[derive(Clone, Copy)]
struct Played {
    end: CallEnd,
    done: u32,
    steps: u64,
}

/// Plays a session, and writes its transcript line by line. The initialisation and each call may have `fuel` steps.
#[tactic(auto, using(crate::proofs::Fronts::nothing_played, crate::proofs::Frames::appends_nothing))]
pub(crate) fn play<K: Sink>(
    alloc: Global,
    mut player: Player,
    calls: &[Call],
    fuel: u64,
    out: &mut K,
) -> Result<Status, Stop>
    requires fresh { player.started ≡ false }
    requires requests { All (IsRequest player.image) (map request_of calls.now) }
    requires few { length calls.now ≤ MOST_CALLS }
    requires small { fuel ≤ most_fuel }
    ensures playing { IfErr result IsOfPlaying }
    ensures failed { HasCause WriteFault (K.faults out.old) (K.faults out.new) result }
    ensures appends { Appends (K.written out.old) (K.written out.new) }
    ensures front { OnErr result
        (PlaysFront player.image fuel (map request_of calls.now) (K.written out.old) (K.written out.new)) }
    ensures executed { IfOk result IsExecuted }
    ensures ok { IfOk result (λ status.
        Plays player.image fuel (map request_of calls.now) status (K.written out.old) (K.written out.new)) }
    ensures lines { IfOk result (λ status. Puts player.image fuel (map request_of calls.now) status
        (K.written out.old) (K.written out.new) (K.pieces out.old) (K.pieces out.new)) }
{
    let mut line = ReplyLine::new(alloc, player.image())?;
    let mut outs = vec![in alloc; 0i64; most_outputs(player.image())]?;
    let status = play_session(&mut player, calls, fuel, &mut outs, &mut line, out)?;
    Ok(status)
}

// The session of a player that has not started.
fn play_session<K: Sink>(
    player: &mut Player,
    calls: &[Call],
    fuel: u64,
    outs: &mut [i64],
    line: &mut ReplyLine,
    out: &mut K,
) -> Result<Status, SinkFault>
    requires fresh { player.old.started ≡ false }
    requires requests { All (IsRequest player.old.image) (map request_of calls.now) }
    requires few { length calls.now ≤ MOST_CALLS }
    requires small { fuel ≤ most_fuel }
    requires outputs { HasOutputRoom player.old.image (length outs.old) }
    requires made { IsMadeFor player.old.image line.old }
    ensures failed { HasCause SinkFault.Failed (K.faults out.old) (K.faults out.new) result }
    ensures appends { Appends (K.written out.old) (K.written out.new) }
    ensures front { OnErr result
        (PlaysFront player.old.image fuel (map request_of calls.now) (K.written out.old) (K.written out.new)) }
    ensures executed { IfOk result IsExecuted }
    ensures ok { IfOk result (λ status.
        Plays player.old.image fuel (map request_of calls.now) status (K.written out.old) (K.written out.new)) }
    ensures lines { IfOk result (λ status. Puts player.old.image fuel (map request_of calls.now) status
        (K.written out.old) (K.written out.new) (K.pieces out.old) (K.pieces out.new)) }
{
    calls_make_a_session();
    let start = player.start(fuel);
    answer(None, start, &[], player.image(), line, out)?;
    let played = play_calls(player, start, calls, fuel, outs, line, out)?;
    closing(played.done, steps(&start, fuel) + played.steps, line);
    put_all(out, line.bytes())?;
    Ok(status(played.end))
}

fn status(end: CallEnd) -> Status
    ensures value { result ≡ status_of (end_of end) }
    ensures executed { IsExecuted result }
{
    match end {
        CallEnd::Done { .. } => Status::Done,
        CallEnd::Trap { .. } => Status::Trapped,
        CallEnd::OutOfFuel => Status::OutOfFuel,
    }
}

// The calls up to the first that is not done; none where the initialisation is not.
fn play_calls<K: Sink>(
    player: &mut Player,
    start: CallEnd,
    calls: &[Call],
    fuel: u64,
    outs: &mut [i64],
    line: &mut ReplyLine,
    out: &mut K,
) -> Result<Played, SinkFault>
    requires started { player.old.started ≡ true }
    requires stopped { player.old.stopped ≡ is_stop start }
    requires requests { All (IsRequest player.old.image) (map request_of calls.now) }
    requires few { length calls.now ≤ MOST_CALLS }
    requires small { fuel ≤ most_fuel }
    requires outputs { HasOutputRoom player.old.image (length outs.old) }
    requires made { IsMadeFor player.old.image line.old }
    ensures failed { HasCause SinkFault.Failed (K.faults out.old) (K.faults out.new) result }
    ensures front { OnErr result
        (PlaysCallsFront player.old.image fuel (map request_of calls.now) (end_of start) player.old.cells
        (K.written out.old) (K.written out.new)) }
    ensures ok { IfOk result (λ played.
        PlaysCalls player.old.image fuel (map request_of calls.now) (end_of start) player.old.cells
        (end_of played.end) played.done played.steps (K.written out.old) (K.written out.new)) }
    ensures lines { IfOk result (λ played.
        PutsCalls player.old.image fuel (map request_of calls.now) (end_of start) player.old.cells
        (end_of played.end) played.done played.steps
        (K.written out.old) (K.written out.new) (K.pieces out.old) (K.pieces out.new)) }
    ensures bound { IfOk result (λ played. played.steps ≤ most_fuel * length calls.now) }
{
    let mut played = Played {
        end: start,
        done: 0,
        steps: 0,
    };
    for call in calls {
        if played.end.is_stop() {
            break;
        }
        let end = play_call(player, call, fuel, outs, line, out)?;
        played = Played {
            end,
            done: played.done + done_number(end),
            steps: played.steps + steps(&end, fuel),
        };
    }
    Ok(played)
}

// 1 for a call that is done.
fn done_number(end: CallEnd) -> u32
    ensures value { result ≡ done_number (end_of end) }
    ensures small { result ≤ 1 }
{
    match end {
        CallEnd::Done { .. } => 1,
        CallEnd::Trap { .. } | CallEnd::OutOfFuel => 0,
    }
}

// One call, whose outputs go to the first of these places.
fn play_call<K: Sink>(
    player: &mut Player,
    call: &Call,
    fuel: u64,
    outs: &mut [i64],
    line: &mut ReplyLine,
    out: &mut K,
) -> Result<CallEnd, SinkFault>
    requires started { player.old.started ≡ true }
    requires runs { player.old.stopped ≡ false }
    requires request { IsRequest player.old.image (request_of call.now) }
    requires small { fuel ≤ most_fuel }
    requires outputs { HasOutputRoom player.old.image (length outs.old) }
    requires made { IsMadeFor player.old.image line.old }
    ensures failed { HasCause SinkFault.Failed (K.faults out.old) (K.faults out.new) result }
    ensures front { OnErr result
        (PlaysCallFront player.old.image fuel (request_of call.now) player.old.cells
        (K.written out.old) (K.written out.new)) }
    ensures ok { IfOk result (λ end.
        PlaysCall player.old.image fuel (request_of call.now) player.old.cells (end_of end) player.new.cells
        (K.written out.old) (K.written out.new)) }
    ensures lines { IfOk result (λ end.
        PutsCall player.old.image fuel (request_of call.now) player.old.cells (end_of end) player.new.cells
        (K.written out.old) (K.written out.new) (K.pieces out.old) (K.pieces out.new)) }
    ensures image { player.new.image ≡ player.old.image }
    ensures started { player.new.started ≡ true }
    ensures stopped { IfOk result (λ end. player.new.stopped ≡ is_stop end) }
    ensures bound { IfOk result (λ end. steps_of fuel (end_of end) ≤ most_fuel) }
    ensures outputs { HasOutputRoom player.new.image (length outs.new) }
    ensures made { IsMadeFor player.new.image line.new }
{
    let count = output_count(player.image(), call.op);
    play_into(player, call, fuel, &mut outs[..count], line, out)
}

// One call, whose outputs go to these places.
#[tactic(auto, using(crate::proofs::Plays::steps_bounded))]
fn play_into<K: Sink>(
    player: &mut Player,
    call: &Call,
    fuel: u64,
    outs: &mut [i64],
    line: &mut ReplyLine,
    out: &mut K,
) -> Result<CallEnd, SinkFault>
    requires started { player.old.started ≡ true }
    requires runs { player.old.stopped ≡ false }
    requires takes { TakesCall player.old.image call.now.op call.now.args (length outs.old) }
    requires small { fuel ≤ most_fuel }
    requires made { IsMadeFor player.old.image line.old }
    ensures failed { HasCause SinkFault.Failed (K.faults out.old) (K.faults out.new) result }
    ensures front { OnErr result
        (PlaysCallFront player.old.image fuel (request_of call.now) player.old.cells
        (K.written out.old) (K.written out.new)) }
    ensures ok { IfOk result (λ end.
        PlaysCall player.old.image fuel (request_of call.now) player.old.cells (end_of end) player.new.cells
        (K.written out.old) (K.written out.new)) }
    ensures lines { IfOk result (λ end.
        PutsCall player.old.image fuel (request_of call.now) player.old.cells (end_of end) player.new.cells
        (K.written out.old) (K.written out.new) (K.pieces out.old) (K.pieces out.new)) }
    ensures image { player.new.image ≡ player.old.image }
    ensures started { player.new.started ≡ true }
    ensures stopped { IfOk result (λ end. player.new.stopped ≡ is_stop end) }
    ensures bound { IfOk result (λ end. steps_of fuel (end_of end) ≤ most_fuel) }
    ensures places { length outs.new ≡ length outs.old }
    ensures made { IsMadeFor player.new.image line.new }
{
    calls_make_a_session();
    let end = player.call(call.op, call.args.as_slice(), outs, fuel);
    answer(Some(call.op), end, outs, player.image(), line, out)?;
    Ok(end)
}

// Writes the line that answers a call, or the initialisation.
fn answer<K: Sink>(
    op: Option<u32>,
    end: CallEnd,
    outs: &[i64],
    image: &Image,
    line: &mut ReplyLine,
    out: &mut K,
) -> Result<(), SinkFault>
    requires outputs { AreOutputs image.now op outs.now }
    requires made { IsMadeFor image.now line.old }
    ensures failed { HasCause SinkFault.Failed (K.faults out.old) (K.faults out.new) result }
    ensures front { OnErr result
        (WroteFront (reply_text image.now op (end_of end) outs.now) (K.written out.old) (K.written out.new)) }
    ensures ok { OnOk result
        (K.written out.new ≡ written_with (K.written out.old) (reply_text image.now op (end_of end) outs.now)) }
    ensures put { OnOk result (PutWhole (reply_text image.now op (end_of end) outs.now) (K.pieces out.old) (K.pieces out.new)) }
    ensures made { IsMadeFor image.now line.new }
{
    reply(op, &end, outs, image, line);
    put_all(out, line.bytes())
}

// How many outputs an operation has.
fn output_count(image: &Image, op: u32) -> usize
    requires { op < length image.now.ops }
    ensures { (entry : _) × (slice_get image.now.ops op ≡ Some entry) × (result ≡ length entry.outputs) }
{
    image.ops.as_slice()[op as usize].outputs.as_slice().len()
}

// The most outputs that an operation has.
fn most_outputs(image: &Image) -> usize
    ensures { HasOutputRoom image.now result }
{
    let mut most = 0;
    for entry in image.ops.as_slice() {
        most = entry.outputs.as_slice().len().max(most);
    }
    most
}
