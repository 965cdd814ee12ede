// The code of statements that are drawn from seeds does what the statements mean.

ghost use Rattle.std.specs.Prelude.{◌≡◌, ◌≤◌, ◌≤ℤ◌, neg_ℤ, pos, true, false, length, IfOk};
ghost use Rattle.bk_dev.specs.B0.{IsB0Development};
ghost use Rattle.bk_b0.specs.Translation.{translation};
ghost use Rattle.bk_vm.specs.Ends.{is_stop};
ghost use Rattle.bk_tests_sessions.specs.Drawn.{IsFamily};

use crate::drawing::statement;
use crate::draws::Draws;
use crate::family::family;
use crate::runs::{Store, run};
use crate::sessions::session_of;
use bk_dev::Development;
use bk_gsl::Sub;
use bk_sim::Session;
use bk_vm::CallEnd;
use std::alloc::Global;
use std::test::Fail;

// Calls the operation.
#[tactic(auto, using(crate::proofs::Taken::takes_step))]
fn called(session: &mut Session, dev: &Development, input: i64, outs: &mut [i64]) -> CallEnd
    requires image { session.old.image ≡ translation dev.now }
    requires member { IsFamily dev.now }
    requires started { session.old.started ≡ true }
    requires runs { session.old.stopped ≡ false }
    requires low { neg_ℤ (pos 20) ≤ℤ input }
    requires high { input ≤ℤ pos 20 }
    requires outs { length outs.old ≡ 6 }
    ensures image { session.new.image ≡ translation dev.now }
    ensures started { session.new.started ≡ true }
    ensures stopped { session.new.stopped ≡ is_stop result }
{
    let _ = dev;
    session.call(0, &[input], outs, 1000000)
}

// Whether the answers are the values in the store.
fn are_answered(store: &Store, outs: &[i64]) -> bool {
    let elements = store.elements();
    let wanted = [
        store.scalar(0),
        store.scalar(1),
        store.scalar(2),
        elements[0],
        elements[1],
        elements[2],
    ];
    outs == wanted.as_slice()
}

// Whether the operation is done as its statement means. Where both stop alike it is not.
fn is_done(
    session: &mut Session,
    dev: &Development,
    store: &mut Store,
    sub: &Sub,
    input: i64,
) -> Result<bool, Fail>
    requires image { session.old.image ≡ translation dev.now }
    requires member { IsFamily dev.now }
    requires started { session.old.started ≡ true }
    requires runs { session.old.stopped ≡ false }
    requires low { neg_ℤ (pos 20) ≤ℤ input }
    requires high { input ≤ℤ pos 20 }
    ensures image { session.new.image ≡ translation dev.now }
    ensures started { session.new.started ≡ true }
    ensures runs { IfOk result (λ done. done ≡ true → session.new.stopped ≡ false) }
{
    store.set(4, input);
    let meant = run(store, sub);
    let mut outs = [0i64; 6];
    let end = called(session, dev, input, &mut outs);
    match (meant, end) {
        (Ok(()), CallEnd::Done { .. }) => {
            if !are_answered(store, &outs) {
                return Err(Fail::from("other values"));
            }
            Ok(true)
        }
        (Err(meant), CallEnd::Trap { kind, .. }) if meant == kind => Ok(false),
        _ => Err(Fail::from("another end")),
    }
}

// Calls the operation several times, and runs its statement beside it. How many calls were done.
fn played(alloc: Global, draws: &mut Draws, dev: &Development, sub: &Sub) -> Result<u32, Fail>
    requires b0 { IsB0Development dev.now }
    requires member { IsFamily dev.now }
    ensures { IfOk result (λ done. done ≤ 5) }
{
    let mut session = session_of(alloc, dev)?;
    let mut store = Store::new(alloc)?;
    if session.start(1000).is_stop() {
        return Err(Fail::from("the initialisation is done"));
    }
    for turn in 0..5 {
        let input = draws.below(41) as i64 - 20;
        if !is_done(&mut session, dev, &mut store, sub, input)? {
            return Ok(turn);
        }
    }
    Ok(5)
}

// Calls the operation of the development that is drawn from a seed.
fn compare(alloc: Global, seed: u64) -> Result<u32, Fail>
    ensures { IfOk result (λ done. done ≤ 5) }
{
    let mut draws = Draws::new(seed);
    let depth = 2 + (seed % 4) as u32;
    let sub = statement(alloc, &mut draws, &[], depth, 17, 25)?;
    let dev = family(alloc, sub.copy(alloc)?)?;
    played(alloc, &mut draws, &dev, &sub)
}

#[test]
fn drawn_statements_run_as_they_mean(rt: HostRuntime) -> Result<(), Fail> {
    let mut done = 0u64;
    for seed in 0..100 {
        done += u64::from(compare(rt.alloc(), seed)?);
    }
    assert!(rt; done > 200);
    assert!(rt; done < 500);
    Ok(())
}
