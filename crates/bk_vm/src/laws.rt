//! Laws of the definitions, as contracts of functions that do nothing.
ghost use Rattle.bk_vm.specs.Sessions.{StartsSession, ContinuesSession};

/// A machine that is started and then called makes a session.
pub fn calls_make_a_session()
    ensures start { StartsSession }
    ensures call { ContinuesSession }
{}
