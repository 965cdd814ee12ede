//! What small developments and substitutions are translated to. Each law is the contract of a function that does nothing.

ghost use Rattle.bk_dev.specs.B0.{IsB0Development};
ghost use Rattle.bk_dev.specs.Counter.{counter};
ghost use Rattle.bk_gen.specs.Laws.{CounterCode, adder, AdderCode, TestsCode, LoopCode, FlattenedKeepsCode, TranslationsLoad};
ghost use Rattle.bk_gen.specs.Samples.{ConstructsCode, TableCode, LampCode, LimitsCode};

/// A counter, to be checked by hand.
pub fn counter()
    ensures code { CounterCode }
    ensures in_b0 { IsB0Development counter }
{}

/// An operation with an input and an IF, to be checked by hand.
pub fn adder()
    ensures code { AdderCode }
    ensures in_b0 { IsB0Development adder }
{}

/// Tests and loops, to be checked by hand.
pub fn small_cases()
    ensures tests { TestsCode }
    ensures repeats { LoopCode }
{}

/// Each construct, and two small implementations with an array and with a set, to be checked by hand.
pub fn samples()
    ensures constructs { ConstructsCode }
    ensures table { TableCode }
    ensures lamp { LampCode }
    ensures limits { LimitsCode }
{}

/// Flattening leaves the code as it was, where no `||` stands in the last level.
pub fn flat_developments()
    ensures { FlattenedKeepsCode }
{}

/// The translation of a development in B0 passes the loader's checks, within the limits.
pub fn translations_load()
    ensures { TranslationsLoad }
{}
