//! What a report claims, and what it does not.

ghost use Rattle.bk_evidence.specs.Items.{AreStated};

/// What is proved and by which clause, what is trusted, and what is not claimed.
#[derive(Clone, Copy)]
pub struct Claims {
    pub proved: &'static str,
    pub trusted: &'static str,
    pub not_claimed: &'static str,
}

/// What each report claims.
pub fn claims_of_reports() -> Claims
    ensures { AreStated result }
{
    Claims {
        proved: PROVED,
        trusted: TRUSTED,
        not_claimed: NOT_CLAIMED,
    }
}

const PROVED: &str =
    "An obligation is obvious or proved where the kernel of proof, whose soundness is proved, accepts it. Where all are, the machine preserves its invariant, each component below refines the one above, and what is stated is well-defined: that is the clause `correct` of the status table. The code of the implementation then follows the machine in each legal session: the clauses `run` and `legal` of bkit.";

const TRUSTED: &str =
    "The toolchain that proved and built the program, LLVM included, the C library, the operating system and the processor.";

const NOT_CLAIMED: &str =
    "Anything about calls past a false precondition, about fuel that runs out, and about files that change while they are read. Whether the machine says what was meant is for its readers to judge.";
