// Further branches of a test, and of a choice, on the way to being built.

ghost use Rattle.std.specs.Prelude.{◌≡◌, IfOk};
ghost use Rattle.bk_raw.specs.Trees.RawTree.{RawTree};
ghost use Rattle.bk_raw.specs.Trees.SubTree.{SubTree, Branches as BranchTrees, Choices as ChoiceTrees};
ghost use Rattle.bk_p_sub.specs.Statements.{IsStatement, IsBranches, IsChoices, IsTerm, IsOpen, and_branch, and_else, and_choice};

use crate::statement::Statement;
use crate::term::Term;
use bk_io::Memory;
use bk_raw::{RawBranch, RawSub};

/// Further branches of IF or SELECT, the last perhaps an ELSE, with the height of the highest. Where one is too high,
/// none is kept.
#[derive(Drop)]
pub(crate) enum Branches {
    Built(Vec<RawBranch>, Option<Box<RawSub>>, usize),
    High,
}

impl Branches {
    /// These and one more, where no ELSE stands.
    pub(crate) fn and(self, condition: Term, body: Statement) -> Result<Branches, Memory>
        requires { IsOpen self }
        ensures open { IfOk result (λ r. IsOpen r) }
        ensures made { IfOk result (λ r. (bs : BranchTrees) (p : RawTree) (s : SubTree) → IsBranches bs self →
            IsTerm p condition → IsStatement s body → IsBranches (and_branch bs p s) r) }
    {
        let Branches::Built(mut all, _, height) = self else {
            return Ok(Branches::High);
        };
        let Term::Built(condition, one) = condition else {
            return Ok(Branches::High);
        };
        let Statement::Built(body, two) = body else {
            return Ok(Branches::High);
        };
        let condition = Box::into_inner(condition);
        let body = Box::into_inner(body);
        all.push(RawBranch { condition, body })?;
        Ok(Branches::Built(all, None, height.max(one.max(two))))
    }

    /// These and ELSE, where none stands.
    pub(crate) fn otherwise(self, body: Statement) -> Branches
        requires { IsOpen self }
        ensures { (bs : BranchTrees) (s : SubTree) → IsBranches bs self → IsStatement s body →
            IsBranches (and_else bs s) result }
    {
        let Branches::Built(all, _, height) = self else {
            return Branches::High;
        };
        let Statement::Built(body, other) = body else {
            return Branches::High;
        };
        Branches::Built(all, Some(body), height.max(other))
    }
}

/// Further branches of CHOICE, with the height of the highest. Where one is too high, none is kept.
#[derive(Drop)]
pub(crate) enum Choices {
    Built(Vec<RawSub>, usize),
    High,
}

impl Choices {
    /// These and one more.
    pub(crate) fn and(self, body: Statement) -> Result<Choices, Memory>
        ensures { IfOk result (λ r. (cs : ChoiceTrees) (s : SubTree) → IsChoices cs self → IsStatement s body →
            IsChoices (and_choice cs s) r) }
    {
        let Choices::Built(mut all, height) = self else {
            return Ok(Choices::High);
        };
        let Statement::Built(body, other) = body else {
            return Ok(Choices::High);
        };
        all.push(Box::into_inner(body))?;
        Ok(Choices::Built(all, height.max(other)))
    }
}
