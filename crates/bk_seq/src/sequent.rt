// Sequents.

ghost use Rattle.std.specs.Prelude.{◌≡◌, IfOk};

use bk_form::Form;
use bk_io::Memory;
use std::alloc::Global;

/// A goal under hypotheses, none of them with a loose bound number: whoever makes a sequent sees to that.
#[derive(Drop)]
pub struct Sequent {
    pub hyps: Vec<Form>,
    pub goal: Form,
}

impl Sequent {
    /// The same sequent again.
    pub fn copy(&self, alloc: Global) -> Result<Sequent, Memory>
        ensures hyps { IfOk result (λ s. s.hyps.items ≡ self.now.hyps.items) }
        ensures goal { IfOk result (λ s. s.goal ≡ self.now.goal) }
    {
        Ok(Sequent {
            hyps: Form::copy_all(&self.hyps, alloc)?,
            goal: self.goal.copy(alloc)?,
        })
    }
}
