//! Obligations before they are taken apart.

use bk_form::Form;
use bk_io::Text;
use std::marker::Model;

/// What is to be shown under one name, before the goal is taken apart and its sequents are numbered.
#[derive(Drop)]
pub(crate) struct WholeObligation {
    pub name: Text,
    pub hypotheses: Vec<Form>,
    pub goal: Form,
}

impl Model for WholeObligation {
    ghost use Rattle.bk_po.specs.Obligations.{Obligation};
    ghost use Rattle.bk_po.specs.Codes.ObligationCodes.{coded_obligation};

    ghost Value = { Obligation };

    ghost coded = { coded_obligation };

    ghost view = { λ o. record { name = o.name; hypotheses = o.hypotheses.items; goal = o.goal } };
}
