// The words of rules.

ghost use Rattle.std.specs.Prelude.{◌≡◌};
ghost use Rattle.bk_show.specs.Items.{text_of};
ghost use Rattle.bk_print.specs.Written.{word_of};
ghost use Rattle.bk_print.specs.Text.{word_items};

use bk_kernel::Rule;

/// The word that a rule begins with; nothing for one that was not read.
pub(crate) fn word(rule: &Rule) -> &'static [u8]
    ensures { result.now ≡ text_of (word_items (word_of rule.now)) }
{
    match rule {
        Rule::Hyp(_) => b"hyp",
        Rule::True => b"true",
        Rule::Same => b"same",
        Rule::Eval(_) => b"eval",
        Rule::False(_) => b"false",
        Rule::Absurd(_, _) => b"absurd",
        Rule::And => b"and",
        Rule::Iff => b"iff",
        Rule::Imp => b"imp",
        Rule::Not => b"not",
        Rule::Left => b"left",
        Rule::Right => b"right",
        Rule::Or => b"or",
        Rule::Contra => b"contra",
        Rule::Fix(_) => b"fix",
        Rule::UseTerms(_) => b"use",
        Rule::Split(_) => b"split",
        Rule::Cases(_) => b"cases",
        Rule::Apply(_) => b"apply",
        Rule::Inst(_, _) => b"inst",
        Rule::OpenSome(_, _) => b"open",
        Rule::Cut(_) => b"cut",
        Rule::Case(_) => b"case",
        Rule::Drop(_) => b"drop",
        Rule::Eq(_, _) => b"eq",
        Rule::Qe(_, _) => b"qe",
        Rule::Law { .. } => b"law",
        Rule::Wal { .. } => b"wal",
        Rule::TypeOf(_) => b"type",
        Rule::Neg(_) => b"neg",
        Rule::Mem(_) => b"mem",
        Rule::Val(_) => b"val",
        Rule::Ext(_) => b"ext",
        Rule::Sub(_) => b"sub",
        Rule::Ex(_) => b"ex",
        Rule::Pair(_) => b"pair",
        Rule::Elems(_) => b"elems",
        Rule::Interval(_) => b"interval",
        Rule::Induct => b"induct",
        Rule::Poly => b"poly",
        Rule::Lin { .. } => b"lin",
        Rule::Unread => b"",
    }
}
