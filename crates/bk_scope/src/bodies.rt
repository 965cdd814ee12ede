// The outermost precondition of a body, and what is left of it.

ghost use Rattle.std.specs.Option.{option_copied};
ghost use Rattle.std.specs.Prelude.{◌≡◌};
ghost use Rattle.bk_statics.specs.Components.{outermost, inner_body};

use bk_raw::{RawSub, RawSubNode, RawTerm};

// The predicate of a body's PRE, where the body is a PRE; BEGIN round it does not hide it.
pub fn outermost(body: &RawSub) -> Option<&RawTerm>
    ensures { option_copied result ≡ outermost body.now }
{
    match &body.node {
        RawSubNode::Begin(inner) => outermost(inner),
        RawSubNode::Pre(predicate, _) => Some(predicate),
        _ => None,
    }
}

// What is left of a body without its outermost precondition.
pub fn inner_body(body: &RawSub) -> &RawSub
    ensures { result.now ≡ inner_body body.now }
{
    match &body.node {
        RawSubNode::Begin(inner) => inner_body(inner),
        RawSubNode::Pre(_, inner) => inner,
        _ => body,
    }
}
