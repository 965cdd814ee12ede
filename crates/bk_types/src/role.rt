//! What a formula stands for.

use bk_form::Ty;

/// What a formula stands for, by its form alone.
#[derive(Drop)]
pub enum Role {
    /// A value of this type.
    Value(Ty),
    /// A domain that is no value; it ranges over this type.
    Domain(Ty),
    /// A predicate.
    Predicate,
    /// Nothing: it does not type.
    Nothing,
}
