//! Formulas and types that tests write as texts.
//!
//! Words stand between blanks. An operator stands in brackets with its operands, before, between or after them, as in
//! `( not ( x = 0 ) )` and `( 1 .. x )`. In the words of a type `i` is INTEGER, `b` BOOL, `c` the enumerated set 0, `d` the
//! enumerated set 7, `P` POW of the type after it, and `X` the pairs of the two types after it, as in `PXib`.
//!
//! | word | formula |
//! |---|---|
//! | a letter of the list that is given | the variable whose number is the letter's place |
//! | `b0`, `b1`, .. | the bound number |
//! | `0`, `-9`, .. | the number |
//! | `c0`, `d0`, .. | the element of the enumerated set 0, or 7 |
//! | `{}` and a type | the empty set of that type |
//! | `!` or `#` and types | a quantifier over values of these types, before its body |
//! | `set1`, `set2`, `set3` | a comprehension of so many ranges, which stand before its body |
//! | `fun1`, `fun2` | a lambda of so many ranges, which stand before its body, and that before its value |
#![tactic(auto)]

pub mod error;
mod leaves;
pub mod reading;
mod signs;
pub mod tables;
pub mod types;

pub use error::Unread;
pub use reading::formula;
pub use tables::table_of;
pub use types::{type_of, types_of};
