//! Formulas of the B Method: types, operators and trees, pools of formulas, tables of variables and the tokens that formulas are
//! read from.
#![tactic(auto)]

pub mod arrays;
pub mod form;
pub mod laws;
pub mod operator;
pub mod pool;
pub mod table;
pub mod token;
pub mod ty;

pub use arrays::{ArrayDomain, ArrayRow, Arrays};
pub use form::{Form, Part, View};
pub use operator::{BinOp, Domain, SeqSign, UnOp};
pub use pool::Pool;
pub use table::VarTable;
pub use token::{Token, TokenKind};
pub use ty::{Ty, TyView};
