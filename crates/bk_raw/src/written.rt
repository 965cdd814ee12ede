// The types that printed formulas name.

use bk_io::Text;
use std::marker::Model;

/// A type as it is written in a printed formula. Clauses see the mathematical one; match on `&ty.node`.
#[cycle(written)]
#[derive(Drop)]
pub struct RawType {
    pub node: RawTypeNode,
}

/// What a written type is, with its parts.
#[cycle(written)]
#[derive(Drop)]
pub enum RawTypeNode {
    /// `INTEGER`.
    Integer,
    /// `BOOL`.
    Bool,
    /// The name of an enumerated set.
    Set(Text),
    /// `POW(T)`.
    Power(Box<RawType>),
    /// `(T * U)`.
    Product(Box<RawType>, Box<RawType>),
}

impl Model for RawType {
    ghost use Rattle.bk_raw.specs.Trees.WrittenType.{WrittenType, coded_written_type, written_type_size};

    ghost Value = { WrittenType };

    ghost coded = { coded_written_type };

    ghost use Rattle.bk_raw.specs.Codes.WrittenTypeView.{written_type_view};

    ghost view = { λ t. written_type_view t.node };

    ghost size = { written_type_size };

    ghost use Rattle.bk_raw.specs.Codes.WrittenTypeFalls.{written_type_falls};

    ghost size_decreases = { λ t h. written_type_falls t.node };
}
