// The rows of the table of laws.

ghost use Rattle.std.specs.Prelude.{◌≡◌, None, Some, MatchOption};
ghost use Rattle.bk_seqs.specs.Rows.{rows, row_named};
ghost use Rattle.bk_seqs.specs.RowNames.{row_at};

// A row.
#[derive(Clone, Copy, PartialEq, Eq, Debug)]
pub(crate) enum RowName {
    Q1,
    Q2,
    Q3,
    Q4,
    Q5,
    Q6,
    Q7,
    Q8,
    Q9,
    Q10,
    Q11,
    Q12,
    Q13,
    Q14,
    Q15,
    Q16,
}

// The row of this number.
#[tactic(auto, using(crate::proofs::Numbered::no_rows), unfolding(crate::specs::Rows::rows))]
pub(crate) fn row_named(law: u16) -> Option<RowName>
    ensures { MatchOption result (row_named rows law ≡ None) (λ r. row_named rows law ≡ Some (row_at r)) }
{
    if law < 401 {
        return None;
    }
    if law > 416 {
        return None;
    }
    match law {
        401 => Some(RowName::Q1),
        402 => Some(RowName::Q2),
        403 => Some(RowName::Q3),
        404 => Some(RowName::Q4),
        405 => Some(RowName::Q5),
        406 => Some(RowName::Q6),
        407 => Some(RowName::Q7),
        408 => Some(RowName::Q8),
        409 => Some(RowName::Q9),
        410 => Some(RowName::Q10),
        411 => Some(RowName::Q11),
        412 => Some(RowName::Q12),
        413 => Some(RowName::Q13),
        414 => Some(RowName::Q14),
        415 => Some(RowName::Q15),
        _ => Some(RowName::Q16),
    }
}

// How many letters it has.
pub(crate) fn letters(row: RowName) -> usize
    ensures { result ≡ (row_at row).letters }
{
    match row {
        RowName::Q1 | RowName::Q2 | RowName::Q3 => 3,
        RowName::Q4 => 4,
        RowName::Q12 | RowName::Q13 | RowName::Q14 | RowName::Q15 => 3,
        _ => 2,
    }
}
