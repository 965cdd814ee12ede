/// A pattern in a list of them: what it is, as in [`crate::op`], and up to two numbers. `Pat` has to be imported where this is used.
#[macro_export]
macro_rules! pattern {
    ($op:expr) => {
        $crate::pattern!($op, 0, 0)
    };
    ($op:expr, $first:literal) => {
        $crate::pattern!($op, $first, 0)
    };
    ($op:expr, $first:literal, $second:literal) => {
        Pat {
            op: $op,
            first: $first,
            second: $second,
        }
    };
}

/// A law over such a list: its number, how many letters it has, and the numbers of the patterns of its left, its right, and up
/// to three sides. `Law` has to be imported where this is used.
#[macro_export]
macro_rules! law {
    ($name:literal, $letters:literal, $left:literal, $right:literal) => {
        $crate::law!(@ $name, $letters, $left, $right, [0, 0, 0], 0)
    };
    ($name:literal, $letters:literal, $left:literal, $right:literal, $a:literal) => {
        $crate::law!(@ $name, $letters, $left, $right, [$a, 0, 0], 1)
    };
    ($name:literal, $letters:literal, $left:literal, $right:literal, $a:literal, $b:literal) => {
        $crate::law!(@ $name, $letters, $left, $right, [$a, $b, 0], 2)
    };
    ($name:literal, $letters:literal, $left:literal, $right:literal, $a:literal, $b:literal, $c:literal) => {
        $crate::law!(@ $name, $letters, $left, $right, [$a, $b, $c], 3)
    };
    (@ $name:literal, $letters:literal, $left:literal, $right:literal, $sides:expr, $count:literal) => {
        Law {
            name: $name,
            picks: $letters,
            left: $left,
            right: $right,
            sides: $sides,
            count: $count,
        }
    };
}
