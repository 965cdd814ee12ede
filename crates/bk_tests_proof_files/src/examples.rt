// Proof files of the worked examples.

use crate::faults::is_fault;
use crate::files::{have_rules, rules};
use crate::texts::{joined, read, read_one};
use bk_p_proof::{ScriptFault, Scripts};
use bk_raw::{RawLine, RawMultiple, RawScript, RulePart, RuleWord};
use bk_tests_fixtures::proof_texts::TALLY;
use std::alloc::Global;
use std::test::Fail;

// A front of a file that ends right after a `$`.
#[test]
fn a_level_name_without_its_number(rt: HostRuntime) {
    assert!(rt; is_fault(rt.alloc(), &["proof Tally.inc.1\n  law O5(n$"], (2, 0, 28)));
}

// Whether these pieces are one text that passes this limit.
fn is_limit(alloc: Global, pieces: &[&str], wanted: u8) -> bool {
    match read_one(alloc, joined(alloc, pieces)) {
        Err(ScriptFault::Limit { number, file }) => number == wanted && file == 0,
        _ => false,
    }
}

// Fifty brackets of each kind.
const OPEN: &str = "((((((((((((((((((((((((((((((((((((((((((((((((((";

const CLOSE: &str = "))))))))))))))))))))))))))))))))))))))))))))))))))";

// The term that a law takes, in so many more parentheses than 350.
fn picks(alloc: Global, open: &str, close: &str) -> Result<Scripts, ScriptFault> {
    let pieces = [
        "proof Tally.inc.1\n  law O5(",
        OPEN,
        OPEN,
        OPEN,
        OPEN,
        OPEN,
        OPEN,
        OPEN,
        open,
        "n$0 + k",
        close,
        CLOSE,
        CLOSE,
        CLOSE,
        CLOSE,
        CLOSE,
        CLOSE,
        CLOSE,
        ", 0, 10) goal\nend\n",
    ];
    read_one(alloc, joined(alloc, &pieces))
}

// The bracket of the law's terms is open around them.
#[test]
fn brackets_in_the_terms_of_a_law(rt: HostRuntime) {
    let open = "(((((((((((((((((((((((((((((((((((((((((((((((((";
    let close = ")))))))))))))))))))))))))))))))))))))))))))))))))";
    assert!(rt; have_rules(picks(rt.alloc(), open, close), &[1]));
    assert!(rt;
        matches!(
            picks(rt.alloc(), OPEN, CLOSE),
            Err(ScriptFault::Limit { number: 3, file: 0 })
        )
    );
}

// A script for no obligation is read as any other.
#[test]
fn a_script_without_rules_before_others(rt: HostRuntime) {
    let text = joined(rt.alloc(), &["proof No.such.1 end\n", TALLY]);
    assert!(rt; have_rules(read_one(rt.alloc(), text), &[0, 4, 4, 2, 1, 1]));
}

// A second script of a name.
#[test]
fn a_second_script_behind_the_others(rt: HostRuntime) {
    let more = "proof Tally.inc.1\n  hyp 1\nend\n";
    let text = joined(rt.alloc(), &[TALLY, more]);
    let is_right = match read_one(rt.alloc(), text) {
        Err(
            ScriptFault::Fault {
                number,
                file,
                place,
            },
        ) => number == 6 && file == 0 && place == 412,
        _ => false,
    };
    assert!(rt; is_right);
    assert!(rt; is_fault(rt.alloc(), &[TALLY, more], (6, 1, 6)));
}

// A name that is fixed twice, with one type.
#[test]
fn a_name_that_is_fixed_twice(rt: HostRuntime) {
    let text = "proof Two.pick.1\n  fix u : INTEGER ; imp ; fix u : INTEGER ; imp ; hyp 3\nend\n";
    assert!(rt; rules(rt.alloc(), &[text], &[5]));
}

// Terms that are used.
#[test]
fn terms_that_are_used(rt: HostRuntime) {
    let text = "proof Die.throw.1
  fix u : INTEGER ; imp ; hyp 2
end
proof Die_i.throw.1
  use 4 ; and ; eval ; and ; eval ; same
end
";
    assert!(rt; rules(rt.alloc(), &[text], &[3, 6]));
}

const CERTIFICATE: &str = "proof Tally.inc.1
  law O5(n$0 + k, 0, 10) goal ; and ; lin 1, 2 : 170141183460469231731687303715884105727 * 2 + 1 * 5 ; hyp 3
end
";

fn is_multiple(multiple: &RawMultiple, multiplier: i128, fact: u128) -> bool {
    multiple.multiplier == multiplier && multiple.fact == fact
}

fn is_certificate(part: &RulePart) -> bool {
    match part {
        RulePart::Certificate(facts, lines) => match (facts.as_slice(), lines.as_slice()) {
            ([1, 2], [RawLine::Sum(multiples)]) => {
                multiples.len() == 2
                    && is_multiple(&multiples[0], 170141183460469231731687303715884105727, 2)
                    && is_multiple(&multiples[1], 1, 5)
            }
            _ => false,
        },
        _ => false,
    }
}

fn has_certificate(script: &RawScript) -> bool {
    match script.rules.as_slice() {
        [_, _, rule, _] => {
            matches!(&rule.word, RuleWord::Lin)
                && rule.at == 56
                && rule.parts.len() == 1
                && is_certificate(&rule.parts[0])
        }
        _ => false,
    }
}

// The greatest multiplier.
#[test]
fn the_greatest_multiplier_is_kept(rt: HostRuntime) {
    let is_right = match read(rt.alloc(), &[CERTIFICATE]) {
        Ok(list) => list.all().len() == 1 && has_certificate(&list.all()[0]),
        Err(_) => false,
    };
    assert!(rt; is_right);
}
