// Proof files that are read.

use crate::texts::read;
use bk_p_proof::{ScriptFault, Scripts};
use bk_raw::{NamePart, RawScript, RuleWord};
use bk_tests_fixtures::proof_texts::{TABLE, TALLY};
use std::alloc::Global;
use std::test::Fail;

// The numbers of rules of the scripts in these texts.
pub(crate) fn rules(alloc: Global, texts: &[&str], wanted: &[usize]) -> bool {
    have_rules(read(alloc, texts), wanted)
}

/// Whether these scripts are read, with so many rules.
pub(crate) fn have_rules(list: Result<Scripts, ScriptFault>, wanted: &[usize]) -> bool {
    match list {
        Ok(list) => {
            list.all().len() == wanted.len()
                && list
                    .all()
                    .iter()
                    .zip(wanted)
                    .all(|(script, n)| script.rules.len() == *n)
        }
        Err(_) => false,
    }
}

// Files with the numbers of their scripts' rules.
#[test]
fn scripts_and_their_rules(rt: HostRuntime) {
    assert!(rt; rules(rt.alloc(), &[TALLY], &[4, 4, 2, 1, 1]));
    assert!(rt; rules(rt.alloc(), &[TABLE], &[3, 3, 19, 4, 3, 124, 44, 2, 1, 1]));
    assert!(rt; rules(rt.alloc(), &[], &[]));
    assert!(rt; rules(rt.alloc(), &["", " // nothing\n"], &[]));
    assert!(rt; rules(rt.alloc(), &["proof A.1 end"], &[0]));
    assert!(rt;
        rules(
            rt.alloc(),
            &["proof A.1 end", "proof B /* b */ . 1 same end"],
            &[0, 1]
        )
    );
    assert!(rt; rules(rt.alloc(), &["proof A.INITIALISATION.1 not ; or end"], &[2]));
    // a word of sequences may be a part of a name
    assert!(rt; rules(rt.alloc(), &["proof seq.first.1 same end"], &[1]));
    assert!(rt; rules(rt.alloc(), &["proof Größe.1 cut größe = 1 end"], &[1]));
    assert!(rt; rules(rt.alloc(), &["proof A.1 cut end end"], &[1]));
    assert!(rt;
        rules(
            rt.alloc(),
            &["proof A.1 law G19() goal ; law G19 hyp 1 2 ; eval ; eval goal end"],
            &[4]
        )
    );
    assert!(rt;
        rules(
            rt.alloc(),
            &["proof A.1 fix x : (INTEGER * POW(S)), y : BOOL ; inst 1 -1, {:S} end"],
            &[2]
        )
    );
    assert!(rt;
        rules(
            rt.alloc(),
            &["proof A.1 lin : -1 * 1 + 2 * 3 | 3 / 2 end"],
            &[1]
        )
    );
    assert!(rt;
        rules(
            rt.alloc(),
            &["proof A.1 fix x : S ; fix x : S end proof A.2 fix x : T end"],
            &[2, 1]
        )
    );
    // names that differ only in where their parts end
    assert!(rt;
        rules(
            rt.alloc(),
            &["proof AB.C end proof A.BC end proof ABC end proof A.B.C end"],
            &[0, 0, 0, 0]
        )
    );
}

// A rule of each word.
const EACH: &str =
    "proof A.1 hyp 1 ; true ; same ; eval ; false 1 ; absurd 1 2 ; and ; iff ; imp ; not ; left ; right ; or ; contra ;
  fix x : INTEGER ; use x, 1 ; split 1 ; cases 1 ; apply 1 ; inst 1 x ; open 1 y : BOOL ; cut x = 1 ; case x = 1 ; drop 1 ;
  eq 1 goal ; qe 1 hyp 1 2 ; law O5(x, 0, 1) goal ; wal O5 goal ; type goal ; neg goal ; mem goal ; val goal ; ext goal ;
  sub goal ; ex goal ; pair x ; elems x ; interval 1 ; induct ; poly ; lin : 1 * 1 end";

#[test]
fn each_word_is_read(rt: HostRuntime) {
    assert!(rt; rules(rt.alloc(), &[EACH], &[41]));
}

fn is_first(script: &RawScript) -> bool {
    match (script.name.as_slice(), script.rules.as_slice()) {
        ([NamePart::Letters(text), NamePart::Numeral(number)], [rule]) => {
            text.as_bytes() == b"A".as_slice()
                && *number == 7
                && script.at == 1
                && script.name_at == 7
                && rule.at == 12
                && matches!(&rule.word, RuleWord::Hyp)
                && rule.parts.len() == 1
        }
        _ => false,
    }
}

#[test]
fn bytes_and_names_are_kept(rt: HostRuntime) {
    let is_right = match read(rt.alloc(), &[" proof A.07 hyp 3 end"]) {
        Ok(list) => list.all().len() == 1 && is_first(&list.all()[0]),
        Err(_) => false,
    };
    assert!(rt; is_right);
}
