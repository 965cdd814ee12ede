// Proof files of worked developments.

/// The proof file of the adder.
pub const TALLY: &str = "proof Tally.inc.1
  law O5(n$0 + k, 0, 10) goal ; and ; lin 1, 2 : 1 * 1 + 1 * 3 + 1 * 5 ; hyp 3
end
proof Tally_i.inc.1
  law O5(n$1 + k, 0, 10) goal ; and ; lin 2, 4 : 1 * 1 + 1 * 3 + 1 * 5 ;
  lin 3, 5 : 1 * 1 + 1 * 3 + 1 * 4
end
proof Tally_i.inc.2
  eq 3 goal 1 1 ; same
end
proof Tally_i.inc.chk.1
  lin 2, 4 : 1 * 1 + 1 * 3 + 1 * 5
end
proof Tally_i.inc.chk.2
  lin 2, 4 : 1 * 2 + 1 * 4 + 1 * 5
end
";

/// The proof file of the stepper.
pub const STEPPER: &str = "proof Stepper.inc.1
  law O5(n$0 + 1, 0, 10) goal ; and ; lin 1 : 1 * 1 + 1 * 3 ; lin 2 : 1 * 1 + 1 * 2
end
proof Stepper_i.inc.1
  left ; and ; lin 3, 4 : 1 * 2 + 1 * 3 + 1 * 4 ; and ;
  law O5(n$1 + 1, 0, 10) goal ; and ; lin 2 : 1 * 1 + 1 * 3 ;
  lin 4 : 1 * 1 + 1 * 2 ; eq 3 goal 1 1 ; same
end
proof Stepper_i.inc.2
  right ; and ; qe 3 goal 1 1 ; hyp 4 ; and ; hyp 2 ; hyp 3
end
proof Stepper_i.inc.chk.1
  lin 2 : 1 * 1 + 1 * 3
end
proof Stepper_i.inc.chk.2
  lin 2 : 1 * 2 + 1 * 3
end
";

/// The proof file of the exchange of two numbers.
pub const SWAP: &str = "proof Swap.swap.1
  fix c : INTEGER ; imp ; and ; hyp 2 ; eq 3 goal 1 ; hyp 1
end
proof Swap_i.swap.1
  fix t : INTEGER ; use x$0 ; and ; same ; and ; and ; hyp 4 ; hyp 3 ; and ; hyp 6 ; hyp 5
end
";

/// The proof file of the array that is filled.
pub const TABLE: &str = "proof Table.INITIALISATION.1
  law M60(0 .. 9, 0, INT) goal ; eval ; true
end
proof Table.fill.1
  law M60(0 .. 9, 7, INT) goal ; eval ; true
end
proof Table.read.wd.1
  law M40(f$0, 0 .. 9, INT) hyp 1 ; split 3 ;
  law M39(f$0, 0 .. 9, INT) hyp 4 ; split 6 ;
  law M39(f$0, INTEGER, INTEGER) goal ; and ;
  law M38(f$0, INTEGER, INTEGER) goal ; and ;
  sub goal ; fix u : INTEGER ; imp ; type goal ; true ;
  sub goal ; fix u : INTEGER ; imp ; type goal ; true ;
  hyp 8
end
proof Table.read.wd.2
  law M40(f$0, 0 .. 9, INT) hyp 1 ; split 3 ; eq 5 goal 2 ; hyp 2
end
proof Table_i.INITIALISATION.1
  law M60(0 .. 9, 0, INT) goal ; eval ; true
end
proof Table_i.fill.1
  fix v : INTEGER ; and ; and ; and ; and ;
  // the invariant at first
  and ; and ; eval ; hyp 2 ; fix j : INTEGER ; imp ; contra ; lin 4 : 1 * 1 + 1 * 2 ;
  // the body keeps it
  fix t : POW((INTEGER * INTEGER)), w : INTEGER ; imp ; split 4 ; split 5 ; split 7 ; and ; and ;
  law O5(w + 1, 0, 10) goal ; and ; lin 9 : 1 * 1 + 1 * 3 ; lin 6 : 1 * 1 + 1 * 2 ;
  law M58(t, w, 7, 0 .. 9, INT) goal ; hyp 10 ;
  law O5(w, 0, 9) goal ; and ; lin 9 : 1 * 1 + 1 * 3 ; lin 6 : 1 * 1 + 1 * 2 ; eval ; true ;
  fix j : INTEGER ; imp ; case j = w ;
  eq 12 goal 1 2 ; law M49(t, w, 7) goal 1 ; same ;
  law M50(t, w, 7, j) goal 1 ; hyp 12 ; inst 8 j ; apply 13 ;
  law O5(j, 0, w - 1) goal ; and ; lin 11 : 1 * 1 + 1 * 3 ;
  law O8(j, w) hyp 12 ; cases 14 ; lin 15 : 1 * 1 + 1 * 2 ; lin 11, 15 : 1 * 2 + 1 * 3 ;
  hyp 14 ;
  // the variant
  fix t : POW((INTEGER * INTEGER)), w : INTEGER ; imp ; split 4 ; split 5 ; split 7 ;
  law O6(10 - w) goal ; lin 9 : 1 * 2 + 1 * 3 ;
  fix t : POW((INTEGER * INTEGER)), w : INTEGER ; imp ; lin : 1 * 1 ;
  // the end
  fix t : POW((INTEGER * INTEGER)), w : INTEGER ; imp ; split 4 ; split 5 ; split 7 ; and ; hyp 10 ;
  law M40(t, 0 .. 9, INT) hyp 10 ; split 11 ;
  ext goal ; fix p : (INTEGER * INTEGER) ; iff ;
  imp ; pair p ; open 15 a : INTEGER, b : INTEGER ; eq 16 hyp 14 1 ; eq 16 goal 1 ;
  law S6(a, b, 0 .. 9, {7}) goal ; and ;
  qe 13 goal 2 ; law M8(a, t, b) goal ; hyp 17 ; true ;
  law S5(b, 7) goal ;
  cut t(a) = b ; law M47(t, a, b, 0 .. 9, INT) goal ; hyp 12 ; law M8(a, t, b) goal ; hyp 17 ; true ; hyp 17 ;
  inst 8 a ; apply 19 ;
  cut a : 0 .. 9 ; qe 13 goal 2 ; law M8(a, t, b) goal ; hyp 17 ; true ;
  law O5(a, 0, w - 1) goal ; and ; lin 20 : 1 * 1 + 1 * 3 ; lin 20, 6 : 1 * 2 + 1 * 3 + 1 * 4 ;
  qe 18 goal 1 ; hyp 20 ;
  imp ; pair p ; open 15 a : INTEGER, b : INTEGER ; eq 16 hyp 14 1 ; eq 16 goal 1 ;
  law S6(a, b, 0 .. 9, {7}) hyp 17 ; split 18 ; law S5(b, 7) hyp 20 ;
  wal M47(t, a, b, 0 .. 9, INT) goal ; hyp 12 ; eq 13 goal 2 ; hyp 19 ;
  eq 21 goal 2 ; inst 8 a ; apply 22 ;
  law O5(a, 0, w - 1) goal ; and ; lin 19 : 1 * 1 + 1 * 3 ; lin 19, 6 : 1 * 2 + 1 * 3 + 1 * 4 ;
  hyp 23
end
proof Table_i.fill.chk.1
  fix v : INTEGER ; and ;
  fix t : POW((INTEGER * INTEGER)), w : INTEGER ; imp ; split 4 ; fix j : INTEGER ; imp ;
  law M40(t, 0 .. 9, INT) hyp 6 ; split 8 ; law M39(t, 0 .. 9, INT) hyp 9 ; split 11 ; and ;
  law M39(t, INTEGER, INTEGER) goal ; and ; law M38(t, INTEGER, INTEGER) goal ; and ;
  sub goal ; fix u : INTEGER ; imp ; type goal ; true ;
  sub goal ; fix u : INTEGER ; imp ; type goal ; true ; hyp 13 ;
  eq 10 goal 2 ; law O5(j, 0, 9) goal ; and ; lin 7 : 1 * 1 + 1 * 3 ; lin 7, 5 : 1 * 2 + 1 * 4 + 1 * 5 ;
  fix t : POW((INTEGER * INTEGER)), w : INTEGER ; imp ; split 4 ; split 5 ; imp ;
  and ; and ; lin 7 : 1 * 1 + 1 * 3 ; lin 9 : 1 * 1 + 1 * 2 ;
  and ; lin 7 : 1 * 1 + 1 * 3 ; lin 7 : 1 * 2 + 1 * 3
end
proof Table_i.read.3
  eq 3 goal 1 1 ; same
end
proof Table_i.read.chk.1
  lin 4 : 1 * 1 + 1 * 3
end
proof Table_i.read.chk.2
  lin 4 : 1 * 2 + 1 * 3
end
";
