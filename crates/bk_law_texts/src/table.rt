//! The table of the laws' texts.

/// A line for each law: its number, its name with its picks, and what it says.
pub(crate) fn laws_text() -> &'static str {
    LAWS
}

const LAWS: &str = "1 G1(P) not(not(P)) is P
2 G2(P, Q) not(P & Q) is not(P) or not(Q)
3 G3(P, Q) not(P or Q) is not(P) & not(Q)
4 G4(P, Q) not(P => Q) is P & not(Q)
5 G5(P, Q) P => Q is not(P) or Q
6 G6(P, Q) P <=> Q is (P => Q) & (Q => P)
7 G7(P, Q) P & Q is Q & P
8 G8(P, Q) P or Q is Q or P
9 G9(P, Q, R) (P & Q) & R is P & (Q & R)
10 G10(P, Q, R) (P or Q) or R is P or (Q or R)
11 G11(P, Q, R) P & (Q or R) is (P & Q) or (P & R)
12 G12(P, Q, R) P or (Q & R) is (P or Q) & (P or R)
13 G13(P) btrue & P is P
14 G14(P) bfalse & P is bfalse
15 G15(P) btrue or P is btrue
16 G16(P) bfalse or P is P
17 G17(P) btrue => P is P
18 G18(P) P => btrue is btrue
19 G19() not(btrue) is bfalse
20 G20() not(bfalse) is btrue
21 G21(P) P & P is P
22 G22(x, y) x = y is y = x
23 G23(x) x = x is btrue
24 G24(P) bool(P) = TRUE is P
25 G25(P) bool(P) = FALSE is not(P)
26 G26(x) not(x = TRUE) is x = FALSE
27 G27(x) not(x = FALSE) is x = TRUE
28 G28(P, Q, R) P => (Q => R) is (P & Q) => R
101 O1(a, b) a = b is a <= b & b <= a
102 O2(a, b) a < b is a + 1 <= b
103 O3(a, b) not(a < b) is b <= a
104 O4(a, b) not(a <= b) is b < a
105 O5(a, b, c) a : b .. c is b <= a & a <= c
106 O6(a) a : NATURAL is 0 <= a
107 O7(a) a : NATURAL1 is 1 <= a
108 O8(a, b) not(a = b) is a < b or b < a
109 O9(a, b, q) a / b = q is q * b <= a & a < (q * b) + b if 0 <= a, 0 < b
110 O10(a, b) a mod b is a - (b * (a / b)) if 0 <= a, 0 < b
111 O11(a, b) a mod b : 0 .. (b - 1) is btrue if 0 <= a, 0 < b
112 O12(a) a ** 0 is 1
113 O13(a, b) a ** (b + 1) is a * (a ** b) if 0 <= b
114 O14(a, b) 0 <= a * b is btrue if 0 <= a, 0 <= b
115 O15(a, c, b) a * c <= b * c is btrue if a <= b, 0 <= c
116 O16(S, o) max(S) : S is btrue if not(S = o)
117 O17(a, S) a <= max(S) is btrue if a : S
118 O18(S, o) min(S) : S is btrue if not(S = o)
119 O19(S, a) min(S) <= a is btrue if a : S
120 O20(a) max({a}) is a
121 O21(a) min({a}) is a
122 O22(o) card(o) is 0
123 O23(x) card({x}) is 1
124 O24(S, x) card(S \\/ {x}) is card(S) + 1 if not(x : S)
125 O25(S, x) card(S - {x}) is card(S) - 1 if x : S
126 O26(a, b) card(a .. b) is (b - a) + 1 if a <= b + 1
127 O27(S) 0 <= card(S) is btrue
128 O28(S, T) card(S) <= card(T) is btrue if S : POW(T)
129 O29(S, o) card(S) = 0 is S = o
130 O30(S, T, o) card(S \\/ T) is card(S) + card(T) if S /\\ T = o
201 S1(x, S, T) x : S \\/ T is x : S or x : T
202 S2(x, S, T) x : S /\\ T is x : S & x : T
203 S3(x, S, T) x : S - T is x : S & not(x : T)
204 S4(x, o) x : o is bfalse
205 S5(x, y) x : {y} is x = y
206 S6(x, y, A, B) x |-> y : A * B is x : A & y : B
207 S7(x, y, z, w) x |-> y = z |-> w is x = z & y = w
208 S8(S, T) S = T is S : POW(T) & T : POW(S)
209 S9(S) S : POW(S) is btrue
210 S10(o, A) o : POW(A) is btrue
211 S11(S, T, A) S \\/ T : POW(A) is S : POW(A) & T : POW(A)
212 S12(x, A) {x} : POW(A) is x : A
213 S13(S, T, U) S : POW(T /\\ U) is S : POW(T) & S : POW(U)
214 S14(S, T, A) S /\\ T : POW(A) is btrue if S : POW(A)
215 S15(S, T, A) S - T : POW(A) is btrue if S : POW(A)
216 S16(S, A, T) S : POW(A) is btrue if S : POW(T), T : POW(A)
217 S17(S, A, o) S : POW1(A) is S : POW(A) & not(S = o)
218 S18(x, A, S) x : A is btrue if x : S, S : POW(A)
219 S19(S, o) S \\/ o is S
220 S20(S) S \\/ S is S
221 S21(S, T) S \\/ T is T \\/ S
222 S22(S, T, U) (S \\/ T) \\/ U is S \\/ (T \\/ U)
223 S23(S, o) S /\\ o is o
224 S24(S) S /\\ S is S
225 S25(S, T) S /\\ T is T /\\ S
226 S26(S, T, U) (S /\\ T) /\\ U is S /\\ (T /\\ U)
227 S27(S, T, U) S /\\ (T \\/ U) is (S /\\ T) \\/ (S /\\ U)
228 S28(S, T, U) S \\/ (T /\\ U) is (S \\/ T) /\\ (S \\/ U)
229 S29(S, o) S - o is S
230 S30(S, o) S - S is o
231 S31(S, T, U) S - (T \\/ U) is (S - T) - U
232 S32(S, T, U) (S \\/ T) - U is (S - U) \\/ (T - U)
233 S33(S, T, o) S - T is S if S /\\ T = o
234 S34(S, T) S \\/ T is T if S : POW(T)
235 S35(S, T) S /\\ T is S if S : POW(T)
236 S36(a, b, o) a .. b is o if b < a
237 S37(a) a .. a is {a}
238 S38(a, b, c) a .. b is (a .. c) \\/ ((c + 1) .. b) if a <= c + 1, c <= b
239 S39(a, b, c, q) a .. b : POW(c .. q) is btrue if c <= a, b <= q
240 S40(S, T, U) (S \\/ T) * U is (S * U) \\/ (T * U)
301 M1(x, y, r) x |-> y : r~ is y |-> x : r
302 M2(x, y, S, r) x |-> y : S <| r is x : S & x |-> y : r
303 M3(x, y, S, r) x |-> y : S <<| r is not(x : S) & x |-> y : r
304 M4(x, y, r, S) x |-> y : r |> S is x |-> y : r & y : S
305 M5(x, y, r, S) x |-> y : r |>> S is x |-> y : r & not(y : S)
306 M6(x, y, S) x |-> y : id(S) is x : S & x = y
307 M7(x, y, r, s) x |-> y : r <+ s is x |-> y : s or (x |-> y : r & not(x : dom(s)))
308 M8(x, r, y) x : dom(r) is btrue if x |-> y : r
309 M9(y, r, x) y : ran(r) is btrue if x |-> y : r
310 M10(o, p) dom(o) is p
311 M11(o, p) ran(o) is p
312 M12(x, y) dom({x |-> y}) is {x}
313 M13(x, y) ran({x |-> y}) is {y}
314 M14(r, s) dom(r \\/ s) is dom(r) \\/ dom(s)
315 M15(r, s) ran(r \\/ s) is ran(r) \\/ ran(s)
316 M16(r) dom(r~) is ran(r)
317 M17(r) ran(r~) is dom(r)
318 M18(S, r) dom(S <| r) is S /\\ dom(r)
319 M19(S, r) dom(S <<| r) is dom(r) - S
320 M20(r, S) ran(r |> S) is ran(r) /\\ S
321 M21(r, S) ran(r |>> S) is ran(r) - S
322 M22(r, s) dom(r <+ s) is dom(r) \\/ dom(s)
323 M23(r, s, A) ran(r <+ s) : POW(A) is btrue if ran(r) : POW(A), ran(s) : POW(A)
324 M24(S) dom(id(S)) is S
325 M25(S, T, o) dom(S * T) is S if not(T = o)
326 M26(S, T, o) ran(S * T) is T if not(S = o)
327 M27(r) r~~ is r
328 M28(r, s) (r \\/ s)~ is r~ \\/ s~
329 M29(r, s) (r ; s)~ is (s~ ; r~)
330 M30(r, s, t) ((r ; s) ; t) is (r ; (s ; t))
331 M31(r, S, T) r[S \\/ T] is r[S] \\/ r[T]
332 M32(r, o, p) r[o] is p
333 M33(r, x, A, B) r[{x}] is {r(x)} if r : A +-> B, x : dom(r)
334 M34(r, o) r <+ o is r
335 M35(o, r) o <+ r is r
336 M36(S, T, r) S <| (T <| r) is (S /\\ T) <| r
337 M37(f, A, B) f : A <-> B is f : POW(A * B)
338 M38(f, A, B) f : A <-> B is dom(f) : POW(A) & ran(f) : POW(B)
339 M39(f, A, B) f : A +-> B is f : A <-> B & (f~ ; f) : POW(id(ran(f)))
340 M40(f, S, B) f : S --> B is f : S +-> B & dom(f) = S
341 M41(f, A, B) f : A >+> B is f : A +-> B & f~ : B +-> A
342 M42(f, A, B) f : A >-> B is f : A --> B & f~ : B +-> A
343 M43(f, A, S) f : A +->> S is f : A +-> S & ran(f) = S
344 M44(f, A, S) f : A -->> S is f : A --> S & ran(f) = S
345 M45(f, A, S) f : A >->> S is f : A >-> S & ran(f) = S
346 M46(f, x, B, A) f(x) : B is btrue if f : A +-> B, x : dom(f)
347 M47(f, x, y, A, B) f(x) = y is x |-> y : f if f : A +-> B, x : dom(f)
348 M48(f, x, B, S) f(x) : B is btrue if f : S --> B, x : S
349 M49(f, x, y) (f <+ {x |-> y})(x) is y
350 M50(f, x, y, z) (f <+ {x |-> y})(z) is f(z) if not(z = x)
351 M51(f, g, x) (f <+ g)(x) is g(x) if x : dom(g)
352 M52(f, g, x) (f <+ g)(x) is f(x) if not(x : dom(g))
353 M53(f, g, x) (f \\/ g)(x) is f(x) if not(x : dom(g))
354 M54(S, f, x) (S <| f)(x) is f(x) if x : S
355 M55(S, y, x) (S * {y})(x) is y if x : S
356 M56(S, x) id(S)(x) is x if x : S
357 M57(f, g, x, A, B) (f ; g)(x) is g(f(x)) if f : A +-> B, x : dom(f)
358 M58(f, x, y, S, B) f <+ {x |-> y} : S --> B is btrue if f : S --> B, x : S, y : B
359 M59(f, g, A, B) f <+ g : A +-> B is btrue if f : A +-> B, g : A +-> B
360 M60(S, y, B) S * {y} : S --> B is btrue if y : B
361 M61(S, f, A, B) S <| f : A +-> B is btrue if f : A +-> B
362 M62(S, f, A, B) S <<| f : A +-> B is btrue if f : A +-> B
363 M63(f, g, A, B, o) f \\/ g : A +-> B is btrue if f : A +-> B, g : A +-> B, dom(f) /\\ dom(g) = o
364 M64(x, y, A, B) {x |-> y} : A +-> B is x : A & y : B
365 M65(f, S, B, A) f : S --> B is btrue if f : S --> A, ran(f) : POW(B)
";
