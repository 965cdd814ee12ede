// The texts of the rows, byte by byte.

// Counter.mch.
pub(crate) const COUNTER: &str = "MACHINE Counter\n\
    VARIABLES n\n\
    INVARIANT n : 0..10\n\
    INITIALISATION n := 0\n\
    OPERATIONS\n\
    \x20 reset = n := 0 ;\n\
    \x20 setmax = n := 10 ;\n\
    \x20 r <-- get = r := n\n\
    END\n\
    ";

// Counter_r.ref.
pub(crate) const COUNTER_R: &str = "REFINEMENT Counter_r REFINES Counter\n\
    VARIABLES n\n\
    INVARIANT n : 0..10\n\
    INITIALISATION n := 0\n\
    OPERATIONS\n\
    \x20 reset = n := 0 ;\n\
    \x20 setmax = n := 10 ;\n\
    \x20 r <-- get = r := n\n\
    END\n\
    ";

// Counter_i.imp.
pub(crate) const COUNTER_I: &str =
    "IMPLEMENTATION Counter_i REFINES Counter_r CONCRETE_VARIABLES n\n\
    INVARIANT n : 0..10\n\
    INITIALISATION n := 0\n\
    OPERATIONS\n\
    \x20 reset = n := 0 ;\n\
    \x20 setmax = n := 10 ;\n\
    \x20 r <-- get = r := n\n\
    END\n\
    ";

// Table.mch.
pub(crate) const TABLE: &str = "MACHINE Table\n\
    VARIABLES f\n\
    INVARIANT f : 0..9 --> INT\n\
    INITIALISATION f := (0..9) * {0}\n\
    OPERATIONS\n\
    \x20 fill = f := (0..9) * {7} ;\n\
    \x20 r <-- read(i) = PRE i : 0..9 THEN r := f(i) END\n\
    END\n\
    ";

// Table_i.imp.
pub(crate) const TABLE_I: &str = "IMPLEMENTATION Table_i REFINES Table\n\
    CONCRETE_VARIABLES tab\n\
    INVARIANT tab : 0..9 --> INT & tab = f\n\
    INITIALISATION tab := (0..9) * {0}\n\
    OPERATIONS\n\
    \x20 fill = VAR i IN i := 0 ;\n\
    \x20   WHILE i < 10 DO tab(i) := 7 ; i := i + 1\n\
    \x20   INVARIANT i : 0..10 & tab : 0..9 --> INT & !j.(j : 0..i - 1 => tab(j) = 7)\n\
    \x20   VARIANT 10 - i END\n\
    \x20 END ;\n\
    \x20 r <-- read(i) = r := tab(i)\n\
    END\n\
    ";

// Lamp.mch.
pub(crate) const LAMP: &str = "/* the machine */\n\
    MACHINE Lamp\n\
    SETS COLOR = {red, amber, green}\n\
    VARIABLES col\n\
    INVARIANT col : COLOR /* the lamp */\n\
    INITIALISATION col := red\n\
    OPERATIONS\n\
    \x20 next = IF col = red THEN col := green ELSIF col = green THEN col := amber ELSE col := red END ;\n\
    \x20 cc <-- show = BEGIN cc := col END\n\
    END\n\
    ";

// Lamp_i.imp.
pub(crate) const LAMP_I: &str = "IMPLEMENTATION Lamp_i REFINES Lamp\n\
    CONCRETE_VARIABLES col // concrete now\n\
    INVARIANT col : COLOR /* the lamp */\n\
    INITIALISATION col := red\n\
    OPERATIONS\n\
    \x20 next = IF col = red THEN col := green ELSIF col = green THEN col := amber ELSE col := red END ;\n\
    \x20 cc <-- show = BEGIN cc := col END\n\
    END\n\
    ";
