// The variables of the family.

ghost use Rattle.std.specs.Prelude.{◌≡◌, ◌<◌, ◌^◌, length, IfOk, OnOk};
ghost use Rattle.bk_form.specs.Table.{with_variable};
ghost use Rattle.bk_val.specs.ValueType.{int_type, pair_type, set_type};
ghost use Rattle.bk_tests_sessions.specs.Drawn.{number_named, truth_named, family_table, first_rows, family_homes, family_extents};

use bk_dev::Home;
use bk_form::{Ty, VarTable};
use bk_io::Memory;
use bk_tests_fixtures::text;
use std::alloc::Global;

/// Adds a variable that holds a whole number.
pub(crate) fn add_number(alloc: Global, table: &mut VarTable, name: &[u8]) -> Result<(), Memory>
    requires { length table.old.variables < 2 ^ 32 }
    ensures { OnOk result (table.new ≡ with_variable table.old (number_named name.now)) }
{
    let _ = table.add_variable(text(alloc, name)?, Ty::int())?;
    Ok(())
}

fn add_truth(alloc: Global, table: &mut VarTable, name: &[u8]) -> Result<(), Memory>
    requires { length table.old.variables < 2 ^ 32 }
    ensures { OnOk result (table.new ≡ with_variable table.old (truth_named name.now)) }
{
    let _ = table.add_variable(text(alloc, name)?, Ty::boolean())?;
    Ok(())
}

/// Adds an array of whole numbers.
pub(crate) fn add_array(alloc: Global, table: &mut VarTable, name: &[u8]) -> Result<(), Memory>
    requires { length table.old.variables < 2 ^ 32 }
    ensures { OnOk result (table.new ≡ with_variable table.old (record { text = name.now; of_type = set_type (pair_type int_type int_type) })) }
{
    let array = Ty::set(alloc, Ty::pair(alloc, Ty::int(), Ty::int())?)?;
    let _ = table.add_variable(text(alloc, name)?, array)?;
    Ok(())
}

// The machine's variables and the input.
fn shared_variables(alloc: Global) -> Result<VarTable, Memory>
    ensures { IfOk result (λ t. t ≡ first_rows 5) }
{
    let mut table = VarTable::new(alloc);
    add_number(alloc, &mut table, b"i")?;
    add_number(alloc, &mut table, b"j")?;
    add_truth(alloc, &mut table, b"b")?;
    add_array(alloc, &mut table, b"f")?;
    add_number(alloc, &mut table, b"k")?;
    Ok(table)
}

// With the machine's outputs.
fn with_outputs(alloc: Global) -> Result<VarTable, Memory>
    ensures { IfOk result (λ t. t ≡ first_rows 11) }
{
    let mut table = shared_variables(alloc)?;
    add_number(alloc, &mut table, b"p$0")?;
    add_number(alloc, &mut table, b"q$0")?;
    add_truth(alloc, &mut table, b"r$0")?;
    add_number(alloc, &mut table, b"s$0")?;
    add_number(alloc, &mut table, b"t$0")?;
    add_number(alloc, &mut table, b"u$0")?;
    Ok(table)
}

// With the implementation's outputs.
fn with_all_outputs(alloc: Global) -> Result<VarTable, Memory>
    ensures { IfOk result (λ t. t ≡ first_rows 17) }
{
    let mut table = with_outputs(alloc)?;
    add_number(alloc, &mut table, b"p$1")?;
    add_number(alloc, &mut table, b"q$1")?;
    add_truth(alloc, &mut table, b"r$1")?;
    add_number(alloc, &mut table, b"s$1")?;
    add_number(alloc, &mut table, b"t$1")?;
    add_number(alloc, &mut table, b"u$1")?;
    Ok(table)
}

// With four of the locals.
fn with_some_locals(alloc: Global) -> Result<VarTable, Memory>
    ensures { IfOk result (λ t. t ≡ first_rows 21) }
{
    let mut table = with_all_outputs(alloc)?;
    add_number(alloc, &mut table, b"l0")?;
    add_number(alloc, &mut table, b"l1")?;
    add_number(alloc, &mut table, b"l2")?;
    add_number(alloc, &mut table, b"l3")?;
    Ok(table)
}

/// The family's variables: those of the machine and its input, the outputs at each level, and the locals.
pub(crate) fn table(alloc: Global) -> Result<VarTable, Memory>
    ensures { IfOk result (λ t. t ≡ family_table) }
{
    let mut table = with_some_locals(alloc)?;
    add_number(alloc, &mut table, b"l4")?;
    add_number(alloc, &mut table, b"l5")?;
    add_number(alloc, &mut table, b"l6")?;
    add_number(alloc, &mut table, b"l7")?;
    Ok(table)
}

/// Where each of them belongs.
pub(crate) fn homes(alloc: Global) -> Result<Vec<Home>, Memory>
    ensures { IfOk result (λ homes. homes.items ≡ family_homes) }
{
    Ok(vec![in alloc;
        Home::Concrete(1),
        Home::Concrete(1),
        Home::Concrete(1),
        Home::Concrete(1),
        Home::Input,
        Home::Inner(0),
        Home::Inner(0),
        Home::Inner(0),
        Home::Inner(0),
        Home::Inner(0),
        Home::Inner(0),
        Home::Inner(1),
        Home::Inner(1),
        Home::Inner(1),
        Home::Inner(1),
        Home::Inner(1),
        Home::Inner(1),
        Home::Inner(1),
        Home::Inner(1),
        Home::Inner(1),
        Home::Inner(1),
        Home::Inner(1),
        Home::Inner(1),
        Home::Inner(1),
        Home::Inner(1),
    ]?)
}

/// How many of the variables are the machine's, and how many there are.
pub(crate) fn extents(alloc: Global) -> Result<Vec<(usize, usize)>, Memory>
    ensures { IfOk result (λ extents. extents.items ≡ family_extents) }
{
    Ok(vec![in alloc; (0, 11), (0, 25)]?)
}
