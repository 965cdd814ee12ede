// Components by their clauses.

ghost use Rattle.std.specs.Option.{option_copied};
ghost use Rattle.std.specs.Prelude.{◌≡◌, ◌++◌, map, cond, IfOk, OnOk, [], false, true};
ghost use Rattle.bk_dev.specs.Development.{is_implementing};
ghost use Rattle.bk_raw.specs.declared.component.ClauseWord.TheVariants.{Sets, Constants, Properties, Variables, ConcreteVariables};
ghost use Rattle.bk_raw.specs.declared.component.ClauseWord.TheVariants.{Invariant, Assertions, Values, Initialisation, Operations};
ghost use Rattle.bk_statics.specs.Components as meant;
ghost use Rattle.bk_scope.specs.Shown.{component_shown, variables_shown, skipping, is_blank};

use bk_dev::Kind;
use bk_io::{Memory, Text};
use bk_raw::{
    ClauseParts, ClauseWord, ComponentKind, RawClause, RawComponent, RawName, RawOperation, RawSet,
    RawSub, RawSubNode, RawTerm, RawValue,
};
use std::alloc::Global;

/// A variable, and whether its clause is CONCRETE_VARIABLES.
#[derive(Clone, Copy)]
pub struct WrittenVariable<'a> {
    pub name: &'a RawName,
    pub is_concrete: bool,
}

/// A component by its clauses; what is absent is empty.
#[derive(Drop)]
pub struct Component<'a> {
    pub at: usize,
    pub kind: Kind,
    pub name: &'a RawName,
    pub sets: Vec<&'a RawSet>,
    pub constants: Vec<&'a RawName>,
    pub properties: Option<&'a RawTerm>,
    /// Of both clauses, in the order of the text.
    pub variables: Vec<WrittenVariable<'a>>,
    pub invariant: Option<&'a RawTerm>,
    pub assertions: Vec<&'a RawTerm>,
    /// Of an implementation alone.
    pub values: Vec<&'a RawValue>,
    pub init: Option<&'a RawSub>,
    pub operations: Vec<&'a RawOperation>,
    /// All names of sets, elements, constants and variables, in the order of the text.
    pub declared: Vec<&'a RawName>,
}

/// What stands where nothing is written: an initialisation that does nothing, and an operation that does nothing.
#[derive(Drop)]
pub struct Blank {
    pub start: RawSub,
    pub operation: RawOperation,
}

impl Blank {
    /// For a component that starts at this byte.
    pub fn at(alloc: Global, at: usize) -> Blank
        ensures { is_blank at result }
    {
        Blank {
            start: skip_at(at),
            operation: RawOperation {
                outputs: Vec::new(alloc),
                name: RawName {
                    at: 0,
                    text: Text::from_bytes(Vec::new(alloc)),
                },
                inputs: Vec::new(alloc),
                body: skip_at(0),
            },
        }
    }
}

// `skip` at a byte.
fn skip_at(at: usize) -> RawSub
    ensures { result ≡ skipping at }
{
    RawSub {
        at,
        node: RawSubNode::Skip,
    }
}

impl<'a> Component<'a> {
    // The component's clauses.
    pub fn of(alloc: Global, raw: &'a RawComponent) -> Result<Component<'a>, Memory>
        ensures { IfOk result (λ c. component_shown c ≡ meant.component_of raw.now) }
    {
        let kind = kind_of(&raw.kind);
        let clauses = raw.clauses.as_slice();
        Ok(Component {
            at: raw.at,
            kind,
            name: &raw.name,
            sets: sets(alloc, clauses)?,
            constants: constants(alloc, clauses)?,
            properties: properties(clauses),
            variables: variables(alloc, clauses)?,
            invariant: invariant(clauses),
            assertions: assertions(alloc, clauses)?,
            values: values(alloc, kind, clauses)?,
            init: initialisation(clauses),
            operations: operations(alloc, clauses)?,
            declared: declared(alloc, clauses)?,
        })
    }

    // Its initialisation, which does nothing where none is written.
    pub fn start(&self, blank: &'a Blank) -> &'a RawSub
        requires { is_blank self.now.at blank.now }
        ensures { result.now ≡ meant.initialisation (component_shown self.now) }
    {
        match self.init {
            Some(init) => init,
            None => &blank.start,
        }
    }

    // Whether it is a machine.
    pub fn is_machine(&self) -> bool
        ensures { result ≡ meant.is_machine self.now.kind }
    {
        self.kind == Kind::Machine
    }
}

// What kind of component it is.
fn kind_of(kind: &ComponentKind) -> Kind
    ensures { result ≡ meant.kind_as kind.now }
{
    match kind {
        ComponentKind::Machine => Kind::Machine,
        ComponentKind::Refinement => Kind::Refinement,
        ComponentKind::Implementation => Kind::Implementation,
    }
}

// Items go after those that were found.
fn push_all<'a, T>(found: &mut Vec<&'a T>, items: &'a [T]) -> Result<(), Memory>
    ensures { OnOk result (map (λ x. x.now) found.new.items ≡ map (λ x. x.now) found.old.items ++ items.now) }
{
    for item in items {
        found.push(item)?;
    }
    Ok(())
}

// The sets that clauses list.
fn sets<'a>(alloc: Global, clauses: &'a [RawClause]) -> Result<Vec<&'a RawSet>, Memory>
    ensures { IfOk result (λ found. map (λ s. s.now) found.items ≡ meant.listed Sets meant.sets_in clauses.now) }
{
    let mut found = Vec::new(alloc);
    for clause in clauses {
        if let (ClauseWord::Sets, ClauseParts::Sets(sets)) = (&clause.word, &clause.parts) {
            push_all(&mut found, sets)?;
        }
    }
    Ok(found)
}

// The constants that they list.
fn constants<'a>(alloc: Global, clauses: &'a [RawClause]) -> Result<Vec<&'a RawName>, Memory>
    ensures { IfOk result (λ found. map (λ x. x.now) found.items ≡ meant.listed Constants meant.names_in clauses.now) }
{
    let mut found = Vec::new(alloc);
    for clause in clauses {
        push_all(&mut found, constants_of(clause))?;
    }
    Ok(found)
}

// The constants of a clause.
fn constants_of(clause: &RawClause) -> &[RawName]
    ensures { result.now ≡ meant.if_clause Constants meant.names_in clause.now }
{
    match (&clause.word, &clause.parts) {
        (ClauseWord::Constants | ClauseWord::ConcreteConstants, ClauseParts::Names(names)) => names,
        _ => &[],
    }
}

// The abstract variables of a clause.
fn abstract_variables_of(clause: &RawClause) -> &[RawName]
    ensures { result.now ≡ meant.if_clause Variables meant.names_in clause.now }
{
    match (&clause.word, &clause.parts) {
        (ClauseWord::Variables | ClauseWord::AbstractVariables, ClauseParts::Names(names)) => names,
        _ => &[],
    }
}

// The concrete variables of a clause.
fn concrete_variables_of(clause: &RawClause) -> &[RawName]
    ensures { result.now ≡ meant.if_clause ConcreteVariables meant.names_in clause.now }
{
    match (&clause.word, &clause.parts) {
        (ClauseWord::ConcreteVariables, ClauseParts::Names(names)) => names,
        _ => &[],
    }
}

// The predicate of PROPERTIES.
fn properties(clauses: &[RawClause]) -> Option<&RawTerm>
    ensures { option_copied result ≡ meant.stated Properties meant.term_in clauses.now }
{
    for clause in clauses {
        if let (ClauseWord::Properties, ClauseParts::Term(term)) = (&clause.word, &clause.parts) {
            return Some(term);
        }
    }
    None
}

// The predicate of INVARIANT.
fn invariant(clauses: &[RawClause]) -> Option<&RawTerm>
    ensures { option_copied result ≡ meant.stated Invariant meant.term_in clauses.now }
{
    for clause in clauses {
        if let (ClauseWord::Invariant, ClauseParts::Term(term)) = (&clause.word, &clause.parts) {
            return Some(term);
        }
    }
    None
}

// The substitution of INITIALISATION.
fn initialisation(clauses: &[RawClause]) -> Option<&RawSub>
    ensures { option_copied result ≡ meant.stated Initialisation meant.substitution_in clauses.now }
{
    for clause in clauses {
        if let (ClauseWord::Initialisation, ClauseParts::Substitution(sub)) = (
            &clause.word,
            &clause.parts,
        ) {
            return Some(sub);
        }
    }
    None
}

// The variables that clauses declare.
fn variables<'a>(
    alloc: Global,
    clauses: &'a [RawClause],
) -> Result<Vec<WrittenVariable<'a>>, Memory>
    ensures { IfOk result (λ found. variables_shown found.items ≡ meant.variables_of clauses.now) }
{
    let mut found = Vec::new(alloc);
    for clause in clauses {
        push_variables(&mut found, abstract_variables_of(clause), false)?;
        push_variables(&mut found, concrete_variables_of(clause), true)?;
    }
    Ok(found)
}

// Names of a clause of variables go after those that were found.
fn push_variables<'a>(
    found: &mut Vec<WrittenVariable<'a>>,
    names: &'a [RawName],
    is_concrete: bool,
) -> Result<(), Memory>
    ensures { OnOk result (variables_shown found.new.items ≡
        variables_shown found.old.items ++ meant.as_variables is_concrete names.now) }
{
    for name in names {
        found.push(WrittenVariable { name, is_concrete })?;
    }
    Ok(())
}

// The terms of ASSERTIONS.
fn assertions<'a>(alloc: Global, clauses: &'a [RawClause]) -> Result<Vec<&'a RawTerm>, Memory>
    ensures { IfOk result (λ found. map (λ t. t.now) found.items ≡
        meant.listed Assertions meant.terms_in clauses.now) }
{
    let mut found = Vec::new(alloc);
    for clause in clauses {
        if let (ClauseWord::Assertions, ClauseParts::Terms(terms)) = (&clause.word, &clause.parts) {
            push_all(&mut found, terms)?;
        }
    }
    Ok(found)
}

// The entries of VALUES, which an implementation alone has.
fn values<'a>(
    alloc: Global,
    kind: Kind,
    clauses: &'a [RawClause],
) -> Result<Vec<&'a RawValue>, Memory>
    ensures { IfOk result (λ found. map (λ v. v.now) found.items ≡
        cond (is_implementing kind) (meant.listed Values meant.values_in clauses.now) []) }
{
    let mut found = Vec::new(alloc);
    if kind != Kind::Implementation {
        return Ok(found);
    }
    for clause in clauses {
        if let (ClauseWord::Values, ClauseParts::Values(values)) = (&clause.word, &clause.parts) {
            push_all(&mut found, values)?;
        }
    }
    Ok(found)
}

// The operations.
fn operations<'a>(alloc: Global, clauses: &'a [RawClause]) -> Result<Vec<&'a RawOperation>, Memory>
    ensures { IfOk result (λ found. map (λ o. o.now) found.items ≡
        meant.listed Operations meant.operations_in clauses.now) }
{
    let mut found = Vec::new(alloc);
    for clause in clauses {
        if let (ClauseWord::Operations, ClauseParts::Operations(operations)) = (
            &clause.word,
            &clause.parts,
        ) {
            push_all(&mut found, operations)?;
        }
    }
    Ok(found)
}

// All names of sets, elements, constants and variables.
fn declared<'a>(alloc: Global, clauses: &'a [RawClause]) -> Result<Vec<&'a RawName>, Memory>
    ensures { IfOk result (λ found. map (λ x. x.now) found.items ≡ meant.all_declared_by clauses.now) }
{
    let mut found = Vec::new(alloc);
    for clause in clauses {
        push_sets(&mut found, clause)?;
        push_all(&mut found, constants_of(clause))?;
        push_all(&mut found, abstract_variables_of(clause))?;
        push_all(&mut found, concrete_variables_of(clause))?;
    }
    Ok(found)
}

// The sets of a clause, each with its elements, go after the names that were found.
fn push_sets<'a>(found: &mut Vec<&'a RawName>, clause: &'a RawClause) -> Result<(), Memory>
    ensures { OnOk result (map (λ x. x.now) found.new.items ≡
        map (λ x. x.now) found.old.items ++ meant.set_names (meant.if_clause Sets meant.sets_in clause.now)) }
{
    let (ClauseWord::Sets, ClauseParts::Sets(sets)) = (&clause.word, &clause.parts) else {
        return Ok(());
    };
    for set in sets {
        found.push(&set.name)?;
        push_all(found, &set.elements)?;
    }
    Ok(())
}
