//! A project with the texts of its files.

ghost use Rattle.std.specs.Prelude.{◌≡◌, ◌⊎◌, true, Some, All, map, option_map, find, IfOk, IfErr, IfSome};
ghost use Rattle.std.specs.Option.{option_copied};
ghost use Rattle.std.specs.Str.{bytes_eq};
ghost use Rattle.bk_io.specs.Counts.{HasCause};
ghost use Rattle.bk_io.specs.Files.{Files};
ghost use Rattle.bk_form.specs.Each.{Each};
ghost use Rattle.bk_front.specs.ProjectFile.{IsFileName, AreLinesOf};
ghost use Rattle.bk_p_proof.specs.Files.{IsShort};
ghost use Rattle.bk_po.specs.Obligations.{numbered_obligations};
ghost use Rattle.bk_po.specs.Shown.{named_sequent};
ghost use Rattle.bk_status.specs.States as meant;
ghost use Rattle.bk_verbs.specs.Causes.{IsOfChecks, IsOfReading};
ghost use Rattle.bk_cli.specs.Tasks.{status_task};
ghost use Rattle.bk_verbs.specs.Project.{AreTold, IsTold, ReadsProject, files_of};
ghost use Rattle.bk_verbs.specs.Stops.{IsOutside, StopsAtFile, StopsAtFiles, StopsAtProject, StopsPastLimits, StopsTask};
ghost use Rattle.bk_verbs.specs.declared.stop.Stop.TheVariants.{ReadFault};
ghost use Rattle.bk_prune.specs.Pruned.{IsReady};
ghost use Rattle.bk_proof_program.specs.Texts.{AreTextsOf, IsToldFile};

use bk_dev::Development;
use bk_form::{Token, VarTable};
use bk_front::{ProjectLine, lines};
use bk_goal::{Found, Note, notes};
use bk_io::{Memory, Shelf, Text};
use bk_lex::{LexFault, tokens};
use bk_p_comp::component;
use bk_p_expr::SynFault;
use bk_p_proof::{ScriptFault, scripts};
use bk_po::{Obligation, obligation_table};
use bk_raw::{RawComponent, RawScript};
use bk_status::name_text;
use bk_verbs::Stop;
use bk_verbs::files::{Project, fetch, names, read_project, refused};
use bk_verbs::proof::obligations_of;
use std::alloc::Global;

/// A file that a project names, and what it holds.
#[derive(Drop)]
pub(crate) struct NamedText {
    pub(crate) name: Text,
    pub(crate) text: Vec<u8>,
}

/// The files of a project, read once more for their places and sums.
#[derive(Drop)]
pub(crate) struct ProjectTexts {
    pub(crate) text: Vec<u8>,
    pub(crate) components: Vec<NamedText>,
    pub(crate) proofs: Vec<NamedText>,
}

/// A proof file: how many scripts it has, and its tokens.
#[derive(Drop)]
pub(crate) struct ProofFile {
    pub(crate) scripts: usize,
    pub(crate) tokens: Vec<Token>,
}

/// What a project says, with its obligations.
#[derive(Drop)]
pub(crate) struct Whole {
    pub(crate) project: Project,
    pub(crate) list: Vec<Obligation>,
    pub(crate) table: VarTable,
    pub(crate) files: ProjectTexts,
    pub(crate) proofs: Vec<ProofFile>,
}

/// Reads a project with its proof files, makes its obligations, and reads the texts of its files once more.
pub(crate) fn read_whole<H: Shelf>(alloc: Global, name: &str, shelf: &mut H) -> Result<Whole, Stop>
    ensures cause { IfErr result (λ stop. (files : Files) → H.files shelf.old ≡ Some files →
        IsOutside stop ⊎ StopsTask files (status_task name.now) stop) }
    ensures reading { IfErr result IsOfReading }
    ensures failed { HasCause ReadFault (H.faults shelf.old) (H.faults shelf.new) result }
    ensures told { IfOk result (λ w. (files : Files) → H.files shelf.old ≡ Some files →
        ReadsProject true files name.now w.project.development w.project.scripts) }
    ensures texts { IfOk result (λ w. (files : Files) → H.files shelf.old ≡ Some files → AreTextsOf files name.now w.files) }
    ensures listed { IfOk result (λ w. map named_sequent w.list.items ≡ numbered_obligations w.project.development) }
    ensures ready { IfOk result (λ w. IsReady w.project.development w.table w.list.items) }
{
    let project = read_project(alloc, name, true, shelf)?;
    let files = read_again(alloc, name, shelf)?;
    let (list, table) = obligations_with(alloc, name, &project.development)?;
    let proofs = proof_files(alloc, &files.proofs)?;
    Ok(Whole {
        project,
        list,
        table,
        files,
        proofs,
    })
}

// The obligations of a development, and the table that they speak of.
fn obligations_with(
    alloc: Global,
    name: &str,
    dev: &Development,
) -> Result<(Vec<Obligation>, VarTable), Stop>
    ensures cause { IfErr result (λ stop. IsOutside stop ⊎ StopsPastLimits name.now dev.now stop) }
    ensures checks { IfErr result IsOfChecks }
    ensures listed { IfOk result (λ p. map named_sequent p.0.items ≡ numbered_obligations dev.now) }
    ensures ready { IfOk result (λ p. IsReady dev.now p.1 p.0.items) }
{
    dev.facts();
    let list = obligations_of(alloc, name, dev)?;
    let table = obligation_table(alloc, dev)?;
    Ok((list, table))
}

// The project file, then those that it names.
fn read_again<H: Shelf>(alloc: Global, name: &str, shelf: &mut H) -> Result<ProjectTexts, Stop>
    ensures cause { IfErr result (λ stop. (files : Files) → H.files shelf.old ≡ Some files →
        IsOutside stop ⊎ StopsAtProject true files name.now stop) }
    ensures reading { IfErr result IsOfReading }
    ensures failed { HasCause ReadFault (H.faults shelf.old) (H.faults shelf.new) result }
    ensures told { IfOk result (λ texts. (files : Files) → H.files shelf.old ≡ Some files → AreTextsOf files name.now texts) }
{
    let text = fetch(alloc, name, shelf)?;
    let lines = lines_of(alloc, name, &text)?;
    let components = fetch_named(alloc, &lines, false, shelf)?;
    let proofs = fetch_named(alloc, &lines, true, shelf)?;
    Ok(ProjectTexts {
        text,
        components,
        proofs,
    })
}

// The lines of a project file.
fn lines_of(alloc: Global, name: &str, text: &[u8]) -> Result<Vec<ProjectLine>, Stop>
    ensures cause { IfErr result (λ stop. (files : Files) → IsTold files name.now text.now →
        IsOutside stop ⊎ StopsAtProject true files name.now stop) }
    ensures checks { IfErr result IsOfChecks }
    ensures value { IfOk result (λ lines. AreLinesOf text.now lines.items) }
{
    match lines(alloc, text) {
        Ok(lines) => Ok(lines),
        Err(refusal) => Err(refused(alloc, refusal, name, &[])?),
    }
}

// The files of one kind that the lines name.
fn fetch_named<H: Shelf>(
    alloc: Global,
    lines: &[ProjectLine],
    of_proofs: bool,
    shelf: &mut H,
) -> Result<Vec<NamedText>, Stop>
    requires { All (λ line. IsFileName line.name) lines.now }
    ensures cause { IfErr result (λ stop. (files : Files) → H.files shelf.old ≡ Some files →
        IsOutside stop ⊎ StopsAtFiles files (files_of of_proofs lines.now) stop) }
    ensures texts { IfOk result (λ found. (files : Files) → H.files shelf.old ≡ Some files →
        AreTold files (files_of of_proofs lines.now) (map (λ f. f.text.items) found.items)) }
    ensures reading { IfErr result IsOfReading }
    ensures failed { HasCause ReadFault (H.faults shelf.old) (H.faults shelf.new) result }
    ensures files { H.files shelf.new ≡ H.files shelf.old }
    ensures names { IfOk result (λ found. map (λ f. f.name) found.items ≡ files_of of_proofs lines.now) }
    ensures told { IfOk result (λ found. (files : Files) → H.files shelf.old ≡ Some files → Each (IsToldFile files) found.items) }
{
    let wanted = names(alloc, lines, of_proofs)?;
    let found = fetch_each(alloc, &wanted, shelf)?;
    Ok(found)
}

// The files with these names.
fn fetch_each<H: Shelf>(
    alloc: Global,
    names: &[&str],
    shelf: &mut H,
) -> Result<Vec<NamedText>, Stop>
    ensures cause { IfErr result (λ stop. (files : Files) → H.files shelf.old ≡ Some files →
        IsOutside stop ⊎ StopsAtFiles files (map (λ name. name.now) names.now) stop) }
    ensures texts { IfOk result (λ found. (files : Files) → H.files shelf.old ≡ Some files →
        AreTold files (map (λ name. name.now) names.now) (map (λ f. f.text.items) found.items)) }
    ensures reading { IfErr result IsOfReading }
    ensures failed { HasCause ReadFault (H.faults shelf.old) (H.faults shelf.new) result }
    ensures files { H.files shelf.new ≡ H.files shelf.old }
    ensures names { IfOk result (λ found. map (λ f. f.name) found.items ≡ map (λ name. name.now) names.now) }
    ensures told { IfOk result (λ found. (files : Files) → H.files shelf.old ≡ Some files → Each (IsToldFile files) found.items) }
{
    let mut found = Vec::new(alloc);
    for name in names {
        found.push(fetch_one(alloc, name, shelf)?)?;
    }
    Ok(found)
}

fn fetch_one<H: Shelf>(alloc: Global, name: &str, shelf: &mut H) -> Result<NamedText, Stop>
    ensures cause { IfErr result (λ stop. (files : Files) → H.files shelf.old ≡ Some files →
        IsOutside stop ⊎ StopsAtFile files name.now stop) }
    ensures reading { IfErr result IsOfReading }
    ensures failed { HasCause ReadFault (H.faults shelf.old) (H.faults shelf.new) result }
    ensures files { H.files shelf.new ≡ H.files shelf.old }
    ensures name { IfOk result (λ file. file.name ≡ name.now) }
    ensures told { IfOk result (λ file. (files : Files) → H.files shelf.old ≡ Some files → IsTold files name.now file.text.items) }
{
    let text = fetch(alloc, name, shelf)?;
    Ok(NamedText {
        name: Text::from_bytes(Vec::from_slice(alloc, name.as_bytes())?),
        text,
    })
}

// Each proof file by itself.
fn proof_files(alloc: Global, texts: &[NamedText]) -> Result<Vec<ProofFile>, Memory> {
    let mut files = Vec::new(alloc);
    for file in texts {
        let count = script_count(alloc, &file.text)?;
        let tokens = text_tokens(alloc, &file.text)?;
        files.push(ProofFile {
            scripts: count,
            tokens,
        })?;
    }
    Ok(files)
}

// How many scripts a text has; 0 where it is no proof file.
fn script_count(alloc: Global, text: &[u8]) -> Result<usize, Memory> {
    let own = Vec::from_slice(alloc, text)?;
    let texts = Vec::from_array(alloc, [own])?;
    match scripts(alloc, &texts) {
        Ok(found) => Ok(found.all().len()),
        Err(ScriptFault::Memory) => Err(Memory),
        Err(_) => Ok(0),
    }
}

fn text_tokens(alloc: Global, text: &[u8]) -> Result<Vec<Token>, Memory> {
    match tokens(alloc, text) {
        Ok(found) => Ok(found),
        Err(LexFault::Memory) => Err(Memory),
        Err(_) => Ok(Vec::new(alloc)),
    }
}

/// The components as they are written; those before the first that is not read.
pub(crate) fn raw_components(
    alloc: Global,
    texts: &[NamedText],
) -> Result<Vec<RawComponent>, Memory> {
    let mut all = Vec::new(alloc);
    for file in texts {
        let tokens = text_tokens(alloc, &file.text)?;
        match component(alloc, &tokens) {
            Ok(raw) => all.push(raw)?,
            Err(SynFault::Memory) => return Err(Memory),
            Err(_) => return Ok(all),
        }
    }
    Ok(all)
}

/// What the texts of the components call bound variables.
pub(crate) fn notes_of(alloc: Global, whole: &Whole) -> Result<Vec<Note>, Memory> {
    let raws = raw_components(alloc, &whole.files.components)?;
    notes(alloc, &whole.project.development, &raws)
}

/// The first obligation with a name.
pub(crate) fn obligation_named<'a>(list: &'a [Obligation], name: &[u8]) -> Option<&'a Obligation>
    ensures { option_copied result ≡ find (λ o. bytes_eq name.now o.name) list.now }
{
    list.iter()
        .find(|obligation| name == obligation.name.as_bytes())
}

// The first script with a name, and its number, from 0.
fn script_with<'a>(
    alloc: Global,
    list: &'a [RawScript],
    name: &[u8],
) -> Result<Option<(usize, &'a RawScript)>, Memory>
    requires { All IsShort list.now }
    ensures named { IfOk result (λ found. option_map (λ p. p.1.now) found ≡ meant.script_named list.now name.now) }
    ensures short { IfOk result (λ found. IfSome found (λ p. IsShort p.1.now)) }
{
    for (number, script) in list.iter().enumerate() {
        if is_named(alloc, script, name)? {
            return Ok(Some((number, script)));
        }
    }
    Ok(None)
}

fn is_named(alloc: Global, script: &RawScript, name: &[u8]) -> Result<bool, Memory>
    ensures { IfOk result (λ b. b ≡ bytes_eq name.now (meant.name_text script.now.name)) }
{
    let own = name_text(alloc, &script.name)?;
    Ok(name == own.as_slice())
}

// The number of the file in which the script with this number stands.
fn file_number(files: &[ProofFile], script: usize) -> usize {
    let mut before = 0usize;
    for (number, file) in files.iter().enumerate() {
        before = before.saturating_add(file.scripts);
        if script < before {
            return number;
        }
    }
    files.len()
}

/// The script with a name, and its file.
pub(crate) fn found<'a>(
    alloc: Global,
    whole: &'a Whole,
    name: &[u8],
) -> Result<Option<Found<'a>>, Memory>
    ensures named { IfOk result (λ found.
        option_map (λ f. f.script.now) found ≡ meant.script_named whole.now.project.scripts name.now) }
    ensures short { IfOk result (λ found. IfSome found (λ f. IsShort f.script.now)) }
{
    whole.project.scripts.facts();
    let list = whole.project.scripts.all();
    let Some((number, script)) = script_with(alloc, list, name)? else {
        return Ok(None);
    };
    let file = file_number(&whole.proofs, number);
    Ok(Some(Found {
        script,
        file: file_name(whole, file),
        text: file_text(whole, file),
        tokens: file_tokens(whole, file),
    }))
}

// The name of the proof file with this number.
fn file_name(whole: &Whole, number: usize) -> &[u8] {
    match whole.files.proofs.get(number) {
        Some(file) => file.name.as_bytes(),
        None => &[],
    }
}

// Its text.
fn file_text(whole: &Whole, number: usize) -> &[u8] {
    match whole.files.proofs.get(number) {
        Some(file) => &file.text,
        None => &[],
    }
}

// Its tokens.
fn file_tokens(whole: &Whole, number: usize) -> &[Token] {
    match whole.proofs.get(number) {
        Some(file) => &file.tokens,
        None => &[],
    }
}
