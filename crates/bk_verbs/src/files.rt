//! The files of a project.

ghost use Rattle.std.specs.Prelude.{◌≡◌, ◌⊎◌, ◌≤◌, ◌<◌, ◌^◌, ℕ, Bool, true, cond, List, All, length, map, [], Some, IfOk, IfErr};
ghost use Rattle.bk_io.specs.Files.{Files};
ghost use Rattle.bk_io.specs.Counts.{HasCause};
ghost use Rattle.bk_dev.specs.B0.{IsB0Development};
ghost use Rattle.bk_dev.specs.Development.{is_complete};
ghost use Rattle.bk_front.specs.ProjectFile.{IsFileName, AreLines, AreLinesOf, component_lines, is_component, is_proofs};
ghost use Rattle.bk_front.specs.Project.{Reads, IsRefusalOf};
ghost use Rattle.bk_front.specs.declared.refusal.Refusal.{Refusal};
ghost use Rattle.bk_p_proof.specs.Files.{AreScriptsOf, IsFaultOf};
ghost use Rattle.bk_p_proof.specs.declared.fault.ScriptFault.{ScriptFault};
ghost use Rattle.bk_verbs.specs.declared.stop.Stop.TheVariants.{ReadFault, Memory};
ghost use Rattle.bk_verbs.specs.Causes.{IsOfReading, IsOfChecks, CountsAbsence};
ghost use Rattle.bk_verbs.specs.Stops.{IsOutside, StopsAtFile, StopsAtFiles, StopsAtProject};
ghost use Rattle.bk_verbs.specs.Stops.{name_at, name_of, stop_of_refusal, stop_of_proofs};
ghost use Rattle.bk_verbs.specs.Project.{IsTold, AreTold, files_of, fetched, ReadsProject};

use crate::stop::Stop;
use bk_dev::Development;
use bk_front::{LineKind, ProjectLine, Refusal, lines, project};
use bk_io::{Fetch, Shelf, Text};
use bk_limits::MOST_BYTES;
use bk_p_proof::{ScriptFault, Scripts, scripts};
use std::alloc::Global;
use std::str;

/// The number of that limit.
const LIMIT_OF_LENGTH: u8 = 1;

/// The bytes of the file with this name.
pub fn fetch<H: Shelf>(alloc: Global, name: &str, shelf: &mut H) -> Result<Vec<u8>, Stop>
    ensures cause { IfErr result (λ stop. (files : Files) → H.files shelf.old ≡ Some files →
        IsOutside stop ⊎ StopsAtFile files name.now stop) }
    ensures reading { IfErr result IsOfReading }
    ensures failed { HasCause ReadFault (H.faults shelf.old) (H.faults shelf.new) result }
    ensures missing { CountsAbsence (H.absences shelf.old) (H.absences shelf.new) result }
    ensures files { H.files shelf.new ≡ H.files shelf.old }
    ensures told { IfOk result (λ text. (files : Files) → H.files shelf.old ≡ Some files →
        IsTold files name.now text.items) }
    ensures short { IfOk result (λ text. length text.items ≤ MOST_BYTES) }
{
    let mut text = Vec::new(alloc);
    match shelf.fetch(name, MOST_BYTES, &mut text) {
        Ok(()) => Ok(text),
        Err(Fetch::Missing) => Err(Stop::Missing(owned(alloc, name)?)),
        Err(Fetch::TooLong) => Err(Stop::Limit(LIMIT_OF_LENGTH, owned(alloc, name)?)),
        Err(Fetch::Failed) => Err(Stop::ReadFault),
        Err(Fetch::Memory) => Err(Stop::Memory),
    }
}

/// The bytes of the files with these names, in order.
pub fn fetch_all<H: Shelf>(
    alloc: Global,
    names: &[&str],
    shelf: &mut H,
) -> Result<Vec<Vec<u8>>, Stop>
    ensures cause { IfErr result (λ stop. (files : Files) → H.files shelf.old ≡ Some files →
        IsOutside stop ⊎ StopsAtFiles files (map (λ name. name.now) names.now) stop) }
    ensures reading { IfErr result IsOfReading }
    ensures failed { HasCause ReadFault (H.faults shelf.old) (H.faults shelf.new) result }
    ensures missing { CountsAbsence (H.absences shelf.old) (H.absences shelf.new) result }
    ensures files { H.files shelf.new ≡ H.files shelf.old }
    ensures told { IfOk result (λ texts. (files : Files) → H.files shelf.old ≡ Some files →
        AreTold files (map (λ name. name.now) names.now) (map (λ text. text.items) texts.items)) }
    ensures each { IfOk result (λ texts. length texts.items ≡ length names.now) }
{
    let mut texts = Vec::new(alloc);
    for name in names {
        texts.push(fetch(alloc, name, shelf)?)?;
    }
    Ok(texts)
}

/// What a project says.
#[derive(Drop)]
pub struct Project {
    pub development: Development,
    /// The scripts of its proof files; none where these were not fetched.
    pub scripts: Scripts,
}

/// Reads a project: its file, the component files that it names, and with proofs also the proof files.
pub fn read_project<H: Shelf>(
    alloc: Global,
    name: &str,
    with_proofs: bool,
    shelf: &mut H,
) -> Result<Project, Stop>
    ensures cause { IfErr result (λ stop. (files : Files) → H.files shelf.old ≡ Some files →
        IsOutside stop ⊎ StopsAtProject with_proofs files name.now stop) }
    ensures reading { IfErr result IsOfReading }
    ensures failed { HasCause ReadFault (H.faults shelf.old) (H.faults shelf.new) result }
    ensures missing { CountsAbsence (H.absences shelf.old) (H.absences shelf.new) result }
    ensures files { H.files shelf.new ≡ H.files shelf.old }
    ensures told { IfOk result (λ p. (files : Files) → H.files shelf.old ≡ Some files →
        ReadsProject with_proofs files name.now p.development p.scripts) }
    ensures executable { IfOk result (λ p. is_complete p.development ≡ true → IsB0Development p.development) }
{
    let lines = read_lines(alloc, name, shelf)?;
    let components = names(alloc, &lines, false)?;
    let proofs = proof_names(alloc, &lines, with_proofs)?;
    let texts = fetch_all(alloc, &components, shelf)?;
    let proof_texts = fetch_all(alloc, &proofs, shelf)?;
    Ok(Project {
        development: read_components(alloc, name, &lines, &components, &texts)?,
        scripts: read_scripts(alloc, &proofs, &proof_texts)?,
    })
}

/// The development that the texts of the component files are read as.
pub fn read_components(
    alloc: Global,
    name: &str,
    lines: &[ProjectLine],
    components: &[&str],
    texts: &[Vec<u8>],
) -> Result<Development, Stop>
    requires lines { AreLines lines.now }
    requires texts { length texts.now ≡ length (component_lines lines.now) }
    ensures cause { IfErr result (λ stop. (refusal : Refusal) ×
        IsRefusalOf lines.now (map (λ text. text.items) texts.now) refusal ×
        (stop ≡ stop_of_refusal refusal name.now (map (λ component. component.now) components.now))) }
    ensures checks { IfErr result IsOfChecks }
    ensures reads { IfOk result (Reads lines.now (map (λ text. text.items) texts.now)) }
    ensures executable { IfOk result (λ dev. is_complete dev ≡ true → IsB0Development dev) }
{
    match project(alloc, lines, texts) {
        Ok(development) => Ok(development),
        Err(refusal) => Err(refused(alloc, refusal, name, components)?),
    }
}

/// The scripts of the proof files.
pub fn read_scripts(alloc: Global, proofs: &[&str], texts: &[Vec<u8>]) -> Result<Scripts, Stop>
    requires countable { length texts.now < 2 ^ 32 }
    ensures cause { IfErr result (λ stop. (fault : ScriptFault) × IsFaultOf (map (λ text. text.items) texts.now) fault ×
        (stop ≡ stop_of_proofs fault (map (λ proof. proof.now) proofs.now))) }
    ensures checks { IfErr result IsOfChecks }
    ensures value { IfOk result (AreScriptsOf (map (λ text. text.items) texts.now)) }
{
    match scripts(alloc, texts) {
        Ok(scripts) => Ok(scripts),
        Err(fault) => Err(faulty(alloc, fault, proofs)?),
    }
}

/// The lines of a project file.
pub fn read_lines<H: Shelf>(
    alloc: Global,
    name: &str,
    shelf: &mut H,
) -> Result<Vec<ProjectLine>, Stop>
    ensures cause { IfErr result (λ stop. (files : Files) (with_proofs : Bool) → H.files shelf.old ≡ Some files →
        IsOutside stop ⊎ StopsAtProject with_proofs files name.now stop) }
    ensures reading { IfErr result IsOfReading }
    ensures failed { HasCause ReadFault (H.faults shelf.old) (H.faults shelf.new) result }
    ensures missing { CountsAbsence (H.absences shelf.old) (H.absences shelf.new) result }
    ensures files { H.files shelf.new ≡ H.files shelf.old }
    ensures told { IfOk result (λ lines. (text : List ℕ) × AreLinesOf text lines.items ×
        ((files : Files) → H.files shelf.old ≡ Some files → IsTold files name.now text)) }
    ensures few { IfOk result (λ lines. length lines.items ≤ MOST_BYTES) }
{
    let text = fetch(alloc, name, shelf)?;
    match lines(alloc, &text) {
        Ok(lines) => Ok(lines),
        Err(refusal) => Err(refused(alloc, refusal, name, &[])?),
    }
}

/// The names of the component files, or of the proof files, in order.
#[tactic(auto, using(crate::proofs::Projects::file_kept, crate::proofs::Projects::file_passed))]
pub fn names<'a>(
    alloc: Global,
    lines: &'a [ProjectLine],
    of_proofs: bool,
) -> Result<Vec<&'a str>, Stop>
    requires { All (λ line. IsFileName line.name) lines.now }
    ensures memory { IfErr result (λ stop. stop ≡ Memory) }
    ensures ok { IfOk result (λ names. map (λ name. name.now) names.items ≡ files_of of_proofs lines.now) }
{
    let mut names = Vec::new(alloc);
    for line in lines {
        if names_file(line.kind, of_proofs) {
            names.push(file_name(&line.name))?;
        }
    }
    Ok(names)
}

// Whether such a line names a component file, or a proof file.
fn names_file(kind: LineKind, of_proofs: bool) -> bool
    ensures { result ≡ cond of_proofs (is_proofs kind) (is_component kind) }
{
    if of_proofs {
        kind == LineKind::Proofs
    } else {
        kind.is_component()
    }
}

/// The names of the proof files, in order, where they are wanted.
pub fn proof_names<'a>(
    alloc: Global,
    lines: &'a [ProjectLine],
    wanted: bool,
) -> Result<Vec<&'a str>, Stop>
    requires { All (λ line. IsFileName line.name) lines.now }
    ensures memory { IfErr result (λ stop. stop ≡ Memory) }
    ensures ok { IfOk result (λ names. map (λ name. name.now) names.items ≡ fetched wanted (files_of true lines.now)) }
{
    if wanted {
        names(alloc, lines, true)
    } else {
        Ok(Vec::new(alloc))
    }
}

// The name of a file that a project line names.
fn file_name(name: &Text) -> &str
    requires { IsFileName name.now }
    ensures { result.now ≡ name.now }
{
    match str::from_utf8(name.as_bytes()) {
        Ok(name) => name,
        Err(_) => "",
    }
}

/// The stop at a file of the project: the project file itself, or that of a component.
pub fn refused(
    alloc: Global,
    refusal: Refusal,
    project: &str,
    components: &[&str],
) -> Result<Stop, Stop>
    ensures memory { IfErr result (λ stop. stop ≡ Memory) }
    ensures checks { IfOk result IsOfChecks }
    ensures told { IfOk result (λ stop.
        stop ≡ stop_of_refusal refusal project.now (map (λ name. name.now) components.now)) }
{
    match refusal {
        Refusal::Fault {
            number,
            file,
            place,
        } => {
            let name = name_of(file, project, components);
            Ok(Stop::Refused(number, place, owned(alloc, name)?))
        }
        Refusal::Limit { number, file } => {
            let name = name_of(file, project, components);
            Ok(Stop::Limit(number, owned(alloc, name)?))
        }
        Refusal::Memory => Ok(Stop::Memory),
    }
}

// The name of the file with this number: 0 for the project file.
fn name_of<'a>(file: u32, project: &'a str, components: &[&'a str]) -> &'a str
    ensures { result.now ≡ name_of file project.now (map (λ name. name.now) components.now) }
{
    match file {
        0 => project,
        _ => name_at(components, file - 1),
    }
}

// The name with this number, from 0.
fn name_at<'a>(names: &[&'a str], number: u32) -> &'a str
    ensures { result.now ≡ name_at (map (λ name. name.now) names.now) number }
{
    match names.get(number as usize) {
        Some(name) => name,
        None => "",
    }
}

// The stop at a proof file.
fn faulty(alloc: Global, fault: ScriptFault, proofs: &[&str]) -> Result<Stop, Stop>
    ensures memory { IfErr result (λ stop. stop ≡ Memory) }
    ensures checks { IfOk result IsOfChecks }
    ensures told { IfOk result (λ stop. stop ≡ stop_of_proofs fault (map (λ name. name.now) proofs.now)) }
{
    match fault {
        ScriptFault::Fault {
            number,
            file,
            place,
        } => {
            let proof = name_at(proofs, file);
            Ok(Stop::Refused(number, place, owned(alloc, proof)?))
        }
        ScriptFault::Limit { number, file } => {
            let proof = name_at(proofs, file);
            Ok(Stop::Limit(number, owned(alloc, proof)?))
        }
        ScriptFault::Memory => Ok(Stop::Memory),
    }
}

/// The name as a text of its own.
pub fn owned(alloc: Global, name: &str) -> Result<Text, Stop>
    ensures memory { IfErr result (λ stop. stop ≡ Memory) }
    ensures ok { IfOk result (λ text. text ≡ name.now) }
{
    Ok(Text::from_bytes(Vec::from_slice(alloc, name.as_bytes())?))
}
