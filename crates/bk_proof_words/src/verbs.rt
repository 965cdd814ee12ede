//! The task of a verb, its files and its options.

ghost use Rattle.std.specs.Prelude.{◌≡◌, ◌<◌, ◌^◌, ℕ, true, false, Option, None, [], ◌∷◌, option_map, decimal, MatchBool, MatchOption, codes};
ghost use Rattle.clap.specs.Walk.{texts};
ghost use Rattle.bk_proof_words.specs.Tasks.{IsPlace, IsVerbTask, chosen_by, is_html, is_json};
ghost use Rattle.bk_proof_words.specs.declared.task.ReportForm.{ReportForm};
ghost use Rattle.bk_proof_words.specs.declared.task.Task.{Task};

use crate::task::{ReportForm, Task};
use itoa::Buffer;

/// The options after a verb: the text after `--at`, and which of the others are there.
#[derive(Clone, Copy)]
pub(crate) struct Options<'a> {
    pub(crate) at: Option<&'a str>,
    pub(crate) has_open: bool,
    pub(crate) has_json: bool,
    pub(crate) has_html: bool,
    pub(crate) has_image: bool,
}

/// The task of a verb, unless the verb is none of the table, or it has too few files or too many, or an option that is none of it, or no
/// number after `--at`.
pub(crate) fn verb_task<'a>(
    verb: &str,
    files: &[&'a str],
    options: &Options<'_>,
) -> Option<Task<'a>>
    ensures { MatchOption result
        ((task : Task) → IsVerbTask verb.now (texts files.now) (chosen_by options.now) task → ⊥)
        (IsVerbTask verb.now (texts files.now) (chosen_by options.now)) }
{
    match files {
        [file] => of_one(verb, *file, options),
        [file, other] => of_two(verb, *file, *other, options),
        _ => None,
    }
}

// What a verb with one file asks for.
fn of_one<'a>(verb: &str, file: &'a str, options: &Options<'_>) -> Option<Task<'a>>
    ensures { MatchOption result
        ((task : Task) → IsVerbTask verb.now (file.now ∷ []) (chosen_by options.now) task → ⊥)
        (IsVerbTask verb.now (file.now ∷ []) (chosen_by options.now)) }
{
    match verb {
        "list" => list_task(file, options),
        "explain" => explained_project(file, options),
        "report" => report_task(file, options),
        _ => None,
    }
}

// What a verb with two files asks for.
fn of_two<'a>(verb: &str, file: &'a str, other: &'a str, options: &Options<'_>) -> Option<Task<'a>>
    ensures { MatchOption result
        ((task : Task) → IsVerbTask verb.now (file.now ∷ other.now ∷ []) (chosen_by options.now) task → ⊥)
        (IsVerbTask verb.now (file.now ∷ other.now ∷ []) (chosen_by options.now)) }
{
    match verb {
        "goal" => goal_task(file, other, options),
        "explain" => explained_calls(file, other, options),
        "prune" => prune_task(file, other, options),
        _ => None,
    }
}

// `list PROJECT [--open] [--json]`.
fn list_task<'a>(project: &'a str, options: &Options<'_>) -> Option<Task<'a>>
    ensures { MatchOption result
        ((task : Task) → IsVerbTask (codes "list") (project.now ∷ []) (chosen_by options.now) task → ⊥)
        (IsVerbTask (codes "list") (project.now ∷ []) (chosen_by options.now)) }
{
    if has_place(options) || options.has_html || options.has_image {
        return None;
    }
    Some(Task::List {
        project,
        is_open_only: options.has_open,
        as_json: options.has_json,
    })
}

// `explain PROJECT`.
fn explained_project<'a>(project: &'a str, options: &Options<'_>) -> Option<Task<'a>>
    ensures { MatchOption result
        ((task : Task) → IsVerbTask (codes "explain") (project.now ∷ []) (chosen_by options.now) task → ⊥)
        (IsVerbTask (codes "explain") (project.now ∷ []) (chosen_by options.now)) }
{
    if shows_more(options) || options.has_image {
        return None;
    }
    Some(Task::Explain {
        file: project,
        calls: None,
        is_image: false,
    })
}

// `explain PROJECT CALLS`, or `explain IMAGE CALLS --image`.
fn explained_calls<'a>(file: &'a str, calls: &'a str, options: &Options<'_>) -> Option<Task<'a>>
    ensures { MatchOption result
        ((task : Task) → IsVerbTask (codes "explain") (file.now ∷ calls.now ∷ []) (chosen_by options.now) task → ⊥)
        (IsVerbTask (codes "explain") (file.now ∷ calls.now ∷ []) (chosen_by options.now)) }
{
    if shows_more(options) {
        return None;
    }
    Some(Task::Explain {
        file,
        calls: Some(calls),
        is_image: options.has_image,
    })
}

// `prune PROJECT FILE`.
fn prune_task<'a>(project: &'a str, file: &'a str, options: &Options<'_>) -> Option<Task<'a>>
    ensures { MatchOption result
        ((task : Task) → IsVerbTask (codes "prune") (project.now ∷ file.now ∷ []) (chosen_by options.now) task → ⊥)
        (IsVerbTask (codes "prune") (project.now ∷ file.now ∷ []) (chosen_by options.now)) }
{
    if shows_more(options) || options.has_image {
        return None;
    }
    Some(Task::Prune { project, file })
}

// `report PROJECT`, with `--json` or `--html` or neither.
fn report_task<'a>(project: &'a str, options: &Options<'_>) -> Option<Task<'a>>
    ensures { MatchOption result
        ((task : Task) → IsVerbTask (codes "report") (project.now ∷ []) (chosen_by options.now) task → ⊥)
        (IsVerbTask (codes "report") (project.now ∷ []) (chosen_by options.now)) }
{
    if has_place(options) || options.has_open || options.has_image {
        return None;
    }
    let form = form_of(options.has_json, options.has_html)?;
    Some(Task::Report { project, form })
}

// `goal PROJECT NAME [--at N]`.
fn goal_task<'a>(project: &'a str, name: &'a str, options: &Options<'_>) -> Option<Task<'a>>
    ensures { MatchOption result
        ((task : Task) → IsVerbTask (codes "goal") (project.now ∷ name.now ∷ []) (chosen_by options.now) task → ⊥)
        (IsVerbTask (codes "goal") (project.now ∷ name.now ∷ []) (chosen_by options.now)) }
{
    if options.has_open || options.has_json || options.has_html || options.has_image {
        return None;
    }
    let at = place_in(options)?;
    Some(Task::Goal { project, name, at })
}

// Whether there is an option other than `--image`.
fn shows_more(options: &Options<'_>) -> bool
    ensures none { result ≡ false → ((chosen_by options.now).at ≡ None) × (options.now.has_open ≡ false) ×
        (options.now.has_json ≡ false) × (options.now.has_html ≡ false) }
    ensures some { result ≡ true → (chosen_by options.now).at ≡ None → options.now.has_open ≡ false →
        options.now.has_json ≡ false → options.now.has_html ≡ false → ⊥ }
{
    has_place(options) || options.has_open || options.has_json || options.has_html
}

// Whether there is a text after `--at`.
fn has_place(options: &Options<'_>) -> bool
    ensures { MatchBool result ((chosen_by options.now).at ≡ None → ⊥) ((chosen_by options.now).at ≡ None) }
{
    match options.at {
        Some(_) => true,
        None => false,
    }
}

// The number after `--at`, or none where that is not there.
fn place_in(options: &Options<'_>) -> Option<Option<usize>>
    ensures { MatchOption result
        ((place : Option ℕ) → IsPlace (chosen_by options.now).at place → ⊥)
        (IsPlace (chosen_by options.now).at) }
{
    match options.at {
        Some(text) => match number_of(text) {
            Some(number) => Some(Some(number)),
            None => None,
        },
        None => Some(None),
    }
}

// The number that the text is, in decimal digits without a sign or a leading zero.
fn number_of(text: &str) -> Option<usize>
    ensures { MatchOption result ((n : ℕ) → n < 2 ^ 64 → text.now ≡ decimal n → ⊥) (λ n. (n < 2 ^ 64) × (text.now ≡ decimal n)) }
{
    match text.parse::<usize>() {
        Ok(n) => {
            if Buffer::new().format(n) == text {
                Some(n)
            } else {
                None
            }
        }
        Err(_) => None,
    }
}

// The form of a report with these options; both at once are none.
fn form_of(has_json: bool, has_html: bool) -> Option<ReportForm>
    ensures { MatchOption result
        ((form : ReportForm) → has_json ≡ is_json form → has_html ≡ is_html form → ⊥)
        (λ form. (has_json ≡ is_json form) × (has_html ≡ is_html form)) }
{
    if has_json && has_html {
        return None;
    }
    if has_json {
        return Some(ReportForm::Json);
    }
    if has_html {
        return Some(ReportForm::Html);
    }
    Some(ReportForm::Text)
}
