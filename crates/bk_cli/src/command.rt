//! What the words ask for: a verb with its files.

ghost use Rattle.std.specs.Prelude.{◌≡◌, ◌≤◌, ◌<◌, ◌^◌, ℕ, [], ◌∷◌, decimal, IfSome, MatchOption, codes};
ghost use Rattle.clap.specs.Walk.{texts};
ghost use Rattle.bk_cli.specs.Tasks.{Task, most_fuel, IsFuel, IsTaskOf};
ghost use Rattle.bk_cli.specs.Asked.{task_of, HasSmallNumbers};

use crate::words::Words;
use bk_limits::{MOST_FUEL, MOST_SAMPLE_VARIABLES};
use itoa::Buffer;

/// What the program does, a variant a verb. Files are named as the words name them; `fuel` is how many steps the
/// initialisation and each call may have.
#[derive(Clone, Copy)]
pub enum Command<'a> {
    Check {
        project: &'a str,
    },
    Status {
        project: &'a str,
    },
    /// `po`.
    Obligations {
        project: &'a str,
    },
    Find {
        project: &'a str,
    },
    Code {
        project: &'a str,
    },
    Build {
        project: &'a str,
    },
    Run {
        project: &'a str,
        calls: &'a str,
        fuel: u64,
    },
    Exec {
        image: &'a str,
        calls: &'a str,
        fuel: u64,
    },
    /// With so many variables.
    Sample {
        variables: u32,
    },
}

/// The command that the words ask for, unless what stands after `--fuel` is no number of steps, the verb is none of the
/// table, or it has too few files or too many.
pub(crate) fn command_of<'a>(words: &Words<'a>) -> Option<Command<'a>>
    ensures meant { MatchOption result
        ((fuel : ℕ) (task : Task) → IsFuel words.now.fuel.now fuel →
        IsTaskOf words.now.verb.now (texts words.now.files.items) fuel task → ⊥)
        (λ command. (fuel : ℕ) × IsFuel words.now.fuel.now fuel ×
        IsTaskOf words.now.verb.now (texts words.now.files.items) fuel (task_of command)) }
    ensures small { IfSome result HasSmallNumbers }
{
    let fuel = fuel_of(words.fuel)?;
    match words.files.as_slice() {
        [project] => of_project(words.verb, *project),
        [file, calls] => of_calls(words.verb, *file, *calls, fuel),
        _ => None,
    }
}

// What a verb with a project, or with the size of a sample, asks for.
fn of_project<'a>(verb: &str, project: &'a str) -> Option<Command<'a>>
    ensures meant { (fuel : ℕ) → MatchOption result
        ((task : Task) → IsTaskOf verb.now (project.now ∷ []) fuel task → ⊥)
        (λ command. IsTaskOf verb.now (project.now ∷ []) fuel (task_of command)) }
    ensures small { IfSome result HasSmallNumbers }
{
    match verb {
        "check" => Some(Command::Check { project }),
        "status" => Some(Command::Status { project }),
        "po" => Some(Command::Obligations { project }),
        "find" => Some(Command::Find { project }),
        "code" => Some(Command::Code { project }),
        "build" => Some(Command::Build { project }),
        "sample" => of_sample(project),
        _ => None,
    }
}

// The sample of that size.
fn of_sample<'a>(size: &str) -> Option<Command<'a>>
    ensures meant { (fuel : ℕ) → MatchOption result
        ((task : Task) → IsTaskOf (codes "sample") (size.now ∷ []) fuel task → ⊥)
        (λ command. IsTaskOf (codes "sample") (size.now ∷ []) fuel (task_of command)) }
    ensures small { IfSome result HasSmallNumbers }
{
    let variables = number_of(size)?;
    if variables == 0 || variables > MOST_SAMPLE_VARIABLES {
        return None;
    }
    Some(Command::Sample {
        variables: variables as u32,
    })
}

// What a verb with a project or an image, and with a call script, asks for.
fn of_calls<'a>(verb: &str, file: &'a str, calls: &'a str, fuel: u64) -> Option<Command<'a>>
    ensures meant { MatchOption result
        ((task : Task) → IsTaskOf verb.now (file.now ∷ calls.now ∷ []) fuel task → ⊥)
        (λ command. IsTaskOf verb.now (file.now ∷ calls.now ∷ []) fuel (task_of command)) }
    ensures small { fuel ≤ most_fuel → IfSome result HasSmallNumbers }
{
    match verb {
        "run" => Some(Command::Run {
            project: file,
            calls,
            fuel,
        }),
        "exec" => Some(Command::Exec {
            image: file,
            calls,
            fuel,
        }),
        _ => None,
    }
}

// The number of steps that the text is, in decimal digits without a sign or a leading zero.
fn fuel_of(text: &str) -> Option<u64>
    ensures { MatchOption result ((fuel : ℕ) → IsFuel text.now fuel → ⊥) (IsFuel text.now) }
{
    let fuel = number_of(text)?;
    if fuel == 0 || fuel > MOST_FUEL {
        return None;
    }
    Some(fuel)
}

// The number that the text is, in decimal digits without a sign or a leading zero.
fn number_of(text: &str) -> Option<u64>
    ensures { MatchOption result ((n : ℕ) → n < 2 ^ 64 → text.now ≡ decimal n → ⊥) (λ n. text.now ≡ decimal n) }
{
    match text.parse::<u64>() {
        Ok(n) => {
            if Buffer::new().format(n) == text {
                Some(n)
            } else {
                None
            }
        }
        Err(_) => None,
    }
}
