//! What a report has.

ghost use Rattle.std.specs.Prelude.{◌≡◌, map, IfOk};
ghost use Rattle.bk_evidence.specs.Items.{parts_of, parts_of_file};

use crate::claim::Claims;
use crate::item::Item;
use bk_io::{Memory, Text};
use sha2::{Digest, Sha256};
use std::alloc::Global;

/// A file that was read: its name, its length in bytes, and its SHA-256 (FIPS 180-4) in hexadecimal digits.
#[derive(Drop)]
pub struct Input {
    pub name: Text,
    pub length: usize,
    pub digest: String,
}

/// What a report has.
#[derive(Drop)]
pub struct Report {
    /// The program's version, and the toolchain that proved it.
    pub version: &'static str,
    pub toolchain: &'static str,
    /// What it claims, and what it does not.
    pub claims: Claims,
    /// The name of the development's machine.
    pub machine: Text,
    /// Its project file first, then its components and proof files in their order.
    pub inputs: Vec<Input>,
    pub items: Vec<Item>,
    /// The scripts that belong to no obligation.
    pub strays: Vec<Stray>,
}

/// A script that belongs to no obligation.
#[derive(Drop)]
pub struct Stray {
    pub name: Text,
    /// The obligation's name that is most like it; None where there is no obligation.
    pub nearest: Option<Text>,
}

/// A file as it was read.
#[derive(Clone, Copy)]
pub struct File<'a> {
    pub name: &'a [u8],
    pub text: &'a [u8],
}

/// What a report has of the files that were read, in their order.
pub fn inputs(alloc: Global, files: &[File<'_>]) -> Result<Vec<Input>, Memory>
    ensures { IfOk result (λ all. map parts_of all.items ≡ map parts_of_file files.now) }
{
    let mut all = Vec::new(alloc);
    for file in files {
        all.push(input_of(alloc, file)?)?;
    }
    Ok(all)
}

// What it has of a file.
fn input_of(alloc: Global, file: &File<'_>) -> Result<Input, Memory>
    ensures { IfOk result (λ i. parts_of i ≡ parts_of_file file.now) }
{
    let digest = Sha256::digest(file.text);
    Ok(Input {
        name: Text::from_bytes(Vec::from_slice(alloc, file.name)?),
        length: file.text.len(),
        digest: hex::encode(alloc, digest.as_slice())?,
    })
}
