//! What is read, told on standard error while work goes on.

use bk_io::{Fetch, Shelf};

/// A shelf that tells the name of each file before it fetches it, where somebody sees it.
#[derive(Drop)]
pub(crate) struct NotedShelf<'a, H, P> {
    shelf: H,
    notes: &'a P,
    is_seen: bool,
}

impl<'a, H, P> NotedShelf<'a, H, P> {
    pub(crate) fn new(shelf: H, notes: &'a P, is_seen: bool) -> Self {
        NotedShelf {
            shelf,
            notes,
            is_seen,
        }
    }
}

impl<H: Shelf, P: Eprint> Shelf for NotedShelf<'_, H, P> {
    ghost files = { λ s. H.files s.shelf };

    ghost faults = { λ s. H.faults s.shelf };

    ghost absences = { λ s. H.absences s.shelf };

    fn fetch(&mut self, name: &str, max: usize, into: &mut Vec<u8>) -> Result<(), Fetch> {
        if self.is_seen {
            note(self.notes, name);
        }
        self.shelf.fetch(name, max, into)
    }
}

// What is told may be lost.
fn note<P: Eprint>(notes: &P, name: &str) {
    let _ = notes.eprintln(name);
}
