//! The parts of a page of HTML that are the same in each.

/// The begin of the page, up to its title.
pub(crate) const HEAD: &str =
    "<!DOCTYPE html>\n<html lang=\"en\">\n<head>\n<meta charset=\"utf-8\">\n<meta name=\"viewport\" content=\"width=device-width, initial-scale=1\">\n<title>Status of ";

/// After the title: how the page is laid out, on a screen and on paper.
pub(crate) const STYLE: &str = "</title>\n<style>
body { font: 16px/1.45 system-ui, sans-serif; margin: 2rem auto; max-width: 72rem; padding: 0 1rem; color: #1a1a1a; background: #fff; }
h1 { font-size: 1.6rem; margin-bottom: 0.2rem; }
h2 { font-size: 1.2rem; margin-top: 2rem; }
table { border-collapse: collapse; width: 100%; font-size: 0.9rem; }
th, td { text-align: left; vertical-align: top; padding: 0.35rem 0.9rem 0.35rem 0; border-bottom: 1px solid #d8d8d8; }
th { border-bottom: 2px solid #666; }
table:first-of-type { width: auto; }
table:first-of-type :is(th, td):not(:first-child) { text-align: right; padding-left: 1rem; }
th:first-child:nth-last-child(4) { width: 22%; }
th:nth-child(3):nth-last-child(2) { width: 15%; }
th:nth-child(4):last-child { width: 18%; }
code, pre { font-family: ui-monospace, monospace; font-size: 0.85rem; }
pre { white-space: pre-wrap; overflow-wrap: anywhere; background: #f5f5f2; padding: 0.6rem; margin: 0.4rem 0; }
tr:has(+ .shown) td { border-bottom: 0; }
.shown td { padding-top: 0; }
.open { color: #8c1d18; font-weight: 600; }
.open code { font-weight: 400; }
.settled { color: #1d5c2e; }
.sums { display: flex; flex-wrap: wrap; gap: 1.5rem; padding: 0; list-style: none; }
.sums b { display: block; font-size: 1.5rem; }
@media (max-width: 40rem) {
table:not(:first-of-type) :is(thead, th) { display: none; }
table:not(:first-of-type) :is(tbody, tr, td) { display: block; border: 0; padding: 0.1rem 0; overflow-wrap: anywhere; }
table:not(:first-of-type) tr { border-bottom: 1px solid #d8d8d8; padding: 0.5rem 0; }
table:not(:first-of-type) tr:has(+ .shown) { border-bottom: 0; padding-bottom: 0; }
}
@media print {
body { margin: 0; max-width: none; font-size: 10pt; }
tr, p { break-inside: avoid; }
.shown { break-before: avoid; break-inside: auto; }
h2 { break-after: avoid; }
details::details-content { content-visibility: visible; }
summary { display: none; }
}
</style>\n</head>\n<body>\n";

/// The end of the page.
pub(crate) const FOOT: &str = "</body>\n</html>\n";
