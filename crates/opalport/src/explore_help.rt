//! What `opalport explore --help` says of parts.

/// How a search is run in parts, and how they are joined.
pub(crate) const PARTS: &str = "\
A search in parts: each run with --part K/N runs one of N parts of the lists, and prints rows for
the run that joins them. With a search of the same words:
  opalport explore --part 1/2 < SCRIPT > 1.tsv
  opalport explore --part 2/2 < SCRIPT > 2.tsv
  opalport explore --merge 1.tsv 2.tsv
prints what one run without --part prints whose --limit leaves no list out. A part leaves none out:
where lists of one length reach --limit, it ends with status 2.

Status: 0 done, 1 what --find looks for is not found (a part does not tell), 2 bad usage, an opening
or a letter that is wrong, a file that is no part of the search, or an error";
