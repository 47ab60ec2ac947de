//! What a command line asks to be told of what a run covered.

use crate::mistake::Mistake;
use crate::views::coverage_form;
use clap::ArgMatches;
use std::alloc::Global;
use view_coverage::Form;

/// What a run covered, and the file into which it goes.
#[derive(Drop)]
pub struct CoverageFile {
    pub name: String,
    pub form: Form,
}

/// The file of what a run covered, if one is asked for.
pub fn coverage_file(alloc: Global, run: &ArgMatches<'_>) -> Result<Option<CoverageFile>, Mistake> {
    let Some(name) = run.get_str("coverage") else {
        return Ok(None);
    };
    let form = coverage_form(name).ok_or(Mistake::CoverageEnding)?;
    Ok(Some(CoverageFile {
        name: String::from_str(alloc, name)?,
        form,
    }))
}
