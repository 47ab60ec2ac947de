//! Processes.

ghost use Rattle.sdl_tree.specs.Canonical.{bound_words, counts_words, parameters_words, fpar_words, process_words};
ghost use Rattle.sdl_tree.specs.Erased.{erased_bound, erased_counts, erased_parameters, erased_fpar, erased_process};
ghost use Rattle.sdl_tree.specs.Views.{bound_value, counts_value, parameters_value, fpar_value, process_value};
ghost use Rattle.sdl_print.specs.Form.{written_as};

use crate::canonical::{Canonical, optional, repeated, separated};
use crate::text::Text;
use sdl_tree::{Bound, Counts, FormalParameters, Mark, ParameterGroup, ProcessDefinition};
use std::alloc::AllocError;

/// `"process" NAME [counts] ";" [fpar] {pdef} start {state | connection} "endprocess" NAME ";"`
impl Canonical for ProcessDefinition {
    ghost form = { written_as process_value erased_process process_words };

    fn write(&self, text: &mut Text) -> Result<(), AllocError> {
        text.mark(Mark::Process)?;
        self.name.write(text)?;
        optional(text, &self.counts)?;
        text.mark(Mark::Semicolon)?;
        optional(text, &self.parameters)?;
        repeated(text, &self.definitions)?;
        self.start.write(text)?;
        repeated(text, &self.body)?;
        text.mark(Mark::EndProcess)?;
        self.name.write(text)?;
        text.mark(Mark::Semicolon)
    }
}

/// `"(" [expr] ["," [expr]] ")"`: how many instances a process has, with the parts that stand.
impl Canonical for Counts {
    ghost form = { written_as counts_value erased_counts counts_words };

    fn write(&self, text: &mut Text) -> Result<(), AllocError> {
        text.mark(Mark::Open)?;
        optional(text, &self.initial)?;
        optional(text, &self.bound)?;
        text.mark(Mark::Close)
    }
}

/// `"," [expr]`
impl Canonical for Bound {
    ghost form = { written_as bound_value erased_bound bound_words };

    fn write(&self, text: &mut Text) -> Result<(), AllocError> {
        text.mark(Mark::Comma)?;
        optional(text, &self.maximum)
    }
}

/// `"fpar" vars {"," vars} ";"`
impl Canonical for FormalParameters {
    ghost form = { written_as fpar_value erased_fpar fpar_words };

    fn write(&self, text: &mut Text) -> Result<(), AllocError> {
        text.mark(Mark::Fpar)?;
        separated(text, &self.groups)?;
        text.mark(Mark::Semicolon)
    }
}

/// `NAME {"," NAME} NAME`: formal parameters of one sort.
impl Canonical for ParameterGroup {
    ghost form = { written_as parameters_value erased_parameters parameters_words };

    fn write(&self, text: &mut Text) -> Result<(), AllocError> {
        separated(text, &self.names)?;
        self.sort.write(text)
    }
}
