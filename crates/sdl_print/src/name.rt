//! Names and numbers.

ghost use Rattle.std.specs.Prelude.{option_map};
ghost use Rattle.sdl_tree.specs.Canonical.{name_words, number_words, optional};
ghost use Rattle.sdl_tree.specs.Erased.{erased_name, erased_sort, erased_number};
ghost use Rattle.sdl_tree.specs.Views.{name_value, sort_value, number_value};
ghost use Rattle.sdl_print.specs.Form.{written_as};

use crate::canonical::Canonical;
use crate::text::Text;
use sdl_tree::{Name, Number, SortName};
use std::alloc::AllocError;

/// `NAME`, as it is spelled
impl Canonical for Name {
    ghost form = { written_as name_value erased_name name_words };

    fn write(&self, text: &mut Text) -> Result<(), AllocError> {
        text.word(self.text.as_str())
    }
}

/// `PId` is written `Pid`.
impl Canonical for SortName {
    ghost form = { written_as sort_value erased_sort name_words };

    fn write(&self, text: &mut Text) -> Result<(), AllocError> {
        text.word(self.text())
    }
}

/// A variable in an input, where a value is kept.
impl Canonical for Option<Name> {
    ghost form = { written_as (option_map name_value) (option_map erased_name) (optional name_words) };

    fn write(&self, text: &mut Text) -> Result<(), AllocError> {
        match self {
            None => Ok(()),
            Some(variable) => variable.write(text),
        }
    }
}

/// In decimal, by its value.
impl Canonical for Number {
    ghost form = { written_as number_value erased_number number_words };

    fn write(&self, text: &mut Text) -> Result<(), AllocError> {
        text.number(self.value)?;
        Ok(())
    }
}
