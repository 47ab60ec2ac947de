//! A text around one of its places, and what is said of it: the line as a message shows it, the words before and after,
//! and the message itself.
//!
//! `Excerpt::at` gives the line in which a place lies, parted there. `push_rows` writes its two rows: the line with its
//! number, cut to a window around the place, and under it the carets. `earlier_word` and `earlier_place` give the
//! excerpt of another place, if it comes before the first one. Contracts say exactly what these give. `Around` has the
//! words around a place, `opening_of` finds the name that an `end..` word has to repeat, and `unclosed_before` what is
//! still open at a place. No contract says which words they find.
//!
//! An `Explanation` is a message: the `Advice`, which says what is wrong, the excerpt of its place, and another place if
//! there is one. Contracts say which text it has in a file (`Origin`), and what `push_more` says of messages that aren't
//! shown. `Nearest` finds the name that is nearest to a word.

mod advice;
mod around;
mod byte;
mod earlier;
mod excerpt;
mod explanation;
mod line;
mod marked;
mod more;
mod nearest;
mod offset;
mod opening;
mod origin;
mod rows;
mod unclosed;
mod width;
mod words;

pub use advice::Advice;
pub use around::Around;
pub use earlier::{earlier_place, earlier_word};
pub use excerpt::Excerpt;
pub use explanation::{Explanation, Other};
pub use marked::{about_marked, marked_word};
pub use more::push_more;
pub use nearest::{Nearest, lowered};
pub use opening::opening_of;
pub use origin::Origin;
pub use rows::{push_line_end, push_rows};
pub use unclosed::unclosed_before;
pub use words::{is_number, mark_of, name_of};
