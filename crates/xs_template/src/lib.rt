//! Templates of XCSP3-core, and the constraints that they make: texts cut at their gaps, gaps filled by words, and the
//! windows of a list.
//!
//! It stands on `xf_markup`, `xs_model`, `xs_fields` and `xs_var`. `specs/Template.antt` says what a text of a template
//! is: bytes that stay, and gaps `%i` and `%...`; each is filled once, and what is filled in is not looked at again.
//! `specs/Concrete.antt` says which constraint an element stands for, its texts changed; `specs/Windows.antt` where a
//! slide begins its windows, and what stands in each. Each function answers exactly that, or want of memory. A place
//! is told within the limit on words, so that it is small however many digits it has; by the law of `alike_places`
//! nobody can tell (`specs/Alike.antt`).
#![tactic(auto)]

mod concrete;
mod cutting;
mod filling;
mod law;
mod template;
#[cfg(test)]
mod tests;
mod windows;

pub use concrete::concrete_of;
pub use cutting::{Gap, Spot, Spots, asked_by, cut_text};
pub use filling::fill;
pub use law::alike_places;
pub use template::{
    ByWindow, ByWords, Fill, Pattern, Patterns, Template, made_from, template_asks, template_of,
    template_open,
};
pub use windows::{fill_window, next_start, room};
