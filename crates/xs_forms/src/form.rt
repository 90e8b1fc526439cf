//! The forms of constraints: one table.

ghost use Rattle.std.specs.Prelude.{◌≡◌, Some, IfSome};
ghost use Rattle.xs_forms.specs.Forms.{form_name, form_of, look_up};
ghost use Rattle.xs_forms.specs.declared.form.Form.{Form};

use xs_model::Constraint;

/// A form of constraint, by the element that it is written as (XCSP3-core, "Constraints").
#[derive(Clone, Copy, Debug, PartialEq, Eq)]
pub enum Form {
    Intension,
    Extension,
    Regular,
    Mdd,
    AllDifferent,
    AllEqual,
    Ordered,
    Lex,
    Sum,
    Count,
    NValues,
    Cardinality,
    Minimum,
    Maximum,
    Element,
    Channel,
    NoOverlap,
    Cumulative,
    Circuit,
    Instantiation,
}

/// The table: for each form, in the order of the standard, its name, the crate that reads and writes it, and the
/// variants of its constraints. `form_rows!(what value)` expands to `what!(value; rows)`.
#[macro_export]
macro_rules! form_rows {
    ($rows:ident $value:tt) => {
        $rows!(
            $value;
            Intension b"intension" xs_relate [Intension],
            Extension b"extension" xs_language [Extension Unary],
            Regular b"regular" xs_language [Regular],
            Mdd b"mdd" xs_language [Mdd],
            AllDifferent b"allDifferent" xs_relate [AllDifferent DifferentLists DifferentMatrix],
            AllEqual b"allEqual" xs_relate [AllEqual],
            Ordered b"ordered" xs_relate [Ordered],
            Lex b"lex" xs_relate [Lex LexMatrix],
            Sum b"sum" xs_counting [Sum],
            Count b"count" xs_counting [Count],
            NValues b"nValues" xs_counting [NValues],
            Cardinality b"cardinality" xs_counting [Cardinality],
            Minimum b"minimum" xs_counting [Minimum],
            Maximum b"maximum" xs_counting [Maximum],
            Element b"element" xs_counting [Element ElementMatrix],
            Channel b"channel" xs_counting [Channel ChannelTwo ChannelValue],
            NoOverlap b"noOverlap" xs_schedule [NoOverlap],
            Cumulative b"cumulative" xs_schedule [Cumulative],
            Circuit b"circuit" xs_schedule [Circuit],
            Instantiation b"instantiation" xs_relate [Instantiation],
        )
    };
}

macro_rules! names {
    ($value:expr; $($form:ident $name:literal $family:ident [$($variant:ident)+],)*) => {
        match $value {
            $(Form::$form => $name,)*
        }
    };
}

macro_rules! listed {
    ($value:expr; $($form:ident $name:literal $family:ident [$($variant:ident)+],)*) => {
        [$(Form::$form,)*]
    };
}

macro_rules! of_variants {
    ($value:expr; $($form:ident $name:literal $family:ident [$($variant:ident)+],)*) => {
        match $value {
            $($(Constraint::$variant { .. } => Form::$form,)+)*
        }
    };
}

const ALL: [Form; 20] = form_rows!(listed());

impl Form {
    /// The name of the form's element.
    pub fn name(self) -> &'static [u8]
        ensures { result.now ≡ form_name self }
    {
        form_rows!(names self)
    }

    /// The form with this name, if there is one.
    pub fn from_name(name: &[u8]) -> Option<Form>
        ensures named { IfSome result (λ f. form_name f ≡ name.now) }
        ensures every { (f : Form) → form_name f ≡ name.now → result ≡ Some f }
    {
        find(&ALL, name)
    }

    /// The form of a constraint.
    pub fn of(constraint: &Constraint) -> Form
        ensures { result ≡ form_of constraint.now }
    {
        form_rows!(of_variants constraint)
    }
}

/// The first of these with that name.
fn find(all: &[Form], name: &[u8]) -> Option<Form>
    ensures { result ≡ look_up all.now name.now }
{
    for form in all {
        if form.name() == name {
            return Some(*form);
        }
    }
    None
}
