ghost use Rattle.std.specs.Prelude.{◌≡◌, ◌&&◌, Bool};
ghost use Rattle.xs_fields.specs.Conditions.{earlier_of, first_missed, kind_of, rank};
ghost use Rattle.xs_fields.specs.declared.condition.Condition.{Condition};

use xf_text::Kind;

/// The conditions on a unit of an instance, in the order in which they are asked. The fault of a unit is that of
/// the first condition that it misses.
#[derive(Clone, Copy, Debug, PartialEq, Eq)]
pub enum Condition {
    /// Its elements, attributes and their words are known (F3).
    Known,
    /// No more than 200 `(` are open at once (F7).
    Nesting,
    /// Its children are those asked, and each text is spelt right (F4).
    Spelling,
    /// Each integer has magnitude at most 2^126 - 1 (F10).
    Magnitude,
    /// Each name is declared, brackets and cells are right (F5).
    Naming,
    /// The counts are within the limits (F6).
    Counting,
    /// Lengths and sizes fit (F4).
    Fitting,
}

impl Condition {
    /// The kind of fault of a unit that misses this condition first.
    pub fn kind(self) -> Kind
        ensures { result ≡ kind_of self }
    {
        match self {
            Condition::Known => Kind::Unknown,
            Condition::Nesting => Kind::Depth,
            Condition::Spelling => Kind::Shape,
            Condition::Magnitude => Kind::Range,
            Condition::Naming => Kind::Name,
            Condition::Counting => Kind::Many,
            Condition::Fitting => Kind::Shape,
        }
    }

    fn rank(self) -> u8
        ensures { result ≡ rank self }
    {
        match self {
            Condition::Known => 1,
            Condition::Nesting => 2,
            Condition::Spelling => 3,
            Condition::Magnitude => 4,
            Condition::Naming => 5,
            Condition::Counting => 6,
            Condition::Fitting => 7,
        }
    }
}

/// The one of two missed conditions that is asked first: what a unit misses first, of which these are what two
/// parts of it miss first.
pub fn earlier(a: Option<Condition>, b: Option<Condition>) -> Option<Condition>
    ensures value { result ≡ earlier_of a b }
    ensures joins { (t u : Condition → Bool) → a ≡ first_missed t → b ≡ first_missed u → result ≡ first_missed (λ k. t k && u k) }
{
    match (a, b) {
        (None, other) => other,
        (missed, None) => missed,
        (Some(j), Some(k)) => {
            if j.rank() <= k.rank() {
                Some(j)
            } else {
                Some(k)
            }
        }
    }
}
