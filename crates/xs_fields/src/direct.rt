//! Direct words, each looked up at once.

ghost use Rattle.std.specs.Prelude.{◌≡◌, ◌∷◌, [], None, IfSome};
ghost use Rattle.xs_fields.specs.Cells.{variable_meets, variables_of};
ghost use Rattle.xs_fields.specs.Conditions.{all_meet, first_missed};
ghost use Rattle.xs_fields.specs.Sizes.{brackets_of, size_meets};

use crate::words::cut;
use xs_model::Names;

/// The variable of a direct word that misses nothing: it is the one that the word denotes in a list too, and an integer
/// stands in each of its brackets. None says nothing of the word.
pub fn direct_variable(names: &Names, word: &[u8]) -> Option<u32>
    ensures missed { IfSome result (λ _. first_missed (variable_meets names.now word.now) ≡ None) }
    ensures value { IfSome result (λ k. variables_of names.now word.now ≡ k ∷ []) }
    ensures indices { IfSome result (λ _. first_missed (all_meet size_meets (brackets_of word.now)) ≡ None) }
{
    let (name, _) = cut(word, b'[');
    match names.position(name) {
        Some(at) => {
            let _sizes = names.sizes(at);
            names.find(word)
        }
        None => None,
    }
}
