ghost use Rattle.std.specs.Prelude.{◌≡◌, IfOk};
ghost use Rattle.xf_markup.specs.Tag.{are_distinct};

use crate::tree::Attr;
use std::alloc::Global;
use std::collections::BTreeSet;
use xf_num::NoMemory;

/// Whether no name is repeated.
pub fn are_distinct(alloc: Global, attrs: &[Attr]) -> Result<bool, NoMemory>
    ensures { IfOk result (λ distinct. distinct ≡ are_distinct attrs.now) }
{
    let mut names = BTreeSet::new(alloc);
    for attr in attrs {
        let is_new = names.insert(attr.name.as_slice())?;
        if !is_new {
            return Ok(false);
        }
    }
    Ok(true)
}
